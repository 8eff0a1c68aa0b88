// PumpFun.
ghost use Rattle.std.specs.Prelude.{◌≡◌, length};
ghost use Rattle.ids.specs.Keys.{key_of, account};
ghost use Rattle.swaps.specs.PumpFun.{pump_fun, pump_fun_form, pump_fun_floor, pump_fun_places};

use crate::discriminators::{
    BUY_EXACT_QUOTE_IN_V2, BUY_EXACT_QUOTE_IN_V3, BUY_V2, BUY_V3, SELL_V2, SELL_V3,
};
use crate::draft::{in_order, pair_of};
use crate::instruction::Instruction;
use crate::{Swap, protocol};

// A form of an instruction: whether it is of version 2, whether it buys, and whether it is exact-in.
#[derive(Clone, Copy)]
struct Form {
    v2: bool,
    buy: bool,
    exact: bool,
}

#[tactic(auto, unfolding(crate::specs::Data::is))]
fn form_of(i: &Instruction) -> Option<Form>
    ensures { result ≡ pump_fun_form i.now.bytes.now }
{
    let (v2, buy, exact) = match i.discriminator()? {
        BUY_V2 => (true, true, false),
        BUY_EXACT_QUOTE_IN_V2 => (true, true, true),
        SELL_V2 => (true, false, true),
        BUY_V3 => (false, true, false),
        BUY_EXACT_QUOTE_IN_V3 => (false, true, true),
        SELL_V3 => (false, false, true),
        _ => return None,
    };
    Some(Form { v2, buy, exact })
}

// How many accounts a form needs.
fn floor(v2: bool, buy: bool) -> usize
    ensures { result ≡ pump_fun_floor v2 buy }
{
    match (v2, buy) {
        (true, true) => 27,
        (true, false) => 26,
        (false, _) => 17,
    }
}

// Where the pool, the user and the user's two token accounts stand among the accounts.
#[derive(Clone, Copy)]
struct Places {
    pool: u8,
    user: u8,
    base: u8,
    quote: u8,
}

// They stand elsewhere in version 2 than in version 3.
fn places_of(v2: bool) -> Places
    ensures { result ≡ pump_fun_places v2 }
{
    if v2 {
        Places {
            pool: 10,
            user: 13,
            base: 14,
            quote: 15,
        }
    } else {
        Places {
            pool: 5,
            user: 8,
            base: 9,
            quote: 10,
        }
    }
}

// The money side is the user where the quote mint is wrapped SOL.
#[tactic(auto, unfolding(crate::specs::PumpFun::pump_fun))]
pub fn leg(i: &Instruction) -> Option<Swap>
    ensures { let a = account (key_of i.now.keys.now) i.now.accounts.now in
        result ≡ pump_fun a (length i.now.accounts.now) i.now.bytes.now }
{
    let Form { v2, buy, exact } = form_of(i)?;
    if i.accounts.len() < floor(v2, buy) {
        return None;
    }
    let (amount, threshold) = i.numbers(8)?;
    let places = places_of(v2);
    let money = if ids::is_wrapped_sol(i.account(2)) {
        places.user
    } else {
        places.quote
    };
    let (input, output) = in_order(buy, money, places.base);
    Some(Swap {
        protocol: protocol::PUMP_FUN,
        pool: places.pool,
        trader: places.user,
        input,
        output,
        exact,
        amount,
        threshold,
        mode: 0,
        pair: Some(pair_of(buy, 2, 1)),
    })
}
