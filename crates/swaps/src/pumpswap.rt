// PumpSwap. `BUY` is lent in the names.
ghost use Rattle.std.specs.Prelude.{◌≡◌, length};
ghost use Rattle.ids.specs.Keys.{key_of, account};
ghost use Rattle.swaps.specs.PumpSwap.{track_volume, pump_swap, pump_swap_form};

use crate::discriminators::{BUY_EXACT_QUOTE_IN, BUY_EXACT_QUOTE_IN_V2, BUY_V2, SELL, SELL_V2};
use crate::draft::{Form, in_order, pair_of};
use crate::instruction::Instruction;
use crate::{Swap, protocol};

#[tactic(auto, unfolding(crate::specs::Data::is))]
fn form_of(names: &[u8], i: &Instruction) -> Option<Form>
    ensures { result ≡ pump_swap_form names.now i.now.bytes.now }
{
    let (buy, exact) = match i.discriminator()? {
        BUY_EXACT_QUOTE_IN | BUY_EXACT_QUOTE_IN_V2 => (true, true),
        found if found == wire::u64_at(names, 16) => (true, false),
        BUY_V2 => (true, false),
        SELL | SELL_V2 => (false, true),
        _ => return None,
    };
    Some(Form { buy, exact })
}

// A buy's byte 24 is a flag where it is there; a sell's is not looked at.
fn track_volume(i: &Instruction, buy: bool) -> bool
    ensures { result ≡ track_volume i.now.bytes.now buy }
{
    !buy || i.bytes.len() <= 24 || i.flag(24).is_some()
}

// Exactly 17 accounts, or 21 up. The pair goes by the input's key, so equal token accounts flip it.
#[tactic(auto, unfolding(crate::specs::PumpSwap::pump_swap))]
pub fn leg(names: &[u8], i: &Instruction) -> Option<Swap>
    ensures { let a = account (key_of i.now.keys.now) i.now.accounts.now in
        result ≡ pump_swap names.now a (length i.now.accounts.now) i.now.bytes.now }
{
    let n = i.accounts.len();
    if n < 21 && n != 17 {
        return None;
    }
    let Form { buy, exact } = form_of(names, i)?;
    if !track_volume(i, buy) {
        return None;
    }
    let (amount, threshold) = i.numbers(8)?;
    let (input, output) = in_order(buy, 6, 5);
    Some(Swap {
        protocol: protocol::PUMP_SWAP,
        pool: 0,
        trader: 1,
        input,
        output,
        exact,
        amount,
        threshold,
        mode: 0,
        pair: Some(pair_of(i.same_account(input, 6), 4, 3)),
    })
}
