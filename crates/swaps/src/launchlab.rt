// Raydium LaunchLab.
ghost use Rattle.std.specs.Prelude.{◌≡◌, length, take, drop};
ghost use Rattle.ids.specs.Keys.{key_of, account};
ghost use Rattle.swaps.specs.LaunchLab.{mode_of, launch_lab, launch_lab_form};

use crate::discriminators::{BUY_EXACT_IN, BUY_EXACT_OUT, SELL_EXACT_IN, SELL_EXACT_OUT};
use crate::draft::{Form, in_order, pair_of};
use crate::instruction::Instruction;
use crate::{Swap, protocol};

#[tactic(auto, unfolding(crate::specs::Data::is))]
fn form_of(i: &Instruction) -> Option<Form>
    ensures { result ≡ launch_lab_form i.now.bytes.now }
{
    let (buy, exact) = match i.discriminator()? {
        BUY_EXACT_IN => (true, true),
        SELL_EXACT_IN => (false, true),
        BUY_EXACT_OUT => (true, false),
        SELL_EXACT_OUT => (false, false),
        _ => return None,
    };
    Some(Form { buy, exact })
}

// The config that stands at a place of the names.
fn config(names: &[u8], at: usize) -> &[u8]
    ensures { result.now ≡ take 32 (drop at names.now) }
{
    let rest = &names[at.min(names.len())..];
    &rest[..rest.len().min(32)]
}

// The mode that a platform config stands for.
fn mode_of(names: &[u8], key: &[u8]) -> u8
    ensures { result ≡ mode_of names.now key.now }
{
    if wire::equal(key, config(names, 24)) {
        return protocol::STANDARD;
    }
    if wire::equal(key, config(names, 56)) {
        return protocol::REWARD;
    }
    0
}

// The pair goes by the input's key, so equal token accounts flip it.
#[tactic(auto, unfolding(crate::specs::LaunchLab::launch_lab))]
pub fn leg(names: &[u8], i: &Instruction) -> Option<Swap>
    ensures { let a = account (key_of i.now.keys.now) i.now.accounts.now in
        result ≡ launch_lab names.now a (length i.now.accounts.now) i.now.bytes.now }
{
    if i.accounts.len() < 15 {
        return None;
    }
    let Form { buy, exact } = form_of(i)?;
    let (amount, threshold) = i.numbers(8)?;
    let (input, output) = in_order(buy, 6, 5);
    Some(Swap {
        protocol: protocol::LAUNCH_LAB,
        pool: 4,
        trader: 0,
        input,
        output,
        exact,
        amount,
        threshold,
        mode: mode_of(names, i.account(3)),
        pair: Some(pair_of(i.same_account(input, 6), 10, 9)),
    })
}
