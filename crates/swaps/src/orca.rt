// Orca Whirlpool.
ghost use Rattle.std.specs.Prelude.{◌≡◌, length};
ghost use Rattle.ids.specs.Keys.{key_of, account};
ghost use Rattle.swaps.specs.Orca.{orca};

use crate::draft::{in_order, pair_of};
use crate::instruction::Instruction;
use crate::{Swap, protocol};

// The pair of `swap_v2` goes by the input's key, so equal token accounts flip it.
#[tactic(auto, unfolding(crate::specs::Orca::orca))]
pub fn leg(i: &Instruction) -> Option<Swap>
    ensures { let a = account (key_of i.now.keys.now) i.now.accounts.now in
        result ≡ orca a (length i.now.accounts.now) i.now.bytes.now }
{
    let v2 = i.is_v2(11, 15)?;
    let direction = i.flag(41)?;
    let exact = i.flag(40)?;
    let (amount, threshold) = i.numbers(8)?;
    if v2 {
        let (input, output) = in_order(direction, 7, 9);
        Some(Swap {
            protocol: protocol::ORCA,
            pool: 4,
            trader: 3,
            input,
            output,
            exact,
            amount,
            threshold,
            mode: 0,
            pair: Some(pair_of(i.same_account(input, 7), 5, 6)),
        })
    } else {
        let (input, output) = in_order(direction, 3, 5);
        Some(Swap {
            protocol: protocol::ORCA,
            pool: 2,
            trader: 1,
            input,
            output,
            exact,
            amount,
            threshold,
            mode: 0,
            pair: None,
        })
    }
}
