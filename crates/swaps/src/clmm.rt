// Raydium CLMM.
ghost use Rattle.std.specs.Prelude.{◌≡◌, length};
ghost use Rattle.swaps.specs.Clmm.{clmm};

use crate::instruction::Instruction;
use crate::{Pair, Swap, protocol};

// `swap_v2` alone names its mints.
#[tactic(auto, unfolding(crate::specs::Clmm::clmm))]
pub fn leg(i: &Instruction) -> Option<Swap>
    ensures { result ≡ clmm (length i.now.accounts.now) i.now.bytes.now }
{
    let v2 = i.is_v2(10, 13)?;
    let exact = i.flag(40)?;
    let (amount, threshold) = i.numbers(8)?;
    Some(Swap {
        protocol: protocol::CLMM,
        pool: 2,
        trader: 0,
        input: 3,
        output: 4,
        exact,
        amount,
        threshold,
        mode: 0,
        pair: v2.then_some(Pair {
            input: 11,
            output: 12,
        }),
    })
}
