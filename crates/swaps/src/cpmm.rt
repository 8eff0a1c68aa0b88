// Raydium CPMM. Its two discriminators are lent in the names.
ghost use Rattle.std.specs.Prelude.{◌≡◌, length};
ghost use Rattle.swaps.specs.Cpmm.{cpmm, cpmm_form};

use crate::instruction::Instruction;
use crate::{Pair, Swap, protocol};

// Whether it is exact-in.
#[tactic(auto, unfolding(crate::specs::Data::is))]
fn is_exact(names: &[u8], i: &Instruction) -> Option<bool>
    ensures { result ≡ cpmm_form names.now i.now.bytes.now }
{
    let found = i.discriminator()?;
    if found == wire::u64_at(names, 0) {
        Some(true)
    } else if found == wire::u64_at(names, 8) {
        Some(false)
    } else {
        None
    }
}

#[tactic(auto, unfolding(crate::specs::Cpmm::cpmm))]
pub fn leg(names: &[u8], i: &Instruction) -> Option<Swap>
    ensures { result ≡ cpmm names.now (length i.now.accounts.now) i.now.bytes.now }
{
    if i.accounts.len() < 13 {
        return None;
    }
    let exact = is_exact(names, i)?;
    let (amount, threshold) = i.stated(8, exact)?;
    Some(Swap {
        protocol: protocol::CPMM,
        pool: 3,
        trader: 0,
        input: 4,
        output: 5,
        exact,
        amount,
        threshold,
        mode: 0,
        pair: Some(Pair {
            input: 10,
            output: 11,
        }),
    })
}
