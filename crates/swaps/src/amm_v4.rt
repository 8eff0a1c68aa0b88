// Raydium AMM V4.
ghost use Rattle.std.specs.Prelude.{◌≡◌, length};
ghost use Rattle.swaps.specs.AmmV4.{amm_v4, short_leg, long_leg};

use crate::instruction::Instruction;
use crate::{Swap, protocol};

// Tags 16 and 17.
fn short(i: &Instruction, exact: bool) -> Option<Swap>
    ensures { result ≡ short_leg i.now.bytes.now exact }
{
    let (amount, threshold) = i.stated(1, exact)?;
    Some(Swap {
        protocol: protocol::AMM_V4,
        pool: 1,
        trader: 7,
        input: 5,
        output: 6,
        exact,
        amount,
        threshold,
        mode: 0,
        pair: None,
    })
}

// Tags 9 and 11: with 17 accounts the last three stand one place earlier.
fn long(i: &Instruction, exact: bool) -> Option<Swap>
    ensures { result ≡ long_leg (length i.now.accounts.now) i.now.bytes.now exact }
{
    let (amount, threshold) = i.stated(1, exact)?;
    let shift = u8::from(i.accounts.len() == 17);
    Some(Swap {
        protocol: protocol::AMM_V4,
        pool: 1,
        trader: 17 - shift,
        input: 15 - shift,
        output: 16 - shift,
        exact,
        amount,
        threshold,
        mode: 0,
        pair: None,
    })
}

#[tactic(auto, unfolding(crate::specs::AmmV4::amm_v4))]
pub fn leg(i: &Instruction) -> Option<Swap>
    ensures { result ≡ amm_v4 (length i.now.accounts.now) i.now.bytes.now }
{
    let n = i.accounts.len();
    match wire::byte(i.bytes, 0) {
        16 if 8 <= n => short(i, true),
        17 if 8 <= n => short(i, false),
        9 if 17 <= n => long(i, true),
        11 if 17 <= n => long(i, false),
        _ => None,
    }
}
