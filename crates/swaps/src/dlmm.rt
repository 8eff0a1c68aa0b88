// Meteora DLMM.
ghost use Rattle.std.specs.Prelude.{◌≡◌, ◌≤◌, length, Some};
ghost use Rattle.swaps.specs.Data.{discriminator};
ghost use Rattle.swaps.specs.Dlmm.{tag_size, slice_at, slices as slices_of, slices_fit, swap_layout, dlmm};

use crate::discriminators::{SWAP, SWAP_EXACT_OUT, SWAP_EXACT_OUT2, SWAP2};
use crate::instruction::Instruction;
use crate::{Swap, protocol};

// The bytes of a slice's tag.
fn tag_size(tag: u8) -> Option<usize>
    ensures { result ≡ tag_size tag }
{
    match tag {
        0 | 1 | 2 | 4 => Some(1),
        3 => Some(2),
        _ => None,
    }
}

// A slice: where the next one starts, and how many accounts it claims.
#[derive(Clone, Copy)]
struct Slice {
    end: usize,
    claims: usize,
}

// The slice at `at`: a known tag, and the length byte after it.
fn slice_at(data: &[u8], at: usize) -> Option<Slice>
    ensures { result ≡ slice_at «data».now at }
{
    if data.len() <= at {
        return None;
    }
    let size = tag_size(data[at])?;
    if data.len() <= at + size {
        return None;
    }
    Some(Slice {
        end: at + size + 1,
        claims: usize::from(data[at + size]),
    })
}

// Whether `count` slices from byte 28 on are whole, and claim no more than the remaining accounts.
#[tactic(auto, using(crate::proofs::Slices::ended, crate::proofs::Slices::walked))]
fn slices(data: &[u8], remaining: usize, count: usize) -> bool
    ensures { result ≡ slices_of «data».now remaining count 28 0 }
{
    let mut at = 28;
    let mut used = 0;
    for _ in 0..count {
        let Some(slice) = slice_at(data, at) else {
            return false;
        };
        if remaining - used < slice.claims {
            return false;
        }
        used += slice.claims;
        at = slice.end;
    }
    true
}

// The slices of a v2 instruction.
#[tactic(auto, unfolding(crate::specs::Dlmm::slices_fit))]
fn slices_fit(n: usize, data: &[u8]) -> bool
    requires { 16 ≤ n }
    ensures { result ≡ slices_fit n «data».now }
{
    if data.len() < 28 {
        return false;
    }
    let count = wire::u32_at(data, 24) as usize;
    count <= (data.len() - 28) / 2 && slices(data, n - 16, count)
}

// `validate_swap_layout`, but for the price-impact forms, which make no leg.
#[tactic(auto, unfolding(crate::specs::Data::is, crate::specs::Dlmm::swap_layout))]
fn swap_layout(i: &Instruction, found: u64) -> bool
    requires { discriminator i.now.bytes.now ≡ Some found }
    ensures { result ≡ swap_layout (length i.now.accounts.now) i.now.bytes.now }
{
    let n = i.accounts.len();
    match found {
        SWAP | SWAP_EXACT_OUT => 15 <= n && 24 <= i.bytes.len(),
        SWAP2 | SWAP_EXACT_OUT2 => 16 <= n && slices_fit(n, i.bytes),
        _ => false,
    }
}

#[tactic(auto, unfolding(crate::specs::Data::is, crate::specs::Dlmm::swap_layout, crate::specs::Dlmm::dlmm))]
pub fn leg(i: &Instruction) -> Option<Swap>
    ensures { result ≡ dlmm (length i.now.accounts.now) i.now.bytes.now }
{
    let found = i.discriminator()?;
    if !swap_layout(i, found) {
        return None;
    }
    let exact = matches!(found, SWAP | SWAP2);
    let (amount, threshold) = i.stated(8, exact)?;
    Some(Swap {
        protocol: protocol::DLMM,
        pool: 0,
        trader: 10,
        input: 4,
        output: 5,
        exact,
        amount,
        threshold,
        mode: 0,
        pair: None,
    })
}
