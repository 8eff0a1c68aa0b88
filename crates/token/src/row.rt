// The rows of the table of transfers.
ghost use Rattle.std.specs.Prelude.{◌≡◌};
ghost use Rattle.std.proofs.lemmas.List.Edits.{sets};
ghost use Rattle.ids.specs.Keys.{key_of};
ghost use Rattle.ids.specs.Mints.{mint_of};
ghost use Rattle.token.specs.Moved.{transfer_value};
ghost use Rattle.token.specs.Rows.{transfer_bytes};

use super::{Reason, Transfer};

// The bytes of a row.
pub const WIDTH: usize = 150;

// Writes the row of a transfer, if there is one. It is built in an array of its own, where every field is known to fit, and put in one piece. A fee that is not
// known is a flag and a number that are both 0.
pub fn put_row(
    out: &mut [u8],
    at: usize,
    invocation: u32,
    keys: &[u8],
    program: u32,
    moved: Result<Transfer, Reason>,
    mint: &[u8],
)
    ensures { out.new ≡ sets out.old at
        (transfer_bytes invocation (key_of keys.now program) (mint_of mint.now) (transfer_value (key_of keys.now) moved)) }
{
    let Ok(transfer) = moved else {
        return;
    };
    let mut row = [0u8; WIDTH];
    wire::put_u32(&mut row, 0, invocation);
    ids::put_key(&mut row, 4, keys, program as usize);
    ids::put_key(&mut row, 36, keys, transfer.source as usize);
    ids::put_key(&mut row, 68, keys, transfer.destination as usize);
    ids::put_mint(&mut row, 100, mint);
    wire::put_u64(&mut row, 133, transfer.amount);
    wire::put_byte(&mut row, 141, u8::from(transfer.fee.is_some()));
    wire::put_u64(&mut row, 142, transfer.fee.unwrap_or(0));
    wire::put(out, at, &row);
}
