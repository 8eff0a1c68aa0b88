// The lines of a transfer, and whether it is summed.
ghost use Rattle.std.specs.Prelude.{◌≡◌, ◌+◌, ◌*◌, ◌/◌, ◌<◌, ◌≤◌, length, take, drop};
ghost use Rattle.wire.specs.Order.{lt_key};
ghost use Rattle.month.specs.Transfers.{summed};
ghost use Rattle.month.specs.Report.{lines_of};
ghost use Rattle.month.specs.Bytes.{rows_to};
ghost use Rattle.month.specs.Lookup.{fed_at, line_numbered, spot_of, row_of};
ghost use Rattle.month.specs.Standing.{Stands};

use crate::{ACCOUNT, AMOUNT, FEE, FEE_FLAG, LINE, MINT, TRANSFER};

// Line n of a table: the mint with its flag, zero where the flag is, then the account with its flag, zero on the mint's own line.
pub(crate) fn numbered(t: &[u8], n: usize) -> [u8; LINE]
    requires { n / 3 * 150 + 150 ≤ length t.now }
    ensures { result ≡ line_numbered t.now n }
{
    let at = n / 3 * TRANSFER;
    let which = n % 3;
    let mut line = [0; LINE];
    if t[at + MINT] == 1 {
        wire::put(&mut line, 0, &t[at + MINT..at + AMOUNT]);
    }
    if which != 0 {
        // The source stands at 36, the destination 32 bytes behind it.
        let from = at + 4 + which * 32;
        line[ACCOUNT] = 1;
        wire::put(&mut line, 34, &t[from..from + 32]);
    }
    line
}

// Whether transfer i is summed: its fee is known, and not above its amount.
pub(crate) fn is_summed(t: &[u8], i: usize) -> bool
    requires { i * 150 + 150 ≤ length t.now }
    ensures { result ≡ summed (fed_at t.now i) }
{
    let at = i * TRANSFER;
    t[at + FEE_FLAG] == 1 && wire::u64_at(t, at + FEE) <= wire::u64_at(t, at + AMOUNT)
}
