// Whether what is handed in is in order: a table of transfers (refusal 19), a report (refusal 20).
ghost use Rattle.std.specs.Prelude.{◌≡◌, ◌+◌, ◌^◌, ◌≤◌, length, nat_lt};
ghost use Rattle.wire.specs.Le.{le};
ghost use Rattle.month.specs.Bytes.{report_row_at, good_table, good_row, good_report};

use crate::{ACCOUNT, APART, CREDITS, DEBITS, FEE_FLAG, FEES, LINE, MINT, ROW, TRANSFER};

// Whether a table has whole rows, and flags of 0 or 1.
pub(crate) fn table(t: &[u8]) -> bool
    ensures { result ≡ good_table t.now }
{
    if t.len() % TRANSFER != 0 {
        return false;
    }
    for i in 0..t.len() / TRANSFER {
        let at = i * TRANSFER;
        if 1 < t[at + MINT] || 1 < t[at + FEE_FLAG] {
            return false;
        }
    }
    true
}

// Whether the 16 bytes from `at` on are a sum below 2 to the 96th: the high half tells.
fn small(report: &[u8], at: usize) -> bool
    requires { at + 16 ≤ length report.now }
    ensures { result ≡ nat_lt (le 16 report.now at) (2 ^ 96) }
{
    wire::u64_at(report, at + 8) < 4294967296
}

// Whether the row from `at` on has good flags, sums and count.
fn row(report: &[u8], at: usize, fed: u32) -> bool
    requires { at + 118 ≤ length report.now }
    ensures { result ≡ good_row fed (report_row_at report.now at) }
{
    report[at] <= 1
        && report[at + ACCOUNT] <= 1
        && small(report, at + DEBITS)
        && small(report, at + CREDITS)
        && small(report, at + FEES)
        && wire::u32_at(report, at + APART) <= fed
}

// Whether a report of so many rows, after so many transfers, is one that this library may have left.
pub(crate) fn report(report: &[u8], rows: usize, fed: u32) -> bool
    ensures { result ≡ good_report report.now rows fed }
{
    if report.len() / ROW < rows {
        return false;
    }
    for i in 0..rows {
        let at = i * ROW;
        if !row(report, at, fed) {
            return false;
        }
        if i + 1 < rows && !wire::less(&report[at..at + LINE], &report[at + ROW..at + ROW + LINE]) {
            return false;
        }
    }
    true
}
