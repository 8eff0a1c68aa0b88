// Sums of 128 bits, the low half first, and what a transfer adds to the rows of its lines.
ghost use Rattle.std.specs.Prelude.{◌≡◌, ◌+◌, ◌*◌, ◌^◌, ◌<◌, ◌≤◌, ◌/◌, [], ◌∷◌, length, if◌then◌else◌, slice_index_or};
ghost use Rattle.std.proofs.lemmas.List.Edits.{sets};
ghost use Rattle.wire.specs.Le.{le, le_bytes};
ghost use Rattle.month.specs.Report.{lines_of, fed_into};
ghost use Rattle.month.specs.Adding.{add_row};
ghost use Rattle.month.specs.Bytes.{rows_to};
ghost use Rattle.month.specs.Lookup.{fed_at, line_numbered, row_of, has_all};
ghost use Rattle.month.specs.Standing.{Bears, Takes, Stands};

use crate::report::Report;
use crate::{AMOUNT, APART, CREDITS, DEBITS, FEE, FEES, ROW, TRANSFER, line};

// Adds x to the sum from `at` on: the low half wraps, and the high half takes the carry.
fn add_wide(d: &mut [u8], at: usize, x: u64)
    requires { (at + 16 ≤ length d.old) × (le 16 d.old at + x < 2 ^ 128) }
    ensures { d.new ≡ sets d.old at (le_bytes 16 (le 16 d.old at + x)) }
{
    let low = wire::u64_at(d, at);
    let high = wire::u64_at(d, at + 8);
    let sum = std::num::wrapping_add_u64(low, x);
    let carry = u64::from(sum < low);
    wire::put_u64(d, at, sum);
    wire::put_u64(d, at + 8, high + carry);
}

// Adds to the row at a place, which keeps its line.
fn add(report: &mut [u8], rows: usize, place: usize, debit: u64, credit: u64, fee: u64, apart: u32)
    requires { (place < rows) × (apart ≤ 1) × Stands report.old rows × Takes (rows_to report.old rows) }
    ensures { rows_to report.new rows ≡ add_row (rows_to report.old rows)
        (slice_index_or (lines_of (rows_to report.old rows)) place [], record { debits = debit; credits = credit; fees = fee; apart = apart }) }
{
    let at = place * ROW;
    add_wide(report, at + DEBITS, debit);
    add_wide(report, at + CREDITS, credit);
    add_wide(report, at + FEES, fee);
    let before = wire::u32_at(report, at + APART);
    wire::put_u32(report, at + APART, before + apart);
}

// The row of line n of a table, where the report has it.
fn row(report: &Report<'_>, t: &[u8], n: usize) -> Option<usize>
    requires { n / 3 * 150 + 150 ≤ length t.now }
    ensures { result ≡ row_of (line_numbered t.now n) (lines_of report.now) }
{
    report.find(&line::numbered(t, n))
}

// Adds transfer i where the report has all its lines, and says whether it has.
pub(crate) fn post(report: &mut [u8], rows: usize, t: &[u8], i: usize) -> bool
    requires { (i * 150 + 150 ≤ length t.now) × Stands report.old rows × Bears 1 (rows_to report.old rows) }
    ensures { (result ≡ has_all (rows_to report.old rows) (fed_at t.now i))
        × (rows_to report.new rows ≡ (if result then fed_into (rows_to report.old rows) (fed_at t.now i ∷ []) else rows_to report.old rows)) }
{
    let lines = Report::new(report, rows);
    let Some(own) = row(&lines, t, 3 * i) else {
        return false;
    };
    if !line::is_summed(t, i) {
        add(report, rows, own, 0, 0, 0, 1);
        return true;
    }
    let Some(source) = row(&lines, t, 3 * i + 1) else {
        return false;
    };
    let Some(destination) = row(&lines, t, 3 * i + 2) else {
        return false;
    };
    let amount = wire::u64_at(t, i * TRANSFER + AMOUNT);
    let fee = wire::u64_at(t, i * TRANSFER + FEE);
    add(report, rows, own, amount, amount - fee, fee, 0);
    add(report, rows, source, amount, 0, 0, 0);
    add(report, rows, destination, 0, amount - fee, fee, 0);
    true
}
