// Rows put into a report for new lines, by one walk from its end.
ghost use Rattle.std.specs.Prelude.{◌≡◌, ◌+◌, ◌-◌, ◌*◌, ◌≤◌, false, ◌++◌, length, take, drop};
ghost use mathlib.Core.List.{Memᴰ};
ghost use Rattle.std.proofs.lemmas.List.Edits.{sets};
ghost use Rattle.wire.specs.Zeros.{zeros};
ghost use Rattle.month.specs.Transfers.{Line};
ghost use Rattle.month.specs.Report.{lines_of};
ghost use Rattle.month.specs.Adding.{add_rows, among};
ghost use Rattle.month.specs.Bytes.{rows_to};
ghost use Rattle.month.specs.Lookup.{empty_rows};
ghost use Rattle.month.specs.Standing.{Stands};

use crate::new::Lines;
use crate::report::Report;
use crate::{LINE, ROW};

// Moves the bytes between two places up, the last ones first and by eight, so that none is written over before it is read.
fn shift(d: &mut [u8], from: usize, to: usize, by: usize)
    requires { (from ≤ to) × (to + by ≤ length d.old) }
    ensures { d.new ≡ sets d.old (from + by) (take (to - from) (drop from d.old)) }
{
    let mut i = to;
    while 8 <= i - from {
        i -= 8;
        let word = wire::u64_at(d, i);
        wire::put_u64(d, i + by, word);
    }
    for k in (from..i).rev() {
        d[k + by] = d[k];
    }
}

// Writes a row with a line and no sums.
fn put_row(report: &mut [u8], at: usize, line: &[u8])
    requires { (at + 118 ≤ length report.old) × (length line.now ≡ 66) }
    ensures { report.new ≡ sets report.old at (line.now ++ zeros 52) }
{
    wire::put(report, at, line);
    report[at + LINE..at + ROW].fill(0);
}

// Puts in an empty row for each new line, none of which the report has: the last one first, so that each row is moved once.
pub(crate) fn put_in(report: &mut [u8], rows: usize, lines: &Lines<'_>)
    requires { Stands report.old rows × ((rows + length lines.now.lines) * 118 ≤ length report.old)
        × ((x : Line) → Memᴰ x lines.now.lines → among x (lines_of (rows_to report.old rows)) ≡ false) }
    ensures { rows_to report.new (rows + length lines.now.lines) ≡ add_rows (rows_to report.old rows) (empty_rows lines.now.lines) }
{
    let mut i = rows;
    for j in (0..lines.len()).rev() {
        let line = lines.line(j);
        let place = Report::new(report, i).spot(&line);
        shift(report, place * ROW, i * ROW, (j + 1) * ROW);
        put_row(report, (place + j) * ROW, &line);
        i = place;
    }
}
