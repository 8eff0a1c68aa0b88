// A table fed into a report that has room for it.
ghost use Rattle.std.specs.Prelude.{◌≡◌, ◌+◌, ◌-◌, ◌*◌, ◌/◌, ◌<◌, ◌≤◌, true, length};
ghost use Rattle.month.specs.Report.{used, lines_of, lines_in, fed_into};
ghost use Rattle.month.specs.Bytes.{rows_to, transfers_in};
ghost use Rattle.month.specs.Lookup.{transfers_at, all_among};
ghost use Rattle.month.specs.Standing.{Bears, Stands, PlacesIn, Walked};

use crate::new::Lines;
use crate::report::Report;
use crate::{TRANSFER, empty, new, sums};

// Adds waiting transfers whose lines the report has.
fn post_waiting(report: &mut [u8], rows: usize, t: &[u8], wait: &[usize])
    requires { Stands report.old rows × (length wait.now ≤ 1024) × PlacesIn t.now wait.now × Bears (length wait.now) (rows_to report.old rows)
        × (all_among (lines_in (transfers_at t.now wait.now)) (lines_of (rows_to report.old rows)) ≡ true) }
    ensures { rows_to report.new rows ≡ fed_into (rows_to report.old rows) (transfers_at t.now wait.now) }
{
    for i in wait {
        sums::post(report, rows, t, *i);
    }
}

// Makes rows for the lines that waiting transfers bring, and adds the transfers; answers how many rows there are then.
fn admit(report: &mut [u8], rows: usize, t: &[u8], wait: &[usize]) -> usize
    requires { Stands report.old rows × (length wait.now ≤ 1024) × PlacesIn t.now wait.now × Bears (length wait.now) (rows_to report.old rows)
        × (used (fed_into (rows_to report.old rows) (transfers_at t.now wait.now)) * 118 ≤ length report.old) }
    ensures { (rows_to report.new result ≡ fed_into (rows_to report.old rows) (transfers_at t.now wait.now))
        × (result ≡ used (fed_into (rows_to report.old rows) (transfers_at t.now wait.now))) }
{
    if wait.is_empty() {
        return rows;
    }
    let mut lines = Lines::none_of(t);
    new::gather(&Report::new(report, rows), wait, &mut lines);
    let used = rows + lines.len();
    empty::put_in(report, rows, &lines);
    post_waiting(report, used, t, wait);
    used
}

// Where a walk over a table ended, and how many transfers wait.
#[derive(Clone, Copy)]
pub(crate) struct Reached {
    to: usize,
    waiting: usize,
}

// Adds the transfers from a place on whose lines are all there; the others wait. Ends with the table, or when no more can wait.
fn walk(report: &mut [u8], rows: usize, t: &[u8], from: usize, wait: &mut [usize]) -> Reached
    requires { Stands report.old rows × (from < length t.now / 150) × (0 < length wait.old) × Bears (length t.now / 150 - from) (rows_to report.old rows)
        × (length t.now / 150 ≤ 4294967295) }
    ensures { Walked report.old t.now rows from result.to wait.new result.waiting report.new }
{
    let n = t.len() / TRANSFER;
    let mut waiting = 0;
    for i in from..n {
        if waiting == wait.len() {
            return Reached { to: i, waiting };
        }
        if !sums::post(report, rows, t, i) {
            wait[waiting] = i;
            waiting += 1;
        }
    }
    Reached { to: n, waiting }
}

// Feeds a table; answers how many rows there are then.
pub(crate) fn feed(report: &mut [u8], rows: usize, t: &[u8]) -> usize
    requires { Stands report.old rows × (length t.now / 150 ≤ 4294967295) × Bears (length t.now / 150) (rows_to report.old rows)
        × (used (fed_into (rows_to report.old rows) (transfers_in t.now)) * 118 ≤ length report.old) }
    ensures { (rows_to report.new result ≡ fed_into (rows_to report.old rows) (transfers_in t.now))
        × (result ≡ used (fed_into (rows_to report.old rows) (transfers_in t.now))) }
{
    let mut wait = [0usize; 1024];
    // A `while`: a walk says where it ended.
    let mut used = rows;
    let mut from = 0;
    while from < t.len() / TRANSFER {
        let walked = walk(report, used, t, from, &mut wait);
        used = admit(report, used, t, &wait[..walked.waiting]);
        from = walked.to;
    }
    used
}
