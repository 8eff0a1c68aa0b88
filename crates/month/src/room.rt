// Whether a report has room for the lines that a table brings (refusal 9): nothing may be written before this is known.
ghost use Rattle.std.specs.Prelude.{◌≡◌, ◌≤◌, length, take, nat_lt};
ghost use Rattle.month.specs.Report.{used, lines_of, lines_in, fed_into};
ghost use Rattle.month.specs.Bytes.{transfers_in};
ghost use Rattle.month.specs.Lookup.{new_above};

use crate::new::{Lines, MOST};
use crate::report::Report;
use crate::{LINE, TRANSFER};

// Leaves the least lines above a bound that the table brings, as many as can be held.
fn least(report: &Report<'_>, t: &[u8], bound: &[u8], lines: &mut Lines<'_>)
    requires { lines.old.table ≡ t.now }
    ensures { lines.new ≡ record { table = t.now; lines = take 3072 (new_above (lines_of report.now) bound.now (lines_in (transfers_in t.now))) } }
{
    lines.clear();
    for i in 0..t.len() / TRANSFER {
        lines.enter_all(report, i, bound);
    }
}

// Whether a table brings more lines than there is room for, in a buffer of `size` rows. No transfer brings more than three, so where there is room for that
// nothing is counted. Else new lines are counted from the least up, as many at a time as can be held, and each time those above the last one.
pub(crate) fn full(report: &Report<'_>, size: usize, t: &[u8]) -> bool
    requires { used report.now ≤ size }
    ensures { result ≡ nat_lt size (used (fed_into report.now (transfers_in t.now))) }
{
    let room = size - report.len();
    if t.len() / TRANSFER <= room / 3 {
        return false;
    }
    let mut lines = Lines::none_of(t);
    let mut last = [0; LINE];
    let mut width = 0;
    let mut fresh = 0;
    loop {
        least(report, t, &last[..width], &mut lines);
        let k = lines.len();
        if room - fresh < k {
            return true;
        }
        if k < MOST {
            return false;
        }
        fresh += k;
        last = lines.line(k - 1);
        width = LINE;
    }
}
