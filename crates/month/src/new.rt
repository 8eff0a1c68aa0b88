// The lines that transfers bring to a report.
ghost use Rattle.std.specs.Prelude.{◌≡◌, ℕ, suc, ◌+◌, ◌*◌, ◌/◌, ◌<◌, ◌≤◌, ◌&&◌, [], ◌∷◌, ◌++◌, length, take, nat_lt, slice_index, slice_index_or, slice_range};
ghost use Rattle.wire.specs.Ascending.{Ascending};
ghost use Rattle.wire.specs.Order.{lt_key};
ghost use Rattle.wire.specs.Same.{same};
ghost use Rattle.month.specs.Transfers.{touched};
ghost use Rattle.month.specs.Report.{lines_of, lines_in};
ghost use Rattle.month.specs.Lookup.{fed_at, transfers_at, line_numbered, spot_of, least_with, least_of, new_above};
ghost use Rattle.month.specs.Standing.{PlacesIn};

use crate::half::halved;
use crate::report::Report;
use crate::{LINE, line};
use std::marker::Model;

// The most lines that are held at a time: three for each of 1,024 transfers.
pub(crate) const MOST: usize = 3072;

// Some lines of a table, ascending and each once, held by their numbers.
#[derive(Drop)]
pub(crate) struct Lines<'t> {
    table: &'t [u8],
    numbers: [usize; MOST],
    count: usize,
}

impl<'t> Model for Lines<'t> {
    ghost use Rattle.std.specs.Prelude.{◌≡◌, length, take};
    ghost use Rattle.month.specs.Lookup.{lines_numbered};
    ghost use Rattle.month.specs.Standing.{Picked, Held};

    ghost Value = { Picked };

    ghost view = { λ s. record { table = s.table.now; lines = lines_numbered s.table.now (take s.count s.numbers) } };

    ghost invariant = { λ s. Held s.table.now s.numbers s.count × (length s.numbers ≡ 3072) };
}

// Puts n in at place j of the first k. The last one moves first, so each is read before it is written over.
fn insert(numbers: &mut [usize], j: usize, k: usize, n: usize)
    requires { (j ≤ k) × (k < length numbers.old) }
    ensures { take (suc k) numbers.new ≡ take j numbers.old ++ (n ∷ slice_range numbers.old j k) }
{
    for i in (j..k).rev() {
        numbers[i + 1] = numbers[i];
    }
    numbers[j] = n;
}

impl<'t> Lines<'t> {
    // No line of a table yet.
    pub(crate) fn none_of(table: &'t [u8]) -> Lines<'t>
        ensures { result ≡ record { table = table.now; lines = [] } }
    {
        Lines {
            table,
            numbers: [0; MOST],
            count: 0,
        }
    }

    pub(crate) fn clear(&mut self)
        ensures { self.new ≡ record { table = self.old.table; lines = [] } }
    {
        self.count = 0;
    }

    // How many lines there are. Who asks learns that they ascend.
    pub(crate) fn len(&self) -> usize
        ensures lines { result ≡ length self.now.lines }
        ensures ascend { Ascending (λ x. x) self.now.lines }
    {
        self.count
    }

    pub(crate) fn line(&self, i: usize) -> [u8; LINE]
        requires { i < length self.now.lines }
        ensures line { result ≡ slice_index_or self.now.lines i [] }
        ensures bytes { length result ≡ 66 }
    {
        line::numbered(self.table, self.numbers[i])
    }

    // How many lines are below a line. They ascend, so it is found by halving.
    fn spot(&self, line: &[u8]) -> usize
        ensures { result ≡ spot_of line.now self.now.lines }
    {
        halved(
            self.count,
            |i|
                requires { i < length self.now.lines }
                ensures { result ≡ lt_key (slice_index_or self.entry.now.lines i []) line.entry.now }
            { wire::less(&self.line(i), line) },
        )
    }

    // Whether this line stands at a place.
    fn has_at(&self, place: usize, line: &[u8]) -> bool
        ensures { result ≡ nat_lt place (length self.now.lines) && same (slice_index_or self.now.lines place []) line.now }
    {
        place < self.count && wire::equal(&self.line(place), line)
    }

    // Enters line n of the table, if it is above the bound and stands neither here nor in the report. Where no more can be held, the last goes.
    fn enter(&mut self, report: &Report<'_>, n: usize, bound: &[u8])
        requires { n / 3 * 150 + 150 ≤ length self.old.table }
        ensures { self.new ≡ record {
          table = self.old.table;
          lines = least_with 3072 (lines_of report.now) bound.now (line_numbered self.old.table n) self.old.lines;
        } }
    {
        let line = line::numbered(self.table, n);
        if !wire::less(bound, &line) {
            return;
        }
        if report.find(&line).is_some() {
            return;
        }
        let place = self.spot(&line);
        if MOST <= place {
            return;
        }
        if self.has_at(place, &line) {
            return;
        }
        let kept = self.count.min(MOST - 1);
        insert(&mut self.numbers, place, kept, n);
        self.count = kept + 1;
    }

    // Enters the lines of transfer i.
    pub(crate) fn enter_all(&mut self, report: &Report<'_>, i: usize, bound: &[u8])
        requires { i * 150 + 150 ≤ length self.old.table }
        ensures { self.new ≡ record {
          table = self.old.table;
          lines = least_of 3072 (lines_of report.now) bound.now (touched (fed_at self.old.table i)) self.old.lines;
        } }
    {
        let summed = line::is_summed(self.table, i);
        self.enter(report, 3 * i, bound);
        if summed {
            self.enter(report, 3 * i + 1, bound);
            self.enter(report, 3 * i + 2, bound);
        }
    }
}

// Leaves the lines that waiting transfers of the table bring, as many as can be held.
pub(crate) fn gather(report: &Report<'_>, wait: &[usize], lines: &mut Lines<'_>)
    requires { PlacesIn lines.old.table wait.now }
    ensures { lines.new ≡ record {
      table = lines.old.table;
      lines = take 3072 (new_above (lines_of report.now) [] (lines_in (transfers_at lines.old.table wait.now)));
    } }
{
    lines.clear();
    for i in wait {
        lines.enter_all(report, *i, b"");
    }
}
