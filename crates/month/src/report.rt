// The rows of a report to be read, and where a line stands among them.
ghost use Rattle.std.specs.Prelude.{◌≡◌, ◌<◌, [], length, slice_index_or};
ghost use Rattle.wire.specs.Order.{lt_key};
ghost use Rattle.month.specs.Report.{Sorted, lines_of};
ghost use Rattle.month.specs.Bytes.{rows_to};
ghost use Rattle.month.specs.Lookup.{spot_of, row_of};
ghost use Rattle.month.specs.Standing.{Stands};

use crate::half::halved;
use crate::{LINE, ROW};
use std::marker::Model;

// The first rows of a buffer, which ascend by their lines.
#[derive(Drop)]
pub(crate) struct Report<'a> {
    bytes: &'a [u8],
    rows: usize,
}

impl<'a> Model for Report<'a> {
    ghost use Rattle.month.specs.Report.{Report};
    ghost use Rattle.month.specs.Bytes.{rows_to};
    ghost use Rattle.month.specs.Standing.{Stands};

    ghost Value = { Report };

    ghost view = { λ r. rows_to r.bytes.now r.rows };

    ghost invariant = { λ r. Stands r.bytes.now r.rows };
}

impl<'a> Report<'a> {
    pub(crate) fn new(bytes: &'a [u8], rows: usize) -> Report<'a>
        requires { Stands bytes.now rows }
        ensures { result ≡ rows_to bytes.now rows }
    {
        Report { bytes, rows }
    }

    // How many rows there are. Who asks learns that they ascend.
    pub(crate) fn len(&self) -> usize
        ensures rows { result ≡ length self.now }
        ensures ascends { Sorted self.now }
    {
        self.rows
    }

    // The line of row i.
    fn line(&self, i: usize) -> &[u8]
        requires { i < length self.now }
        ensures { result.now ≡ slice_index_or (lines_of self.now) i [] }
    {
        let bytes = self.bytes;
        let at = i * ROW;
        &bytes[at..at + LINE]
    }

    // How many lines are below a line. They ascend, so it is found by halving.
    pub(crate) fn spot(&self, line: &[u8]) -> usize
        ensures { result ≡ spot_of line.now (lines_of self.now) }
    {
        halved(
            self.rows,
            |i|
                requires { i < length self.now }
                ensures { result ≡ lt_key (slice_index_or (lines_of self.entry.now) i []) line.entry.now }
            { wire::less(self.line(i), line) },
        )
    }

    // The row of a line, where the report has it.
    pub(crate) fn find(&self, line: &[u8]) -> Option<usize>
        ensures { result ≡ row_of line.now (lines_of self.now) }
    {
        let place = self.spot(line);
        if place < self.rows && wire::equal(line, self.line(place)) {
            Some(place)
        } else {
            None
        }
    }
}
