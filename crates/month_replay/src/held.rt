// One stored answer, held against the call.

use month::MonthAnswer;
use records::{Call, TooLong, Unfit};
use std::alloc::{AllocError, Global};
use std::fmt;
use std::fmt::Display;

/// What an answer differs in from the stored one.
#[derive(Clone, Copy, Debug, PartialEq, Eq)]
pub(crate) enum Difference {
    Numbers,
    Report,
    Unfit(Unfit),
}

impl Display for Difference {
    fn fmt<W: fmt::Write>(&self, f: &mut fmt::Formatter<W>) -> fmt::Result {
        match self {
            Difference::Numbers => write!(f, "other numbers"),
            Difference::Report => write!(f, "another report"),
            Difference::Unfit(unfit) => write!(f, "{unfit}"),
        }
    }
}

impl From<Unfit> for Difference {
    fn from(unfit: Unfit) -> Difference {
        Difference::Unfit(unfit)
    }
}

/// The report that is lent.
#[derive(Drop)]
pub(crate) struct Report(Vec<u8>);

impl Report {
    /// Room for the longest one.
    pub(crate) fn new(alloc: Global) -> Result<Report, AllocError> {
        Ok(Report(vec![in alloc; 0; 32768]?))
    }
}

// Whether the four numbers are those at the start of what is stored.
fn same_numbers(a: &MonthAnswer, stored: &[u8]) -> bool {
    let numbers = (
        wire::u32_at(stored, 0),
        wire::u32_at(stored, 4),
        wire::u64_at(stored, 8),
        wire::u32_at(stored, 16),
    );
    (a.number, a.place, a.rows, a.fed) == numbers
}

// The numbers, then every byte of the report.
fn compare(a: &MonthAnswer, stored: &[u8], report: &[u8]) -> Result<(), Difference> {
    if !same_numbers(a, stored) {
        return Err(Difference::Numbers);
    }
    if report != stored.get(20..).ok_or(Unfit)? {
        return Err(Difference::Report);
    }
    Ok(())
}

impl Call for Report {
    type Difference = Difference;

    const LONGEST: u32 = 196608;

    const LONGER: TooLong = TooLong::Left;

    // The call is made in a buffer as long as the stored one.
    fn again(&mut self, record: &[u8]) -> Result<(), Difference> {
        let length = wire::u32_at(record, 0) as usize;
        let from = 20 + length;
        let to = from + wire::u32_at(record, 4) as usize;
        let stored = record.get(to..).ok_or(Unfit)?;
        let report = self.0.as_mut_slice().get_mut(..length).ok_or(Unfit)?;
        report.copy_from_slice(&record[20..from]);
        let rows = wire::u64_at(record, 8) as usize;
        let a = month::month(report, rows, wire::u32_at(record, 16), &record[from..to]);
        compare(&a, stored, report)
    }
}
