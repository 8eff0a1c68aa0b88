// One stored answer, held against the call.

use records::{Call, TooLong, Unfit};
use route::{Answer, width};
use std::alloc::{AllocError, Global};
use std::fmt;
use std::fmt::Display;

/// What an answer differs in from the stored one.
#[derive(Clone, Copy, Debug, PartialEq, Eq)]
pub(crate) enum Difference {
    Numbers,
    Table(u8),
    Unfit(Unfit),
}

impl Display for Difference {
    fn fmt<W: fmt::Write>(&self, f: &mut fmt::Formatter<W>) -> fmt::Result {
        match self {
            Difference::Numbers => write!(f, "other numbers"),
            Difference::Table(number) => write!(f, "another table {number}"),
            Difference::Unfit(unfit) => write!(f, "{unfit}"),
        }
    }
}

impl From<Unfit> for Difference {
    fn from(unfit: Unfit) -> Difference {
        Difference::Unfit(unfit)
    }
}

/// The five tables that are lent.
#[derive(Drop)]
pub(crate) struct Tables {
    mints: Vec<u8>,
    invocations: Vec<u8>,
    transfers: Vec<u8>,
    legs: Vec<u8>,
    natives: Vec<u8>,
}

impl Tables {
    /// Room for the most rows that a pack can need with some bytes to spare.
    pub(crate) fn new(alloc: Global) -> Result<Tables, AllocError> {
        Ok(Tables {
            mints: vec![in alloc; 0; 17408]?,
            invocations: vec![in alloc; 0; 29696]?,
            transfers: vec![in alloc; 0; 154624]?,
            legs: vec![in alloc; 0; 257024]?,
            natives: vec![in alloc; 0; 112640]?,
        })
    }
}

// The nine numbers that are stored.
fn numbers_of(stored: &[u8]) -> [u32; 9] {
    [
        wire::u32_at(stored, 0),
        wire::u32_at(stored, 4),
        wire::u32_at(stored, 8),
        wire::u32_at(stored, 12),
        wire::u32_at(stored, 16),
        wire::u32_at(stored, 20),
        wire::u32_at(stored, 24),
        wire::u32_at(stored, 28),
        wire::u32_at(stored, 32),
    ]
}

fn numbers(a: &Answer) -> [u32; 9] {
    [
        a.number,
        a.place,
        a.mints,
        a.invocations,
        a.transfers,
        a.legs,
        a.natives,
        a.passes,
        a.tests,
    ]
}

// Whether a table is these rows and then zeros.
fn holds(table: &[u8], rows: &[u8]) -> bool {
    table
        .strip_prefix(rows)
        .is_some_and(|rest| rest.iter().fold(0, |all, byte| all | byte) == 0)
}

// The nine numbers, then the rows of each table: their bytes stand one behind the other.
fn compare(a: &Answer, stored: &[u8], tables: [&[u8]; 5]) -> Result<(), Difference> {
    if numbers(a) != numbers_of(stored) {
        return Err(Difference::Numbers);
    }
    let lengths = [
        a.mints as usize * width::MINTS,
        a.invocations as usize * width::INVOCATIONS,
        a.transfers as usize * width::TRANSFERS,
        a.legs as usize * width::LEGS,
        a.natives as usize * width::NATIVES,
    ];
    let mut rest = stored.get(36..).unwrap_or(&[]);
    for number in 0..5u8 {
        let different = Difference::Table(number);
        let i = usize::from(number);
        let (rows, behind) = rest.split_at_checked(lengths[i]).ok_or(different)?;
        if !holds(tables[i], rows) {
            return Err(different);
        }
        rest = behind;
    }
    Ok(())
}

impl Call for Tables {
    type Difference = Difference;

    const LONGEST: u32 = 393216;

    const LONGER: TooLong = TooLong::Skipped;

    // The call is made into tables as long as those that were lent for the stored answer, full of bytes that it has to replace.
    fn again(&mut self, record: &[u8]) -> Result<(), Difference> {
        let from = 28 + wire::u32_at(record, 0) as usize;
        let to = from + wire::u32_at(record, 4) as usize;
        let stored = record.get(to..).ok_or(Unfit)?;
        let mints = lent(&mut self.mints, wire::u32_at(record, 8))?;
        let invocations = lent(&mut self.invocations, wire::u32_at(record, 12))?;
        let transfers = lent(&mut self.transfers, wire::u32_at(record, 16))?;
        let legs = lent(&mut self.legs, wire::u32_at(record, 20))?;
        let natives = lent(&mut self.natives, wire::u32_at(record, 24))?;
        let a = route::route(
            &record[28..from],
            &record[from..to],
            mints,
            invocations,
            transfers,
            legs,
            natives,
        );
        compare(&a, stored, [mints, invocations, transfers, legs, natives])
    }
}

// The first n bytes of a table, filled.
fn lent(table: &mut [u8], n: u32) -> Result<&mut [u8], Unfit> {
    let lent = table.get_mut(..n as usize).ok_or(Unfit)?;
    lent.fill(165);
    Ok(lent)
}
