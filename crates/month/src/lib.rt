// Month totals by mint: the used rows of transfer tables, fed into a report that the caller keeps.
//
// A report line is a mint's own, or an account's and a mint's. A call reads the report once, and finds the lines of each transfer by halving. A transfer
// whose lines are all there is added at once; others wait, at most 1,024 of them, until rows for their new lines are put in by one walk from the report's end.
// Sums do not ask in which order they are made, so what is left is what `feed` says.
#![tactic(auto)]

mod empty;
mod feed;
mod good;
mod half;
mod line;
mod new;
mod report;
mod room;
mod sums;

ghost use Rattle.std.specs.Prelude.{◌≡◌, MatchResult};
ghost use Rattle.month.specs.Bytes.{feed};
ghost use Rattle.month.specs.Call.{Feeds};
ghost use Rattle.month.specs.Refusals.{number_of};

use report::Report;

// Bytes of a row of a fed table, and of a row of a report and the line that it begins with.
pub(crate) const TRANSFER: usize = 150;

pub(crate) const ROW: usize = 118;

pub(crate) const LINE: usize = 66;

// Where a fed transfer has its mint, behind a flag, its amount and its fee, behind a flag.
pub(crate) const MINT: usize = 100;

pub(crate) const AMOUNT: usize = 133;

pub(crate) const FEE_FLAG: usize = 141;

pub(crate) const FEE: usize = 142;

// Where a row of a report has its account, behind a flag, its sums and its count.
pub(crate) const ACCOUNT: usize = 33;

pub(crate) const DEBITS: usize = 66;

pub(crate) const CREDITS: usize = 82;

pub(crate) const FEES: usize = 98;

pub(crate) const APART: usize = 114;

// The most transfers that a report may be of.
const LIMIT: u32 = 4294967295;

// What a call answers: a refusal or 0, its place, which is 0, and rows used and transfers fed, as they are then.
#[repr(C)]
#[derive(Clone, Copy)]
pub struct MonthAnswer {
    pub number: u32,
    pub place: u32,
    pub rows: u64,
    pub fed: u32,
}

// Why a table is not fed.
#[derive(Clone, Copy)]
enum Refusal {
    BadTransfers,
    BadReport,
    NoRoom,
    PastLimit,
}

impl Refusal {
    fn number(self) -> u32
        ensures { result ≡ number_of self }
    {
        match self {
            Refusal::BadTransfers => 19,
            Refusal::BadReport => 20,
            Refusal::NoRoom => 9,
            Refusal::PastLimit => 10,
        }
    }
}

// The refusal that a call meets, if it meets one.
fn judge(report: &[u8], rows: usize, fed: u32, transfers: &[u8]) -> Result<(), Refusal>
    ensures { MatchResult result (λ _. (feed report.now rows fed transfers.now).number ≡ 0)
        (λ refusal. (feed report.now rows fed transfers.now).number ≡ number_of refusal) }
{
    if !good::table(transfers) {
        return Err(Refusal::BadTransfers);
    }
    if !good::report(report, rows, fed) {
        return Err(Refusal::BadReport);
    }
    if room::full(&Report::new(report, rows), report.len() / ROW, transfers) {
        return Err(Refusal::NoRoom);
    }
    let left = (LIMIT - fed) as usize;
    if left < transfers.len() / TRANSFER {
        return Err(Refusal::PastLimit);
    }
    Ok(())
}

// Feeds a table into the report of `rows` rows and `fed` transfers, or refuses it and leaves everything as it stood.
pub fn month(report: &mut [u8], rows: usize, fed: u32, transfers: &[u8]) -> MonthAnswer
    ensures { Feeds report.old rows fed transfers.now result report.new }
{
    if let Err(refusal) = judge(report, rows, fed, transfers) {
        return MonthAnswer {
            number: refusal.number(),
            place: 0,
            rows: rows as u64,
            fed,
        };
    }
    let used = feed::feed(report, rows, transfers);
    report[used * ROW..].fill(0);
    MonthAnswer {
        number: 0,
        place: 0,
        rows: used as u64,
        fed: fed + (transfers.len() / TRANSFER) as u32,
    }
}
