// The library for programs in other languages: a thin skin over `route` and `month`.
#![tactic(auto)]

ghost use Rattle.std.specs.Prelude.{◌≡◌};
ghost use Rattle.month.specs.Call.{Feeds};
ghost use Rattle.route.specs.Enough.{needed};
ghost use Rattle.route.specs.Route.{Leaves};

use month::MonthAnswer;
use route::{Answer, RowsNeeded};

// Each slice crosses as a pointer and a length; the answer is nine numbers of 32 bits.
#[unsafe(no_mangle)]
pub extern "C" fn mbelaguy_route(
    names: &[u8],
    pack: &[u8],
    mints: &mut [u8],
    invocations: &mut [u8],
    transfers: &mut [u8],
    legs: &mut [u8],
    natives: &mut [u8],
) -> Answer
    ensures { Leaves names.now pack.now
        mints.old invocations.old transfers.old legs.old natives.old
        result mints.new invocations.new transfers.new legs.new natives.new }
{
    route::route(names, pack, mints, invocations, transfers, legs, natives)
}

// Rows of each table that suffice for a pack, whatever the names are, or the refusal that it meets: seven numbers of 32 bits.
#[unsafe(no_mangle)]
pub extern "C" fn mbelaguy_room(pack: &[u8]) -> RowsNeeded
    ensures { result ≡ needed pack.now }
{
    route::room(pack)
}

// Feeds transfers into a report of totals, or leaves it as it stood: two numbers of 32 bits, one of 64, one of 32.
#[unsafe(no_mangle)]
pub extern "C" fn mbelaguy_month(
    report: &mut [u8],
    rows: usize,
    fed: u32,
    transfers: &[u8],
) -> MonthAnswer
    ensures { Feeds report.old rows fed transfers.now result report.new }
{
    month::month(report, rows, fed, transfers)
}

// The version, 0.6.0: 65,536 times the first number, 256 times the second, and the third.
#[unsafe(no_mangle)]
pub extern "C" fn mbelaguy_version() -> u32
    ensures { result ≡ 1536 }
{
    1536
}
