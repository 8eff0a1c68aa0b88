// Plain transfers over the table: they hand a mint to the end that has none, pass after pass.
//
// A transfer is two row numbers, found once for each key, so a step looks at two states and searches nothing.
ghost use Rattle.std.specs.Prelude.{◌≡◌, ◌≤◌, ◌<◌, length, MatchResult};
ghost use Rattle.std.proofs.Math.Option.{none, some};
ghost use Rattle.mints.specs.Pass.{EndsWithin, hand_at, step_at, filled_at, pass_to, passes};

use crate::TooManyPasses;
use crate::row::{Row, State};

// The rows of a plain transfer's source and destination.
#[derive(Clone, Copy)]
pub struct Transfer {
    pub from: u32,
    pub to: u32,
}

impl Transfer {
    // A transfer from row 0 to itself, which an array is full of before it is written.
    pub(crate) const NONE: Transfer = Transfer { from: 0, to: 0 };
}

// Copies the mint of row a to row b, which is then filled in. Out of line, so that a step that hands nothing on makes no row's address.
#[inline(never)]
#[tactic(auto, unfolding(crate::specs::Cells::with_mint))]
fn hand(table: &mut [Row], a: usize, b: usize)
    requires { (a < length table.old) × (b < length table.old) }
    ensures { table.new ≡ hand_at table.old a b }
{
    table[b].mint = table[a].mint;
    table[b].state = State::FilledIn;
}

// One transfer: where one end has a mint and the other has none, hands it on. Answers how many accounts are filled in.
#[tactic(auto, unfolding(crate::specs::Pass::step_at, crate::specs::Pass::filled_at, crate::specs::Cells::number_of))]
fn step(table: &mut [Row], a: usize, b: usize) -> usize
    requires { (a < length table.old) × (b < length table.old) }
    ensures { (table.new ≡ step_at table.old a b) × (result ≡ filled_at table.old a b) }
{
    match (table[a].state, table[b].state) {
        (State::Unknown, State::Unknown) => 0,
        (State::Unknown, y) if y.has_mint() => {
            hand(table, b, a);
            1
        }
        (x, State::Unknown) if x.has_mint() => {
            hand(table, a, b);
            1
        }
        _ => 0,
    }
}

// One pass over the transfers; answers how many accounts are filled in.
fn pass(table: &mut [Row], transfers: &[Transfer]) -> usize
    requires { (length transfers.now ≤ 1024) × EndsWithin (length table.old) transfers.now }
    ensures { pass_to transfers.now table.entry.now (length transfers.now) ≡ record { table = table.exit.now; room = result } }
{
    let mut added = 0;
    for transfer in transfers {
        added += step(table, transfer.from as usize, transfer.to as usize);
    }
    added
}

// The passes, and the accounts that need room.
#[derive(Clone, Copy)]
pub struct Ran {
    pub passes: usize,
    pub room: usize,
}

// Passes until one adds nothing, at most 512; none where nothing is recorded.
pub(crate) fn run(
    table: &mut [Row],
    transfers: &[Transfer],
    recorded: usize,
) -> Result<Ran, TooManyPasses>
    requires { (length transfers.now ≤ 1024) × (recorded ≤ 1152921504606846976) × EndsWithin (length table.old) transfers.now }
    ensures { MatchResult result
        (λ ran. passes transfers.now table.entry.now recorded ≡ record { table = table.exit.now; room = ran.room; passes = some ran.passes })
        (λ _. (passes transfers.now table.entry.now recorded).passes ≡ none) }
{
    let mut room = recorded;
    if room == 0 {
        return Ok(Ran { passes: 0, room });
    }
    for p in 0..512 {
        let added = pass(table, transfers);
        if added == 0 {
            return Ok(Ran {
                passes: p + 1,
                room,
            });
        }
        room += added;
    }
    Err(TooManyPasses)
}
