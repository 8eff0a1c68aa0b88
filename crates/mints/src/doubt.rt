// Which filled-in mints are in doubt: those of accounts that chains reach from two different recorded mints.
//
// Chains that reach a filled-in account reach every other that transfers between filled-in accounts join to it, so these are in doubt together. They bear one
// label; label 0 tells doubt. One walk over the transfers sets the labels, and one over the rows the marks.
ghost use Rattle.std.specs.Prelude.{◌≡◌, ◌≤◌, ◌<◌, length, MatchResult};
ghost use Rattle.std.proofs.Math.Option.{none, some};
ghost use Rattle.mints.specs.Pass.{EndsWithin};
ghost use Rattle.mints.specs.Doubt.{differ_at, own_labels, renamed, relabelled, join_at, suspect_at, meet_at, labels_to, doubt_at, marks_to, doubts_of, handed_on};

use crate::pass::{Ran, Transfer};
use crate::row::{Row, State};
use crate::{TooManyPasses, pass};

// Whether both rows have a mint, and different ones.
#[tactic(auto, unfolding(crate::specs::Doubt::differ_at))]
fn differ(table: &[Row], a: usize, b: usize) -> bool
    requires { (a < length table.now) × (b < length table.now) }
    ensures { result ≡ differ_at table.now a b }
{
    table[a].state.has_mint()
        && table[b].state.has_mint()
        && !wire::equal(table[a].mint(), table[b].mint())
}

// Gives each row a label of its own, its number.
fn label_apart(label: &mut [u32])
    requires { length label.old ≤ 65536 }
    ensures { label.new ≡ own_labels (length label.old) }
{
    for (r, l) in label.iter_mut().enumerate() {
        *l = r as u32;
    }
}

// A label, or y in the place of x.
#[tactic(auto, unfolding(crate::specs::Doubt::renamed))]
fn rename(z: u32, x: u32, y: u32) -> u32
    ensures { result ≡ renamed x y z }
{
    if z == x { y } else { z }
}

// Puts label y in the place of x throughout.
fn relabel(label: &mut [u32], x: u32, y: u32)
    ensures { label.new ≡ relabelled x y label.old }
{
    if x == y {
        return;
    }
    for z in label.iter_mut() {
        *z = rename(*z, x, y);
    }
}

// Joins two rows: the greater of their labels becomes the lesser, so that doubt stays.
#[tactic(auto, unfolding(crate::specs::Doubt::join_at))]
fn join(label: &mut [u32], a: usize, b: usize)
    requires { (a < length label.old) × (b < length label.old) }
    ensures { label.new ≡ join_at label.old a b }
{
    let x = label[a];
    let y = label[b];
    if x < y {
        relabel(label, y, x);
    } else {
        relabel(label, x, y);
    }
}

// Puts a row in doubt if it is filled in, and all that are joined to it.
#[tactic(auto, unfolding(crate::specs::Doubt::suspect_at))]
fn suspect(table: &[Row], label: &mut [u32], r: usize)
    requires { (r < length label.old) × (length label.old ≤ length table.now) }
    ensures { label.new ≡ suspect_at table.now label.old r }
{
    if table[r].state.is_filled_in() {
        let x = label[r];
        relabel(label, x, 0);
    }
}

// One transfer: doubt begins where its ends have different mints; else it joins them if both are filled in.
#[tactic(auto, unfolding(crate::specs::Doubt::meet_at))]
fn meet(table: &[Row], label: &mut [u32], a: usize, b: usize)
    requires { (a < length label.old) × (b < length label.old) × (length label.old ≤ length table.now) }
    ensures { label.new ≡ meet_at table.now label.old a b }
{
    if differ(table, a, b) {
        suspect(table, label, a);
        suspect(table, label, b);
    } else if table[a].state.is_filled_in() && table[b].state.is_filled_in() {
        join(label, a, b);
    }
}

// Sets the labels by the transfers.
fn meet_all(table: &[Row], label: &mut [u32], transfers: &[Transfer])
    requires { EndsWithin (length label.old) transfers.now × (length label.old ≤ length table.now) }
    ensures { label.new ≡ labels_to transfers.now table.now label.old (length transfers.now) }
{
    for transfer in transfers {
        meet(table, label, transfer.from as usize, transfer.to as usize);
    }
}

// Marks a row that is filled in.
#[tactic(auto, unfolding(crate::specs::Doubt::doubt_at, crate::specs::Cells::with_state))]
fn doubt(table: &mut [Row], r: usize)
    requires { r < length table.old }
    ensures { table.new ≡ doubt_at table.old r }
{
    if table[r].state.is_filled_in() {
        table[r].state = State::Doubted;
    }
}

// Marks the filled-in rows under label 0.
fn mark(table: &mut [Row], label: &[u32])
    requires { length label.now ≤ length table.old }
    ensures { table.new ≡ marks_to table.old label.now (length label.now) }
{
    for r in 0..label.len() {
        if label[r] == 0 {
            doubt(table, r);
        }
    }
}

// Marks the rows that the transfers put in doubt; whatever `label` holds, it has their labels then.
fn doubts_with(table: &mut [Row], label: &mut [u32], transfers: &[Transfer])
    requires { EndsWithin (length label.old) transfers.now × (length label.old ≤ length table.old) × (length label.old ≤ 65536) }
    ensures { table.new ≡ doubts_of transfers.now table.old (length label.old) }
{
    label_apart(label);
    meet_all(table, label, transfers);
    mark(table, label);
}

// The passes, and then the marks of the rows, where the passes are not too many.
pub(crate) fn hand_on(
    table: &mut [Row],
    rows: usize,
    transfers: &[Transfer],
    recorded: usize,
) -> Result<Ran, TooManyPasses>
    requires bounds { (length transfers.now ≤ 1024) × (recorded ≤ 1152921504606846976) × (rows ≤ 257) }
    requires rows_in_bounds { (rows ≤ length table.old) × EndsWithin rows transfers.now }
    ensures { MatchResult result
        (λ ran. handed_on transfers.now table.entry.now rows recorded ≡ record { table = table.exit.now; room = ran.room; passes = some ran.passes })
        (λ _. (handed_on transfers.now table.entry.now rows recorded).passes ≡ none) }
{
    let ran = pass::run(table, transfers, recorded)?;
    let mut label = [0u32; 257];
    doubts_with(table, &mut label[..rows], transfers);
    Ok(ran)
}
