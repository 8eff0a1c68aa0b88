// The public call: names and a pack go in, five lent tables are filled, one answer comes back.
//
// Every refusal has a number and a place, and leaves all five tables zero. Nothing is asked of the caller: whatever the bytes and the tables' lengths are,
// the answer and the tables are those of the definition `route`.
#![tactic(auto)]

mod actions;
mod candidate;
mod fill;
mod fit;
mod invocations;
mod legs;
mod needs;
mod refusal;
mod transfers;
pub mod width;

ghost use Rattle.route.specs.Filled.{Cleared};
ghost use Rattle.route.specs.Route.{Leaves};

use fill::fill;
pub use needs::room;

// Number 0 for a success, else a refusal and its place; the rows of each table, the passes over the plain transfers, the calls of `descendant`.
#[repr(C)]
#[derive(Clone, Copy)]
pub struct Answer {
    pub number: u32,
    pub place: u32,
    pub mints: u32,
    pub invocations: u32,
    pub transfers: u32,
    pub legs: u32,
    pub natives: u32,
    pub passes: u32,
    pub tests: u32,
}

// Number 0, or the refusal that the pack meets and its place; then rows for each table that suffice whatever the names are.
#[repr(C)]
#[derive(Clone, Copy)]
pub struct RowsNeeded {
    pub number: u32,
    pub place: u32,
    pub mints: u32,
    pub invocations: u32,
    pub transfers: u32,
    pub legs: u32,
    pub natives: u32,
}

// Zeroes all five tables. They go by themselves and not as one struct: one that holds five `&mut` owes for each, wherever it is lent, that it stays the same loan.
fn clear(t0: &mut [u8], t1: &mut [u8], t2: &mut [u8], t3: &mut [u8], t4: &mut [u8])
    ensures { Cleared t0.new t1.new t2.new t3.new t4.new }
{
    wire::clear(t0);
    wire::clear(t1);
    wire::clear(t2);
    wire::clear(t3);
    wire::clear(t4);
}

// Names, a pack, and the five tables: mints, invocations, transfers, legs, natives.
pub fn route(
    names: &[u8],
    pack: &[u8],
    t0: &mut [u8],
    t1: &mut [u8],
    t2: &mut [u8],
    t3: &mut [u8],
    t4: &mut [u8],
) -> Answer
    ensures { Leaves names.now pack.now
        t0.old t1.old t2.old t3.old t4.old
        result t0.new t1.new t2.new t3.new t4.new }
{
    clear(t0, t1, t2, t3, t4);
    match fill(names, pack, t0, t1, t2, t3, t4) {
        Ok(answer) => answer,
        Err(refusal) => {
            clear(t0, t1, t2, t3, t4);
            refusal.answer()
        }
    }
}
