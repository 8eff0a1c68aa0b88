// Table 1: one row for each invocation.
ghost use Rattle.std.specs.Prelude.{◌≡◌, ◌<◌, ◌≤◌, get_or};
ghost use Rattle.std.proofs.lemmas.List.Edits.{sets};
ghost use Rattle.pack.specs.Invocation.{lowered, position_of};
ghost use Rattle.subtrees.specs.Subtrees.{positions};
ghost use Rattle.route.specs.Arrays.{own_for, owns_of, own_bits, bits_at, FillsEach};
ghost use Rattle.route.specs.Program.{program_bits};
ghost use Rattle.route.specs.Row.{flagged as flagged_of, invocation_row};

use ids::Id;
use pack::Place;

// The bytes of a row.
pub(crate) const WIDTH: usize = 28;

// The bits that a program's case gives: 4 where a route passes over it, 8 where it is resolved.
#[tactic(auto, unfolding(crate::specs::Program::program_bits))]
fn program_bits(id: Id) -> u8
    ensures { result ≡ program_bits id }
{
    match id {
        Id::SplToken
        | Id::Token2022
        | Id::ComputeBudget
        | Id::AssociatedToken
        | Id::Memo
        | Id::System => 12,
        Id::WrappedSol
        | Id::PumpFun
        | Id::LaunchLab
        | Id::PumpSwap
        | Id::Clmm
        | Id::Cpmm
        | Id::AmmV4
        | Id::Orca
        | Id::Dlmm
        | Id::Other => 8,
        Id::Unresolved => 0,
    }
}

// A flag and a number that comes one higher, 0 for none, as places hold it.
fn put_flagged(out: &mut [u8], at: usize, raised: u64)
    requires { at < 65536 }
    ensures { out.new ≡ sets out.old at (flagged_of (lowered raised)) }
{
    if raised == 0 {
        wire::put_byte(out, at, 0);
        wire::put_u32(out, at + 1, 0);
        return;
    }
    wire::put_byte(out, at, 1);
    wire::put_u32(out, at + 1, ((raised - 1) % 4294967296) as u32);
}

// What the arrays hold of an invocation.
#[derive(Clone, Copy)]
struct Held {
    place: Place,
    end: u32,
    bits: u8,
    leg: u32,
    parent: u32,
    reason: u8,
}

// The row of an invocation. It is put in one piece, so that its room is looked at once.
fn put_row(out: &mut [u8], at: usize, held: Held)
    ensures { out.new ≡ sets out.old at (invocation_row (position_of held.place) held.end held.bits held.leg held.parent held.reason) }
{
    let mut row = [0u8; WIDTH];
    wire::put_u32(&mut row, 0, held.place.outer);
    put_flagged(&mut row, 4, u64::from(held.place.inner));
    put_flagged(&mut row, 9, held.place.height);
    wire::put_u32(&mut row, 14, held.end);
    wire::put_byte(&mut row, 18, held.bits);
    wire::put_u32(&mut row, 19, held.leg);
    wire::put_u32(&mut row, 23, held.parent);
    wire::put_byte(&mut row, 27, held.reason);
    wire::put(out, at, &row);
}

// The bits of what an invocation has itself: reason 0 is a transfer.
#[tactic(auto, unfolding(crate::specs::Arrays::own_bits))]
fn own_bits(reason: u8, leg: u32) -> u8
    ensures { result ≡ own_bits reason leg }
{
    u8::from(reason == 0) * 32 + u8::from(leg != 0) * 16
}

// What an invocation has itself, for those around it: 1 a transfer, 2 a leg.
#[tactic(auto, unfolding(crate::specs::Arrays::own_for))]
fn own_for(reason: u8, leg: u32) -> u8
    ensures { result ≡ own_for reason leg }
{
    u8::from(reason == 0) + u8::from(leg != 0) * 2
}

// The same for n invocations.
fn put_own(n: usize, reasons: &[u8; 1024], leg: &[u32; 1024], own: &mut [u8; 1024])
    requires { n ≤ 1024 }
    ensures { own.new ≡ sets own.old 0 (owns_of reasons.now leg.now n) }
{
    for i in 0..n {
        own[i] = own_for(reasons[i], leg[i]);
    }
}

// All bits of invocation i.
fn bits(
    programs: &[Id; 1024],
    inside: &[u8; 1024],
    reasons: &[u8; 1024],
    leg: &[u32; 1024],
    i: usize,
) -> u8
    requires { (i < 1024) × (get_or inside.now i 0 ≤ 3) }
    ensures { result ≡ bits_at programs.now inside.now reasons.now leg.now i }
{
    inside[i] + program_bits(programs[i]) + own_bits(reasons[i], leg[i])
}

// The rows of the n invocations, by why each has no transfer, if it has none, and which leg. Answers the calls of `descendant`.
pub(crate) fn put_rows(
    n: usize,
    places: &[Place; 1024],
    programs: &[Id; 1024],
    reasons: &[u8; 1024],
    leg: &[u32; 1024],
    out: &mut [u8],
) -> u32
    requires { n ≤ 1024 }
    ensures { FillsEach (positions places.now n)
        programs.now reasons.now leg.now result out.old out.new }
{
    let mut own = [0u8; 1024];
    put_own(n, reasons, leg, &mut own);
    let mut ends = [0u32; 1024];
    let mut inside = [0u8; 1024];
    let mut parents = [0u32; 1024];
    let tests = subtrees::subtrees(n, places, &own, &mut ends, &mut inside, &mut parents);
    for i in 0..n {
        let held = Held {
            place: places[i],
            end: ends[i],
            bits: bits(programs, &inside, reasons, leg, i),
            leg: leg[i],
            parent: parents[i],
            reason: reasons[i],
        };
        put_row(out, i * WIDTH, held);
    }
    tests
}
