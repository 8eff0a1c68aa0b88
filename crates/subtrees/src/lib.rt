// Subtrees: where the block of each invocation ends, which transfers and swaps lie inside it, which invocation is its parent, and how many calls of
// `descendant` that takes.
//
// The arrays are filled from the last invocation backwards. A block that is known is passed whole, and that once at most, by its parent. For every content of
// the arrays the answers are those of the definitions over the positions that the places stand for, and the calls are at most 2n - 2.
#![tactic(auto)]

ghost use Rattle.std.specs.Prelude.{◌≡◌, ◌+◌, ◌≤◌, ◌<◌, length};
ghost use Rattle.pack.specs.Invocation.{position_of};
ghost use Rattle.subtrees.specs.Descendant.{descendant};
ghost use Rattle.subtrees.specs.Subtrees.{positions, taken, joined, Known, Parented, Stepped, Subtrees};

use pack::Place;

// What one step finds: the end of an invocation, the bits inside its block, and how often it called `descendant`.
#[derive(Clone, Copy)]
struct Subtree {
    end: u32,
    inside: u8,
    tests: u32,
}

// Whether an invocation is a descendant of another, by the places where they were run: it is a later one of the same outer, and where the other is an inner one
// too, it is of a greater height, both heights being known.
pub fn descendant(parent: Place, child: Place) -> bool
    ensures { result ≡ descendant (position_of parent) (position_of child) }
{
    let later = parent.inner < child.inner;
    let higher = 0 < parent.height && parent.height < child.height;
    parent.outer == child.outer && later && (parent.inner == 0 || higher)
}

// The bits of two bytes together.
pub fn joined(a: u8, b: u8) -> u8
    ensures { result ≡ joined a b }
{
    (a | b) & 3
}

// One invocation, where those after it are known. It is the parent of those whose blocks it jumps over.
fn step(
    n: usize,
    places: &[Place; 1024],
    own: &[u8; 1024],
    ends: &[u32; 1024],
    inside: &[u8; 1024],
    parents: &mut [u32; 1024],
    i: usize,
) -> Subtree
    requires i_lt_n { (i < n) × (n ≤ 1024) × (length parents.old ≡ 1024) }
    requires known { Known (positions places.now n) own.now ends.now inside.now (i + 1) }
    requires parented { Parented (positions places.now n) parents.old (i + 1) }
    ensures { Stepped (positions places.now n) own.now i result.end result.inside result.tests parents.new }
{
    // A `while`: it goes on where a block ends.
    let mut e = i + 1;
    let mut bits: u8 = 0;
    let mut tests: u32 = 0;
    while e < n {
        tests += 1;
        if !descendant(places[i], places[e]) {
            break;
        }
        bits = joined(bits, joined(own[e], inside[e]));
        parents[e] = (i + 1) as u32;
        e = ends[e] as usize;
    }
    Subtree {
        end: e as u32,
        inside: bits,
        tests,
    }
}

// The ends, the inside bits, the parents and the tests of the first n invocations; of 1,024 where n is greater.
pub fn subtrees(
    n: usize,
    places: &[Place; 1024],
    own: &[u8; 1024],
    ends: &mut [u32; 1024],
    inside: &mut [u8; 1024],
    parents: &mut [u32; 1024],
) -> u32
    ensures { Subtrees (positions places.now (taken n)) own.now result ends.new inside.new parents.new }
{
    *ends = [0; 1024];
    *inside = [0; 1024];
    *parents = [0; 1024];
    let count = n.min(1024);
    let mut total = 0;
    for i in (0..count).rev() {
        let found = step(count, places, own, ends, inside, parents, i);
        ends[i] = found.end;
        inside[i] = found.inside;
        total += found.tests;
    }
    total
}
