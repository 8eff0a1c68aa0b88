// The plain finder, made to be read aloud: the end of an invocation's block, the bits inside it and its direct children, by visiting every member.
//
// `subtrees` finds the same for all invocations at once, by passing over blocks that it knows. Here nothing is known beforehand. docs/TREE.md reads it line by
// line.
#![tactic(auto)]

ghost use Rattle.std.specs.Prelude.{◌≡◌, ◌+◌, ◌≤◌, ◌<◌, length};
ghost use Rattle.subtrees.specs.Subtrees.{positions, taken, filled};
ghost use Rattle.finder.specs.Children.{children_of};
ghost use Rattle.finder.specs.Found.{all_positions, FoundFrom, FoundBlock};

use pack::Place;
use subtrees::{descendant, joined};

// The invocations, in the order in which they began to run: where each was run, and what it has itself (1 a transfer, 2 a swap).
#[derive(Clone, Copy)]
struct Run<'a> {
    places: &'a [Place],
    own: &'a [u8; 1024],
    ghost few: { length places.now ≤ 1024 },
}

// Where a block ends, what lies inside it (1 a transfer, 2 a swap), and how many members were visited.
#[derive(Clone, Copy)]
pub struct Found {
    pub end: u32,
    pub inside: u8,
    pub visits: u32,
}

// The first n invocations of two arrays; 1,024 where n is greater.
fn first<'a>(n: usize, places: &'a [Place; 1024], own: &'a [u8; 1024]) -> Run<'a>
    ensures places { all_positions result.places.now ≡ positions places.now (taken n) }
    ensures own { result.own.now ≡ own.now }
{
    Run {
        places: &places[..n.min(1024)],
        own,
    }
}

// The block of invocation i from position `at` on. If invocation `at` is a descendant of i, it is a child of i: find the child's block, then go on where that
// ends. If it is none, the block of i ends here.
fn find(run: &Run, i: usize, at: usize) -> Found
    requires { let n = length run.now.places.now in (i < n) × (at ≤ n) }
    ensures { FoundFrom (all_positions run.now.places.now) run.now.own.now i at result }
{
    if at == run.places.len() || !descendant(run.places[i], run.places[at]) {
        return Found {
            end: at as u32,
            inside: 0,
            visits: 0,
        };
    }
    let child = find(run, at, at + 1);
    let rest = find(run, i, child.end as usize);
    Found {
        end: rest.end,
        inside: joined(run.own[at], joined(child.inside, rest.inside)),
        visits: 1 + child.visits + rest.visits,
    }
}

// The block of invocation i; all 0 where there is no such invocation.
pub fn block(n: usize, places: &[Place; 1024], own: &[u8; 1024], i: usize) -> Found
    ensures { FoundBlock (positions places.now (taken n)) own.now i result }
{
    let run = first(n, places, own);
    if run.places.len() <= i {
        return Found {
            end: 0,
            inside: 0,
            visits: 0,
        };
    }
    find(&run, i, i + 1)
}

// The direct children of invocation i, ascending, and how many they are. The first stands behind i, each other one where the block before it ends.
pub fn children(
    n: usize,
    places: &[Place; 1024],
    own: &[u8; 1024],
    i: usize,
    list: &mut [u32; 1024],
) -> usize
    ensures { (list.new ≡ filled (children_of (positions places.now (taken n)) i))
        × (result ≡ length (children_of (positions places.now (taken n)) i)) }
{
    *list = [0; 1024];
    let run = first(n, places, own);
    if run.places.len() <= i {
        return 0;
    }
    let mut count = 0;
    // A `while`: it goes on where a block ends.
    let mut at = i + 1;
    while at < run.places.len() && descendant(run.places[i], run.places[at]) {
        list[count] = at as u32;
        count += 1;
        at = find(&run, at, at + 1).end as usize;
    }
    count
}
