// Flattening: the invocations of a pack in execution order, in two arrays: where each instruction stands, and where it was run.
ghost use Rattle.std.specs.Prelude.{◌≡◌, ◌+◌, ◌≤◌, length};
ghost use Rattle.pack.specs.Items.{height_at, count_at, group_end, groups_at};
ghost use Rattle.pack.specs.Verdict.{verdict, refusal_number, verdict_in, count_in};
ghost use Rattle.pack.specs.Layout.{members_at, inside_at, raised, Wrote, layout, Flattened};
ghost use Rattle.pack.specs.Loops.{Chained, AllChained};

use super::Refusal;
use super::chain::Chains;
use super::position::{BLANK, Place};

// A height as the arrays hold it.
fn height_code(s: &[u8], at: usize) -> u64
    requires { at + 5 ≤ length s.now }
    ensures { result ≡ raised (height_at s.now at) }
{
    if s[at] == 0 {
        return 0;
    }
    super::four(s, at + 1) as u64 + 1
}

// How far the invocations are written: where the section of groups starts in the pack, the outer instruction whose groups come next, and the index of the
// arrays that they go to.
#[derive(Clone, Copy)]
struct Way {
    base: usize,
    outer: u32,
    index: usize,
}

// The instructions of the group at g; what is answered is the index that is then reached.
fn members(s: &[u8], g: usize, way: Way, at: &mut [u32; 1024], places: &mut [Place; 1024]) -> usize
    requires { (way.index + count_at s.now g ≤ 1024) × (group_end s.now g ≤ length s.now) × (way.base + length s.now ≤ 61440) }
    ensures { Wrote (members_at s.now way.base way.outer g) way.index result at.old at.new places.old places.new }
{
    let count = wire::u16_at(s, g + 4) as usize;
    let mut to = g + 6;
    for j in 0..count {
        let k = way.index + j;
        let header = to + 5;
        at[k] = (way.base + header) as u32;
        places[k] = Place {
            outer: way.outer,
            inner: j as u32 + 1,
            height: height_code(s, to),
        };
        to = super::item_end(s, header);
    }
    way.index + count
}

// The groups of an outer instruction, one after the other.
fn own_groups(
    s: &[u8],
    chains: &Chains,
    mut way: Way,
    at: &mut [u32; 1024],
    places: &mut [Place; 1024],
) -> usize
    requires chained { Chained s.now chains.now way.outer }
    requires s_bound { way.index + length (inside_at s.now way.base way.outer (groups_at s.now)) ≤ 1024 }
    requires s_bound_2 { way.base + length s.now ≤ 61440 }
    ensures { Wrote (inside_at s.now way.base way.outer (groups_at s.now)) way.index result at.old at.new places.old places.new }
{
    // A `while`: the chain says which group comes next.
    let mut c = chains.first[way.outer as usize] as usize;
    while 0 < c {
        way.index = members(s, chains.place[c - 1] as usize, way, at, places);
        c = chains.next[c - 1] as usize;
    }
    way.index
}

// Each outer instruction with its groups, which the chains lead to, of a pack that no refusal meets.
fn spread(pack: &[u8], chains: &Chains, at: &mut [u32; 1024], places: &mut [Place; 1024]) -> usize
    requires { (refusal_number (verdict pack.now) ≡ 0) × AllChained pack.now chains.now }
    ensures { Wrote (layout pack.now) 0 result at.old at.new places.old places.new }
{
    let outs = super::section(pack, 2);
    let s = super::section(pack, 3);
    let from = super::trailer::start(pack, 2);
    let base = super::trailer::start(pack, 3);
    let mut way = Way {
        base,
        outer: 0,
        index: 0,
    };
    // A `while`: an instruction says where the next one starts.
    let mut to = 0;
    while to < outs.len() {
        at[way.index] = (from + to) as u32;
        places[way.index] = Place {
            outer: way.outer,
            inner: 0,
            height: 2,
        };
        way.index += 1;
        way.index = own_groups(s, chains, way, at, places);
        way.outer += 1;
        to = super::item_end(outs, to);
    }
    way.index
}

// The invocations of a pack that no refusal meets.
fn fill(pack: &[u8], at: &mut [u32; 1024], places: &mut [Place; 1024]) -> usize
    requires { refusal_number (verdict pack.now) ≡ 0 }
    ensures { Wrote (layout pack.now) 0 result at.old at.new places.old places.new }
{
    let mut chains = Chains {
        place: [0; 1024],
        next: [0; 1024],
        first: [0; 1024],
    };
    super::chain::chain(pack, &mut chains);
    spread(pack, &chains, at, places)
}

// The invocations of a pack in execution order, and how many they are; the arrays are blank behind them, and all of them where the pack is refused. It judges
// the pack, so a caller need not.
pub fn flatten(
    pack: &[u8],
    at: &mut [u32; 1024],
    places: &mut [Place; 1024],
) -> Result<usize, Refusal>
    ensures verdict { verdict_in result ≡ verdict pack.now }
    ensures arrays { Flattened pack.now (count_in result) at.new places.new }
{
    *at = [0; 1024];
    *places = [BLANK; 1024];
    super::judge(pack)?;
    Ok(fill(pack, at, places))
}
