// The pack: its trailer, its five sections, the refusals that its bytes can meet, and the invocations that they flatten to.
//
// Total over all bytes. `flatten` answers which of the refusals 2, 3, 4, 5, 11 and 6 a pack meets, and says where each invocation's instruction stands and
// where it was run, `section` shows a part of the pack, and `program`, `accounts` and `data` read an instruction back from its offset.
#![tactic(auto)]

ghost use Rattle.std.specs.Prelude.{◌≡◌, ◌+◌, ◌≤◌, length, Err};
ghost use Rattle.wire.specs.Le.{le};
ghost use Rattle.pack.specs.Items.{item_end};
ghost use Rattle.pack.specs.Verdict.{verdict, refusal_number, place_of};

mod chain;
pub mod flat;
pub mod item;
pub mod position;
pub mod trailer;
pub mod whole;

pub use flat::flatten;
pub use item::{accounts, data, program};
pub use position::Place;
pub use trailer::section;

// What is wrong with a pack: its size or mark; its section starts; a row or item of a section, the lowest such; too many keys; a balance row that names no
// key; too many invocations.
#[derive(Clone, Copy)]
pub enum Refusal {
    Mark,
    Starts,
    Section(u32),
    Keys,
    Balances,
    Invocations,
}

impl Refusal {
    // Its number in docs/FORMAT.md.
    pub fn number(self) -> u32
        ensures { result ≡ refusal_number (Err self) }
    {
        match self {
            Refusal::Mark => 2,
            Refusal::Starts => 3,
            Refusal::Section(_) => 4,
            Refusal::Keys => 5,
            Refusal::Balances => 11,
            Refusal::Invocations => 6,
        }
    }

    // Its place: the section that is broken or names no key, else 0.
    pub fn place(self) -> u32
        ensures { result ≡ place_of (Err self) }
    {
        match self {
            Refusal::Section(k) => k,
            Refusal::Balances => 1,
            _ => 0,
        }
    }
}

// Which refusal a pack meets, in the order of the checks.
pub(crate) fn judge(pack: &[u8]) -> Result<(), Refusal>
    ensures { result ≡ verdict pack.now }
{
    if !trailer::marked(pack) {
        return Err(Refusal::Mark);
    }
    if !trailer::ordered(pack) {
        return Err(Refusal::Starts);
    }
    let keys = section(pack, 0);
    if !whole::keys(keys) {
        return Err(Refusal::Section(0));
    }
    let balances = section(pack, 1);
    if balances.len() % 36 != 0 {
        return Err(Refusal::Section(1));
    }
    let outers = whole::outers(section(pack, 2)).ok_or(Refusal::Section(2))?;
    let inners = whole::groups(section(pack, 3), outers).ok_or(Refusal::Section(3))?;
    if section(pack, 4).len() % 32 != 0 {
        return Err(Refusal::Section(4));
    }
    if 256 < keys.len() / 33 {
        return Err(Refusal::Keys);
    }
    if !whole::balances(balances, keys.len() / 33) {
        return Err(Refusal::Balances);
    }
    if 1024 < outers || 1024 - outers < inners {
        return Err(Refusal::Invocations);
    }
    Ok(())
}

// Two bytes that are there, as a number: a walk over a section tests once that a header is there, and then reads its fields without further tests. (`wire` keeps
// such readers to itself, since no public function has a `requires`.)
fn two(s: &[u8], i: usize) -> u16
    requires { i + 2 ≤ length s.now }
    ensures { result ≡ le 2 s.now i }
{
    u16::from_le_bytes([s[i], s[i + 1]])
}

// Four bytes that are there, as a number.
fn four(s: &[u8], i: usize) -> u32
    requires { i + 4 ≤ length s.now }
    ensures { result ≡ le 4 s.now i }
{
    u32::from_le_bytes([s[i], s[i + 1], s[i + 2], s[i + 3]])
}

// Where the instruction at an offset of a section ends; its header is there.
fn item_end(s: &[u8], at: usize) -> usize
    requires { at + 8 ≤ length s.now }
    ensures { result ≡ item_end s.now at }
{
    at + 8 + two(s, at + 4) as usize + two(s, at + 6) as usize
}
