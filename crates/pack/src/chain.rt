// The groups of a pack that are kept and not empty, chained by the outer instruction that they name.
//
// Only these are remembered, and a chain leads from each to the next of its outer instruction, so that the work grows with the pack and not with the number
// of outer instructions times the number of groups.
ghost use Rattle.std.specs.Prelude.{◌≡◌, true, ℕ, ◌≤◌, ◌<◌, length, get_or, take};
ghost use Rattle.std.proofs.lemmas.List.Edits.{sets};
ghost use Rattle.wire.specs.Le.{le};
ghost use Rattle.wire.specs.Zeros.{zeros};
ghost use Rattle.pack.specs.Items.{outers_at, outers_whole, inners_end, groups_whole};
ghost use Rattle.pack.specs.Verdict.{verdict, refusal_number};
ghost use Rattle.pack.specs.Loops.{keeps as keeps_of, kept_at, Linked, AllChained};

// The groups that are remembered: where each stands in section 3, and, one higher than it is, the next of its outer instruction and the first of each outer
// instruction, 0 where there is none. They are codes of 16 bits each, since every call has to zero them.
#[derive(Drop)]
pub(crate) struct Chains {
    pub(crate) place: [u16; 1024],
    pub(crate) next: [u16; 1024],
    pub(crate) first: [u16; 1024],
}

// Where n instructions of a group end, from `at` on.
fn inners_end(s: &[u8], n: usize, at: usize) -> usize
    requires { inners_end s.now n at ≤ length s.now }
    ensures { result ≡ inners_end s.now n at }
{
    let mut to = at;
    for _ in 0..n {
        to = super::item_end(s, to + 5);
    }
    to
}

// Whether a group is remembered.
fn keeps(s: &[u8], o: usize, g: usize) -> bool
    requires { g ≤ length s.now }
    ensures { result ≡ keeps_of s.now o g }
{
    (wire::u32_at(s, g) as usize) < o && 0 < wire::u16_at(s, g + 4)
}

// Where the groups that are remembered start. A `while`: a group says where the next one starts.
fn kept_places(s: &[u8], o: usize, place: &mut [u16; 1024]) -> usize
    requires { (groups_whole s.now ≡ true) × (length (kept_at s.now o) ≤ 1024) × (length s.now ≤ 61440) }
    ensures { (result ≡ length (kept_at s.now o)) × (place.new ≡ sets place.old 0 (kept_at s.now o)) }
{
    let mut at = 0;
    let mut n = 0;
    while at < s.len() {
        let g = at;
        at = inners_end(s, wire::u16_at(s, g + 4) as usize, g + 6);
        if keeps(s, o, g) {
            place[n] = g as u16;
            n += 1;
        }
    }
    n
}

// Chains the groups of each outer instruction, the last group first.
fn link(s: &[u8], n: usize, chains: &mut Chains)
    requires n_bound { (n ≤ 1024) × (chains.old.first ≡ zeros 1024) }
    requires by_index { (k : ℕ) → k < n → (get_or chains.old.place k 0 ≤ 61440) × (le 4 s.now (get_or chains.old.place k 0) < 1024) }
    ensures { (chains.new.place ≡ chains.old.place) × Linked s.now (take n chains.old.place) chains.new.next chains.new.first }
{
    for k in (0..n).rev() {
        let i = wire::u32_at(s, chains.place[k] as usize) as usize;
        chains.next[k] = chains.first[i];
        chains.first[i] = k as u16 + 1;
    }
}

// All of it, for a pack that no refusal meets.
pub(crate) fn chain(pack: &[u8], chains: &mut Chains)
    requires { (refusal_number (verdict pack.now) ≡ 0) × (chains.old.first ≡ zeros 1024) }
    ensures { AllChained pack.now chains.new }
{
    let o = super::whole::outers(super::section(pack, 2)).unwrap_or(0);
    let s = super::section(pack, 3);
    let n = kept_places(s, o, &mut chains.place);
    link(s, n, chains);
}
