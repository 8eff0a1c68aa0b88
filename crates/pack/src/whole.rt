// Whether rows, instructions and groups fill their section, how many there are, and whether balances name keys.
ghost use Rattle.std.specs.Prelude.{◌≡◌, cond, ◌+◌, ◌≤◌, ltb, length, Some, None};
ghost use Rattle.wire.specs.Le.{le};
ghost use Rattle.pack.specs.Items.{keys_fill, outers_whole, height_good, inners_good, inners_end, groups_whole};
ghost use Rattle.pack.specs.View.{balances_in, balances_named, outer_in, groups_in};
ghost use Rattle.pack.specs.Flatten.{kept_in};

// Section 0: rows of 33 bytes, the first of each a flag.
pub(crate) fn keys(s: &[u8]) -> bool
    ensures { result ≡ keys_fill s.now }
{
    s.len() % 33 == 0 && (0..s.len() / 33).all(|i| s[i * 33] <= 1)
}

// Section 1: whether the account index of every row, whatever its mint is, is below the number of keys.
pub(crate) fn balances(s: &[u8], keys: usize) -> bool
    ensures { result ≡ balances_named keys (balances_in s.now) }
{
    (0..s.len() / 36).all(|i| (super::four(s, i * 36) as usize) < keys)
}

// Section 2: instructions. A `while`, as in the other walks over items: each item says by its bytes where the next one starts.
pub(crate) fn outers(s: &[u8]) -> Option<usize>
    ensures { result ≡ cond (outers_whole s.now) (Some (length (outer_in s.now))) None }
{
    let mut at = 0;
    let mut n = 0;
    while at < s.len() {
        if s.len() - at < 8 {
            return None;
        }
        let end = super::item_end(s, at);
        if s.len() < end {
            return None;
        }
        at = end;
        n += 1;
    }
    Some(n)
}

// Flag 0 and height 0, or flag 1.
fn height_good(s: &[u8], at: usize) -> bool
    requires { at + 5 ≤ length s.now }
    ensures { result ≡ height_good s.now at }
{
    let flag = s[at];
    if flag == 0 {
        return super::four(s, at + 1) == 0;
    }
    flag == 1
}

// A group's instructions, n of them from `at` on.
fn inners(s: &[u8], n: usize, at: usize) -> Option<usize>
    requires { at ≤ length s.now }
    ensures { result ≡ cond (inners_good s.now n at) (Some (inners_end s.now n at)) None }
{
    let mut to = at;
    for _ in 0..n {
        if s.len() - to < 13 {
            return None;
        }
        let end = super::item_end(s, to + 5);
        if s.len() < end {
            return None;
        }
        if !height_good(s, to) {
            return None;
        }
        to = end;
    }
    Some(to)
}

// What a group of n instructions adds to those kept: nothing where it names none of the o outer instructions.
fn kept(s: &[u8], at: usize, o: usize, n: usize) -> usize
    ensures { result ≡ cond (ltb (le 4 s.now at) o) n 0 }
{
    if (wire::u32_at(s, at) as usize) < o {
        n
    } else {
        0
    }
}

// Section 3: groups; how many instructions those hold that name one of the o outer instructions. A `while`: a group says where the next one starts.
pub(crate) fn groups(s: &[u8], o: usize) -> Option<usize>
    ensures { result ≡ cond (groups_whole s.now) (Some (kept_in o (groups_in s.now))) None }
{
    let mut at = 0;
    let mut n = 0;
    while at < s.len() {
        if s.len() - at < 6 {
            return None;
        }
        let count = wire::u16_at(s, at + 4) as usize;
        let end = inners(s, count, at + 6)?;
        n += kept(s, at, o, count);
        at = end;
    }
    Some(n)
}
