// Numbers and runs of bytes in slices, least byte first.
//
// Every function is total: a byte past the end reads as 0, and a store past the end does nothing. So a contract is one equation, with no condition on
// offsets, and no caller has to prove that a field fits. Where all bytes of a number are there, it is read and stored by one load or store; what runs past
// the end has a path of its own. Runs are compared eight bytes at a time.
//
// No call in the library answers with an `Option` of a reference to one value, as `get` of a place and `first_chunk` do, and `copy_within` in its bounds; nor does
// one read an address as a number, as `copy_from_slice` does. Both are otherwise where addresses have 32 bits, so bindings/library/fit.py refuses them.
#![tactic(auto)]

ghost use Rattle.std.specs.Prelude.{◌≡◌, ℕ, ◌+◌, ◌-◌, ◌<◌, ◌≤◌, ◌++◌, length, get_or, set, take};
ghost use Rattle.std.proofs.lemmas.List.Edits.{sets};
ghost use Rattle.wire.specs.Le.{le, le_bytes};
ghost use Rattle.wire.specs.Same.{same};
ghost use Rattle.wire.specs.Order.{lt_key};
ghost use Rattle.wire.specs.Zeros.{zeros};

// The byte at `at`.
pub fn byte(s: &[u8], at: usize) -> u8
    ensures { result ≡ get_or s.now at 0 }
{
    if at < s.len() { s[at] } else { 0 }
}

// The first n bytes of a run, and zeros after them. Where n is N the compiler makes one load of it.
fn front<const N: usize>(s: &[u8], n: usize) -> [u8; N]
    requires { (n ≤ N) × (n ≤ length s.now) }
    ensures { result ≡ take n s.now ++ zeros (N - n) }
{
    let mut bytes = [0; N];
    for k in 0..n {
        bytes[k] = s[k];
    }
    bytes
}

// The bytes of a run that is too short for a number, and zeros after them. Out of line, so that a reader's own code is one load and its test.
#[cold]
#[inline(never)]
fn padded<const N: usize>(s: &[u8]) -> [u8; N]
    requires { length s.now < N }
    ensures { result ≡ s.now ++ zeros (N - length s.now) }
{
    front(s, s.len())
}

// The N bytes from `at` on.
fn bytes_at<const N: usize>(s: &[u8], at: usize) -> [u8; N]
    ensures { (k : ℕ) → k < N → get_or result k 0 ≡ get_or s.now (at + k) 0 }
{
    match s.get(at..) {
        Some(rest) if N <= rest.len() => front(rest, N),
        Some(rest) => padded(rest),
        None => [0; N],
    }
}

pub fn u16_at(s: &[u8], at: usize) -> u16
    ensures { result ≡ le 2 s.now at }
{
    u16::from_le_bytes(bytes_at(s, at))
}

pub fn u32_at(s: &[u8], at: usize) -> u32
    ensures { result ≡ le 4 s.now at }
{
    u32::from_le_bytes(bytes_at(s, at))
}

pub fn u64_at(s: &[u8], at: usize) -> u64
    ensures { result ≡ le 8 s.now at }
{
    u64::from_le_bytes(bytes_at(s, at))
}

// Stores one byte.
pub fn put_byte(d: &mut [u8], at: usize, x: u8)
    ensures { d.new ≡ set d.old at x }
{
    if at < d.len() {
        d[at] = x;
    }
}

// Stores bytes that fit: the compiler makes one store of it.
fn lay_bytes<const N: usize>(d: &mut [u8], at: usize, bytes: [u8; N])
    requires { at + N ≤ length d.old }
    ensures { d.new ≡ sets d.old at bytes.entry }
{
    for k in 0..N {
        d[at + k] = bytes[k];
    }
}

// Stores the bytes of a number that runs past the end, as many as there is room for. Out of line, so that a writer's own code is one store and its test.
#[cold]
#[inline(never)]
fn put_cut<const N: usize>(d: &mut [u8], at: usize, bytes: [u8; N])
    ensures { d.new ≡ sets d.old at bytes.entry }
{
    put(d, at, &bytes);
}

// Stores the bytes of a number, at once where they fit.
fn put_bytes<const N: usize>(d: &mut [u8], at: usize, bytes: [u8; N])
    ensures { d.new ≡ sets d.old at bytes.entry }
{
    if d.len() <= at {
        return;
    }
    if N <= d.len() - at {
        lay_bytes(d, at, bytes);
    } else {
        put_cut(d, at, bytes);
    }
}

pub fn put_u32(d: &mut [u8], at: usize, x: u32)
    ensures { d.new ≡ sets d.old at (le_bytes 4 x) }
{
    put_bytes(d, at, x.to_le_bytes());
}

pub fn put_u64(d: &mut [u8], at: usize, x: u64)
    ensures { d.new ≡ sets d.old at (le_bytes 8 x) }
{
    put_bytes(d, at, x.to_le_bytes());
}

// Copies a run over one that is as long, eight bytes at a time: where the length is known these are plain moves. The slices' own copy of a run brings along a
// second path, for runs that overlap.
fn lay(d: &mut [u8], s: &[u8])
    requires { length d.old ≡ length s.now }
    ensures { d.new ≡ s.now }
{
    let (eights, rest) = s.as_chunks::<8>();
    for i in 0..eights.len() {
        lay_bytes(d, i * 8, eights[i]);
    }
    let from = eights.len() * 8;
    for j in 0..rest.len() {
        d[from + j] = rest[j];
    }
}

// Copies the part of a run that there is room for. Out of line, so that a writer's own code is one copy and its test.
#[cold]
#[inline(never)]
fn lay_part(d: &mut [u8], s: &[u8])
    requires { length d.old ≡ length s.now }
    ensures { d.new ≡ s.now }
{
    lay(d, s);
}

// Copies a run into a row.
pub fn put(d: &mut [u8], at: usize, s: &[u8])
    ensures { d.new ≡ sets d.old at s.now }
{
    if d.len() <= at {
        return;
    }
    let room = d.len() - at;
    if s.len() <= room {
        lay(&mut d[at..at + s.len()], s);
    } else {
        lay_part(&mut d[at..], &s[..room]);
    }
}

// Makes every byte 0.
pub fn clear(d: &mut [u8])
    ensures { d.new ≡ zeros (length d.old) }
{
    d.fill(0);
}

// Eight bytes that are there, as a number.
fn eight(s: &[u8], i: usize) -> u64
    requires { i + 8 ≤ length s.now }
    ensures { result ≡ le 8 s.now i }
{
    u64::from_le_bytes(front(&s[i..], 8))
}

// Whether the first n bytes of two runs are the same.
fn equal_rest(a: &[u8], b: &[u8], n: usize) -> bool
    requires { (n ≤ length a.now) × (n ≤ length b.now) }
    ensures { result ≡ same (take n a.now) (take n b.now) }
{
    let mut i = n;
    while 0 < i {
        i -= 1;
        if a[i] != b[i] {
            return false;
        }
    }
    true
}

// Whether two runs are the same. The last bytes are compared first, since many keys share their opening ones, which the slices' own `==` goes through first.
pub fn equal(a: &[u8], b: &[u8]) -> bool
    ensures { result ≡ same a.now b.now }
{
    if a.len() != b.len() {
        return false;
    }
    let mut i = a.len();
    while 8 <= i {
        i -= 8;
        if eight(a, i) != eight(b, i) {
            return false;
        }
    }
    equal_rest(a, b, i)
}

// Whether a stands below b: the first byte that differs decides. The slices' own order would bring along loops for long runs.
fn less_end(a: &[u8], b: &[u8]) -> bool
    ensures { result ≡ lt_key a.now b.now }
{
    for i in 0..a.len().min(b.len()) {
        if a[i] != b[i] {
            return a[i] < b[i];
        }
    }
    a.len() < b.len()
}

// Whether a stands below b: of the first eight bytes that differ each makes a number whose first byte is the greatest.
pub fn less(a: &[u8], b: &[u8]) -> bool
    ensures { result ≡ lt_key a.now b.now }
{
    let (eights_a, _) = a.as_chunks::<8>();
    let (eights_b, _) = b.as_chunks::<8>();
    for i in 0..eights_a.len().min(eights_b.len()) {
        let x = u64::from_be_bytes(eights_a[i]);
        let y = u64::from_be_bytes(eights_b[i]);
        if x != y {
            return x < y;
        }
    }
    let from = a.len().min(b.len()) / 8 * 8;
    less_end(&a[from..], &b[from..])
}
