// Where an invocation was run, as an array holds it.

// Its outer index; its inner index and its height, each one higher than it is, 0 where there is none. They are codes, since every call zeroes 1,024 of these:
// an `Option<u64>` would double that, and the height keeps 64 bits so that nothing is asked of who makes a place.
#[derive(Clone, Copy)]
pub struct Place {
    pub outer: u32,
    pub inner: u32,
    pub height: u64,
}

// The place of the first outer instruction, which an array is full of before it is written.
pub const BLANK: Place = Place {
    outer: 0,
    inner: 0,
    height: 0,
};
