// Reading back an instruction that stands at an offset of a pack: what these three answer is `instruction_at` of that offset.
//
// Total, as the readers of `wire` are: past the end of the pack there are zeros and no bytes. Whether a header is there is tested once.
ghost use Rattle.std.specs.Prelude.{◌≡◌, take, drop};
ghost use Rattle.pack.specs.Invocation.{instruction_at};

// What stands from an offset on.
fn rest(s: &[u8], at: usize) -> &[u8]
    ensures { result.now ≡ drop at s.now }
{
    s.get(at..).unwrap_or(&[])
}

// The first n bytes, as many as there are.
fn first(s: &[u8], n: usize) -> &[u8]
    ensures { result.now ≡ take n s.now }
{
    s.get(..n).unwrap_or(s)
}

// The index of the program's key.
pub fn program(pack: &[u8], at: usize) -> u32
    ensures { result ≡ (instruction_at pack.now at).program }
{
    wire::u32_at(pack, at)
}

// The indexes of the accounts' keys, one byte each.
pub fn accounts(pack: &[u8], at: usize) -> &[u8]
    ensures { result.now ≡ (instruction_at pack.now at).accounts }
{
    let item = rest(pack, at);
    if item.len() < 8 {
        return &[];
    }
    first(&item[8..], super::two(item, 4) as usize)
}

// The instruction's data.
pub fn data(pack: &[u8], at: usize) -> &[u8]
    ensures { result.now ≡ (instruction_at pack.now at).bytes }
{
    let item = rest(pack, at);
    if item.len() < 8 {
        return &[];
    }
    let from = 8 + super::two(item, 4) as usize;
    first(rest(item, from), super::two(item, 6) as usize)
}
