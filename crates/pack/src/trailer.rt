// The last 24 bytes of a pack: five section starts and the mark.
ghost use Rattle.std.specs.Prelude.{◌≡◌, ◌-◌, length};
ghost use Rattle.pack.specs.Sections.{start_of, section_of, marked as marked_of, ordered as ordered_of};

// Whether the pack has a size that is taken, and the mark at its end.
pub(crate) fn marked(pack: &[u8]) -> bool
    ensures { result ≡ marked_of pack.now }
{
    (24..=61440).contains(&pack.len()) && pack.ends_with(b"RTP1")
}

// Where the trailer stands.
fn trailer_at(pack: &[u8]) -> usize
    ensures { result ≡ length pack.now - 24 }
{
    pack.len().saturating_sub(24)
}

// Where section k starts; the trailer's place for k above 4.
pub(crate) fn start(pack: &[u8], k: usize) -> usize
    ensures { result ≡ start_of pack.now k }
{
    let t = trailer_at(pack);
    if k < 5 {
        wire::u32_at(pack, t + k * 4) as usize
    } else {
        t
    }
}

// Whether the starts begin with 0, never fall, and stay before the trailer.
pub(crate) fn ordered(pack: &[u8]) -> bool
    ensures { result ≡ ordered_of pack.now }
{
    start(pack, 0) == 0 && (0..5).all(|k| start(pack, k) <= start(pack, k + 1))
}

// Section k, a part of the pack; empty where the starts do not allow it.
pub fn section(pack: &[u8], k: usize) -> &[u8]
    ensures { result.now ≡ section_of pack.now k }
{
    if 5 <= k {
        return &[];
    }
    let sections = &pack[..trailer_at(pack)];
    sections
        .get(start(pack, k)..start(pack, k + 1))
        .unwrap_or(&[])
}
