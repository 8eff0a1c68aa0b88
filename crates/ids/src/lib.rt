// Keys and ids: the key at an index, which program it is, and keys and mints as fields of a row.
//
// The fourteen ids of the original stand in one table, whose rule (no two rows share their fifth byte, none has a zero there) is computed once. A missing key
// is the stand-in handed in beside the keys, and a program is resolved only in range with flag 1.
#![tactic(auto)]

ghost use Rattle.std.specs.Prelude.{◌≡◌, ◌<◌};
ghost use Rattle.std.proofs.lemmas.List.Edits.{sets};
ghost use Rattle.wire.specs.Same.{same};
ghost use Rattle.ids.specs.Ids.{id_at, is_wrapped_sol};
ghost use Rattle.ids.specs.Keys.{key_at, key_of, key_count};
ghost use Rattle.ids.specs.Mints.{is_mint, mint_of, mint_field};
ghost use Rattle.ids.specs.Which.{of_number, row_by_fifth, which};

pub mod programs;

static IDS: [u8; 448] = *b"\
    \x06\xdd\xf6\xe1\xd7\x65\xa1\x93\xd9\xcb\xe1\x46\xce\xeb\x79\xac\x1c\xb4\x85\xed\x5f\x5b\x37\x91\x3a\x8c\xf5\x85\x7e\xff\x00\xa9\
    \x06\xdd\xf6\xe1\xee\x75\x8f\xde\x18\x42\x5d\xbc\xe4\x6c\xcd\xda\xb6\x1a\xfc\x4d\x83\xb9\x0d\x27\xfe\xbd\xf9\x28\xd8\xa1\x8b\xfc\
    \x06\x9b\x88\x57\xfe\xab\x81\x84\xfb\x68\x7f\x63\x46\x18\xc0\x35\xda\xc4\x39\xdc\x1a\xeb\x3b\x55\x98\xa0\xf0\x00\x00\x00\x00\x01\
    \x03\x06\x46\x6f\xe5\x21\x17\x32\xff\xec\xad\xba\x72\xc3\x9b\xe7\xbc\x8c\xe5\xbb\xc5\xf7\x12\x6b\x2c\x43\x9b\x3a\x40\x00\x00\x00\
    \x8c\x97\x25\x8f\x4e\x24\x89\xf1\xbb\x3d\x10\x29\x14\x8e\x0d\x83\x0b\x5a\x13\x99\xda\xff\x10\x84\x04\x8e\x7b\xd8\xdb\xe9\xf8\x59\
    \x05\x4a\x53\x5a\x99\x29\x21\x06\x4d\x24\xe8\x71\x60\xda\x38\x7c\x7c\x35\xb5\xdd\xbc\x92\xbb\x81\xe4\x1f\xa8\x40\x41\x05\x44\x8d\
    \x01\x56\xe0\xf6\x93\x66\x5a\xcf\x44\xdb\x15\x68\xbf\x17\x5b\xaa\x51\x89\xcb\x97\xf5\xd2\xff\x3b\x65\x5d\x2b\xb6\xfd\x6d\x18\xb0\
    \x05\x04\x3b\x95\x4d\xca\x26\xe1\xef\x91\xb5\x2c\x4f\x8f\x89\xaf\x8a\x6f\x5a\xc8\xc6\x21\x56\xf1\x71\xcf\x0f\x21\xac\x51\xc9\x22\
    \x0c\x14\xde\xfc\x82\x5e\xc6\x76\x94\x25\x08\x18\xbb\x65\x40\x65\xf4\x29\x8d\x31\x56\xd5\x71\xb4\xd4\xf8\x09\x0c\x18\xe9\xa8\x63\
    \xa5\xd5\xca\x9e\x04\xcf\x5d\xb5\x90\xb7\x14\xba\x2f\xe3\x2c\xb1\x59\x13\x3f\xc1\xc1\x92\xb7\x22\x57\xfd\x07\xd3\x9c\xb0\x40\x1e\
    \xa9\x2a\x5a\x8b\x4f\x29\x59\x52\x84\x25\x50\xaa\x93\xfd\x5b\x95\xb5\xac\xe6\xa8\xeb\x92\x0c\x93\x94\x2e\x43\x69\x0c\x20\xec\x73\
    \x4b\xd9\x49\xc4\x36\x02\xc3\x3f\x20\x77\x90\xed\x16\xa3\x52\x4c\xa1\xb9\x97\x5c\xf1\x21\xa2\xa9\x0c\xff\xec\x7d\xf8\xb6\x8a\xcd\
    \x0e\x03\x68\x5f\x8e\x90\x90\x53\xe4\x58\x12\x1c\x66\xf5\xa7\x6a\xed\xc7\x70\x6a\xa1\x1c\x82\xf8\xaa\x95\x2a\x8f\x2b\x78\x79\xa9\
    \x04\xe9\xe1\x2f\xbc\x84\xe8\x26\xc9\x32\xcc\xe9\xe2\x64\x0c\xce\x15\x59\x0c\x1c\x62\x73\xb0\x92\x57\x08\xba\x3b\x85\x20\xb0\xbc";

// Which program a key is: a row of the table, the System program (a resolved zero key), any other, or a program that is not resolved.
#[derive(Clone, Copy)]
pub enum Id {
    SplToken,
    Token2022,
    WrappedSol,
    ComputeBudget,
    AssociatedToken,
    Memo,
    PumpFun,
    LaunchLab,
    PumpSwap,
    Clmm,
    Cpmm,
    AmmV4,
    Orca,
    Dlmm,
    System,
    Other,
    Unresolved,
}

// How many whole rows stand in the key section.
pub fn key_count(keys: &[u8]) -> usize
    ensures { result ≡ key_count keys.now }
{
    keys.len() / 33
}

// The 32 bytes of row `index`, as a part of the key section, or the stand-in.
pub fn key<'a>(keys: &'a [u8], blank: &'a [u8], index: usize) -> &'a [u8]
    ensures { result.now ≡ key_at keys.now blank.now index }
{
    if index < key_count(keys) {
        let at = index * 33 + 1;
        &keys[at..at + 32]
    } else {
        blank
    }
}

// Copies the key of an index into a row; a missing key is zero.
pub fn put_key(out: &mut [u8], at: usize, keys: &[u8], index: usize)
    ensures { out.new ≡ sets out.old at (key_of keys.now index) }
{
    wire::put(out, at, key(keys, &[0u8; 32], index));
}

// Whether 32 bytes that are not all zero are handed over.
#[tactic(auto, unfolding(crate::specs::Mints::is_mint, crate::specs::Keys::zero_key))]
pub fn is_mint(mint: &[u8]) -> bool
    ensures { result ≡ is_mint mint.now }
{
    mint.len() == 32 && !wire::equal(mint, &[0u8; 32])
}

// Writes a flag and a mint.
pub fn put_mint(out: &mut [u8], at: usize, mint: &[u8])
    ensures { out.new ≡ sets out.old at (mint_field (mint_of mint.now)) }
{
    if out.len() <= at {
        return;
    }
    if is_mint(mint) {
        wire::put_byte(out, at, 1);
        wire::put(out, at + 1, mint);
    } else {
        wire::put(out, at, &[0u8; 33]);
    }
}

// Whether `key` is the id of row k.
fn is_row(k: usize, key: &[u8]) -> bool
    requires { k < 14 }
    ensures { result ≡ same (id_at k) key.now }
{
    let at = k * 32;
    wire::equal(&IDS[at..at + 32], key)
}

// Whether a mint is wrapped SOL.
#[tactic(auto, unfolding(crate::specs::Ids::is_wrapped_sol))]
pub fn is_wrapped_sol(mint: &[u8]) -> bool
    ensures { result ≡ is_wrapped_sol mint.now }
{
    is_row(2, mint)
}

// The case of a number: of a row of the table, or of what stands past it. A number is how an id is kept in a byte.
#[tactic(auto, unfolding(crate::specs::Which::of_number))]
pub fn of_number(n: u8) -> Id
    ensures { result ≡ of_number n }
{
    match n {
        0 => Id::SplToken,
        1 => Id::Token2022,
        2 => Id::WrappedSol,
        3 => Id::ComputeBudget,
        4 => Id::AssociatedToken,
        5 => Id::Memo,
        6 => Id::PumpFun,
        7 => Id::LaunchLab,
        8 => Id::PumpSwap,
        9 => Id::Clmm,
        10 => Id::Cpmm,
        11 => Id::AmmV4,
        12 => Id::Orca,
        13 => Id::Dlmm,
        14 => Id::System,
        15 => Id::Other,
        _ => Id::Unresolved,
    }
}

// The one row that a key can be, by its fifth byte; 14 where that is zero, since no id has a zero there, and 15 where it is in no row.
#[tactic(auto, unfolding(crate::specs::Which::row_by_fifth, crate::specs::Ids::ids))]
fn row_by_fifth(fifth: u8) -> u8
    ensures { result ≡ row_by_fifth fifth 14 0 }
{
    match fifth {
        0xd7 => 0,
        0xee => 1,
        0xfe => 2,
        0xe5 => 3,
        0x4e => 4,
        0x99 => 5,
        0x93 => 6,
        0x4d => 7,
        0x82 => 8,
        0x04 => 9,
        0x4f => 10,
        0x36 => 11,
        0x8e => 12,
        0xbc => 13,
        0x00 => 14,
        _ => 15,
    }
}

// The one program that a key can be.
fn candidate(fifth: u8) -> Id
    ensures { result ≡ of_number (row_by_fifth fifth 14 0) }
{
    of_number(row_by_fifth(fifth))
}

// Which program a key is: the one that it can be, or another.
fn which(key: &[u8]) -> Id
    ensures { result ≡ which key.now }
{
    let id = candidate(wire::byte(key, 4));
    let same = match id {
        Id::System => wire::equal(key, &[0u8; 32]),
        Id::Other | Id::Unresolved => false,
        _ => is_row(id as usize, key),
    };
    if same { id } else { Id::Other }
}
