// A leg's row of table 3.
ghost use Rattle.std.specs.Prelude.{◌≡◌, ◌&&◌, eqb, option_map};
ghost use Rattle.std.proofs.lemmas.List.Edits.{sets};
ghost use Rattle.ids.specs.Keys.{key_of};
ghost use Rattle.ids.specs.Mints.{mint_of, mint_field};
ghost use Rattle.pack.specs.View.{pools_in};
ghost use Rattle.swaps.specs.Leg.{contains, explicit, or_else, leg_with};
ghost use Rattle.swaps.specs.Row.{key_bytes, end_bytes, leg_row, side as side_of};

use crate::{Swap, protocol};

// The bytes of a row.
pub const WIDTH: usize = 250;

// Whether a run of 32-byte rows holds a key.
fn holds(pools: &[u8], key: &[u8]) -> bool
    ensures { result ≡ contains (pools_in pools.now) key.now }
{
    let (rows, _) = pools.as_chunks::<32>();
    (0..rows.len()).any(|i| wire::equal(&rows[i], key))
}

// A CPMM pool that is among the graduated ones.
#[tactic(auto, unfolding(ids::specs::Keys::zero_key))]
fn graduated(leg: Swap, keys: &[u8], pools: &[u8]) -> bool
    ensures { result ≡ (eqb leg.protocol 3 && contains (pools_in pools.now) (key_of keys.now leg.pool)) }
{
    leg.protocol == protocol::CPMM && holds(pools, ids::key(keys, &[0; 32], usize::from(leg.pool)))
}

// The five keys, from place 5 of a row on.
fn put_keys(row: &mut [u8], keys: &[u8], program: usize, leg: Swap)
    ensures { let key = key_of keys.now in
        row.new ≡ sets row.old 5 (key_bytes (key program) (key leg.pool) (key leg.trader) (key leg.input) (key leg.output)) }
{
    ids::put_key(row, 5, keys, program);
    ids::put_key(row, 37, keys, usize::from(leg.pool));
    ids::put_key(row, 69, keys, usize::from(leg.trader));
    ids::put_key(row, 101, keys, usize::from(leg.input));
    ids::put_key(row, 133, keys, usize::from(leg.output));
}

// The mint of one side: the known one, else the explicit pair's, else the stand-in.
#[tactic(auto, unfolding(ids::specs::Keys::zero_key))]
fn side<'a>(known: &'a [u8], keys: &'a [u8], explicit: Option<u8>) -> &'a [u8]
    ensures { result.now ≡ side_of known.now (option_map (key_of keys.now) explicit) }
{
    if ids::is_mint(known) {
        return known;
    }
    match explicit {
        Some(index) => ids::key(keys, &[0; 32], usize::from(index)),
        None => &[0; 32],
    }
}

// Its flag and bytes.
fn put_side<'a>(out: &mut [u8], at: usize, known: &'a [u8], keys: &'a [u8], index: Option<u8>)
    ensures { let mint = or_else (mint_of known.now) (explicit (key_of keys.now) index) in
        out.new ≡ sets out.old at (mint_field mint) }
{
    ids::put_mint(out, at, side(known, keys, index));
}

// What follows the mints, from place 231 of a row on.
fn put_end(row: &mut [u8], leg: Swap, graduated: bool)
    ensures { row.new ≡ sets row.old 231 (end_bytes leg.exact leg.amount leg.threshold leg.mode graduated) }
{
    wire::put_byte(row, 231, u8::from(leg.exact));
    wire::put_u64(row, 232, leg.amount);
    wire::put_u64(row, 240, leg.threshold);
    wire::put_byte(row, 248, leg.mode);
    wire::put_byte(row, 249, u8::from(graduated));
}

// The row at `at`: the invocation's number, its program's index, its leg as `leg` answers it, the mints known of the input account and of the output
// account (32 bytes each, all zero if none is known), and the graduated pools. It is built in an array of its own, where every field is known to fit, and put
// in one piece; past the end none is built.
pub fn put_leg<'a>(
    out: &mut [u8],
    at: usize,
    invocation: u32,
    program: usize,
    keys: &'a [u8],
    leg: Swap,
    spent: &'a [u8],
    bought: &'a [u8],
    pools: &[u8],
)
    ensures { let key = key_of keys.now in
        let known = leg_with key (mint_of spent.now) (mint_of bought.now) (pools_in pools.now) leg in
        out.new ≡ sets out.old at (leg_row invocation (key program) known) }
{
    if out.len() <= at {
        return;
    }
    let mut row = [0u8; WIDTH];
    wire::put_u32(&mut row, 0, invocation);
    wire::put_byte(&mut row, 4, leg.protocol);
    put_keys(&mut row, keys, program, leg);
    put_side(&mut row, 165, spent, keys, leg.pair.map(|pair| pair.input));
    put_side(
        &mut row,
        198,
        bought,
        keys,
        leg.pair.map(|pair| pair.output),
    );
    put_end(&mut row, leg, graduated(leg, keys, pools));
    wire::put(out, at, &row);
}
