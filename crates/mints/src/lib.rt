// Mints: which mint each account holds, from what is recorded and what plain transfers hand on.
//
// `infer` answers how many rows table 0 needs and has, and after how many passes; it leaves these rows, ascending by account, and the final mint of each
// key index, and each invocation's program. Each key is searched once, in a linear table; evidence, passes, marks and lookups go by row numbers.
#![tactic(auto)]

ghost use Rattle.std.specs.Prelude.{◌≡◌, ◌≤◌, length, replicate, take, MatchResult};
ghost use Rattle.std.proofs.lemmas.List.Edits.{sets};
ghost use Rattle.std.proofs.Math.Option.{none, some};
ghost use Rattle.wire.specs.Zeros.{zeros};
ghost use Rattle.mints.specs.Cells.{blank_row, Fits};
ghost use Rattle.mints.specs.Programs.{programs_of};
ghost use Rattle.mints.specs.Conclude.{concluded};
ghost use Rattle.mints.specs.Order.{sort_to, rows_bytes, mints_to};
ghost use Rattle.mints.specs.Inference.{inferred_of, answer_of, mint_bytes, final_for};

mod doubt;
mod notes;
mod order;
mod pass;
mod row;
mod table;

use ids::Id;
use pass::Transfer;
use row::Row;

// The bytes of a row of table 0.
pub const WIDTH: usize = 65;

// The room that table 0 needs, its rows, and the passes.
#[derive(Clone, Copy)]
pub struct Made {
    pub room: usize,
    pub rows: usize,
    pub passes: usize,
}

// 512 passes are too few.
#[derive(Clone, Copy)]
pub struct TooManyPasses;

// The rows of the keys, the accounts that need room, and the passes.
#[derive(Clone, Copy)]
struct Concluded {
    rows: usize,
    room: usize,
    passes: usize,
}

// Lays the rows of the keys, notes all evidence in them, hands mints on along the plain transfers, and marks those that the transfers put in doubt; keeps
// the programs.
fn conclude(
    keys: &[u8],
    balances: &[u8],
    pack: &[u8],
    at: &[u32],
    table: &mut [Row],
    row: &mut [u32],
    programs: &mut [Id; 1024],
) -> Result<Concluded, TooManyPasses>
    requires { (length keys.now ≤ 8448) × (length at.now ≤ 1024) × (table.old ≡ replicate 257 blank_row) × (row.old ≡ zeros 256) }
    ensures value { MatchResult result
        (λ x. concluded keys.now balances.now pack.now at.now ≡ record { table = table.exit.now; row = row.new; rows = x.rows; room = x.room; passes = some x.passes })
        (λ _. (concluded keys.now balances.now pack.now at.now).passes ≡ none) }
    ensures programs_after { programs.new ≡ sets programs.old 0 (programs_of keys.now pack.now at.now) }
{
    // Before the first call: an array that is declared behind one is cleared there, and at entry too.
    let mut transfers = [Transfer::NONE; 1024];
    let rows = table::lay(keys, table, row);
    let recorded = notes::note_balances(balances, row, table);
    let g = notes::gather(keys, pack, at, row, table, &mut transfers, programs);
    let ran = doubt::hand_on(table, rows, &transfers[..g.count], recorded + g.room)?;
    Ok(Concluded {
        rows,
        room: ran.room,
        passes: ran.passes,
    })
}

// Writes the rows with a mint, ascending, and the mints of the first n key indexes; answers how many rows.
fn publish(
    table: &[Row],
    rows: usize,
    row: &[u32],
    n: usize,
    out: &mut [u8],
    known: &mut [u8],
) -> usize
    requires rows_bound { (rows ≤ 257) × (n ≤ length row.now) × (n ≤ 256) × (length table.now ≡ 257) × Fits table.now row.now }
    requires known_value { known.old ≡ zeros (length known.old) }
    ensures value { result ≡ length (sort_to table.now rows) }
    ensures out_after { out.new ≡ sets out.old 0 (rows_bytes table.now (sort_to table.now rows)) }
    ensures known_after { known.new ≡ sets known.old 0 (mints_to table.now row.now n) }
{
    let mut order = [0u32; 257];
    let k = order::sort(&table[..rows], &mut order);
    order::write_rows(table, &order[..k], out);
    order::write_mints(table, &row[..n], known);
    k
}

// The first 256 rows of a key section: no pack that is read has more.
fn first_keys(keys: &[u8]) -> &[u8]
    ensures { result.now ≡ take 8448 keys.now }
{
    &keys[..keys.len().min(8448)]
}

// The first 1,024 offsets.
fn first_offsets(at: &[u32]) -> &[u32]
    ensures { result.now ≡ take 1024 at.now }
{
    &at[..at.len().min(1024)]
}

// The mint table: its rows into `rows`, and the final mint of each key index, 32 bytes, into `known`; each invocation's program into `programs`.
//
// `at` are the offsets of the invocations' instructions in the pack. Of the keys the first 256 count, of the invocations the first 1,024.
pub fn infer(
    keys: &[u8],
    balances: &[u8],
    pack: &[u8],
    at: &[u32],
    rows: &mut [u8],
    known: &mut [u8; 8192],
    programs: &mut [Id; 1024],
) -> Result<Made, TooManyPasses>
    ensures value { result ≡ answer_of (inferred_of keys.now balances.now pack.now at.now) }
    ensures rows_after { rows.new
        ≡ sets rows.old 0 (mint_bytes (inferred_of keys.now balances.now pack.now at.now)) }
    ensures known_after { known.new
        ≡ sets (zeros 8192) 0 (final_for keys.now (inferred_of keys.now balances.now pack.now at.now)) }
    ensures programs_after { programs.new
        ≡ sets programs.old 0 (programs_of (take 8448 keys.now) pack.now (take 1024 at.now)) }
{
    *known = [0u8; 8192];
    let keys = first_keys(keys);
    let at = first_offsets(at);
    let mut table = [Row::BLANK; 257];
    let mut row = [0u32; 256];
    let done = conclude(keys, balances, pack, at, &mut table, &mut row, programs)?;
    let k = publish(&table, done.rows, &row, ids::key_count(keys), rows, known);
    Ok(Made {
        room: done.room,
        rows: k,
        passes: done.passes,
    })
}
