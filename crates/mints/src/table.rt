// The table of accounts: rows of an account, a mint and a state, one for each distinct key.
//
// Row 0 is the zero key's. It is ambiguous from the start, so a missing account records nothing, hands on nothing and is never written, and
// no other function has to look for it.
ghost use Rattle.std.specs.Prelude.{◌≡◌, cond, suc, ◌≤◌, length, Option, is_some};
ghost use Rattle.ids.specs.Keys.{key_count, key_of};
ghost use Rattle.mints.specs.Cells.{with_account, LastBytesSeen};
ghost use Rattle.mints.specs.Lay.{found_row, laid};

use crate::row::{Row, State};

// The first of the rows that holds the key. Like `wire::equal` it compares the last bytes first; the scope names the form of this search, so the comparison
// stands in it.
fn find(table: &[Row], key: &[u8]) -> Option<usize>
    requires { length key.now ≡ 32 }
    ensures { result ≡ found_row table.now key.now }
{
    let mut i = 0;
    'rows: loop {
        if table.len() <= i {
            break 'rows None;
        }
        let account = table[i].account();
        for j in 0..32 {
            if account[31 - j] != key[31 - j] {
                i += 1;
                continue 'rows;
            }
        }
        break 'rows Some(i);
    }
}

// The same where `ends` tells which last bytes the rows' accounts have: a key with another one is new, and most new keys are found so without a search.
fn row_for(table: &[Row], ends: &[u8; 256], key: &[u8]) -> Option<usize>
    requires { (length key.now ≡ 32) × LastBytesSeen table.now (length table.now) ends.now }
    ensures { result ≡ found_row table.now key.now }
{
    if ends[wire::byte(key, 31) as usize] == 0 {
        return None;
    }
    find(table, key)
}

// Adds a row for the key where the search found none; answers how many rows there are then.
#[tactic(auto, unfolding(crate::specs::Cells::with_account))]
fn add(table: &mut [Row], rows: usize, found: Option<usize>, key: &[u8]) -> usize
    requires { (suc rows ≤ length table.old) × (length key.now ≡ 32) }
    ensures table_after { table.new ≡ cond (is_some found) table.old (with_account table.old rows key.now) }
    ensures value { result ≡ cond (is_some found) rows (suc rows) }
{
    if found.is_some() {
        return rows;
    }
    wire::put(&mut table[rows].account, 0, key);
    rows + 1
}

// Lays the rows of the keys into the table, and the row of each key index into `row`; answers how many rows there are. Whatever `ends` holds, the last
// bytes of the rows are marked in it.
fn lay_marking(keys: &[u8], table: &mut [Row], row: &mut [u32], ends: &mut [u8; 256]) -> usize
    requires { (key_count keys.now ≤ length row.old) × (suc (key_count keys.now) ≤ length table.old) × (length table.old ≤ 65536) × (length ends.old ≡ 256) }
    ensures { laid (key_of keys.now) table.entry.now row.old (key_count keys.now)
        ≡ record { table = table.exit.now; row = row.new; rows = result } }
{
    let blank = [0u8; 32];
    table[0].state = State::Ambiguous;
    ends[table[0].account[31] as usize] = 1;
    let mut rows = 1;
    for i in 0..keys.len() / 33 {
        let key = ids::key(keys, &blank, i);
        let found = row_for(&table[..rows], ends, key);
        row[i] = found.unwrap_or(rows) as u32;
        rows = add(table, rows, found, key);
        ends[wire::byte(key, 31) as usize] = 1;
    }
    rows
}

// The same, with an array of its own for the last bytes.
pub(crate) fn lay(keys: &[u8], table: &mut [Row], row: &mut [u32]) -> usize
    requires { (key_count keys.now ≤ length row.old) × (suc (key_count keys.now) ≤ length table.old) × (length table.old ≤ 65536) }
    ensures { laid (key_of keys.now) table.entry.now row.old (key_count keys.now)
        ≡ record { table = table.exit.now; row = row.new; rows = result } }
{
    let mut ends = [0u8; 256];
    lay_marking(keys, table, row, &mut ends)
}
