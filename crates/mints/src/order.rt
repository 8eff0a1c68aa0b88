// The table as it is written: rows with a mint, ascending by account bytes; and the mint of each key index.
ghost use Rattle.std.specs.Prelude.{◌≡◌, suc, ◌*◌, ◌≤◌, ◌<◌, length, take};
ghost use Rattle.std.proofs.lemmas.List.Edits.{sets};
ghost use Rattle.wire.specs.Zeros.{zeros};
ghost use Rattle.mints.specs.Cells.{Fits};
ghost use Rattle.mints.specs.Order.{spot_in, Rising, put_in, sort_to, rows_bytes, shown_mint, Blank, mints_to};

use crate::WIDTH;
use crate::row::Row;

// The place of row r among ordered rows: before the first whose account is greater. They ascend, so it is found by halving. By hand: a closure for
// `partition_point` would have to answer for numbers of rows that there are not.
fn spot(table: &[Row], order: &[u32], r: usize) -> usize
    requires { (r < length table.now) × Fits table.now order.now × Rising table.now order.now }
    ensures { result ≡ spot_in table.now r order.now }
{
    let mut low = 0;
    let mut high = order.len();
    while low < high {
        let middle = (low + high) / 2;
        let q = order[middle] as usize;
        if wire::less(table[r].account(), table[q].account()) {
            high = middle;
        } else {
            low = middle + 1;
        }
    }
    low
}

// Puts r in at place j of the first k. The last one moves first, so each is read before it is written over.
fn insert(order: &mut [u32], j: usize, k: usize, r: u32)
    requires { (j ≤ k) × (k < length order.old) }
    ensures { take (suc k) order.new ≡ put_in (take k order.old) j r }
{
    for i in (j..k).rev() {
        order[i + 1] = order[i];
    }
    order[j] = r;
}

// The rows with a mint, in order; answers how many they are.
pub(crate) fn sort(table: &[Row], order: &mut [u32]) -> usize
    requires { (length table.now ≤ length order.old) × (length table.now ≤ 65536) }
    ensures { (result ≡ length (sort_to table.now (length table.now))) × (take result order.new ≡ sort_to table.now (length table.now)) }
{
    let mut k = 0;
    for r in 0..table.len() {
        if !table[r].state.has_mint() {
            continue;
        }
        let j = spot(table, &order[..k], r);
        insert(order, j, k, r as u32);
        k += 1;
    }
    k
}

// Writes the ordered rows: account, mint, mark.
pub(crate) fn write_rows(table: &[Row], order: &[u32], out: &mut [u8])
    requires { (length order.now ≤ 65536) × Fits table.now order.now }
    ensures { out.new ≡ sets out.old 0 (rows_bytes table.now order.now) }
{
    for j in 0..order.len() {
        let row = &table[order[j] as usize];
        wire::put(out, j * WIDTH, row.account());
        wire::put(out, j * WIDTH + 32, row.mint());
        wire::put_byte(out, j * WIDTH + 64, row.state.mark());
    }
}

// Writes the mint of row r to where the mint of key index i stands. A row with none leaves what is there, which is zero.
#[tactic(auto, unfolding(crate::specs::Order::shown_mint))]
fn write_mint(table: &[Row], r: usize, i: usize, out: &mut [u8])
    requires { (r < length table.now) × (i < 65536) × Blank out.old (i * 32) }
    ensures { (out.new ≡ sets out.old (i * 32) (shown_mint table.now r)) × (length (shown_mint table.now r) ≡ 32) }
{
    if table[r].state.has_mint() {
        wire::put(out, i * 32, table[r].mint());
    }
}

// Writes the mints of the key indexes over zeros, so that those that have none stay zero.
pub(crate) fn write_mints(table: &[Row], row: &[u32], out: &mut [u8])
    requires { (length row.now ≤ 65536) × Fits table.now row.now × (out.old ≡ zeros (length out.old)) }
    ensures { out.new ≡ sets out.old 0 (mints_to table.now row.now (length row.now)) }
{
    for i in 0..row.len() {
        write_mint(table, row[i] as usize, i, out);
    }
}
