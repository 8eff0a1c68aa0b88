// Evidence into the table: a first mint is recorded, another one makes the account ambiguous for good.
ghost use Rattle.std.specs.Prelude.{◌≡◌, suc, ◌/◌, ◌≤◌, ◌<◌, cond, ltb, length, get_or, set};
ghost use Rattle.std.proofs.lemmas.List.Edits.{sets};
ghost use Rattle.wire.specs.Same.{same};
ghost use Rattle.ids.specs.Keys.{zero_key, key_at, key_count, key_of};
ghost use Rattle.mints.specs.Cells.{Fits};
ghost use Rattle.mints.specs.Gather.{row_of_account, note_account, observed, is_plain, transfer_of, gather_all};
ghost use Rattle.mints.specs.Note.{record_at, new_at, balances_to};
ghost use Rattle.mints.specs.Programs.{programs_of};

use crate::pass::Transfer;
use crate::row::{Row, State};
use ids::Id;
use token::Token;

// The row of a key index: row 0, the zero key's, past the keys.
pub(crate) fn row_of(row: &[u32], index: usize) -> usize
    ensures { result ≡ get_or row.now index 0 }
{
    if index < row.len() {
        row[index] as usize
    } else {
        0
    }
}

// Whether a mint is the zero key, which is none.
#[tactic(auto, unfolding(ids::specs::Keys::zero_key))]
fn is_zero(mint: &[u8]) -> bool
    ensures { result ≡ same mint.now zero_key }
{
    wire::equal(mint, &[0u8; 32])
}

// Records a mint in a row; answers how many accounts more are recorded.
#[tactic(auto, unfolding(crate::specs::Note::record_at, crate::specs::Note::new_at, crate::specs::Cells::number_of, crate::specs::Cells::with_mint, crate::specs::Cells::with_state))]
pub(crate) fn note(table: &mut [Row], r: usize, mint: &[u8]) -> usize
    requires { (length mint.now ≡ 32) × (r < length table.old) }
    ensures { (table.new ≡ record_at table.old r mint.now) × (result ≡ new_at table.old r mint.now) }
{
    match table[r].state {
        State::Unknown if !is_zero(mint) => {
            wire::put(&mut table[r].mint, 0, mint);
            table[r].state = State::Recorded;
            1
        }
        // Most mints are the recorded one, and that one is not zero.
        State::Recorded if !wire::equal(mint, table[r].mint()) && !is_zero(mint) => {
            table[r].state = State::Ambiguous;
            0
        }
        _ => 0,
    }
}

// Records the balance rows; answers how many accounts are recorded.
pub(crate) fn note_balances(balances: &[u8], row: &[u32], table: &mut [Row]) -> usize
    requires { Fits table.old row.now }
    ensures { balances_to balances.now row.now table.entry.now (length balances.now / 36)
        ≡ record { table = table.exit.now; room = result } }
{
    let mut room = 0;
    for i in 0..balances.len() / 36 {
        let at = i * 36;
        let r = row_of(row, wire::u32_at(balances, at) as usize);
        room += note(table, r, &balances[at + 4..at + 36]);
    }
    room
}

// The row of an instruction's account i.
#[tactic(auto, unfolding(crate::specs::Gather::row_of_account))]
fn account_row(row: &[u32], accounts: &[u8], i: usize) -> usize
    ensures { result ≡ row_of_account row.now accounts.now i }
{
    if i < accounts.len() {
        row_of(row, wire::byte(accounts, i) as usize)
    } else {
        0
    }
}

// The key of an instruction's account i, or the stand-in.
fn account_key<'a>(keys: &'a [u8], blank: &'a [u8], accounts: &[u8], i: usize) -> &'a [u8]
    ensures { result.now ≡ cond (ltb i (length accounts.now)) (key_at keys.now blank.now (get_or accounts.now i 0)) blank.now }
{
    if i < accounts.len() {
        ids::key(keys, blank, wire::byte(accounts, i) as usize)
    } else {
        blank
    }
}

// Records the mint that account 1 names for account i; answers how many accounts more are recorded.
fn note_account(keys: &[u8], accounts: &[u8], row: &[u32], table: &mut [Row], i: usize) -> usize
    requires { Fits table.old row.now }
    ensures { note_account (key_of keys.now) row.now accounts.now (record { table = table.entry.now; room = 0 }) i
        ≡ record { table = table.exit.now; room = result } }
{
    let blank = [0u8; 32];
    let mint = account_key(keys, &blank, accounts, 1);
    let r = account_row(row, accounts, i);
    note(table, r, mint)
}

// Records what a token instruction tells; answers how many accounts more are recorded.
fn observe(token: Token, keys: &[u8], accounts: &[u8], row: &[u32], table: &mut [Row]) -> usize
    requires { Fits table.old row.now }
    ensures { observed (key_of keys.now) row.now token accounts.now (record { table = table.entry.now; room = 0 })
        ≡ record { table = table.exit.now; room = result } }
{
    match token {
        Token::Initialise => note_account(keys, accounts, row, table, 0),
        Token::Plain(_) => 0,
        Token::Checked(_) | Token::WithFee(_, _) => {
            let source = note_account(keys, accounts, row, table, 0);
            source + note_account(keys, accounts, row, table, 2)
        }
    }
}

#[tactic(auto, unfolding(crate::specs::Gather::is_plain))]
fn is_plain(token: Token) -> bool
    ensures { result ≡ is_plain token }
{
    matches!(token, Token::Plain(_))
}

// A plain transfer as the rows of its source and destination.
fn transfer(accounts: &[u8], row: &[u32]) -> Transfer
    ensures { result ≡ transfer_of row.now accounts.now }
{
    Transfer {
        from: account_row(row, accounts, 0) as u32,
        to: account_row(row, accounts, 1) as u32,
    }
}

// Adds a plain transfer to the list; answers how many it has then.
fn list(
    token: Token,
    accounts: &[u8],
    row: &[u32],
    transfers: &mut [Transfer],
    count: usize,
) -> usize
    requires { count < length transfers.old }
    ensures value { result ≡ cond (is_plain token) (suc count) count }
    ensures transfers_after { transfers.new
        ≡ cond (is_plain token) (set transfers.old count (transfer_of row.now accounts.now)) transfers.old }
{
    if !is_plain(token) {
        return count;
    }
    transfers[count] = transfer(accounts, row);
    count + 1
}

// How many accounts are recorded, and how many plain transfers there are.
#[derive(Clone, Copy)]
pub struct Gathered {
    pub room: usize,
    pub count: usize,
}

// Records the evidence of the instructions at the offsets, and lists their plain transfers; keeps their programs.
pub(crate) fn gather(
    keys: &[u8],
    pack: &[u8],
    at: &[u32],
    row: &[u32],
    table: &mut [Row],
    transfers: &mut [Transfer],
    programs: &mut [Id; 1024],
) -> Gathered
    requires at_in_bounds { (length at.now ≤ length transfers.old) × (length at.now ≤ 1024) }
    requires fits { Fits table.old row.now × (key_count keys.now ≤ 256) }
    ensures to_value { gather_all keys.now pack.now at.now row.now table.entry.now transfers.old
        ≡ record { noted = record { table = table.exit.now; room = result.room }; transfers = transfers.new; count = result.count } }
    ensures programs_after { programs.new ≡ sets programs.old 0 (programs_of keys.now pack.now at.now) }
{
    let mut kept = [Id::Unresolved; 256];
    ids::programs::fill(keys, &mut kept);
    let mut room = 0;
    let mut count = 0;
    for i in 0..at.len() {
        let o = at[i] as usize;
        let id = ids::programs::program(&kept, pack::program(pack, o) as usize);
        programs[i] = id;
        // Nothing more is read of other programs.
        if !token::token_program(id) {
            continue;
        }
        let accounts = pack::accounts(pack, o);
        let Some(token) = token::parse(id, accounts.len(), pack::data(pack, o)) else {
            continue;
        };
        room += observe(token, keys, accounts, row, table);
        count = list(token, accounts, row, transfers, count);
    }
    Gathered { room, count }
}
