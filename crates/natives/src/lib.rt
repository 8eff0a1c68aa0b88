// Native actions: funding, syncing and closing a wrapped SOL account, and the row of each.
//
// Every function is total. `form` tells what an instruction asks for, `held` the account whose final mint decides on it, and `settle`, to which that mint is
// handed, what counts of it.
#![tactic(auto)]

ghost use Rattle.std.specs.Prelude.{◌≡◌, ◌||◌};
ghost use Rattle.std.proofs.lemmas.List.Edits.{sets};
ghost use Rattle.ids.specs.Keys.{key_of, key_count};
ghost use Rattle.ids.specs.Mints.{mint_of};
ghost use Rattle.token.specs.Programs.{is_token};
ghost use Rattle.natives.specs.Natives.{is_system};
ghost use Rattle.natives.specs.Numbers.{action_value, form_of, sized_of, held_by, settled};
ghost use Rattle.natives.specs.Rows.{key_if, action_bytes};

use ids::Id;

// The bytes of a row.
pub const WIDTH: usize = 109;

// An action, its accounts by index bytes; `account` is the wrapped SOL account that it acts on.
#[derive(Clone, Copy)]
pub enum Native {
    Fund {
        account: u8,
        source: u8,
        lamports: u64,
    },
    Sync {
        account: u8,
    },
    Close {
        account: u8,
        destination: u8,
        authority: u8,
    },
}

// A program that is not resolved has the zero key too, and is not System.
#[tactic(auto, using(token::proofs::Numbers::another), unfolding(crate::specs::Natives::is_system))]
fn system(id: Id) -> bool
    ensures { result ≡ is_system id }
{
    matches!(id, Id::System)
}

// Whether a program has instructions that are actions.
pub fn acts(id: Id) -> bool
    ensures { result ≡ (is_token id || is_system id) }
{
    token::token_program(id) || system(id)
}

// Whether an instruction of that many bytes can be an action, for a caller that has not read it yet.
#[tactic(auto, unfolding(crate::specs::Numbers::sized_of))]
pub fn sized(id: Id, len: usize) -> bool
    ensures { result ≡ sized_of id len }
{
    if token::token_program(id) {
        len == 1
    } else {
        system(id) && len == 12
    }
}

// What program, accounts and data ask for.
#[tactic(auto, using(crate::proofs::Forms::by_bytes), unfolding(crate::specs::Numbers::form_of))]
pub fn form(id: Id, accounts: &[u8], data: &[u8]) -> Option<Native>
    ensures { result ≡ form_of id accounts.now «data».now }
{
    match (data, accounts) {
        ([2, 0, 0, 0, ..], [source, account, ..]) if data.len() == 12 && system(id) => Some(
            Native::Fund {
                account: *account,
                source: *source,
                lamports: wire::u64_at(data, 4),
            },
        ),
        ([17], [account, ..]) if token::token_program(id) => Some(Native::Sync {
            account: *account,
        }),
        ([9], [account, destination, authority, ..]) if token::token_program(id) => Some(
            Native::Close {
                account: *account,
                destination: *destination,
                authority: *authority,
            },
        ),
        _ => None,
    }
}

// The index of the account that is acted on, for its mint to be looked up; 0 where there is none.
pub fn held(native: Option<Native>) -> u8
    ensures { result ≡ held_by native }
{
    match native {
        None => 0,
        Some(
            Native::Fund { account, .. } | Native::Sync { account } | Native::Close { account, .. },
        ) => account,
    }
}

// What counts of what is asked for, for the acted account's final mint (32 bytes, zero for none).
#[tactic(auto, unfolding(crate::specs::Numbers::settled))]
pub fn settle(asked: Option<Native>, keys: &[u8], accounts: &[u8], mint: &[u8]) -> Option<Native>
    ensures { result ≡ settled (key_count keys.now) asked accounts.now (mint_of mint.now) }
{
    // Few instructions have an action's form, so that comes before the mint and the accounts.
    let native = asked?;
    if !ids::is_wrapped_sol(mint) {
        return None;
    }
    // Every account index is that of a key, the unused ones too.
    let count = ids::key_count(keys);
    (0..accounts.len())
        .all(|i| usize::from(wire::byte(accounts, i)) < count)
        .then_some(native)
}

// What a row tells of the action alone: its kind, the account, source or destination, the authority, lamports.
#[derive(Clone, Copy)]
struct Row {
    kind: u8,
    account: u8,
    other: Option<u8>,
    authority: Option<u8>,
    lamports: u64,
}

// Copies the key of an index into a row; zero where there is none.
#[tactic(auto, unfolding(ids::specs::Keys::zero_key))]
fn put_key(row: &mut [u8], at: usize, keys: &[u8], index: Option<u8>)
    ensures { row.new ≡ sets row.old at (key_if (key_of keys.now) index) }
{
    let zero = [0u8; 32];
    match index {
        Some(index) => ids::put_key(row, at, keys, usize::from(index)),
        None => wire::put(row, at, &zero),
    }
}

// Writes the row of an action, if there is one. It is built in an array of its own, where every field is known to fit, and put in one piece.
pub fn put_row(out: &mut [u8], at: usize, invocation: u32, keys: &[u8], native: Option<Native>)
    ensures { out.new ≡ sets out.old at (action_bytes invocation (action_value (key_of keys.now) native)) }
{
    let Some(native) = native else {
        return;
    };
    let told = match native {
        Native::Fund {
            account,
            source,
            lamports,
        } => Row {
            kind: 1,
            account,
            other: Some(source),
            authority: None,
            lamports,
        },
        Native::Sync { account } => Row {
            kind: 2,
            account,
            other: None,
            authority: None,
            lamports: 0,
        },
        Native::Close {
            account,
            destination,
            authority,
        } => Row {
            kind: 3,
            account,
            other: Some(destination),
            authority: Some(authority),
            lamports: 0,
        },
    };
    let mut row = [0u8; WIDTH];
    wire::put_u32(&mut row, 0, invocation);
    wire::put_byte(&mut row, 4, told.kind);
    ids::put_key(&mut row, 5, keys, usize::from(told.account));
    put_key(&mut row, 37, keys, told.other);
    put_key(&mut row, 69, keys, told.authority);
    wire::put_u64(&mut row, 101, told.lamports);
    wire::put(out, at, &row);
}
