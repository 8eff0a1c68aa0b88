// Token instructions: which one some data is, and which transfer it gives (the module `row` writes that one's row).
//
// Every function is total. An instruction is read once, into an enum of numbers; keys stay indexes until a row is written.
#![tactic(auto)]

ghost use Rattle.std.specs.Prelude.{◌≡◌, cond, ◌&&◌, eqb, get_or, Ok, Err};
ghost use Rattle.ids.specs.Keys.{key_of, is_zero};
ghost use Rattle.token.specs.declared.moved.Reason.TheVariants.{ZeroKey};
ghost use Rattle.token.specs.Programs.{is_token, is_token2022};
ghost use Rattle.token.specs.Tokens.{token_of};
ghost use Rattle.token.specs.Transfers.{transfer as transfer_of};
ghost use Rattle.token.specs.Reasons.{reason as reason_for};
ghost use Rattle.token.specs.Moved.{transfer_value, unnamed_fee, accounts_named, why_none, sent_to, sent_checked, moved_of, source_by, reason_of};

use ids::Id;

pub mod moved;
pub mod row;

pub use moved::{Reason, Transfer};

// A token instruction, with the amount that it names, and the fee.
#[derive(Clone, Copy)]
pub enum Token {
    Initialise,
    Plain(u64),
    Checked(u64),
    WithFee(u64, u64),
}

// SPL Token or Token-2022.
#[tactic(auto, using(crate::proofs::Numbers::another), unfolding(crate::specs::Programs::is_token))]
pub fn token_program(id: Id) -> bool
    ensures { result ≡ is_token id }
{
    matches!(id, Id::SplToken | Id::Token2022)
}

// Whether tag 26 begins a transfer with its fee: one program has it, and the byte after the tag says so.
#[tactic(auto, using(crate::proofs::Numbers::another), unfolding(crate::specs::Programs::is_token2022))]
fn fee_tag(id: Id, data: &[u8]) -> bool
    ensures { result ≡ (is_token2022 id && eqb (get_or «data».now 1 0) 1) }
{
    matches!(id, Id::Token2022) && wire::byte(data, 1) == 1
}

// The instruction that the data is, for a program and a number of accounts.
#[tactic(auto, using(crate::proofs::Reading::by_tag))]
pub fn parse(id: Id, accounts: usize, data: &[u8]) -> Option<Token>
    ensures { result ≡ token_of id accounts «data».now }
{
    if !token_program(id) {
        return None;
    }
    match (wire::byte(data, 0), data.len(), accounts) {
        (1, 1, 2..) | (16 | 18, 33, 2..) => Some(Token::Initialise),
        (3, 9.., 3..) => Some(Token::Plain(wire::u64_at(data, 1))),
        (12, 10.., 4..) => Some(Token::Checked(wire::u64_at(data, 1))),
        (26, 19.., 4..) if fee_tag(id, data) => {
            Some(Token::WithFee(wire::u64_at(data, 2), wire::u64_at(data, 11)))
        }
        _ => None,
    }
}

// The index byte of an account, whose key is neither missing nor zero.
#[tactic(auto, unfolding(ids::specs::Keys::zero_key))]
fn present(keys: &[u8], accounts: &[u8], place: usize) -> Result<u8, Reason>
    ensures { result ≡ cond (is_zero (key_of keys.now (get_or accounts.now place 0))) (Err ZeroKey) (Ok (get_or accounts.now place 0)) }
{
    let index = wire::byte(accounts, place);
    let zero = [0u8; 32];
    if wire::equal(ids::key(keys, &zero, usize::from(index)), &zero) {
        return Err(Reason::ZeroKey);
    }
    Ok(index)
}

// The fee of a transfer that names none: 0 under SPL Token, not known under Token-2022.
#[tactic(auto, using(crate::proofs::Numbers::another), unfolding(crate::specs::Programs::is_spl, crate::specs::Moved::unnamed_fee))]
fn unnamed_fee(id: Id) -> Option<u64>
    ensures { result ≡ unnamed_fee id }
{
    match id {
        Id::SplToken => Some(0),
        _ => None,
    }
}

// The accounts that a transfer with the tag of the data asks for.
#[tactic(auto, unfolding(crate::specs::Moved::accounts_named))]
fn accounts_named(id: Id, data: &[u8]) -> Option<usize>
    ensures { result ≡ accounts_named id «data».now }
{
    match wire::byte(data, 0) {
        3 => Some(3),
        12 => Some(4),
        26 => fee_tag(id, data).then_some(4),
        _ => None,
    }
}

// Why an instruction that is not read as a transfer gives none. Where tag and accounts are right, its data must be too short.
#[tactic(auto, unfolding(crate::specs::Moved::why_none))]
fn why_none(id: Id, accounts: usize, data: &[u8]) -> Reason
    ensures { result ≡ why_none id accounts «data».now }
{
    if !token_program(id) {
        return Reason::NotToken;
    }
    match accounts_named(id, data) {
        None => Reason::UnsupportedTag,
        Some(named) if accounts < named => Reason::TooFewAccounts,
        Some(_) => Reason::DataTooShort,
    }
}

// A transfer from account 0 to the one at place `to`, if both have a key.
#[tactic(auto, unfolding(crate::specs::Moved::sent_to))]
fn sent_to(
    keys: &[u8],
    accounts: &[u8],
    to: usize,
    amount: u64,
    fee: Option<u64>,
) -> Result<Transfer, Reason>
    ensures { result ≡ sent_to (key_of keys.now) accounts.now to amount fee }
{
    let source = present(keys, accounts, 0)?;
    let destination = present(keys, accounts, to)?;
    Ok(Transfer {
        source,
        destination,
        amount,
        fee,
    })
}

// A transfer to account 2, the mint between them.
#[tactic(auto, unfolding(crate::specs::Moved::sent_to, crate::specs::Moved::sent_checked))]
fn sent_checked(
    keys: &[u8],
    accounts: &[u8],
    amount: u64,
    fee: Option<u64>,
) -> Result<Transfer, Reason>
    ensures { result ≡ sent_checked (key_of keys.now) accounts.now amount fee }
{
    present(keys, accounts, 1)?;
    sent_to(keys, accounts, 2, amount, fee)
}

// The transfer that an instruction gives, or why it gives none.
pub fn transfer(id: Id, keys: &[u8], accounts: &[u8], data: &[u8]) -> Result<Transfer, Reason>
    ensures value { result ≡ moved_of (key_of keys.now) id accounts.now «data».now }
    ensures transfer { transfer_value (key_of keys.now) result ≡ transfer_of (key_of keys.now) id accounts.now «data».now }
    ensures reason { reason_of result ≡ reason_for (key_of keys.now) id accounts.now «data».now }
{
    match parse(id, accounts.len(), data) {
        None => Err(why_none(id, accounts.len(), data)),
        Some(Token::Initialise) => Err(Reason::UnsupportedTag),
        Some(Token::Plain(amount)) => sent_to(keys, accounts, 1, amount, unnamed_fee(id)),
        Some(Token::Checked(amount)) => sent_checked(keys, accounts, amount, unnamed_fee(id)),
        Some(Token::WithFee(amount, fee)) => sent_checked(keys, accounts, amount, Some(fee)),
    }
}

// The index of a transfer's source, for its mint to be looked up; 0 where there is no transfer.
pub fn source(moved: Result<Transfer, Reason>) -> u8
    ensures { result ≡ source_by moved }
{
    match moved {
        Ok(transfer) => transfer.source,
        Err(_) => 0,
    }
}

// 0 for a transfer, else the number of why there is none.
pub fn reason(moved: Result<Transfer, Reason>) -> u8
    ensures { result ≡ reason_of moved }
{
    match moved {
        Ok(_) => 0,
        Err(reason) => reason.number(),
    }
}
