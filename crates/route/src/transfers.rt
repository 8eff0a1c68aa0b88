// Table 2: a row for each invocation that gives a transfer of tokens.
ghost use Rattle.std.specs.Prelude.{◌≡◌, ◌<◌, ◌≤◌, length};
ghost use Rattle.std.proofs.lemmas.List.Edits.{sets};
ghost use Rattle.pack.specs.Invocation.{instruction_at};
ghost use Rattle.pack.specs.Sections.{section_of};
ghost use Rattle.route.specs.Widths.{transfer_width};
ghost use Rattle.route.specs.Arrays.{item_at};
ghost use Rattle.route.specs.Known.{known_mint, Puts, Fills};
ghost use Rattle.route.specs.Program.{program_of, Programs};
ghost use Rattle.route.specs.Transfers.{transfer_rows, reason_in, reasons_of, transfer_count};

use crate::candidate::Candidate;
use crate::width;
use ids::Id;
use token::Reason;

// The final mint of a key index: 32 bytes, zero where it has none.
pub(crate) fn mint(mints: &[u8; 8192], index: u8) -> &[u8]
    ensures { result.now ≡ known_mint mints.now index }
{
    let at = index as usize * 32;
    &mints[at..at + 32]
}

// How many rows there are: one for a transfer, which is reason 0, else none.
#[tactic(auto, unfolding(crate::specs::Transfers::transfer_count))]
fn rows(reason: u8) -> usize
    ensures { result ≡ transfer_count reason }
{
    usize::from(reason == 0)
}

// Writes the row of a candidate, if it gives a transfer. Answers why it gives none, or 0.
fn put_one(keys: &[u8], pack: &[u8], mints: &[u8; 8192], x: Candidate, out: &mut [u8]) -> u8
    requires { (x.row < 1024) × (x.program ≡ program_of keys.now (instruction_at pack.now x.at)) }
    ensures value { result ≡ reason_in keys.now (instruction_at pack.now x.at) }
    ensures puts { Puts mints.now keys.now pack.now (transfer_rows keys.now) transfer_width x (transfer_count result)
        out.old out.new }
{
    // No other program gives a transfer, so its accounts and data are not read.
    let id = x.program;
    if !token::token_program(id) {
        return token::reason(Err(Reason::NotToken));
    }
    let moved = token::transfer(id, keys, pack::accounts(pack, x.at), pack::data(pack, x.at));
    token::row::put_row(
        out,
        x.row * width::TRANSFERS,
        x.number,
        keys,
        pack::program(pack, x.at),
        moved,
        mint(mints, token::source(moved)),
    );
    token::reason(moved)
}

// The rows of the n invocations; `reasons` holds why each has none, or 0. Answers how many there are.
pub(crate) fn put_rows(
    pack: &[u8],
    n: usize,
    at: &[u32; 1024],
    programs: &[Id; 1024],
    mints: &[u8; 8192],
    out: &mut [u8],
    reasons: &mut [u8; 1024],
) -> usize
    requires { (n ≤ 1024) × Programs (section_of pack.now 0) (item_at pack.now at.now) n programs.now }
    ensures fills { Fills mints.now pack.now at.now (transfer_rows (section_of pack.now 0)) transfer_width n result
        out.old out.new }
    ensures reasons_after { reasons.new ≡ sets reasons.old 0 (reasons_of pack.now at.now n) }
{
    let keys = pack::section(pack, 0);
    let mut k = 0;
    for i in 0..n {
        let x = Candidate::nth(at, programs, i, k);
        let r = put_one(keys, pack, mints, x, out);
        reasons[i] = r;
        k += rows(r);
    }
    k
}
