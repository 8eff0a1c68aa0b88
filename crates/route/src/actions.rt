// Table 4: a row for each invocation that funds, syncs or closes a wrapped SOL account.
ghost use Rattle.std.specs.Prelude.{◌≡◌, ◌<◌, ◌≤◌, length};
ghost use Rattle.pack.specs.Invocation.{instruction_at};
ghost use Rattle.pack.specs.Sections.{section_of};
ghost use Rattle.route.specs.Widths.{action_width};
ghost use Rattle.route.specs.Arrays.{item_at};
ghost use Rattle.route.specs.Known.{Puts, Fills};
ghost use Rattle.route.specs.Program.{program_of, Programs};
ghost use Rattle.route.specs.Actions.{action_rows};

use crate::candidate::Candidate;
use crate::transfers::mint;
use crate::width;
use ids::Id;

// Writes the row of a candidate, if it is an action. Answers how many rows that is.
fn put_one(keys: &[u8], pack: &[u8], mints: &[u8; 8192], x: Candidate, out: &mut [u8]) -> usize
    requires { (x.row < 1024) × (x.program ≡ program_of keys.now (instruction_at pack.now x.at)) }
    ensures { Puts mints.now keys.now pack.now (action_rows keys.now) action_width x result
        out.old out.new }
{
    // No other program acts, and few instructions have an action's length: nothing else is read of those.
    let id = x.program;
    if !natives::acts(id) {
        return 0;
    }
    let data = pack::data(pack, x.at);
    if !natives::sized(id, data.len()) {
        return 0;
    }
    let accounts = pack::accounts(pack, x.at);
    let asked = natives::form(id, accounts, data);
    let native = natives::settle(asked, keys, accounts, mint(mints, natives::held(asked)));
    natives::put_row(out, x.row * width::NATIVES, x.number, keys, native);
    usize::from(native.is_some())
}

// The rows of the n invocations. Answers how many there are.
//
// Tables 2 and 3 have this walk too, and fill another array beside their rows: a closure that writes both would say more than the walk that it saves.
pub(crate) fn put_rows(
    pack: &[u8],
    n: usize,
    at: &[u32; 1024],
    programs: &[Id; 1024],
    mints: &[u8; 8192],
    out: &mut [u8],
) -> usize
    requires { (n ≤ 1024) × Programs (section_of pack.now 0) (item_at pack.now at.now) n programs.now }
    ensures { Fills mints.now pack.now at.now (action_rows (section_of pack.now 0)) action_width n result
        out.old out.new }
{
    let keys = pack::section(pack, 0);
    let mut k = 0;
    for i in 0..n {
        let x = Candidate::nth(at, programs, i, k);
        k += put_one(keys, pack, mints, x, out);
    }
    k
}
