// Table 3: a row for each invocation that is a swap's leg.
ghost use Rattle.std.specs.Prelude.{◌≡◌, suc, ◌*◌, ◌<◌, ◌≤◌, length};
ghost use Rattle.pack.specs.Invocation.{instruction_at};
ghost use Rattle.pack.specs.Sections.{section_of};
ghost use Rattle.pack.specs.View.{pools_in};
ghost use Rattle.route.specs.Widths.{leg_width};
ghost use Rattle.route.specs.Arrays.{item_at};
ghost use Rattle.route.specs.Known.{Puts, Fills, Numbers};
ghost use Rattle.route.specs.Legs.{leg_rows, leg_rows_in};
ghost use Rattle.route.specs.Program.{program_of, Programs};

use crate::candidate::Candidate;
use crate::transfers::mint;
use crate::width;
use ids::Id;

// Writes the row of a candidate, if it is a leg. Answers how many rows that is.
fn put_one<'a>(
    names: &[u8],
    keys: &'a [u8],
    pack: &[u8],
    pools: &[u8],
    mints: &'a [u8; 8192],
    x: Candidate,
    out: &mut [u8],
) -> usize
    requires { (x.row < 1024) × (x.program ≡ program_of keys.now (instruction_at pack.now x.at)) }
    ensures { Puts mints.now keys.now pack.now
        (leg_rows names.now keys.now (pools_in pools.now)) leg_width x result
        out.old out.new }
{
    // No other program has legs, so its accounts and data are not read.
    let id = x.program;
    if !swaps::trades(id) {
        return 0;
    }
    let Some(leg) = swaps::leg(
        names,
        keys,
        id,
        pack::accounts(pack, x.at),
        pack::data(pack, x.at),
    ) else {
        return 0;
    };
    let spent = mint(mints, leg.input);
    let bought = mint(mints, leg.output);
    let program = pack::program(pack, x.at) as usize;
    swaps::row::put_leg(
        out,
        x.row * width::LEGS,
        x.number,
        program,
        keys,
        leg,
        spent,
        bought,
        pools,
    );
    1
}

// The number of a leg in row k, where there are r of them: 1 plus its row, or 0.
fn number(r: usize, k: usize) -> u32
    requires { (r ≤ 1) × (k < 1024) }
    ensures { result ≡ r * suc k }
{
    if r == 0 {
        return 0;
    }
    k as u32 + 1
}

// The rows of the n invocations; `leg` holds the number of each one's leg. Answers how many there are.
pub(crate) fn put_rows<'a>(
    names: &[u8],
    pack: &'a [u8],
    n: usize,
    at: &[u32; 1024],
    programs: &[Id; 1024],
    mints: &'a [u8; 8192],
    out: &mut [u8],
    leg: &mut [u32; 1024],
) -> usize
    requires { (n ≤ 1024) × Programs (section_of pack.now 0) (item_at pack.now at.now) n programs.now }
    ensures fills { Fills mints.now pack.now at.now (leg_rows_in names.now pack.now) leg_width n result
        out.old out.new }
    ensures numbers { Numbers mints.now pack.now at.now (leg_rows_in names.now pack.now) n
        leg.old leg.new }
{
    let keys = pack::section(pack, 0);
    let pools = pack::section(pack, 4);
    let mut k = 0;
    for i in 0..n {
        let x = Candidate::nth(at, programs, i, k);
        let r = put_one(names, keys, pack, pools, mints, x, out);
        leg[i] = number(r, k);
        k += r;
    }
    k
}
