// Fills the tables of a pack and answers, or tells the refusal that it meets.
ghost use Rattle.route.specs.Filled.{Cleared, Filled};

use crate::fit::{Lent, fit};
use crate::refusal::Refusal;
use crate::{Answer, actions, invocations, legs, transfers};
use ids::Id;
use pack::position::BLANK;

// Names and a pack into tables that are zero, or the refusal that they meet.
//
// Rows are written before it is known whether a table has room for them: a store past the end does nothing, and whoever calls clears the tables of a refusal.
pub(crate) fn fill(
    names: &[u8],
    pack: &[u8],
    t0: &mut [u8],
    t1: &mut [u8],
    t2: &mut [u8],
    t3: &mut [u8],
    t4: &mut [u8],
) -> Result<Answer, Refusal>
    requires { Cleared t0.old t1.old t2.old t3.old t4.old }
    ensures { Filled names.now pack.now
        t0.old t1.old t2.old t3.old t4.old
        result t0.new t1.new t2.new t3.new t4.new }
{
    if names.len() != 88 {
        return Err(Refusal::Names);
    }
    // All arrays stand before the first call: one that is declared behind it is cleared there, and at entry too.
    let mut at = [0u32; 1024];
    let mut places = [BLANK; 1024];
    let mut known = [0u8; 8192];
    let mut programs = [Id::Unresolved; 1024];
    let mut reasons = [0u8; 1024];
    let mut leg = [0u32; 1024];
    let n = pack::flatten(pack, &mut at, &mut places)?;
    let made = mints::infer(
        pack::section(pack, 0),
        pack::section(pack, 1),
        pack,
        &at[0..n],
        t0,
        &mut known,
        &mut programs,
    )?;
    let transfers = transfers::put_rows(pack, n, &at, &programs, &known, t2, &mut reasons);
    let legs = legs::put_rows(names, pack, n, &at, &programs, &known, t3, &mut leg);
    let natives = actions::put_rows(pack, n, &at, &programs, &known, t4);
    let tests = invocations::put_rows(n, &places, &programs, &reasons, &leg, t1);
    let lent = Lent {
        mints: t0.len(),
        invocations: t1.len(),
        transfers: t2.len(),
        legs: t3.len(),
        natives: t4.len(),
    };
    let answer = Answer {
        number: 0,
        place: 0,
        mints: made.rows as u32,
        invocations: n as u32,
        transfers: transfers as u32,
        legs: legs as u32,
        natives: natives as u32,
        passes: made.passes as u32,
        tests,
    };
    fit(lent, made.room, answer)
}
