// Refusal 8: the lowest table with too few whole rows.
ghost use Rattle.std.specs.Prelude.{◌≡◌};
ghost use Rattle.route.specs.Fit.{fits};

use crate::refusal::Refusal;
use crate::{Answer, width};

// The lengths of the five lent tables, in bytes.
#[derive(Clone, Copy)]
pub(crate) struct Lent {
    pub(crate) mints: usize,
    pub(crate) invocations: usize,
    pub(crate) transfers: usize,
    pub(crate) legs: usize,
    pub(crate) natives: usize,
}

// The answer itself where five tables of these lengths have room for it, `room` being what table 0 needs.
pub(crate) fn fit(lent: Lent, room: usize, a: Answer) -> Result<Answer, Refusal>
    ensures { result ≡ fits lent room a }
{
    if lent.mints / width::MINTS < room {
        return Err(Refusal::Room(0));
    }
    if lent.invocations / width::INVOCATIONS < a.invocations as usize {
        return Err(Refusal::Room(1));
    }
    if lent.transfers / width::TRANSFERS < a.transfers as usize {
        return Err(Refusal::Room(2));
    }
    if lent.legs / width::LEGS < a.legs as usize {
        return Err(Refusal::Room(3));
    }
    if lent.natives / width::NATIVES < a.natives as usize {
        return Err(Refusal::Room(4));
    }
    Ok(a)
}
