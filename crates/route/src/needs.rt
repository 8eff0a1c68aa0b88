// How much room a pack needs at most, so that a caller can lend tables that suffice.
ghost use Rattle.std.specs.Prelude.{◌≡◌};
ghost use Rattle.route.specs.Enough.{needed};

use crate::RowsNeeded;
use pack::position::BLANK;

// One walk over the pack, as `route` begins with it.
pub fn room(pack: &[u8]) -> RowsNeeded
    ensures { result ≡ needed pack.now }
{
    let mut at = [0u32; 1024];
    let mut places = [BLANK; 1024];
    match pack::flatten(pack, &mut at, &mut places) {
        Ok(n) => {
            let n = n as u32;
            RowsNeeded {
                number: 0,
                place: 0,
                mints: (pack::section(pack, 0).len() / 33) as u32,
                invocations: n,
                transfers: n,
                legs: n,
                natives: n,
            }
        }
        Err(refusal) => RowsNeeded {
            number: refusal.number(),
            place: refusal.place(),
            mints: 0,
            invocations: 0,
            transfers: 0,
            legs: 0,
            natives: 0,
        },
    }
}
