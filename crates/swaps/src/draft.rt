// What several protocols put into a leg. An account is a place among the instruction's accounts.
ghost use Rattle.std.specs.Prelude.{◌≡◌};
ghost use Rattle.swaps.specs.Draft.{in_order as in_order_of, pair_of};

use crate::Pair;

// A form of an instruction: whether it buys, and whether it is exact-in.
#[derive(Clone, Copy)]
pub(crate) struct Form {
    pub buy: bool,
    pub exact: bool,
}

// The two as they stand if the test holds, else exchanged.
pub(crate) fn in_order<T>(test: bool, x: T, y: T) -> (T, T)
    ensures { result ≡ in_order_of test x y }
{
    if test { (x, y) } else { (y, x) }
}

// The same as a pair of accounts.
pub(crate) fn pair_of(test: bool, x: u8, y: u8) -> Pair
    ensures { result ≡ pair_of test x y }
{
    let (input, output) = in_order(test, x, y);
    Pair { input, output }
}
