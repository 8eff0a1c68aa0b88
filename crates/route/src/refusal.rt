// Why a call is refused, in the order of the tests.
ghost use Rattle.std.specs.Prelude.{◌≡◌, Err};
ghost use Rattle.route.specs.Fit.{number_of, place_in, answered};
ghost use Rattle.route.specs.declared.refusal.Refusal.TheVariants.{Pack, Passes};

use crate::Answer;
use mints::TooManyPasses;

#[derive(Clone, Copy)]
pub(crate) enum Refusal {
    // The length of the names.
    Names,
    // What is wrong with the pack itself.
    Pack(pack::Refusal),
    // The passes over the plain transfers do not suffice.
    Passes,
    // The lowest table with too few whole rows.
    Room(u32),
}

impl Refusal {
    // Its number in docs/FORMAT.md.
    fn number(self) -> u32
        ensures { result ≡ number_of self }
    {
        match self {
            Refusal::Names => 1,
            Refusal::Pack(refusal) => refusal.number(),
            Refusal::Passes => 7,
            Refusal::Room(_) => 8,
        }
    }

    // Its place there.
    fn place(self) -> u32
        ensures { result ≡ place_in self }
    {
        match self {
            Refusal::Names => 0,
            Refusal::Pack(refusal) => refusal.place(),
            Refusal::Passes => 0,
            Refusal::Room(table) => table,
        }
    }

    // The answer of a call that is refused so: no counts.
    #[tactic(auto, unfolding(crate::specs::Route::refused))]
    pub(crate) fn answer(self) -> Answer
        ensures { result ≡ answered (Err self) }
    {
        Answer {
            number: self.number(),
            place: self.place(),
            mints: 0,
            invocations: 0,
            transfers: 0,
            legs: 0,
            natives: 0,
            passes: 0,
            tests: 0,
        }
    }
}

impl From<pack::Refusal> for Refusal {
    ghost from_gives = { λ refusal result. result ≡ Pack refusal };

    fn from(refusal: pack::Refusal) -> Self {
        Refusal::Pack(refusal)
    }
}

impl From<TooManyPasses> for Refusal {
    ghost from_gives = { λ _ result. result ≡ Passes };

    fn from(_passes: TooManyPasses) -> Self {
        Refusal::Passes
    }
}
