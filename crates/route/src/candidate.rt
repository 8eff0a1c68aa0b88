// An instruction that may give a row, for tables 2 to 4: most invocations give none.
ghost use Rattle.std.specs.Prelude.{◌≡◌, ◌<◌, ◌≤◌, get_or};
ghost use Rattle.ids.specs.declared.Id.TheVariants.{SplToken};

use ids::Id;

// Its program, its offset in the pack, the number of its invocation, and the row that it takes if it gives one.
#[derive(Clone, Copy)]
pub(crate) struct Candidate {
    pub(crate) program: Id,
    pub(crate) at: usize,
    pub(crate) number: u32,
    pub(crate) row: usize,
}

impl Candidate {
    // That of invocation i.
    pub(crate) fn nth(at: &[u32; 1024], programs: &[Id; 1024], i: usize, row: usize) -> Candidate
        requires { i < 1024 }
        ensures { result ≡ record { program = get_or programs.now i SplToken; at = get_or at.now i 0; number = i; row = row } }
    {
        Candidate {
            program: programs[i],
            at: at[i] as usize,
            number: i as u32,
            row,
        }
    }
}
