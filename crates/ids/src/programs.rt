// Which program each key is, found once for a pack: an invocation then looks its program up by index.
ghost use Rattle.std.specs.Prelude.{◌≡◌, ◌<◌};
ghost use Rattle.ids.specs.Keys.{key_count};
ghost use Rattle.ids.specs.Which.{program_at};
ghost use Rattle.ids.specs.KeyPrograms.{key_programs, program_in, number_in};

use crate::Id;

// The program that the key of row i is.
#[tactic(auto, unfolding(crate::specs::Which::program_at))]
fn program_at(keys: &[u8], i: usize) -> Id
    requires { i < key_count keys.now }
    ensures { result ≡ program_at keys.now i }
{
    let at = i * 33;
    if keys[at] == 1 {
        crate::which(&keys[at + 1..at + 33])
    } else {
        Id::Unresolved
    }
}

// Leaves the program that each of the first 256 keys is.
pub fn fill(keys: &[u8], programs: &mut [Id; 256])
    ensures { programs.new ≡ key_programs keys.now }
{
    *programs = [Id::Unresolved; 256];
    for i in 0..crate::key_count(keys).min(256) {
        programs[i] = program_at(keys, i);
    }
}

// The program that `fill` left for the key of row `index`; past the 256th it is not resolved.
#[tactic(auto, unfolding(crate::specs::KeyPrograms::program_in))]
pub fn program(programs: &[Id; 256], index: usize) -> Id
    ensures { result ≡ program_in programs.now index }
{
    if 256 <= index {
        return Id::Unresolved;
    }
    programs[index]
}

// The number at row `index` of a list of 256 such numbers, for who keeps the programs as bytes; past the 256th it is that of a program which is not resolved.
#[tactic(auto, unfolding(crate::specs::KeyPrograms::number_in))]
pub fn number(numbers: &[u8; 256], index: usize) -> u8
    ensures { result ≡ number_in numbers.now index }
{
    numbers.get(index).copied().unwrap_or(16)
}
