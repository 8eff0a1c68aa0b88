// Stored calls, made again: their records are read one by one, each call is made anew, and what differs is told.
//
// A record is its length in four bytes, and then so many bytes. What these say is the affair of the call.
#![tactic(auto)]

ghost use Rattle.std.specs.Prelude.{◌≡◌, ◌+◌, ◌-◌, ◌≤◌, ◌<◌, ◌^◌, ◌++◌, cond, take, codes, is_ok, IfOk, IfSome, OnOk, Some};
ghost use Rattle.std.specs.Io.KnownBytes.{Appends};
ghost use Rattle.records.specs.Told.{totals, TellsOf, Goes, TellsAll};

use std::alloc::Global;
use std::fmt::Display;
use std::io::{Read, Write};
use std::{fmt, io};

// So many records are told of at most.
const TOLD: u32 = 10;

/// A record that is cut off, or too long.
#[derive(Clone, Copy, Debug, PartialEq, Eq)]
pub struct Unfit;

impl Display for Unfit {
    ghost output = { λ _. Some (codes "cut off, or too long for this program") };

    fn fmt<W: fmt::Write>(&self, f: &mut fmt::Formatter<W>) -> fmt::Result {
        write!(f, "cut off, or too long for this program")
    }
}

/// What becomes of the bytes of a record that is too long.
#[derive(Clone, Copy, Debug, PartialEq, Eq)]
pub enum TooLong {
    Skipped,
    Left,
}

/// A call of which records are stored.
pub trait Call {
    /// What an answer differs in from the stored one.
    type Difference: Display + From<Unfit> + Drop;

    /// The longest record that is read.
    const LONGEST: u32;

    /// What becomes of a longer one.
    const LONGER: TooLong;

    /// Makes the call of a record anew, and holds it to what is stored of its answer.
    fn again(&mut self, record: &[u8]) -> Result<(), Self::Difference>;
}

// How many answers there were so far, and how many of them differ.
#[derive(Drop)]
struct Totals {
    answers: u32,
    different: u32,
    ghost among: { different ≤ answers },
}

// Writes in what record k differs, by one `write`, so that what another writes to the same output does not come between its pieces.
fn tell<D: Display + Drop, W: Write>(
    alloc: Global,
    k: u32,
    difference: D,
    output: &mut W,
) -> io::Result<()>
    ensures { OnOk result (TellsOf (W.contents output.old) (W.contents output.new) k) }
{
    let text = difference.to_string(alloc)?;
    let line = format!(in alloc; "record {k}: {text}\n")?;
    output.write_all(line.as_bytes())
}

impl Totals {
    // Counts one more answer, and writes in what it differs, where it does and fewer than ten did so before.
    fn count<D: Display + Drop, W: Write>(
        self,
        alloc: Global,
        held: Result<(), D>,
        output: &mut W,
    ) -> io::Result<Totals>
        requires { self.answers < 2 ^ 32 - 1 }
        ensures { IfOk result (λ new. (new.answers ≡ self.answers + 1)
            × (new.different ≡ self.different + cond (is_ok held) 0 1)
            × Goes (W.contents output.old) (W.contents output.new) self.answers self.different new.answers new.different) }
    {
        let Totals { answers, different } = self;
        let Err(difference) = held else {
            return Ok(Totals {
                answers: answers + 1,
                different,
            });
        };
        if different < TOLD {
            tell(alloc, answers, difference, output)?;
        }
        Ok(Totals {
            answers: answers + 1,
            different: different + 1,
        })
    }
}

impl Display for Totals {
    ghost output = { λ t. Some (totals t.answers t.different) };

    fn fmt<W: fmt::Write>(&self, f: &mut fmt::Formatter<W>) -> fmt::Result {
        let answers = self.answers;
        let different = self.different;
        write!(f, "{answers} answers, {different} different")
    }
}

// The next n bytes, or those that are left.
fn read<R: Read>(alloc: Global, input: &mut R, n: u32) -> io::Result<Vec<u8>>
    ensures { IfOk result (λ bytes. IfSome (R.remaining input.old) (λ all. bytes.items ≡ take n all)) }
{
    let mut bytes = Vec::new(alloc);
    (&mut *input).take(u64::from(n)).read_to_end(&mut bytes)?;
    Ok(bytes)
}

// The length of the next record, if there is one.
fn next_length<R: Read>(alloc: Global, input: &mut R) -> io::Result<Option<u32>> {
    let length = read(alloc, input, 4)?;
    if length.is_empty() {
        return Ok(None);
    }
    Ok(Some(wire::u32_at(&length, 0)))
}

// Reads n bytes, for a record that is too long.
fn skip<R: Read>(input: &mut R, n: u32) -> io::Result<()> {
    io::copy(&mut input.by_ref().take(u64::from(n)), &mut io::sink())?;
    Ok(())
}

// The record of n bytes that comes next, or `None` where it is not to be had.
fn next<C: Call, R: Read>(alloc: Global, input: &mut R, n: u32) -> io::Result<Option<Vec<u8>>> {
    if C::LONGEST < n {
        if C::LONGER == TooLong::Skipped {
            skip(input, n)?;
        }
        return Ok(None);
    }
    let bytes = read(alloc, input, n)?;
    Ok(if bytes.len() < n as usize {
        None
    } else {
        Some(bytes)
    })
}

/// Makes the calls of all records again. It writes in what each of the first ten that differ does so, and last how many answers there were and how many differ.
pub fn run<C: Call, R: Read, W: Write>(
    alloc: Global,
    input: &mut R,
    output: &mut W,
    call: &mut C,
) -> io::Result<()>
    ensures { OnOk result (TellsAll (W.contents output.old) (W.contents output.new)) }
{
    let mut totals = Totals {
        answers: 0,
        different: 0,
    };
    // A `while`: the count is in the totals.
    while totals.answers < u32::MAX {
        let Some(n) = next_length(alloc, input)? else {
            break;
        };
        let record = next::<C, R>(alloc, input, n)?;
        let held = match record {
            Some(bytes) => call.again(&bytes),
            None => Err(C::Difference::from(Unfit)),
        };
        totals = totals.count(alloc, held, output)?;
    }
    let line = format!(in alloc; "{totals}\n")?;
    output.write_all(line.as_bytes())
}

#[cfg(test)]
mod tests {
    use super::*;
    use std::test::Fail;

    // An empty record, one that differs, and one that is too long, of four zeros.
    const STORED: [u8; 17] = [0, 0, 0, 0, 1, 0, 0, 0, 7, 4, 0, 0, 0, 0, 0, 0, 0];

    fn held(record: &[u8]) -> Result<(), Unfit> {
        if record.is_empty() {
            Ok(())
        } else {
            Err(Unfit)
        }
    }

    #[derive(Drop)]
    struct Passer;

    impl Call for Passer {
        type Difference = Unfit;

        const LONGEST: u32 = 3;

        const LONGER: TooLong = TooLong::Skipped;

        fn again(&mut self, record: &[u8]) -> Result<(), Unfit> {
            held(record)
        }
    }

    #[derive(Drop)]
    struct Leaver;

    impl Call for Leaver {
        type Difference = Unfit;

        const LONGEST: u32 = 3;

        const LONGER: TooLong = TooLong::Left;

        fn again(&mut self, record: &[u8]) -> Result<(), Unfit> {
            held(record)
        }
    }

    #[test]
    fn skips(rt: HostRuntime) -> Result<(), Fail> {
        let mut output = Vec::new(rt.alloc());
        run(rt.alloc(), &mut STORED.as_slice(), &mut output, &mut Passer)?;
        let unfit = "cut off, or too long for this program";
        let told = format!(in rt.alloc();
            "record 1: {unfit}\nrecord 2: {unfit}\n3 answers, 2 different\n"
        )?;
        assert_eq!(rt; output.as_slice(), told.as_bytes());
        Ok(())
    }

    #[test]
    fn leaves(rt: HostRuntime) -> Result<(), Fail> {
        let mut output = Vec::new(rt.alloc());
        run(rt.alloc(), &mut STORED.as_slice(), &mut output, &mut Leaver)?;
        let unfit = "cut off, or too long for this program";
        let told = format!(in rt.alloc();
            "record 1: {unfit}\nrecord 2: {unfit}\n4 answers, 2 different\n"
        )?;
        assert_eq!(rt; output.as_slice(), told.as_bytes());
        Ok(())
    }

    // Ends what each `write` brings by a stroke, so that a line in pieces shows.
    #[derive(Drop)]
    struct Strokes(Vec<u8>);

    impl Write for Strokes {
        fn write(&mut self, buf: &[u8]) -> io::Result<usize> {
            self.0.extend_from_slice(buf)?;
            self.0.push(b'|')?;
            Ok(buf.len())
        }

        fn flush(&mut self) -> io::Result<()> {
            Ok(())
        }
    }

    #[test]
    fn writes_each_line_at_once(rt: HostRuntime) -> Result<(), Fail> {
        let mut output = Strokes(Vec::new(rt.alloc()));
        run(rt.alloc(), &mut STORED.as_slice(), &mut output, &mut Passer)?;
        let unfit = "cut off, or too long for this program";
        let told = format!(in rt.alloc();
            "record 1: {unfit}\n|record 2: {unfit}\n|3 answers, 2 different\n|"
        )?;
        assert_eq!(rt; output.0.as_slice(), told.as_bytes());
        Ok(())
    }
}
