// The printed listing of names and a pack, and what the programs do with it. Their printed tree is in the module `tree`.
//
// Proved: which bytes they are, that they are never more than 65,536, and that `print` writes them for what it reads, where its reader and its writer tell
// what they give and hold. What a file or a stream gives and takes no contract tells; that is tested.
#![tactic(auto)]

pub mod tree;

ghost use Rattle.std.specs.Prelude.{◌≡◌, ◌+◌, ◌*◌, ◌≤◌, ◌++◌, length, take, drop, string_bytes, IfOk, IfSome, OnOk, Some};
ghost use Rattle.std.specs.Io.KnownBytes.{Appends};
ghost use Rattle.route.specs.Widths.{invocation_width};
ghost use Rattle.listing.specs.Listing.{lines_from, route_of, listing};
ghost use Rattle.listing.specs.Listing.{refusal_line, head, optional, optional_text, line, listed};
ghost use Rattle.listing.specs.Puts.{PutsText};

use route::{Answer, width};
use std::alloc::{AllocError, Global};
use std::fmt::Display;
use std::io::{Read, Write};
use std::{fmt, io};

// A refusal: its number and its place.
fn refused(alloc: Global, a: &Answer) -> Result<String, AllocError>
    ensures { IfOk result (λ text. string_bytes text ≡ refusal_line a.now.number a.now.place) }
{
    let number = a.number;
    let place = a.place;
    format!(in alloc; "refused {number} {place}\n")
}

// The first line of a success: the rows of each table, the passes, the tests.
fn head(alloc: Global, a: &Answer) -> Result<String, AllocError>
    ensures { IfOk result (λ text. string_bytes text ≡ head a.now) }
{
    let Answer {
        mints,
        invocations,
        transfers,
        legs,
        natives,
        passes,
        tests,
        ..
    } = *a;
    let mut text = format!(in alloc; "ok {mints} {invocations} {transfers} {legs} {natives}")?;
    write!(text, " passes {passes} tests {tests}\n")?;
    Ok(text)
}

// A number that may be absent, with a space in front: a dash where it is.
#[derive(Clone, Copy)]
struct Optional(Option<u32>);

impl Display for Optional {
    ghost output = { λ o. Some (optional_text o.0) };

    fn fmt<W: fmt::Write>(&self, f: &mut fmt::Formatter<W>) -> fmt::Result {
        match self.0 {
            None => write!(f, " -"),
            Some(number) => write!(f, " {number}"),
        }
    }
}

// The number of a row behind its flag: none where the flag is 0.
fn number_at(row: &[u8], flag: usize) -> Optional
    requires { flag ≤ 9 }
    ensures { optional_text result.0 ≡ optional row.now flag }
{
    if wire::byte(row, flag) == 0 {
        return Optional(None);
    }
    Optional(Some(wire::u32_at(row, flag + 1)))
}

// The line of an invocation: where it stands, its end, its bits, its parent, why it gave no transfer.
#[derive(Clone, Copy)]
struct Line<'a>(&'a [u8]);

impl Display for Line<'_> {
    ghost output = { λ l. Some (line l.0.now) };

    fn fmt<W: fmt::Write>(&self, f: &mut fmt::Formatter<W>) -> fmt::Result {
        let row = self.0;
        let outer = wire::u32_at(row, 0);
        let inner = number_at(row, 4);
        let height = number_at(row, 9);
        let end = wire::u32_at(row, 14);
        let bits = wire::byte(row, 18);
        let parent = wire::u32_at(row, 23);
        let reason = wire::byte(row, 27);
        write!(f, "{outer}{inner}{height} {end} {bits} {parent} {reason}\n")
    }
}

// Writes the lines of the first n rows of the table of invocations.
fn lines(text: &mut String, rows: &[u8], n: usize) -> Result<(), AllocError>
    requires { n * invocation_width ≤ length rows.now }
    ensures { OnOk result (string_bytes text.new ≡ string_bytes text.old ++ lines_from rows.now n 0) }
{
    for i in 0..n {
        let row = i * width::INVOCATIONS;
        let line = Line(&rows[row..row + width::INVOCATIONS]);
        write!(text, "{line}")?;
    }
    Ok(())
}

// All lines, by the answer and the table of invocations.
fn listed(alloc: Global, a: Answer, rows: &[u8]) -> Result<String, AllocError>
    requires invocations_bound { a.invocations ≤ 1024 }
    requires invocation_width_in_bounds { a.invocations * invocation_width ≤ length rows.now }
    ensures { IfOk result (λ text. PutsText 65536 (listed a rows.now) (string_bytes text)) }
{
    if a.number != 0 {
        return refused(alloc, &a);
    }
    let mut text = head(alloc, &a)?;
    lines(&mut text, rows, a.invocations as usize)?;
    Ok(text)
}

// Where the names end and the pack begins.
fn names_end(input: &[u8]) -> usize
    ensures { (result ≤ length input.now) × (take result input.now ≡ take 88 input.now) × (drop result input.now ≡ drop 88 input.now) }
{
    input.len().min(88)
}

// Calls `route` with the names and the pack that the input is. Of the tables only the invocations are printed.
fn routed(input: &[u8], invocations: &mut [u8]) -> Answer
    requires { length invocations.old ≡ 1024 * invocation_width }
    ensures { (result ≡ (route_of input.now).answer) × (invocations.new ≡ (route_of input.now).invocations) }
{
    let mut mints = [0u8; 256 * width::MINTS];
    let mut transfers = [0u8; 400 * width::TRANSFERS];
    let mut legs = [0u8; 250 * width::LEGS];
    let mut natives = [0u8; 500 * width::NATIVES];
    let n = names_end(input);
    route::route(
        &input[0..n],
        &input[n..],
        &mut mints,
        invocations,
        &mut transfers,
        &mut legs,
        &mut natives,
    )
}

// The listing of the names and the pack that the input is.
fn list(alloc: Global, input: &[u8]) -> Result<String, AllocError>
    ensures { IfOk result (λ text. PutsText 65536 (listing input.now) (string_bytes text)) }
{
    let mut invocations = [0u8; 1024 * width::INVOCATIONS];
    let a = routed(input, &mut invocations);
    listed(alloc, a, &invocations)
}

// What an input holds, and no more of it than one byte past the names and the longest pack, so that a longer input is told from the longest.
fn read<R: Read + Drop>(alloc: Global, input: R) -> io::Result<Vec<u8>>
    ensures { IfOk result (λ bytes. IfSome (R.remaining input) (λ all. bytes.items ≡ take 61529 all)) }
{
    let mut bytes = Vec::new(alloc);
    input.take(61529).read_to_end(&mut bytes)?;
    Ok(bytes)
}

// Prints the listing of what an input holds.
pub fn print<R: Read + Drop, W: Write>(alloc: Global, input: R, output: &mut W) -> io::Result<()>
    ensures { OnOk result (IfSome (R.remaining input)
        (λ all. Appends (W.contents output.old) (W.contents output.new) (listing (take 61529 all)))) }
{
    let bytes = read(alloc, input)?;
    let text = list(alloc, &bytes)?;
    output.write_all(text.as_bytes())
}
