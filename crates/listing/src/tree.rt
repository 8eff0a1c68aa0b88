// The printed tree of names and a pack: of each invocation what the plain finder finds.
//
// Proved: its lines are those that the rows of table 1 give, so the finder and the fast path agree on every pack that is not refused. What an invocation has
// itself comes from table 1; where the blocks end, what lies in them and who is whose child is found anew.
ghost use Rattle.std.specs.Prelude.{◌≡◌, ◌+◌, ◌*◌, ◌≤◌, ◌++◌, length, take, string_bytes, IfOk, IfSome, OnOk, Some};
ghost use Rattle.std.specs.Io.KnownBytes.{Appends};
ghost use Rattle.std.proofs.lemmas.List.Edits.{sets};
ghost use Rattle.wire.specs.Tab.{tab};
ghost use Rattle.subtrees.specs.Subtrees.{positions};
ghost use Rattle.route.specs.Widths.{invocation_width};
ghost use Rattle.listing.specs.Listing.{row_in};
ghost use Rattle.listing.specs.Tree.{tree_head, spaced_all, own_in, branch, branch_of, first_lines, tree};
ghost use Rattle.listing.specs.Puts.{PutsText};

use crate::{names_end, read, refused, routed};
use finder::Found;
use pack::Place;
use pack::position::BLANK;
use route::width;
use std::alloc::{AllocError, Global};
use std::fmt::Display;
use std::io::{Read, Write};
use std::{fmt, io};

// What the invocation of a row has itself: 1 a transfer, 2 a swap.
fn own_in(row: &[u8]) -> u8
    ensures { result ≡ own_in row.now }
{
    let bits = wire::byte(row, 18);
    bits / 32 % 2 + bits / 16 % 2 * 2
}

// The same for n rows.
fn put_own(rows: &[u8], n: usize, own: &mut [u8; 1024])
    requires n_bound { n ≤ 1024 }
    requires invocation_width_in_bounds { n * invocation_width ≤ length rows.now }
    ensures { own.new ≡ sets own.old 0 (tab (λ i. own_in (row_in rows.now i)) 0 n) }
{
    for i in 0..n {
        let row = i * width::INVOCATIONS;
        own[i] = own_in(&rows[row..row + width::INVOCATIONS]);
    }
}

// The first line of a success: how many invocations there are.
fn head(alloc: Global, n: u32) -> Result<String, AllocError>
    ensures { IfOk result (λ text. string_bytes text ≡ tree_head n) }
{
    format!(in alloc; "ok {n}\n")
}

// Numbers, each with a space in front.
#[derive(Clone, Copy)]
struct Numbers<'a>(&'a [u32]);

impl Display for Numbers<'_> {
    ghost output = { λ l. Some (spaced_all l.0.now) };

    fn fmt<W: fmt::Write>(&self, f: &mut fmt::Formatter<W>) -> fmt::Result {
        for &number in self.0 {
            write!(f, " {number}")?;
        }
        Ok(())
    }
}

// The line of an invocation: its end, its inside bits, how many children it has, and which.
#[derive(Clone, Copy)]
struct Branch<'a> {
    found: Found,
    children: &'a [u32],
}

impl Display for Branch<'_> {
    ghost output = { λ b. Some (branch b.found.end b.found.inside b.children.now) };

    fn fmt<W: fmt::Write>(&self, f: &mut fmt::Formatter<W>) -> fmt::Result {
        let end = self.found.end;
        let inside = self.found.inside;
        let count = self.children.len();
        let children = Numbers(self.children);
        write!(f, "{end} {inside} {count}{children}\n")
    }
}

// Writes the lines of the n invocations.
fn branches(
    text: &mut String,
    n: usize,
    places: &[Place; 1024],
    own: &[u8; 1024],
) -> Result<(), AllocError>
    requires { n ≤ 1024 }
    ensures { OnOk result (string_bytes text.new
        ≡ string_bytes text.old ++ first_lines (branch_of (positions places.now n) own.now) n) }
{
    let mut list = [0u32; 1024];
    for i in 0..n {
        let found = finder::block(n, places, own, i);
        let count = finder::children(n, places, own, i, &mut list);
        let children = &list[..count];
        let branch = Branch { found, children };
        write!(text, "{branch}")?;
    }
    Ok(())
}

// The tree of the names and the pack that the input is.
fn draw(alloc: Global, input: &[u8]) -> Result<String, AllocError>
    ensures { IfOk result (λ text. PutsText 65536 (tree input.now) (string_bytes text)) }
{
    let mut rows = [0u8; 1024 * width::INVOCATIONS];
    let a = routed(input, &mut rows);
    if a.number != 0 {
        return refused(alloc, &a);
    }
    let mut at = [0u32; 1024];
    let mut places = [BLANK; 1024];
    let n = pack::flatten(&input[names_end(input)..], &mut at, &mut places).unwrap_or(0);
    let mut own = [0u8; 1024];
    put_own(&rows, n, &mut own);
    let mut text = head(alloc, a.invocations)?;
    branches(&mut text, n, &places, &own)?;
    Ok(text)
}

// Prints the tree of what an input holds, as `print` of the listing does.
pub fn print<R: Read + Drop, W: Write>(alloc: Global, input: R, output: &mut W) -> io::Result<()>
    ensures { OnOk result (IfSome (R.remaining input)
        (λ all. Appends (W.contents output.old) (W.contents output.new) (tree (take 61529 all)))) }
{
    let bytes = read(alloc, input)?;
    let text = draw(alloc, &bytes)?;
    output.write_all(text.as_bytes())
}
