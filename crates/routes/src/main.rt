// Prints the listing of the names and the pack on standard input.
#![tactic(auto)]

use std::io;

fn main(rt: HostRuntime) -> io::Result<()> {
    listing::print(rt.alloc(), rt.stdin(), &mut rt.stdout())
}
