// Prints the name and the listing of each file that its arguments name: inputs at the edges of what `routes` reads and prints.
#![tactic(auto)]

use std::fs::File;
use std::rt::Files;
use std::{env, io};

// A file that cannot be opened is told and passed over.
fn case<R: Files + Print + Eprint + AllocGlobal>(rt: &R, path: &str) -> io::Result<()> {
    match File::open(rt, path) {
        Ok(file) => {
            println!(rt; "{path}")?;
            listing::print(rt.alloc(), file, &mut io::writer(rt))
        }
        Err(error) => eprintln!(rt; "{path}: {error}"),
    }
}

fn main(rt: HostRuntime) -> io::Result<()> {
    for path in env::args(&rt)?.skip(1) {
        case(&rt, path.as_str())?;
    }
    Ok(())
}
