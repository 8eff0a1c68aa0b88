// Calls stored with the original's answers, made again.
//
// Standard input is records as compare/src/stored.rs has them, one after the other. Each call is made anew, into tables full of other bytes, and its nine
// numbers and every byte of its five tables are held to what is stored. The last line says how many answers there were and how many differ.
// The crate's own input ends with records that are damaged on purpose (compare/src/damaged.rs), so that its output shows each kind of difference told.
#![tactic(auto)]

mod held;

use held::Tables;
use std::io;

fn main(rt: HostRuntime) -> io::Result<()> {
    let mut tables = Tables::new(rt.alloc())?;
    records::run(rt.alloc(), &mut rt.stdin(), &mut rt.stdout(), &mut tables)
}
