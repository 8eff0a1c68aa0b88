// Calls of the month totals stored with their answers, made again.
//
// Standard input is records as compare/src/month/stored.rs has them, one after the other. Each call is made anew, and its four numbers and every byte of the
// report are held to what is stored. The last line says how many answers there were and how many differ.
// The crate's own input ends with records that are damaged on purpose (compare/src/month/damaged.rs), so that its output shows each kind of difference told.
#![tactic(auto)]

mod held;

use held::Report;
use std::io;

fn main(rt: HostRuntime) -> io::Result<()> {
    let mut report = Report::new(rt.alloc())?;
    records::run(rt.alloc(), &mut rt.stdin(), &mut rt.stdout(), &mut report)
}
