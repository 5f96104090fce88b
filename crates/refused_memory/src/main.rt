//! Makes each call that allocates memory, and prints its outcome.
//! `tests/test_refused_memory.py` runs this program once for each allocation, and refuses only that
//! one.
#![tactic(auto)]

mod calls;

use calls::{Call, end_of};
use std::io;

const CALLS: &[(&str, Call)] = &[
    ("Table::read", Call::ReadTable),
    ("Keys::read", Call::ReadKeys),
    ("Rows::read", Call::ReadRows),
    ("Rows::fit", Call::FitRows),
    ("Sender::new", Call::MakeSender),
    ("Queue::new", Call::MakeQueue),
    ("Conn::new", Call::MakeConn),
    ("Host::open", Call::OpenHost),
    ("Sim::new", Call::MakeSim),
];

fn main(rt: HostRuntime) -> io::Result<()> {
    for &(name, call) in CALLS {
        let end = end_of(rt.alloc(), call);
        println!(rt; "{name}: {end}")?;
    }
    Ok(())
}
