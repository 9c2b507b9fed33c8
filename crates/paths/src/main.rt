//! The program `paths`: lists of paths, taken apart path by path.
//!
//! It passes its arguments and its three streams to [`execute`], whose contract states what is done.
#![tactic(auto)]

use paths_commands::fault::Fault;
use paths_commands::program::Paths;
use program_frame::ended::Ended;
use program_frame::marked::Marked;
use program_frame::program::execute;
use std::env;

fn main(rt: HostRuntime) -> Ended<Fault> {
    execute(
        &Paths::new(&rt),
        rt.alloc(),
        env::args(&rt),
        &mut Marked::new(rt.reader()),
        &mut Marked::new(rt.stdout()),
        &mut rt.stderr(),
    )
}
