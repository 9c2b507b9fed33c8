//! The program `osbytes`: platform strings as bytes and as units.
//!
//! It passes its arguments and its three streams to [`execute`]. The contract of that and
//! [`OsBytes`] state what is done.
#![tactic(auto)]

use osbytes_commands::fault::Fault;
use osbytes_commands::program::OsBytes;
use program_frame::ended::Ended;
use program_frame::marked::Marked;
use program_frame::program::execute;
use std::env;

fn main(rt: HostRuntime) -> Ended<Fault> {
    execute(
        &OsBytes,
        rt.alloc(),
        env::args(&rt),
        &mut Marked::new(rt.reader()),
        &mut Marked::new(rt.stdout()),
        &mut rt.stderr(),
    )
}
