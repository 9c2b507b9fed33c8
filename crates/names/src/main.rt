//! The program `names`: prints lists of file names escaped, one on each line, and reads them back.
//!
//! It passes its arguments, its three streams and the files of the disk to [`execute`], whose contract
//! states what is done.
#![tactic(auto)]

use names_commands::fault::Fault;
use names_commands::program::Names;
use program_frame::ended::Ended;
use program_frame::files::Disk;
use program_frame::marked::Marked;
use program_frame::program::execute;
use std::env;

fn main(rt: HostRuntime) -> Ended<Fault> {
    execute(
        &Names::new(Disk::new(&rt)),
        rt.alloc(),
        env::args(&rt),
        &mut Marked::new(rt.reader()),
        &mut Marked::new(rt.stdout()),
        &mut rt.stderr(),
    )
}
