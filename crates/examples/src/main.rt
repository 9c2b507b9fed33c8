//! The examples of README.md and docs/TUTORIAL.md, and a reader of options, as one program.
#![tactic(auto)]

mod command_lines;
mod cuts;
mod names;
mod options;
mod patterns;
mod shell_words;

use names::stem;
use os_quote::escaped_line;
use os_str_bytes::{OsStrBytesExt, OsString, Windows};
use std::io;

fn main(rt: HostRuntime) -> io::Result<()> {
    // D83D alone is half of a surrogate pair: Windows allows it in a name, but it isn't text
    let name = OsString::<Windows>::from_wide(rt.alloc(), &[0xD83D, 0x2E, 0x74, 0x78, 0x74])?;
    if let Some((before, after)) = name.as_os_str().rsplit_once('.') {
        println!(rt; "{} and {}", escaped_line(before), escaped_line(after))?;
        println!(rt; "{} and {}", before.display(), after.display())?;
    }
    println!(rt; "{}", escaped_line(stem(name.as_os_str())))?;
    patterns::show(&rt, name.as_os_str())?;
    options::show(&rt)?;
    command_lines::show(&rt)?;
    shell_words::show(&rt)?;
    Ok(())
}
