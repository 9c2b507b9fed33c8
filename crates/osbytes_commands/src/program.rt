//! The whole program, over ends of any kind.

use crate::command::Command;
use crate::fault::Fault;
use crate::run::run;
use program_frame::marked::Marked;
use program_frame::program::Program;
use std::alloc::Allocator;
use std::io::{Read, Write};

/// The program `osbytes`: its arguments specify a command ([`Command::parse`]), which [`run`] runs.
/// [`program_frame::program::execute`] runs the program.
///
/// For the words `units` and `windows` and the input F0 90 80 80 (hexadecimal) it writes
/// `d800`, a newline, `dc00` and a newline, and its status is 0. For no words it writes the
/// line `osbytes: usage: osbytes units|raw|find|split|chunks unix|windows|wasm [PAT]` to
/// standard error, and its status is 2.
///
/// ```
/// use osbytes_commands::program::OsBytes;
/// use program_frame::marked::Marked;
/// use program_frame::program::execute;
/// use std::process::{ExitCode, Termination};
///
/// let mut words = Vec::new(alloc);
/// for word in ["osbytes", "raw", "windows"] {
///     words.push(String::from_str(alloc, word)?)?;
/// }
/// let (mut input, mut output) = (Marked::new(b"".as_slice()), Marked::new(rt.stdout()));
/// let words = Ok(words.into_iter());
/// let ended = execute(&OsBytes, alloc, words, &mut input, &mut output, &mut rt.stderr());
/// assert!(rt; ended.report(&rt) == ExitCode::from(0));
/// ```
#[derive(Clone, Copy)]
pub struct OsBytes;

impl Program for OsBytes {
    type Fault = Fault;

    ghost use Rattle.std.specs.Prelude.{codes};
    ghost use Rattle.osbytes_commands.specs.Program.{RunsTo};
    ghost use Rattle.osbytes_commands.specs.declared.fault.Fault.TheVariants.{Memory, Usage};

    ghost name = { codes "osbytes" };

    ghost unreadable = { Usage };

    ghost out_of_memory = { Memory };

    ghost runs_to = { λ _ _ words R W. RunsTo words };

    fn name() -> &'static str {
        "osbytes"
    }

    fn unreadable() -> Fault {
        Fault::Usage
    }

    fn out_of_memory() -> Fault {
        Fault::Memory
    }

    fn run_words<A: Allocator + Copy, R: Read, W: Write>(
        &self,
        alloc: A,
        words: &[String],
        reader: &mut Marked<R>,
        writer: &mut Marked<W>,
    ) -> Result<(), Fault> {
        let command = Command::parse(words)?;
        run(alloc, command, reader, writer)
    }
}
