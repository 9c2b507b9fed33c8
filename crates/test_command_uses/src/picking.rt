//! Names that the patterns of a file pick, where the one file that there is is a value.
ghost use Rattle.std.specs.Prelude.{◌≡◌, ◌∷◌, ◌++◌, [], ℕ, List, false, OnOk};
ghost use Rattle.std.specs.Io.KnownBytes.{Appends};
ghost use Rattle.list_programs.specs.Items.{Lacks};
ghost use Rattle.program_frame.specs.Marked.{marked_inner, has_failed};
ghost use Rattle.program_frame.specs.Words.{words_after_name};
ghost use Rattle.test_command_uses.specs.OneGlobFile.{filtering_from, IsKeptBy, IsOneLine};

use crate::ignoring::OneFile;
use names_commands::fault::Fault;
use names_commands::program::Names;
use os_args::laws::one_outcome;
use program_frame::ends::{Messages, Output};
use program_frame::marked::Marked;
use program_frame::program::execute;
use std::alloc::Allocator;
use std::env::Args;

/// Filters a list of one name by the patterns of the file, which is named on the command line: where
/// the file has one pattern, the name is written with NUL exactly if it matches.
pub fn picked<A: Allocator + Copy, W: Output, E: Messages>(
    alloc: A,
    file: OneFile<'_>,
    arguments: Args,
    name: &[u8],
    names: &[u8],
    writer: &mut Marked<W>,
    errors: &mut E,
) -> Result<(), Fault>
    requires words { words_after_name arguments ≡ filtering_from file.name.now }
    requires whole { Lacks 0 name.now }
    requires ended { names.now ≡ name.now ++ 0 ∷ [] }
    requires unmarked { has_failed writer.old ≡ false }
    ensures { (glob : List ℕ) → IsOneLine glob → file.entry.bytes.now ≡ glob ++ 0x0A ∷ []
        → OnOk result ((text : List ℕ) × (IsKeptBy glob name.now text
        × Appends (W.contents (marked_inner writer.old)) (W.contents (marked_inner writer.new))
        text)) }
{
    one_outcome();
    let mut reader = Marked::new(names);
    let names = Names::new(file);
    execute(&names, alloc, Ok(arguments), &mut reader, writer, errors).outcome()
}
