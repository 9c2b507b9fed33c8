//! Which pattern matches a name, where one is an operand.
ghost use Rattle.std.specs.Prelude.{◌≡◌, ◌∷◌, ◌++◌, [], ℕ, List, false, OnOk};
ghost use Rattle.std.specs.Io.KnownBytes.{Appends};
ghost use Rattle.wtf8_core.specs.Occurrence.{IsPrefix};
ghost use Rattle.os_args.specs.Word.{dash};
ghost use Rattle.list_programs.specs.Items.{Lacks};
ghost use Rattle.program_frame.specs.Marked.{marked_inner, has_failed};
ghost use Rattle.program_frame.specs.Words.{words_after_name};
ghost use Rattle.test_command_uses.specs.OneGlob.{choosing, IsChosenBy};

use crate::ignoring::OneFile;
use names_commands::fault::Fault;
use names_commands::program::Names;
use os_args::laws::one_outcome;
use program_frame::ends::{Messages, Output};
use program_frame::marked::Marked;
use program_frame::program::execute;
use std::alloc::Allocator;
use std::env::Args;

/// Writes the pattern of the command line that matches the one name of a list: its number, the pattern and
/// the name, each of these as its escape, or nothing where it doesn't match.
pub fn chosen<A: Allocator + Copy, W: Output, E: Messages>(
    alloc: A,
    arguments: Args,
    glob: &str,
    name: &[u8],
    names: &[u8],
    writer: &mut Marked<W>,
    errors: &mut E,
) -> Result<(), Fault>
    requires words { words_after_name arguments ≡ choosing glob.now }
    requires plain { ¬ (IsPrefix dash glob.now) }
    requires whole { Lacks 0 name.now }
    requires ended { names.now ≡ name.now ++ 0 ∷ [] }
    requires unmarked { has_failed writer.old ≡ false }
    ensures { OnOk result ((text : List ℕ) × (IsChosenBy glob.now name.now text
        × Appends (W.contents (marked_inner writer.old)) (W.contents (marked_inner writer.new))
        text)) }
{
    one_outcome();
    let mut reader = Marked::new(names);
    let file = OneFile {
        name: "",
        bytes: b"",
    };
    let names = Names::new(file);
    execute(&names, alloc, Ok(arguments), &mut reader, writer, errors).outcome()
}
