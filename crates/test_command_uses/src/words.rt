//! Words of commands, and commands that can't run.
ghost use Rattle.std.specs.Prelude.{◌≡◌, ◌<◌, IsOk, false, length, map, string_bytes};
ghost use Rattle.osbytes_commands.specs.Command.{words_of};
ghost use Rattle.osbytes_commands.specs.declared.command.Command.{Command};

use osbytes_commands::command::Command;
use osbytes_commands::fault::Fault;
use program_frame::os::Os;

/// Whether a string can be split at the empty pattern.
pub fn splits_at_nothing(os: Os) -> bool
    ensures { result ≡ false }
{
    !Command::Split(os, "").is_unusable()
}

/// The command of known words.
pub fn known_words(words: &[String]) -> Result<Command<'_>, Fault>
    ensures { (command : Command) → map string_bytes words.now ≡ words_of command → IsOk result }
{
    Command::parse(words)
}

/// Four words or more, which no command has.
pub fn too_many_words(words: &[String]) -> Result<Command<'_>, Fault>
    ensures { 3 < length words.now → result ≡ Err Fault.Usage }
{
    Command::parse(words)
}
