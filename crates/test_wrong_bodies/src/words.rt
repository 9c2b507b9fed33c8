//! Words of commands.
ghost use Rattle.std.specs.Prelude.{◌≡◌, ◌≢◌, IfOk, OnErr, map, string_bytes};
ghost use Rattle.osbytes_commands.specs.Command.{words_of};
ghost use Rattle.osbytes_commands.specs.declared.command.Command.{Command};

use osbytes_commands::command::Command;
use osbytes_commands::fault::Fault;

/// The command that words make up.
pub fn parse(words: &[String]) -> Result<Command<'_>, Fault>
    ensures command { IfOk result (λ command. map string_bytes words.now ≡ words_of command) }
    ensures no_command { OnErr result ((command : Command)
        → map string_bytes words.now ≢ words_of command) }
{
    Command::parse(words)
}
