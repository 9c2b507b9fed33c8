//! What a command makes of its input.
ghost use Rattle.std.specs.Prelude.{◌≡◌, IfOk, IfErr};
ghost use Rattle.osbytes_commands.specs.Command.{os_of, IsUnusable};
ghost use Rattle.osbytes_commands.specs.Output.{IsOutput, IsFault, IsOutputOn, IsFaultOn};

use crate::chunks::chunks;
use crate::command::Command;
use crate::fault::Fault;
use crate::find::find;
use crate::quoting::{quote, unquote};
use crate::raw::raw;
use crate::split::split;
use crate::target::Target;
use crate::units::units;
use os_str_bytes::{Platform, Unix, Wasm, Windows};
use program_frame::os::Os;
use std::alloc::Allocator;

/// The output of the command for the whole of its input, or the fault that the input has.
///
/// The command can run (test: [`Command::is_unusable`]). The one other fault is
/// [`Fault::Memory`].
pub fn answer<A: Allocator + Copy>(
    alloc: A,
    command: Command<'_>,
    input: &[u8],
) -> Result<Vec<u8, A>, Fault>
    requires { ¬ (IsUnusable command) }
    ensures output { IfOk result (λ output. IsOutput command.entry input.now output.items) }
    ensures fault { IfErr result (λ fault. IsFault command.entry input.now fault) }
{
    match command.os() {
        Os::Unix => answer_on::<Unix, A>(alloc, command, input),
        Os::Windows => answer_on::<Windows, A>(alloc, command, input),
        Os::Wasm => answer_on::<Wasm, A>(alloc, command, input),
    }
}

/// Returns the output of the command on its platform, as `answer` does on any.
fn answer_on<E: Target, A: Allocator + Copy>(
    alloc: A,
    command: Command<'_>,
    input: &[u8],
) -> Result<Vec<u8, A>, Fault>
    requires platform { os_of command ≡ E.os }
    requires usable { ¬ (IsUnusable command) }
    ensures output { IfOk result (λ output. IsOutputOn ⟦<E as Platform>⟧ command.entry input.now
        output.items) }
    ensures fault { IfErr result (λ fault. IsFaultOn ⟦<E as Platform>⟧ command.entry input.now
        fault) }
{
    match command {
        Command::Units(_) => units::<E, A>(alloc, input),
        Command::Raw(_) => raw::<E, A>(alloc, input),
        Command::Find(_, pattern) => find::<E, A>(alloc, input, pattern),
        Command::Split(_, pattern) => split::<E, A>(alloc, input, pattern),
        Command::Chunks(_) => chunks::<E, A>(alloc, input),
        Command::Quote(_) => quote::<E, A>(alloc, input),
        Command::Unquote(_) => unquote::<E, A>(alloc, input),
    }
}
