//! Programs: their arguments, their run, and how it ends.
ghost use Rattle.std.specs.Prelude.{◌≡◌, [], ◌≢◌, ◌⊎◌, ℕ, List, Option, Result, ⊤, true, false, map, string_bytes, IfOk, IfErr, OnOk, IsOk};
ghost use Rattle.std.specs.Io.KnownBytes.{Appends};
ghost use Rattle.std.specs.IoError.{error_kind};
ghost use Rattle.program_frame.specs.Ended.{message, outcome_of, was_reported};
ghost use Rattle.program_frame.specs.Marked.{has_failed, is_closed};
ghost use Rattle.program_frame.specs.Words.{words_after_name};
ghost use Rattle.program_frame.specs.Written.{AppendsBeginning};
ghost use Rattle.program_frame.specs.declared.marked.Marked.{Marked};

use crate::ended::{Ended, ProgramFault};
use crate::ends::{Messages, Output};
use crate::marked::Marked;
use crate::words::{NoWords, words};
use std::alloc::Allocator;
use std::env::Args;
use std::io;
use std::io::{ErrorKind, Read, Write};

/// A program.
pub trait Program {
    /// What keeps it from its output.
    type Fault: ProgramFault;

    // the program's name
    ghost name: { List ℕ };

    // the arguments aren't available
    ghost unreadable: { Self.Fault };

    // an allocation failed
    ghost out_of_memory: { Self.Fault };

    // what the program does with memory of this allocator and with these arguments. It is a relation
    // of its reader at first and at last, of its writer at first and at last, and of the outcome.
    // The functions are what is known of the bytes that a reader has left, and of what a writer holds.
    ghost runs_to: { Self → (A : Type 0) → List (List ℕ) → (R W : Type 0) → (R → Option (List ℕ))
        → (W → Option (List ℕ)) → Marked R → Marked R → Marked W → Marked W
        → Result ⊤ Self.Fault → Type 0 };

    /// The program's name.
    ///
    /// ```
    /// use paths_commands::program::Paths;
    /// use program_frame::program::Program;
    ///
    /// assert_eq!(rt; Paths::<HostRuntime>::name(), "paths");
    /// ```
    fn name() -> &'static str
        ensures { result.now ≡ name };

    /// The fault of arguments that aren't available, since one of them isn't valid UTF-8.
    ///
    /// ```
    /// use osbytes_commands::fault::Fault;
    /// use osbytes_commands::program::OsBytes;
    /// use program_frame::program::Program;
    ///
    /// assert!(rt; OsBytes::unreadable() == Fault::Usage);
    /// ```
    fn unreadable() -> Self::Fault
        ensures { result ≡ unreadable };

    /// The fault of a failed allocation.
    ///
    /// ```
    /// use osbytes_commands::fault::Fault;
    /// use osbytes_commands::program::OsBytes;
    /// use program_frame::program::Program;
    ///
    /// assert!(rt; OsBytes::out_of_memory() == Fault::Memory);
    /// ```
    fn out_of_memory() -> Self::Fault
        ensures { result ≡ out_of_memory };

    /// Runs the command that has these arguments, and returns the outcome. Both marks must be unset
    /// (test: [`Marked::failed`]).
    ///
    /// # Errors
    ///
    /// What keeps the program from its output.
    ///
    /// ```
    /// use paths_commands::fault::{CommandFault, Fault};
    /// use paths_commands::program::Paths;
    /// use program_frame::marked::Marked;
    /// use program_frame::program::Program;
    ///
    /// let mut taken = Vec::new(alloc);
    /// let (mut reader, mut writer) = (Marked::new(b"a".as_slice()), Marked::new(&mut taken));
    /// let ended = Paths::new(&rt).run_words(alloc, &[], &mut reader, &mut writer);
    /// assert!(rt; matches!(ended, Err(Fault::Words(CommandFault::Misuse(_)))));
    /// ```
    fn run_words<A: Allocator + Copy, R: Read, W: Write>(
        &self,
        alloc: A,
        words: &[String],
        reader: &mut Marked<R>,
        writer: &mut Marked<W>,
    ) -> Result<(), Self::Fault>
        requires reader_unmarked { has_failed reader.old ≡ false }
        requires writer_unmarked { has_failed writer.old ≡ false }
        ensures { runs_to self.now A (map string_bytes words.now) R W R.remaining W.contents
            reader.old reader.new writer.old writer.new result };
}

/// The program with these arguments over these ends.
///
/// The arguments begin with the program's name. Those after it name a command, which
/// [`Program::run_words`] runs. Both marks must be unset (test: [`Marked::failed`]).
///
/// The message of a fault goes to `errors`, and nothing else does. The fault is that the arguments
/// are rejected, that they aren't available, or that the run fails. If not all of the message is
/// taken, a beginning of it is. If the reader of the output is gone ([`Marked::closed`]), or the
/// fault has no text, no message is written.
///
/// ```
/// use names_commands::program::Names;
/// use program_frame::files::Disk;
/// use program_frame::marked::Marked;
/// use program_frame::program::execute;
/// use std::process::{ExitCode, Termination};
///
/// let mut words = Vec::new(alloc);
/// for word in ["names", "check", "windows"] {
///     words.push(String::from_str(alloc, word)?)?;
/// }
/// let (mut input, mut output) = (Marked::new(b"a\0".as_slice()), Marked::new(rt.stdout()));
/// let (names, words) = (Names::new(Disk::new(&rt)), Ok(words.into_iter()));
/// let ended = execute(&names, alloc, words, &mut input, &mut output, &mut rt.stderr());
/// assert!(rt; ended.report(&rt) == ExitCode::from(0));
/// ```
pub fn execute<P: Program, A: Allocator + Copy, R: Read, W: Output, E: Messages>(
    program: &P,
    alloc: A,
    args: io::Result<Args>,
    reader: &mut Marked<R>,
    writer: &mut Marked<W>,
    errors: &mut E,
) -> Ended<P::Fault>
    requires reader_unmarked { has_failed reader.old ≡ false }
    requires writer_unmarked { has_failed writer.old ≡ false }

    // The words.
    ensures ok { OnOk (outcome_of result) (IsOk args) }
    ensures no_words { IfErr args (λ error. error_kind error ≢ ErrorKind.OutOfMemory
        → outcome_of result ≡ Err P.unreadable) }
    ensures no_memory { IfErr args (λ error. error_kind error ≡ ErrorKind.OutOfMemory
        → outcome_of result ≡ Err P.out_of_memory) }
    ensures untouched { IfErr args (λ _. (reader.new ≡ reader.old) × (writer.new ≡ writer.old)) }

    // The run.
    ensures run { IfOk args (λ args.
        ((outcome_of result ≡ Err P.out_of_memory)
        × ((reader.new ≡ reader.old) × (writer.new ≡ writer.old)))
        ⊎ P.runs_to program.now A (words_after_name args) R W R.remaining W.contents
        reader.old reader.new writer.old writer.new (outcome_of result)) }

    // The message.
    ensures closed { is_closed writer.new ≡ true → errors.new ≡ errors.old }
    ensures quiet { OnOk (outcome_of result) (errors.new ≡ errors.old) }
    ensures silent { IfErr (outcome_of result) (λ fault. P.Fault.text_of fault ≡ []
        → errors.new ≡ errors.old) }
    ensures reported { was_reported result ≡ true → IfErr (outcome_of result) (λ fault.
        Appends (E.contents errors.old) (E.contents errors.new)
        (message P.name (P.Fault.text_of fault))) }
    ensures beginning { IfErr (outcome_of result) (λ fault.
        AppendsBeginning (E.contents errors.old) (E.contents errors.new)
        (message P.name (P.Fault.text_of fault))) }
{
    match words(alloc, args) {
        Ok(words) => {
            let outcome = program.run_words(alloc, &words, reader, writer);
            Ended::reporting_unless(P::name(), writer.closed(), outcome, errors)
        }
        Err(NoWords::Memory) => Ended::reporting(P::name(), Err(P::out_of_memory()), errors),
        Err(NoWords::Unreadable) => Ended::reporting(P::name(), Err(P::unreadable()), errors),
    }
}
