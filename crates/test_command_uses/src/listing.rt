//! Names that are listed as lines or words, or checked, and what a run over them rejects.
ghost use Rattle.std.specs.Prelude.{◌≡◌, ◌≢◌, ◌≤◌, ◌∷◌, ◌++◌, [], ℕ, List, true, false, Err, IsOk, IfErr, OnErr, OnOk, length};
ghost use Rattle.std.specs.Io.KnownBytes.{Appends};
ghost use Rattle.os_command_line.specs.ShellWriting.{quoted_word};
ghost use Rattle.os_quote.specs.Escape.{IsLineEscape};
ghost use Rattle.os_str_bytes.specs.EncodingError.{EncodingError};
ghost use Rattle.os_str_bytes.specs.Strings.{bytes};
ghost use Rattle.list_programs.specs.Items.{Lacks};
ghost use Rattle.list_programs.specs.ListOptions.{byte_of};
ghost use Rattle.list_programs.specs.ListRun.{IsOutput, StopsOn, WritesSome};
ghost use Rattle.program_frame.specs.Marked.{marked_inner, has_failed};
ghost use Rattle.program_frame.specs.declared.fault.Failure.TheVariants.{Write as WriteFailure};
ghost use Rattle.list_programs.specs.declared.fault.ListFault.TheVariants.{Rejected, Run, Unended};
ghost use Rattle.list_programs.specs.declared.options.ItemEnd.{ItemEnd as ItemEndOf};
ghost use Rattle.list_programs.specs.declared.program_fault.Fault.TheVariants.{Words};
ghost use Rattle.names_commands.specs.Task.{rules_of};
ghost use Rattle.names_commands.specs.declared.fault.Rejection.{Rejection};
ghost use Rattle.names_commands.specs.declared.fault.CommandFault.TheVariants.{NoOutput};
ghost use Rattle.names_commands.specs.declared.fault.Rejection.TheVariants.{NoString};

use list_programs::answers::run_list;
use list_programs::fault::ListFault;
use list_programs::lines::push_escape;
use list_programs::options::{ItemEnd, LastItem, ListOptions};
use list_programs::run::run;
use names_commands::fault::{CommandFault, Fault, Rejection};
use names_commands::task::{OnPlatform, Settings, Task, WordForm};
use os_str_bytes::{OsStr, Platform, Unix};
use program_frame::marked::Marked;
use std::alloc::{AllocError, Allocator};
use std::io::Write;

/// A run over bytes.
pub(crate) fn run_over<E: Platform, A: Allocator, W: Write>(
    alloc: A,
    settings: Settings,
    input: &[u8],
    writer: &mut Marked<W>,
) -> Result<bool, ListFault<Rejection>>
    requires { has_failed writer.old ≡ false }
    ensures written { OnOk result ((output : List ℕ)
        × (IsOutput (rules_of ⟦<E as Platform>⟧ settings) input.now output
        × Appends (W.contents (marked_inner writer.old)) (W.contents (marked_inner writer.new))
        output)) }
    ensures stopped { IfErr result (λ fault. fault ≢ Run WriteFailure → (output : List ℕ)
        × (StopsOn (rules_of ⟦<E as Platform>⟧ settings) input.now output fault
        × Appends (W.contents (marked_inner writer.old)) (W.contents (marked_inner writer.new))
        output)) }
{
    let mut reader = Marked::new(input);
    run(
        alloc,
        &mut OnPlatform::<E>::new(settings),
        &mut reader,
        writer,
    )
}

/// Lists names on lines, and fails if nothing is written: on success something was written, and with
/// that failure nothing.
pub fn listed_or_none<E: Platform, A: Allocator, W: Write>(
    alloc: A,
    names: &[u8],
    writer: &mut Marked<W>,
) -> Result<(), Fault>
    requires { has_failed writer.old ≡ false }
    ensures some { OnOk result (WritesSome true (W.contents (marked_inner writer.old))
        (W.contents (marked_inner writer.new))) }
    ensures none { result ≡ Err (Words NoOutput)
        → WritesSome false (W.contents (marked_inner writer.old))
        (W.contents (marked_inner writer.new)) }
{
    let mut reader = Marked::new(names);
    let mut listing = OnPlatform::<E>::new(Settings::new(Task::ListAll, 255));
    let none = Some(CommandFault::NoOutput);
    run_list(alloc, &mut listing, none, &mut reader, writer)
}

/// Lists one name, which is written as its escape on a line, and not past the limit.
pub fn line_of<E: Platform, A: Allocator, W: Write>(
    alloc: A,
    max: usize,
    name: &[u8],
    writer: &mut Marked<W>,
) -> Result<bool, ListFault<Rejection>>
    requires whole { Lacks 0 name.now }
    requires some { name.now ≢ [] }
    requires unmarked { has_failed writer.old ≡ false }
    ensures line { OnOk result ((line : List ℕ) × (IsLineEscape E.units name.now line
        × Appends (W.contents (marked_inner writer.old)) (W.contents (marked_inner writer.new))
        (line ++ 0x0A ∷ []))) }
    ensures short { OnOk result (length name.now ≤ max) }
{
    let settings = Settings {
        task: Task::ListAll,
        list: ListOptions {
            end: ItemEnd::Nul,
            last: LastItem::MayLackEnd,
            max,
        },
    };
    run_over::<E, A, W>(alloc, settings, name, writer)
}

/// Lists names where the second is rejected: the line of the first is written, and nothing else.
pub fn line_before<E: Platform, A: Allocator, W: Write>(
    alloc: A,
    max: usize,
    names: &[u8],
    writer: &mut Marked<W>,
) -> Result<bool, ListFault<Rejection>>
    requires { has_failed writer.old ≡ false }
    ensures { IfErr result (λ fault. (name : List ℕ) → (rest : List ℕ) → (why : Rejection)
        → names.now ≡ name ++ 0 ∷ rest → Lacks 0 name → fault ≡ Rejected 2 why → (line : List ℕ)
        × (IsLineEscape E.units name line
        × Appends (W.contents (marked_inner writer.old)) (W.contents (marked_inner writer.new))
        (line ++ 0x0A ∷ []))) }
{
    run_over::<E, A, W>(alloc, Settings::new(Task::ListAll, max), names, writer)
}

/// Lists one name as a word of every POSIX shell, and a newline.
pub fn word_of<A: Allocator, W: Write>(
    alloc: A,
    max: usize,
    name: &[u8],
    writer: &mut Marked<W>,
) -> Result<bool, ListFault<Rejection>>
    requires whole { Lacks 0 name.now }
    requires some { name.now ≢ [] }
    requires unmarked { has_failed writer.old ≡ false }
    ensures { OnOk result (Appends (W.contents (marked_inner writer.old))
        (W.contents (marked_inner writer.new)) (quoted_word name.now ++ 0x0A ∷ [])) }
{
    let settings = Settings {
        task: Task::ListWords(WordForm::Posix),
        list: ListOptions {
            end: ItemEnd::Nul,
            last: LastItem::MayLackEnd,
            max,
        },
    };
    run_over::<Unix, A, W>(alloc, settings, name, writer)
}

/// Lists a name that no NUL ends, which is rejected: if for that, then as the first.
pub fn unended_name<E: Platform, A: Allocator, W: Write>(
    alloc: A,
    max: usize,
    name: &[u8],
    writer: &mut Marked<W>,
) -> Result<bool, ListFault<Rejection>>
    requires whole { Lacks 0 name.now }
    requires some { name.now ≢ [] }
    requires unmarked { has_failed writer.old ≡ false }
    ensures rejected { ¬ (IsOk result) }
    ensures first { IfErr result (λ fault. (number : ℕ) → (end : ItemEndOf)
        → fault ≡ Unended number end → (number ≡ 1) × (byte_of end ≡ 0)) }
{
    run_over::<E, A, W>(alloc, Settings::new(Task::ListAll, max), name, writer)
}

/// Checks one name: where it is rejected, it is the first, with the first fault of its bytes.
pub fn check_one<E: Platform, A: Allocator, W: Write>(
    alloc: A,
    max: usize,
    name: &[u8],
    writer: &mut Marked<W>,
) -> Result<bool, ListFault<Rejection>>
    requires whole { Lacks 0 name.now }
    requires unmarked { has_failed writer.old ≡ false }
    ensures { IfErr result (λ fault. (number : ℕ) → (error : EncodingError)
        → fault ≡ Rejected number (NoString error) → (number ≡ 1) × E.first_fault name.now error) }
{
    let settings = Settings {
        task: Task::Check,
        list: ListOptions {
            end: ItemEnd::Nul,
            last: LastItem::MayLackEnd,
            max,
        },
    };
    run_over::<E, A, W>(alloc, settings, name, writer)
}

/// Appends the escape of a name on one line, and a tab.
pub fn escape_of<E: Platform, A: Allocator>(
    alloc: A,
    name: OsStr<'_, E>,
    output: &mut Vec<u8, A>,
) -> Result<(), AllocError>
    ensures escape { OnOk result ((text : List ℕ) × (IsLineEscape E.units (bytes name.entry) text
        × (output.new.items ≡ output.old.items ++ (text ++ 0x09 ∷ [])))) }
    ensures unchanged { OnErr result (output.new.items ≡ output.old.items) }
{
    push_escape(alloc, name, b'\t', output)
}
