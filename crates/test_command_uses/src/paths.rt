//! Lists of paths: the arguments of commands, the result for one path, and one that is rejected.
ghost use Rattle.std.specs.Prelude.{◌≡◌, ◌≢◌, ◌↔◌, ◌∷◌, ◌++◌, ◌⊎◌, [], ℕ, Bool, List, true, false, Some, None, IsOk, IfErr, IfSome, OnOk};
ghost use Rattle.std.specs.Fmt.InlineText.{inline_text};
ghost use Rattle.std.specs.Io.KnownBytes.{Appends};
ghost use Rattle.std.specs.declared.fmt.InlineText.{InlineText};
ghost use Rattle.os_str_bytes.specs.EncodingError.{EncodingError};
ghost use Rattle.path_building.specs.BaseViews.{base_path, base_style};
ghost use Rattle.path_building.specs.Checked.{IsBelowBase};
ghost use Rattle.path_building.specs.CheckedEnd.{IsCheckedJoinEnded};
ghost use Rattle.path_building.specs.Faults.{IsNameFault};
ghost use Rattle.path_building.specs.FileName.{IsExtensionSet};
ghost use Rattle.path_building.specs.FullPath.{IsFullPath};
ghost use Rattle.path_building.specs.Join.{IsJoin};
ghost use Rattle.path_building.specs.declared.walk.NameError.{NameError};
ghost use Rattle.path_rules.specs.Compare.{StartsWith};
ghost use Rattle.path_rules.specs.Name.{IsExtensionText};
ghost use Rattle.path_rules.specs.Parent.{IsParent, HasNoParent};
ghost use Rattle.path_building.specs.Relative.{IsRelativeFrom};
ghost use Rattle.path_building.specs.Restyled.{IsRestyled};
ghost use Rattle.list_programs.specs.Arguments.{HasOption};
ghost use Rattle.list_programs.specs.Items.{Lacks};
ghost use Rattle.list_programs.specs.ListOptions.{AreStated, byte_of};
ghost use Rattle.list_programs.specs.ListRun.{IsOutput, StopsOn};
ghost use Rattle.program_frame.specs.Marked.{marked_inner, has_failed};
ghost use Rattle.list_programs.specs.Rules.{EndsRun, passing};
ghost use Rattle.program_frame.specs.Strings.{strings};
ghost use Rattle.program_frame.specs.declared.fault.Failure.TheVariants.{Write as WriteFailure};
ghost use Rattle.list_programs.specs.declared.misuse.Misuse.{Misuse as DeclaredMisuse};
ghost use Rattle.list_programs.specs.declared.fault.ListFault.TheVariants.{Rejected, Run};
ghost use Rattle.paths_commands.specs.Command.{IsRequestFor, IsMisuse, RequestsNothing, longest_path};
ghost use Rattle.paths_commands.specs.Styles.{style_of};
ghost use Rattle.paths_commands.specs.Task.{component_of, rules_of, IsAnswer, IsComponentsText, IsShownOf, IsTaken, way_text};
ghost use Rattle.paths_commands.specs.declared.command.Command.{Command as DeclaredCommand};
ghost use Rattle.paths_commands.specs.declared.fault.Rejection.TheVariants.{NoJoin, NoJoinAt, NoString};
ghost use Rattle.paths_commands.specs.declared.option.PathsOption.TheVariants.{KeepSeparator, Lines, Unterminated};
ghost use Rattle.paths_commands.specs.declared.task.Task.TheVariants.{Components};
ghost use Rattle.test_command_uses.specs.OneFile.{lacking};

use list_programs::fault::ListFault;
use list_programs::options::{ItemEnd, LastItem, ListOptions};
use list_programs::rejections::KeepGoing;
use list_programs::run::{run, run_with};
use os_path::PathStyle;
use os_str_bytes::Platform;
use path_building::Base;
use paths_commands::command::{Command, Line};
use paths_commands::extension::Extension;
use paths_commands::fault::Rejection;
use paths_commands::task::{OnPlatform, Task};
use program_frame::marked::Marked;
use program_frame::os::Os;
use std::alloc::Allocator;
use std::io::{Eprint, Write};

/// Whether options and operands request a command; otherwise they request none, and something is
/// wrong with them.
pub fn requests_a_command(given: Line<'_, '_>, after_end: usize) -> bool
    ensures some { result ≡ true
        → (command : DeclaredCommand) × IsRequestFor after_end given.entry.now command }
    ensures none { result ≡ false → RequestsNothing after_end given.entry.now
        × ((misuse : DeclaredMisuse) × IsMisuse after_end given.entry.now misuse) }
{
    Command::parse(given, after_end).is_ok()
}

/// How a list of options and operands is written that request a run over one.
pub fn stated_list(given: Line<'_, '_>) -> Option<ListOptions>
    ensures { IfSome result (λ list.
        AreStated Lines Unterminated longest_path given.entry.now list) }
{
    match Command::parse(given, 0) {
        Ok(command) => match command {
            Command::Ask(_, _, list, _, _) => Some(list),
            Command::Help | Command::Version => None,
        },
        Err(_) => None,
    }
}

/// Whether a separator at the end of a path is kept by options and operands that request a checked
/// join.
pub fn kept_separator(given: Line<'_, '_>) -> Option<bool>
    ensures { IfSome result (λ keeps.
        (keeps ≡ true) ↔ HasOption KeepSeparator given.entry.now) }
{
    match Command::parse(given, 0) {
        Ok(Command::Ask(Task::JoinChecked(_, keeps), _, _, _, _)) => Some(keeps),
        _ => None,
    }
}

/// A list of paths of at most 4,096 bytes, each ended by this byte, which the last may lack.
fn lacking(end: ItemEnd) -> ListOptions
    ensures { result ≡ lacking end 4096 }
{
    ListOptions {
        end,
        last: LastItem::MayLackEnd,
        max: 4096,
    }
}

/// A run over bytes.
fn ask<E: PathStyle, A: Allocator, W: Write>(
    alloc: A,
    task: Task<'_>,
    list: ListOptions,
    input: &[u8],
    writer: &mut Marked<W>,
) -> Result<bool, ListFault<Rejection>>
    requires { has_failed writer.old ≡ false }
    ensures written { OnOk result ((output : List ℕ)
        × (IsOutput (rules_of ⟦<E as Platform>⟧ E.follows task.entry list list.end) input.now output
        × Appends (W.contents (marked_inner writer.old)) (W.contents (marked_inner writer.new))
        output)) }
    ensures stopped { IfErr result (λ fault. fault ≢ Run WriteFailure → (output : List ℕ)
        × (StopsOn (rules_of ⟦<E as Platform>⟧ E.follows task.entry list list.end) input.now output
        fault
        × Appends (W.contents (marked_inner writer.old)) (W.contents (marked_inner writer.new))
        output)) }
{
    let mut reader = Marked::new(input);
    run(
        alloc,
        &mut OnPlatform::<E>::new(task, list),
        &mut reader,
        writer,
    )
}

/// A run over bytes that passes over paths that are rejected, and how many were: no such path ends it,
/// and what is written is the output of the others.
pub fn requested_on<E: PathStyle, P: Eprint, A: Allocator, W: Write>(
    alloc: A,
    errors: &P,
    task: Task<'_>,
    list: ListOptions,
    input: &[u8],
    writer: &mut Marked<W>,
) -> (u64, Result<bool, ListFault<Rejection>>)
    requires { has_failed writer.old ≡ false }
    ensures written { OnOk result.1 ((output : List ℕ) × (IsOutput
        (passing result.0 (rules_of ⟦<E as Platform>⟧ E.follows task.entry list list.end))
        input.now output
        × Appends (W.contents (marked_inner writer.old)) (W.contents (marked_inner writer.new))
        output)) }
    ensures ends { IfErr result.1 (λ fault. EndsRun ⊥ fault) }
{
    let mut reader = Marked::new(input);
    let mut rejections = KeepGoing::new("paths", errors);
    let mut on = OnPlatform::<E>::new(task, list);
    let ran = run_with(alloc, &mut on, &mut rejections, &mut reader, writer);
    (rejections.count(), ran)
}

/// Runs a task other than the one for components on one path that it takes: the result lacks this
/// end, and is written with it.
pub fn answered<E: PathStyle, A: Allocator, W: Write>(
    alloc: A,
    end: ItemEnd,
    task: Task<'_>,
    path: &[u8],
    writer: &mut Marked<W>,
) -> Result<bool, ListFault<Rejection>>
    requires question { task ≢ Components }
    requires taken { IsTaken E.follows task path.now }
    requires whole { Lacks (byte_of end) path.now }
    requires some { path.now ≢ [] }
    requires unmarked { has_failed writer.old ≡ false }
    ensures { OnOk result ((answer : List ℕ) × (IsAnswer E.follows task.entry path.now answer
        × (Lacks (byte_of end) answer
        × Appends (W.contents (marked_inner writer.old)) (W.contents (marked_inner writer.new))
        (answer ++ byte_of end ∷ [])))) }
{
    ask::<E, A, W>(alloc, task, lacking(end), path, writer)
}

/// Writes the parent of one line as a line, which is empty where it has none.
pub fn parent_line<E: PathStyle, A: Allocator, W: Write>(
    alloc: A,
    path: &[u8],
    writer: &mut Marked<W>,
) -> Result<bool, ListFault<Rejection>>
    requires whole { Lacks 0x0A path.now }
    requires some { path.now ≢ [] }
    requires unmarked { has_failed writer.old ≡ false }
    ensures { OnOk result ((parent : List ℕ) × ((IsParent E.follows path.now parent
        ⊎ (HasNoParent E.follows path.now × (parent ≡ [])))
        × (Lacks 0x0A parent
        × Appends (W.contents (marked_inner writer.old)) (W.contents (marked_inner writer.new))
        (parent ++ 0x0A ∷ [])))) }
{
    answered::<E, A, W>(alloc, ItemEnd::Newline, Task::Parent, path, writer)
}

/// A line with a NUL, which is rejected.
pub fn line_with_nul<E: PathStyle, A: Allocator, W: Write>(
    alloc: A,
    task: Task<'_>,
    path: &[u8],
    writer: &mut Marked<W>,
) -> Result<bool, ListFault<Rejection>>
    requires whole { Lacks 0x0A path.now }
    requires nul { ¬ (Lacks 0 path.now) }
    requires some { path.now ≢ [] }
    requires unmarked { has_failed writer.old ≡ false }
    ensures { ¬ (IsOk result) }
{
    ask::<E, A, W>(alloc, task, lacking(ItemEnd::Newline), path, writer)
}

/// A path that no NUL ends, which is rejected.
pub fn unended_path<E: PathStyle, A: Allocator, W: Write>(
    alloc: A,
    task: Task<'_>,
    path: &[u8],
    writer: &mut Marked<W>,
) -> Result<bool, ListFault<Rejection>>
    requires whole { Lacks 0 path.now }
    requires some { path.now ≢ [] }
    requires unmarked { has_failed writer.old ≡ false }
    ensures { ¬ (IsOk result) }
{
    ask::<E, A, W>(alloc, task, ListOptions::new(4096), path, writer)
}

/// Writes the parent of one path with NUL, or NUL alone where it has none.
pub fn parent_of<E: PathStyle, A: Allocator, W: Write>(
    alloc: A,
    path: &[u8],
    writer: &mut Marked<W>,
) -> Result<bool, ListFault<Rejection>>
    requires whole { Lacks 0 path.now }
    requires some { path.now ≢ [] }
    requires unmarked { has_failed writer.old ≡ false }
    ensures { OnOk result ((parent : List ℕ) × ((IsParent E.follows path.now parent
        ⊎ (HasNoParent E.follows path.now × (parent ≡ [])))
        × (Lacks 0 parent
        × Appends (W.contents (marked_inner writer.old)) (W.contents (marked_inner writer.new))
        (parent ++ 0 ∷ [])))) }
{
    answered::<E, A, W>(alloc, ItemEnd::Nul, Task::Parent, path, writer)
}

/// Puts one path after a base, which is written with NUL.
pub fn after_base<E: PathStyle, A: Allocator, W: Write>(
    alloc: A,
    base: &str,
    path: &[u8],
    writer: &mut Marked<W>,
) -> Result<bool, ListFault<Rejection>>
    requires whole { Lacks 0 path.now }
    requires some { path.now ≢ [] }
    requires unmarked { has_failed writer.old ≡ false }
    ensures { OnOk result ((joined : List ℕ) × (IsJoin E.follows base.now path.now joined
        × (Lacks 0 joined
        × Appends (W.contents (marked_inner writer.old)) (W.contents (marked_inner writer.new))
        (joined ++ 0 ∷ [])))) }
{
    answered::<E, A, W>(alloc, ItemEnd::Nul, Task::Join(base), path, writer)
}

/// Writes one path with NUL if it begins with a base, and nothing if it doesn't.
pub fn begins_with<E: PathStyle, A: Allocator, W: Write>(
    alloc: A,
    base: &str,
    path: &[u8],
    writer: &mut Marked<W>,
) -> Result<bool, ListFault<Rejection>>
    requires whole { Lacks 0 path.now }
    requires some { path.now ≢ [] }
    requires unmarked { has_failed writer.old ≡ false }
    ensures { OnOk result ((text : List ℕ) × (((StartsWith E.follows path.now base.now
        × (text ≡ path.now ++ 0 ∷ []))
        ⊎ ((¬ (StartsWith E.follows path.now base.now)) × (text ≡ [])))
        × Appends (W.contents (marked_inner writer.old)) (W.contents (marked_inner writer.new))
        text)) }
{
    ask::<E, A, W>(
        alloc,
        Task::StartsWith(base),
        lacking(ItemEnd::Nul),
        path,
        writer,
    )
}

/// Replaces the extension of one path, which is written with NUL.
pub fn with_extension<E: PathStyle, A: Allocator, W: Write>(
    alloc: A,
    extension: Extension<'_>,
    path: &[u8],
    writer: &mut Marked<W>,
) -> Result<bool, ListFault<Rejection>>
    requires whole { Lacks 0 path.now }
    requires some { path.now ≢ [] }
    requires unmarked { has_failed writer.old ≡ false }
    ensures { OnOk result ((made : List ℕ) × (((is_set : Bool)
        × IsExtensionSet extension.entry.style path.now extension.entry.text.now made is_set)
        × (Lacks 0 made
        × Appends (W.contents (marked_inner writer.old)) (W.contents (marked_inner writer.new))
        (made ++ 0 ∷ [])))) }
{
    let task = Task::WithExtension(extension);
    answered::<E, A, W>(alloc, ItemEnd::Nul, task, path, writer)
}

/// An extension that options and operands state, with the platform: no byte of it separates there.
pub fn stated_extension<'a>(given: Line<'_, 'a>) -> Option<(Extension<'a>, Os)>
    ensures style { IfSome result (λ found. found.0.style ≡ style_of found.1) }
    ensures text { IfSome result (λ found.
        IsExtensionText (style_of found.1) found.0.text.now) }
{
    match Command::parse(given, 0) {
        Ok(Command::Ask(Task::WithExtension(extension), os, _, _, _)) => Some((extension, os)),
        _ => None,
    }
}

/// Puts one path below a base that it can't leave, with the separator at its end, which is written
/// with NUL.
pub fn kept_below<E: PathStyle, A: Allocator, W: Write>(
    alloc: A,
    base: Base<'_>,
    path: &[u8],
    writer: &mut Marked<W>,
) -> Result<bool, ListFault<Rejection>>
    requires whole { Lacks 0 path.now }
    requires some { path.now ≢ [] }
    requires unmarked { has_failed writer.old ≡ false }
    ensures { OnOk result ((ended : List ℕ)
        × ((IsCheckedJoinEnded (base_style base.entry) (base_path base.entry) path.now ended
        × IsBelowBase (base_style base.entry) (base_path base.entry) ended)
        × (Lacks 0 ended
        × Appends (W.contents (marked_inner writer.old)) (W.contents (marked_inner writer.new))
        (ended ++ 0 ∷ [])))) }
{
    let task = Task::JoinChecked(base, true);
    answered::<E, A, W>(alloc, ItemEnd::Nul, task, path, writer)
}

/// Writes how one path is reached from a base, with NUL.
pub fn from_base<E: PathStyle, A: Allocator, W: Write>(
    alloc: A,
    base: &str,
    path: &[u8],
    writer: &mut Marked<W>,
) -> Result<bool, ListFault<Rejection>>
    requires whole { Lacks 0 path.now }
    requires some { path.now ≢ [] }
    requires unmarked { has_failed writer.old ≡ false }
    ensures { OnOk result ((way : List ℕ) × (IsRelativeFrom E.follows path.now base.now (Some way)
        × (Lacks 0 (way_text way)
        × Appends (W.contents (marked_inner writer.old)) (W.contents (marked_inner writer.new))
        (way_text way ++ 0 ∷ [])))) }
{
    answered::<E, A, W>(alloc, ItemEnd::Nul, Task::Relative(base), path, writer)
}

/// Writes one path as an absolute path, with NUL: below a directory if it is relative.
pub fn full_path<E: PathStyle, A: Allocator, W: Write>(
    alloc: A,
    directory: &str,
    path: &[u8],
    writer: &mut Marked<W>,
) -> Result<bool, ListFault<Rejection>>
    requires whole { Lacks 0 path.now }
    requires some { path.now ≢ [] }
    requires unmarked { has_failed writer.old ≡ false }
    ensures { OnOk result ((full : List ℕ) × (IsFullPath E.follows path.now directory.now full
        × (Lacks 0 full
        × Appends (W.contents (marked_inner writer.old)) (W.contents (marked_inner writer.new))
        (full ++ 0 ∷ [])))) }
{
    answered::<E, A, W>(alloc, ItemEnd::Nul, Task::Absolute(directory), path, writer)
}

/// Writes the path of another platform with one path's components, with NUL.
pub fn on_platform<E: PathStyle, A: Allocator, W: Write>(
    alloc: A,
    to: Os,
    path: &[u8],
    writer: &mut Marked<W>,
) -> Result<bool, ListFault<Rejection>>
    requires whole { Lacks 0 path.now }
    requires some { path.now ≢ [] }
    requires unmarked { has_failed writer.old ≡ false }
    ensures { OnOk result ((made : List ℕ) × (((strings to).well_formed made
        × IsRestyled E.follows (style_of to) path.now made)
        × (Lacks 0 made
        × Appends (W.contents (marked_inner writer.old)) (W.contents (marked_inner writer.new))
        (made ++ 0 ∷ [])))) }
{
    answered::<E, A, W>(alloc, ItemEnd::Nul, Task::Convert(to), path, writer)
}

/// Writes the components of one path, one per line, and an empty line after them.
pub fn components_of<E: PathStyle, A: Allocator, W: Write>(
    alloc: A,
    path: &[u8],
    writer: &mut Marked<W>,
) -> Result<bool, ListFault<Rejection>>
    requires whole { Lacks 0 path.now }
    requires some { path.now ≢ [] }
    requires unmarked { has_failed writer.old ≡ false }
    ensures { OnOk result ((text : List ℕ)
        × (IsComponentsText ⟦<E as Platform>⟧ E.follows path.now text
        × Appends (W.contents (marked_inner writer.old)) (W.contents (marked_inner writer.new))
        text)) }
{
    ask::<E, A, W>(alloc, Task::Components, lacking(ItemEnd::Nul), path, writer)
}

/// Runs a task on one path: where it is rejected, it is the first, with the first fault of its
/// bytes.
pub fn requested_one<E: PathStyle, A: Allocator, W: Write>(
    alloc: A,
    task: Task<'_>,
    path: &[u8],
    writer: &mut Marked<W>,
) -> Result<bool, ListFault<Rejection>>
    requires whole { Lacks 0 path.now }
    requires unmarked { has_failed writer.old ≡ false }
    ensures { IfErr result (λ fault. (number : ℕ) → (error : EncodingError)
        → fault ≡ Rejected number (NoString error) → (number ≡ 1) × E.first_fault path.now error) }
{
    ask::<E, A, W>(alloc, task, lacking(ItemEnd::Nul), path, writer)
}

/// Runs `join --checked` on one path: where it is rejected for a component, that is the one that is
/// shown.
pub fn joined_one<E: PathStyle, A: Allocator, W: Write>(
    alloc: A,
    base: Base<'_>,
    keeps: bool,
    path: &[u8],
    writer: &mut Marked<W>,
) -> Result<bool, ListFault<Rejection>>
    requires whole { Lacks 0 path.now }
    requires unmarked { has_failed writer.old ≡ false }
    ensures at { IfErr result (λ fault. (number : ℕ) → (error : NameError)
        → (text : InlineText 200) → fault ≡ Rejected number (NoJoinAt error text)
        → (number ≡ 1) × (IsNameFault (base_style base.entry) path.now error
        × ((index : ℕ) × ((component_of error ≡ Some index)
        × IsShownOf ⟦<E as Platform>⟧ E.follows path.now index (inline_text text))))) }
    ensures alone { IfErr result (λ fault. (number : ℕ) → (error : NameError)
        → fault ≡ Rejected number (NoJoin error)
        → (number ≡ 1) × (IsNameFault (base_style base.entry) path.now error
        × (component_of error ≡ None))) }
{
    ask::<E, A, W>(
        alloc,
        Task::JoinChecked(base, keeps),
        lacking(ItemEnd::Nul),
        path,
        writer,
    )
}
