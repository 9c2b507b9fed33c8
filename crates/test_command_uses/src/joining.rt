//! Lines and words that are joined to names: the way back from a list, and lines that are rejected.
ghost use Rattle.std.specs.Prelude.{◌≡◌, ◌≢◌, ◌≤◌, ◌∷◌, ◌++◌, [], ℕ, List, false, IsOk, OnOk, length};
ghost use Rattle.std.specs.Io.KnownBytes.{Appends};
ghost use Rattle.list_programs.specs.Items.{Lacks};
ghost use Rattle.list_programs.specs.ListOptions.{byte_of};
ghost use Rattle.list_programs.specs.ListRun.{IsOutput};
ghost use Rattle.program_frame.specs.Marked.{marked_inner, has_failed};
ghost use Rattle.names_commands.specs.Back.{listing, listing_words, AreFirst, IsCompleted};
ghost use Rattle.names_commands.specs.Task.{rules_of};
ghost use Rattle.names_commands.specs.Words.{AreNamesOf};
ghost use Rattle.test_command_uses.specs.OneFile.{unended};

use crate::listing::run_over;
use list_programs::fault::ListFault;
use list_programs::options::{ItemEnd, LastItem, ListOptions};
use names_commands::fault::Rejection;
use names_commands::laws::{names_come_back, names_come_back_from_words};
use names_commands::task::{EmptyLine, Settings, Task};
use os_str_bytes::{Platform, Unix};
use program_frame::marked::Marked;
use std::alloc::Allocator;
use std::io::Write;

/// Joins the lines that were written of names, which gives back the names.
pub fn names_again<E: Platform, A: Allocator, W: Write>(
    alloc: A,
    list: ListOptions,
    names: &[u8],
    lines: &[u8],
    writer: &mut Marked<W>,
) -> Result<bool, ListFault<Rejection>>
    requires listed { IsOutput (rules_of ⟦<E as Platform>⟧ (listing list)) names.now lines.now }
    requires unmarked { has_failed writer.old ≡ false }
    ensures { OnOk result ((back : List ℕ) × (IsCompleted (byte_of list.end) names.now back
        × Appends (W.contents (marked_inner writer.old)) (W.contents (marked_inner writer.new))
        back)) }
{
    names_come_back::<E>();
    let settings = Settings {
        task: Task::Join(EmptyLine::IsRejected),
        list,
    };
    run_over::<E, A, W>(alloc, settings, lines, writer)
}

/// Joins the words on one line each that were written of names of Unix, which gives back the names.
pub fn names_again_of_words<A: Allocator, W: Write>(
    alloc: A,
    list: ListOptions,
    names: &[u8],
    lines: &[u8],
    writer: &mut Marked<W>,
) -> Result<bool, ListFault<Rejection>>
    requires listed { IsOutput (rules_of ⟦<Unix as Platform>⟧ (listing_words list)) names.now
        lines.now }
    requires unmarked { has_failed writer.old ≡ false }
    ensures { OnOk result ((back : List ℕ) × (IsCompleted (byte_of list.end) names.now back
        × Appends (W.contents (marked_inner writer.old)) (W.contents (marked_inner writer.new))
        back)) }
{
    names_come_back_from_words();
    let settings = Settings {
        task: Task::JoinWords,
        list,
    };
    run_over::<Unix, A, W>(alloc, settings, lines, writer)
}

/// Joins one line of words, which are its names, each with NUL.
pub fn words_of_line<A: Allocator, W: Write>(
    alloc: A,
    max: usize,
    line: &[u8],
    writer: &mut Marked<W>,
) -> Result<bool, ListFault<Rejection>>
    requires whole { Lacks 0x0A line.now }
    requires some { line.now ≢ [] }
    requires unmarked { has_failed writer.old ≡ false }
    ensures { OnOk result ((text : List ℕ) × (AreNamesOf (unended max) line.now text
        × Appends (W.contents (marked_inner writer.old)) (W.contents (marked_inner writer.new))
        text)) }
{
    let settings = Settings {
        task: Task::JoinWords,
        list: ListOptions {
            end: ItemEnd::Nul,
            last: LastItem::MayLackEnd,
            max,
        },
    };
    run_over::<Unix, A, W>(alloc, settings, line, writer)
}

/// Joins lines that were written of names and cut off anywhere, which gives back some of the first
/// names, each of them whole.
pub fn first_names_again<E: Platform, A: Allocator, W: Write>(
    alloc: A,
    list: ListOptions,
    names: &[u8],
    lines: &[u8],
    cut: usize,
    writer: &mut Marked<W>,
) -> Result<bool, ListFault<Rejection>>
    requires listed { IsOutput (rules_of ⟦<E as Platform>⟧ (listing list)) names.now lines.now }
    requires within { cut ≤ length lines.now }
    requires unmarked { has_failed writer.old ≡ false }
    ensures { OnOk result ((suffix : List ℕ) × (AreFirst (byte_of list.end) names.now suffix
        × Appends (W.contents (marked_inner writer.old)) (W.contents (marked_inner writer.new))
        suffix)) }
{
    names_come_back::<E>();
    let settings = Settings {
        task: Task::Join(EmptyLine::IsEmptyName),
        list: ListOptions {
            end: list.end,
            last: LastItem::MustEnd,
            max: list.max,
        },
    };
    let (prefix, _rest) = lines.split_at(cut);
    run_over::<E, A, W>(alloc, settings, prefix, writer)
}

/// Joins a line without its newline, which is rejected.
pub fn unended_line<E: Platform, A: Allocator, W: Write>(
    alloc: A,
    max: usize,
    line: &[u8],
    writer: &mut Marked<W>,
) -> Result<bool, ListFault<Rejection>>
    requires whole { Lacks 0x0A line.now }
    requires some { line.now ≢ [] }
    requires unmarked { has_failed writer.old ≡ false }
    ensures { ¬ (IsOk result) }
{
    let settings = Settings::new(Task::Join(EmptyLine::IsRejected), max);
    run_over::<E, A, W>(alloc, settings, line, writer)
}

/// Joins an empty line, which is rejected.
pub fn empty_line<E: Platform, A: Allocator, W: Write>(
    alloc: A,
    max: usize,
    writer: &mut Marked<W>,
) -> Result<bool, ListFault<Rejection>>
    requires { has_failed writer.old ≡ false }
    ensures { ¬ (IsOk result) }
{
    let settings = Settings::new(Task::Join(EmptyLine::IsRejected), max);
    run_over::<E, A, W>(alloc, settings, b"\n", writer)
}

/// Joins a line of words that ends in a carriage return, which is rejected.
pub fn returned_line<A: Allocator, W: Write>(
    alloc: A,
    max: usize,
    line: &[u8],
    writer: &mut Marked<W>,
) -> Result<bool, ListFault<Rejection>>
    requires returned { (front : List ℕ)
        × (Lacks 0x0A front × (line.now ≡ (front ++ 0x0D ∷ []) ++ 0x0A ∷ [])) }
    requires unmarked { has_failed writer.old ≡ false }
    ensures { ¬ (IsOk result) }
{
    run_over::<Unix, A, W>(alloc, Settings::new(Task::JoinWords, max), line, writer)
}
