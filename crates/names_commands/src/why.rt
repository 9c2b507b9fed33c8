//! The lines of ignore files that decide names, and the patterns that match the others.
ghost use Rattle.std.specs.Prelude.{◌≡◌, ◌∷◌, ◌++◌, ◌<◌, [], ℕ, List, decimal, map, length, string_bytes, IfErr, IfOk, OnErr, OnOk};
ghost use Rattle.os_ignore.specs.Ignores.{HasNoText, HasText, files_of};
ghost use Rattle.os_quote.specs.Escape.{IsLineEscape};
ghost use Rattle.os_str_bytes.specs.Strings.{bytes};
ghost use Rattle.os_str_bytes.specs.UnixPlatform.TheImpl.{ghosts as unix};
ghost use Rattle.names_commands.specs.FirstGlob.{IsFirstBy};
ghost use Rattle.names_commands.specs.Ignoring.{needs_tree, text_of};
ghost use Rattle.names_commands.specs.Names.{IsNoName};
ghost use Rattle.names_commands.specs.Why.{IsDecidedText, IsNameAt, IsReason, IsTextOfDecided, LinesAreKnown, deciding, place_text, sources};

use crate::fault::Rejection;
use crate::first_glob::{Globs, text_of_first};
use crate::ignoring::{decider, file_in, needs_tree, value_of};
use crate::item::named_in;
use list_programs::fault::ItemFault;
use list_programs::items::push_ended;
use list_programs::lines::{push_escape, push_line};
use list_programs::options::{ItemEnd, ListOptions};
use list_programs::task::ListTask;
use os_ignore::Ignore;
use os_str_bytes::{OsStr, Platform, Unix};
use std::alloc::{AllocError, Allocator, Global};

/// Writes each name that a line of the ignore files decides, after that line. Writes each other name
/// that a pattern matches, after the first such pattern. If a value states a file, a name that isn't a
/// path from the top is rejected ([`Rejection::NotFromTop`]).
#[derive(Drop)]
pub struct Reasons<'r, 's, E: Platform, A: Allocator = Global> {
    /// The values of `--ignore`, which state the files.
    pub values: &'r [&'s str],
    /// The lines of the files.
    pub ignore: Ignore<A>,
    /// The patterns.
    pub globs: Globs<'r, E, A>,
    /// How the list is written.
    pub list: ListOptions,
    ghost known: { LinesAreKnown (length values.now) (files_of ignore) },
}

impl<'r, 's, E: Platform, B: Allocator + Copy> ListTask for Reasons<'r, 's, E, B> {
    type Rejection = Rejection;

    ghost Planned = { Self };

    ghost plan = { λ r. r };

    ghost rules = { λ r. deciding ⟦<E as Platform>⟧ (IsFirstBy ⟦<E as Platform>⟧ r.globs.set) r.list
        (sources (map text_of r.values.now) r.globs.plain (map string_bytes r.globs.texts.now))
        (files_of r.ignore) };

    fn end(&self) -> ItemEnd {
        self.list.end
    }

    fn takes_unended(&self) -> bool {
        self.list.last.may_lack_end()
    }

    fn max(&self) -> usize {
        self.list.max
    }

    fn longest_item(&self) -> usize {
        self.list.max
    }

    fn write_item<A: Allocator + Copy>(
        &mut self,
        alloc: A,
        item: &[u8],
        output: &mut Vec<u8, A>,
    ) -> Result<(), ItemFault<Rejection>> {
        let it: &Self = self;
        write_decided::<E, A, B>(alloc, it.values, &it.ignore, &it.globs, item, output)
    }
}

/// Appends what decides a name, and the escape of the name, if something does.
fn write_decided<E: Platform, A: Allocator + Copy, B: Allocator + Copy>(
    alloc: A,
    values: &[&str],
    ignore: &Ignore<B>,
    globs: &Globs<'_, E, B>,
    item: &[u8],
    output: &mut Vec<u8, A>,
) -> Result<(), ItemFault<Rejection>>
    requires { LinesAreKnown (length values.now) (files_of ignore.now) }
    ensures ok { OnOk result ((text : List ℕ)
        × (IsTextOfDecided ⟦<E as Platform>⟧ (IsFirstBy ⟦<E as Platform>⟧ globs.now.set)
        (sources (map text_of values.now) globs.now.plain (map string_bytes globs.now.texts.now))
        (files_of ignore.now) item.now text × (output.new.items ≡ output.old.items ++ text))) }
    ensures fault { IfErr result (λ fault. IsNoName ⟦<E as Platform>⟧
        (needs_tree (map text_of values.now)) item.now fault) }
    ensures unchanged { OnErr result (output.new.items ≡ output.old.items) }
{
    let name = named_in::<E>(item, needs_tree(values))?;
    let text = text_of_decided::<E, A, B>(alloc, values, ignore, globs, name)?;
    Ok(output.extend_from_slice(&text)?)
}

/// What is written for a name: the line that decides it or else the first pattern that matches it, and
/// its escape, or nothing where there is neither.
fn text_of_decided<E: Platform, A: Allocator + Copy, B: Allocator + Copy>(
    alloc: A,
    values: &[&str],
    ignore: &Ignore<B>,
    globs: &Globs<'_, E, B>,
    name: OsStr<'_, E>,
) -> Result<Vec<u8, A>, AllocError>
    requires { LinesAreKnown (length values.now) (files_of ignore.now) }
    ensures { IfOk result (λ text. IsDecidedText ⟦<E as Platform>⟧
        (IsFirstBy ⟦<E as Platform>⟧ globs.now.set)
        (sources (map text_of values.now) globs.now.plain (map string_bytes globs.now.texts.now))
        (files_of ignore.now) (bytes name.entry) text.items) }
{
    match decider(ignore, name.as_encoded_bytes()) {
        Some((file, line)) => reason_of::<E, A, B>(alloc, values, ignore, file, line, name),
        None => text_of_first::<E, A, B>(alloc, globs, name),
    }
}

/// The line of a file, each by its number, and the escape of the name that it decides.
fn reason_of<E: Platform, A: Allocator + Copy, B: Allocator + Copy>(
    alloc: A,
    values: &[&str],
    ignore: &Ignore<B>,
    file: usize,
    line: usize,
    name: OsStr<'_, E>,
) -> Result<Vec<u8, A>, AllocError>
    requires file { file < length values.now }
    requires line { HasNoText (files_of ignore.now) file line → ⊥ }
    ensures { IfOk result (λ reason. IsReason ⟦<E as Platform>⟧ (map text_of values.now)
        (files_of ignore.now) (bytes name.entry) file line reason.items) }
{
    let file_name = name_at(values, file);
    let pattern = pattern_at(ignore, file, line);
    let mut reason = place_of(alloc, file_name, line, pattern)?;
    push_line(alloc, name, &mut reason)?;
    Ok(reason)
}

/// The name of a file, the number of a line and its text, the first and the last as their escapes.
fn place_of<A: Allocator + Copy>(
    alloc: A,
    file: &[u8],
    line: usize,
    pattern: &[u8],
) -> Result<Vec<u8, A>, AllocError>
    ensures { IfOk result (λ place. (shown_file : List ℕ) × (shown_pattern : List ℕ)
        × ((IsLineEscape unix.units file.now shown_file
        × IsLineEscape unix.units pattern.now shown_pattern)
        × (place.items ≡ place_text shown_file line shown_pattern))) }
{
    let mut place = Vec::new(alloc);
    push_shown(alloc, file, b':', &mut place)?;
    push_at(alloc, line, pattern, &mut place)?;
    Ok(place)
}

/// Appends a number, and the escape of a text.
pub(crate) fn push_at<A: Allocator + Copy>(
    alloc: A,
    number: usize,
    text: &[u8],
    output: &mut Vec<u8, A>,
) -> Result<(), AllocError>
    ensures { OnOk result ((shown : List ℕ) × (IsLineEscape unix.units text.now shown
        × (output.new.items ≡ output.old.items
        ++ ((decimal number ++ 0x3A ∷ []) ++ (shown ++ 0x09 ∷ []))))) }
{
    let number = number.to_string(alloc)?;
    push_ended(number.as_bytes(), b':', output)?;
    push_shown(alloc, text, b'\t', output)
}

/// Appends the escape of any bytes on one line, and this byte.
fn push_shown<A: Allocator>(
    alloc: A,
    bytes: &[u8],
    end: u8,
    output: &mut Vec<u8, A>,
) -> Result<(), AllocError>
    ensures { OnOk result ((text : List ℕ) × (IsLineEscape unix.units bytes.now text
        × (output.new.items ≡ output.old.items ++ (text ++ end ∷ [])))) }
{
    push_escape(
        alloc,
        OsStr::<Unix>::from_encoded_bytes_unchecked(bytes),
        end,
        output,
    )
}

/// The name of the file that the value at `index` states.
fn name_at<'a>(values: &[&'a str], index: usize) -> &'a [u8]
    requires { index < length values.now }
    ensures { IsNameAt (map text_of values.now) index result.now }
{
    let (_, name) = file_in(value_of(values, index).as_bytes());
    name
}

/// The text of the line of a file, each by its number.
fn pattern_at<A: Allocator + Copy>(ignore: &Ignore<A>, file: usize, line: usize) -> &[u8]
    requires { HasNoText (files_of ignore.now) file line → ⊥ }
    ensures { HasText (files_of ignore.now) file line result.now }
{
    match ignore.line(file, line) {
        Some(pattern) => pattern,
        None => unreachable!(),
    }
}
