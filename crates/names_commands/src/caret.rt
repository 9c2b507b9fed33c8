//! Where the fault of a pattern is.
ghost use Rattle.std.specs.Prelude.{◌≡◌, ◌++◌, take, codes, string_bytes, IfOk, OnOk};
ghost use Rattle.std.specs.Fmt.InlineText.{inline_text};
ghost use Rattle.os_quote.specs.Escape.{IsLineEscape};
ghost use Rattle.os_str_bytes.specs.UnixPlatform.TheImpl.{ghosts as unix};
ghost use Rattle.names_commands.specs.Caret.{IsPointed, as_wide, caret_text, fitting, spaces_below};

use list_programs::misuse::ROOM;
use os_quote::escape_line;
use os_str_bytes::{OsStr, Unix};
use std::alloc::{AllocError, Allocator};
use std::fmt::InlineText;

/// The escape of a pattern on a line, and on the next one a caret below the place of its byte at the
/// index. Nothing where both are longer than a message may be.
pub(crate) fn pointed<A: Allocator + Copy>(
    alloc: A,
    pattern: &[u8],
    index: usize,
) -> Result<InlineText<ROOM>, AllocError>
    ensures { IfOk result (λ text. IsPointed pattern.now index (inline_text text)) }
{
    let escape = line_of(alloc, pattern)?;
    let marked = marked_line(alloc, front(pattern, index))?;
    let lines = with_caret(alloc, escape.as_str(), marked.as_str())?;
    Ok(fitting(lines.as_str()))
}

/// The escape on one line of bytes and a `^`, in which a space before the `^` isn't at the end.
fn marked_line<A: Allocator + Copy>(alloc: A, bytes: &[u8]) -> Result<String<A>, AllocError>
    ensures { IfOk result
        (λ line. IsLineEscape unix.units (bytes.now ++ codes "^") (string_bytes line)) }
{
    let mut marked = Vec::new(alloc);
    marked.extend_from_slice(bytes)?;
    marked.push(b'^')?;
    line_of(alloc, marked.as_slice())
}

/// The escape of bytes on one line.
fn line_of<A: Allocator>(alloc: A, bytes: &[u8]) -> Result<String<A>, AllocError>
    ensures { IfOk result (λ line. IsLineEscape unix.units bytes.now (string_bytes line)) }
{
    escape_line(alloc, OsStr::<Unix>::from_encoded_bytes_unchecked(bytes))
}

/// A text on a line, and on the next one a caret below what comes after its beginning, which is
/// given with a `^` after it: so that line begins with a space less.
fn with_caret<A: Allocator>(alloc: A, text: &str, marked: &str) -> Result<String<A>, AllocError>
    ensures { IfOk result (λ lines. string_bytes lines ≡ caret_text text.now marked.now) }
{
    let mut lines = String::from_str(alloc, "\n  ")?;
    lines.push_str(text)?;
    lines.push_str("\n ")?;
    push_spaces(marked, &mut lines)?;
    lines.push_str("^")?;
    Ok(lines)
}

/// Appends what takes as many columns as a text.
fn push_spaces<A: Allocator>(text: &str, line: &mut String<A>) -> Result<(), AllocError>
    ensures { OnOk result (string_bytes line.new ≡ string_bytes line.old ++ spaces_below text.now) }
{
    for character in text.chars() {
        push_as_wide(character, line)?;
    }
    Ok(())
}

/// Appends a space, or the character itself where it may not take one column.
fn push_as_wide<A: Allocator>(character: char, line: &mut String<A>) -> Result<(), AllocError>
    ensures { OnOk result (string_bytes line.new ≡ string_bytes line.old ++ as_wide character) }
{
    if character < '\u{300}' {
        line.push_str(" ")
    } else {
        line.push(character)
    }
}

/// The text, or nothing where it is longer than there is room for.
fn fitting(text: &str) -> InlineText<ROOM>
    ensures { inline_text result ≡ fitting 400 text.now }
{
    let empty = InlineText::new();
    if text.len() <= ROOM {
        empty.and_str(text, ROOM)
    } else {
        empty
    }
}

/// The first bytes.
#[tactic(auto, using(std::proofs::lemmas::List::take_all))]
fn front(bytes: &[u8], count: usize) -> &[u8]
    ensures { result.now ≡ take count bytes.now }
{
    if count < bytes.len() {
        let (front, _) = bytes.split_at(count);
        front
    } else {
        bytes
    }
}
