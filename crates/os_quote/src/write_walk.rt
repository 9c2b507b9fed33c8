//! Writes the escape of a string, piece by piece, to a sink.
ghost use Rattle.os_quote.specs.{Parts.TakesBeginning, Parts.text_escape, Parts.token_of, Start.byte_item, Escaped.escape_of, Escaped.escape_in, Ending.before_ending, Item.item_text, Item.unit_item, Shown.shown_by, Hidden.AreUnchanged, Hidden.IsCutAtToken, declared.form.Form.TheVariants.Line};
ghost use Rattle.std.specs.Prelude.{◌≡◌, ◌≤◌, ◌++◌, IfOk, MatchOption, length};
ghost use Rattle.platform_str.specs.Sinks.{Takes};
ghost use Rattle.platform_str.specs.Strings.{bytes};

use crate::find_hidden::split_hidden;
use crate::find_plain::split_plain;
use crate::find_start::split_text;
use crate::form::{Form, has_ending};
use crate::read_token::split_backslash;
use crate::write_bytes::{SHOWN, TEXTS, put_next, put_text, split_first_byte};
use crate::write_token::TokenText;
use os_str_bytes::{OsStr, OsStrBytesExt, Platform, Sink};
use std::fmt;

/// Writes the escape of a string in a form to a sink, piece by piece. Each piece is written right
/// after it was examined, and before the next one is. Each form has its own loop, which doesn't
/// test the form.
#[inline(always)]
pub(crate) fn write_escape_to<E: Platform, S: Sink>(
    form: Form,
    string: OsStr<'_, E>,
    sink: &mut S,
) -> fmt::Result
    requires { S.rules.has_room sink.old (escape_in form E.units (bytes string)) }
    ensures { Takes S.rules sink.old (escape_in form E.units (bytes string.entry))
        result sink.new }
{
    match form {
        Form::Text => walk(Form::Text, string, sink),
        Form::Line => write_line(string, sink),
    }
}

/// Writes the escape of a string on one line to a sink. A space at the end is a token.
#[inline(always)]
fn write_line<E: Platform, S: Sink>(string: OsStr<'_, E>, sink: &mut S) -> fmt::Result
    requires { S.rules.has_room sink.old (escape_in Line E.units (bytes string)) }
    ensures { Takes S.rules sink.old (escape_in Line E.units (bytes string.entry)) result sink.new }
{
    walk(Form::Line, before_space(string), sink)?;
    if has_ending(Form::Line, string.as_encoded_bytes()) {
        return write_character(' ', sink);
    }
    Ok(())
}

/// What comes before a space at the end of a string, or the whole string if there is none.
#[inline(always)]
fn before_space<'a, E: Platform>(string: OsStr<'a, E>) -> OsStr<'a, E>
    ensures { bytes result ≡ before_ending Line (bytes string.entry) }
{
    match string.strip_suffix(" ") {
        Some(front) => front,
        None => string,
    }
}

/// Writes what a string has in a form to a sink, character by character and unit by unit, in a loop
/// for one form.
#[inline(always)]
fn walk<E: Platform, S: Sink>(form: Form, string: OsStr<'_, E>, sink: &mut S) -> fmt::Result
    requires { S.rules.has_room sink.old (escape_of (shown_by form) E.units (bytes string)) }
    ensures { Takes S.rules sink.old (escape_of (shown_by form) E.units (bytes string.entry))
        result sink.new }
{
    let mut rest = string.as_encoded_bytes();
    while !rest.is_empty() {
        if let Some((plain, following)) = split_plain(rest) {
            sink.take_text(plain)?;
            rest = following;
        } else if let Some((byte, following)) = split_first_byte::<E>(form, rest) {
            rest = write_bytes::<E, S>(form, byte, following, sink)?;
        } else if let Some((text, following)) = split_text::<E>(rest) {
            write_text(form, text, sink)?;
            rest = following;
        } else {
            // its number was tested before, to find whether it is one byte
            let (unit, size) = E::first_unit(rest);
            write_unit(unit, sink)?;
            rest = rest.split_at(size).1;
        }
    }
    Ok(())
}

/// Writes the texts of a byte and of the bytes after it to a sink. Texts are collected while there
/// is room for one more, and until too many characters in a row are shown as they are. Returns the
/// remaining bytes. [`walk`] tests their first character again.
#[inline(always)]
fn write_bytes<'a, E: Platform, S: Sink>(
    form: Form,
    first: u8,
    following: &'a [u8],
    sink: &mut S,
) -> Result<&'a [u8], fmt::Error>
    requires formed { E.well_formed following.now }
    requires room { S.rules.has_room sink.old (item_text (byte_item (shown_by form) first)
        ++ escape_of (shown_by form) E.units following.now) }
    ensures taken { TakesBeginning S.rules sink.old (item_text (byte_item (shown_by form) first)
        ++ escape_of (shown_by form) E.units following.now)
        (λ rest. escape_of (shown_by form) E.units rest.now) result sink.new }
    ensures rest { IfOk result (λ rest. E.well_formed rest.now
        × (length rest.now ≤ length following.now)) }
{
    let mut texts = [0; TEXTS];
    let mut len = put_text(form, &mut texts, 0, first);
    let mut rest = following;
    let mut shown = 0;
    while len <= TEXTS - 8 && shown < SHOWN {
        let Some((end, after)) = put_next::<E>(form, &mut texts, len, rest) else {
            break;
        };
        shown = (shown + 1) * usize::from(texts[len] != b'\\');
        len = end;
        rest = after;
    }
    sink.take_text(unsafe { str::from_utf8_unchecked(&texts[..len]) })?;
    Ok(rest)
}

/// Writes a text in a form to a sink, piece by piece: what is shown as it is, and the token after
/// it.
#[inline(always)]
fn write_text<S: Sink>(form: Form, text: &str, sink: &mut S) -> fmt::Result
    requires { S.rules.has_room sink.old (text_escape (shown_by form) text.now) }
    ensures { Takes S.rules sink.old (text_escape (shown_by form) text.now) result sink.new }
{
    let mut rest = text;
    while let Some((prefix, character, following)) = split_at_token(form, rest) {
        write_unchanged(prefix, sink)?;
        write_character(character, sink)?;
        rest = following;
    }
    sink.take_text(rest)
}

/// Writes a text to a sink as it is, unless it is empty, as between two tokens in a row.
#[inline(always)]
fn write_unchanged<S: Sink>(text: &str, sink: &mut S) -> fmt::Result
    requires { S.rules.has_room sink.old text.now }
    ensures { Takes S.rules sink.old text.now result sink.new }
{
    if text.is_empty() {
        return Ok(());
    }
    sink.take_text(text)
}

/// Writes the text of a token to a sink. It is a piece of bytes, whose length is known where the
/// token is made.
#[inline(always)]
fn take_token<S: Sink>(token: TokenText, sink: &mut S) -> fmt::Result
    requires { S.rules.has_room sink.old token }
    ensures { Takes S.rules sink.old token result sink.new }
{
    sink.take(token.as_str().as_bytes())
}

/// Writes the token of a unit to a sink: `\xHH` if it is below 100 (hexadecimal), else `\uHHHH`.
#[inline(always)]
fn write_unit<S: Sink>(unit: u16, sink: &mut S) -> fmt::Result
    requires { S.rules.has_room sink.old (item_text (unit_item unit)) }
    ensures { Takes S.rules sink.old (item_text (unit_item unit)) result sink.new }
{
    if unit < 0x100 {
        take_token(TokenText::of_byte(unit as u8), sink)
    } else {
        take_token(TokenText::of_wide(unit), sink)
    }
}

/// Writes the token of a character that isn't shown, or is the backslash, to a sink: `\\`, `\uHHHH`
/// if it has 16 bits, else `\u{H..}`.
#[inline(always)]
fn write_character<S: Sink>(character: char, sink: &mut S) -> fmt::Result
    requires { S.rules.has_room sink.old (item_text (token_of character)) }
    ensures { Takes S.rules sink.old (item_text (token_of character)) result sink.new }
{
    let number = character as u32;
    if character == '\\' {
        take_token(TokenText::of_backslash(), sink)
    } else if number < 0x1_0000 {
        take_token(TokenText::of_wide(number as u16), sink)
    } else {
        take_token(TokenText::of_long(number), sink)
    }
}

/// Splits a text around its first character that is written as a token in a form: what comes before
/// it, the character, and what comes after it.
#[inline(always)]
pub(crate) fn split_at_token(form: Form, text: &str) -> Option<(&str, char, &str)>
    ensures { MatchOption result (AreUnchanged (shown_by form) text.now)
        (λ parts. IsCutAtToken (shown_by form) text.now parts.0.now parts.1 parts.2.now) }
{
    match form {
        Form::Text => {
            let (prefix, following) = split_backslash(text)?;
            Some((prefix, '\\', following))
        }
        Form::Line => split_hidden(text),
    }
}
