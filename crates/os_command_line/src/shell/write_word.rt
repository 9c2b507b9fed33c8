//! Words written to a sink, piece by piece.
ghost use Rattle.std.specs.Prelude.{◌≡◌, ◌<◌, ◌∷◌, [], false, true, MatchOption};
ghost use Rattle.std.specs.List.{AllByRecursion, flat_map};
ghost use Rattle.platform_str.specs.PlatformWords.{itself};
ghost use Rattle.platform_str.specs.Sinks.{Takes};
ghost use Rattle.platform_str.specs.Strings.{bytes};
ghost use Rattle.os_str_ext.specs.Symbols.{symbols_of};
ghost use Rattle.os_command_line.specs.ShellSteps.{form_text, AcceptsForm, AreUnmarked, IsCutAtMarked, ends_line};
ghost use Rattle.os_command_line.specs.ShellWriting.{is_marked, single_byte, single_quoted, dollar_quoted, dollar_text, text_after, symbol_text, character_text, letter_for, octal_text, shown_or_octal};

use crate::shell::form::Form;
use crate::shell::octal::{is_escape, is_high, letter_for, octal_digit};
use memchr::memchr2;
use os_quote::stays_on_line;
use os_str_ext::{OsStrBytesExt, Symbol};
use platform_str::{OsStr, Sink, Unix};
use std::fmt;

/// Writes a name in a form.
pub(crate) fn write_in<S: Sink>(form: Form, name: OsStr<'_, Unix>, sink: &mut S) -> fmt::Result
    requires accepted { AcceptsForm S.pieces.accepts form (bytes name) }
    requires room { S.rules.has_room sink.old (form_text form (bytes name)) }
    ensures { Takes S.rules sink.old (form_text form (bytes name.entry)) result sink.new }
{
    match form {
        Form::Bare => sink.take(name.as_encoded_bytes()),
        Form::Single => write_single(name.as_encoded_bytes(), sink),
        Form::Dollar => write_dollar(name, sink),
    }
}

/// Writes bytes in single quotes.
fn write_single<S: Sink>(bytes: &[u8], sink: &mut S) -> fmt::Result
    requires accepted { S.pieces.accepts bytes.now }
    requires room { S.rules.has_room sink.old (single_quoted bytes.now) }
    ensures { Takes S.rules sink.old (single_quoted bytes.now) result sink.new }
{
    sink.take_text("'")?;
    let mut rest = bytes;
    while let Some((prefix, byte, after)) = cut_at_marked(rest) {
        sink.take(prefix)?;
        sink.take_text(marked_text(ends_line(prefix), byte))?;
        rest = after;
    }
    sink.take(rest)?;
    sink.take_text("'")
}

/// What comes before the first single quote or `^`, it, and what comes after it.
fn cut_at_marked(bytes: &[u8]) -> Option<(&[u8], u8, &[u8])>
    ensures { MatchOption result (AreUnmarked bytes.now)
        (λ parts. IsCutAtMarked bytes.now parts.0.now parts.1 parts.2.now) }
{
    let Some(at) = memchr2(b'\'', b'^', bytes) else {
        return None;
    };
    Some((&bytes[..at], bytes[at], &bytes[at + 1..]))
}

/// Whether bytes end with a newline.
#[tactic(auto, using(crate::proofs::lemmas::ShellWritten::last_on_line))]
fn ends_line(bytes: &[u8]) -> bool
    ensures { result ≡ ends_line false bytes.now }
{
    match bytes.split_last() {
        Some((last, _)) => *last == b'\n',
        None => false,
    }
}

/// A single quote or a `^` in single quotes, first on a line or not.
#[tactic(auto, using(crate::proofs::lemmas::ShellWritten::marked_quote, crate::proofs::lemmas::ShellWritten::marked_caret))]
fn marked_text(first: bool, byte: u8) -> &'static str
    requires { is_marked byte ≡ true }
    ensures { result.now ≡ single_byte first byte }
{
    if byte == b'\'' {
        "'\\''"
    } else if first {
        "''^"
    } else {
        "^"
    }
}

/// Writes a name in dollar-single-quotes.
fn write_dollar<S: Sink>(name: OsStr<'_, Unix>, sink: &mut S) -> fmt::Result
    requires { S.rules.has_room sink.old (dollar_quoted (symbols_of itself (bytes name))) }
    ensures { Takes S.rules sink.old (dollar_quoted (symbols_of itself (bytes name.entry)))
        result sink.new }
{
    sink.take_text("$'")?;
    let mut high = false;
    for symbol in name.symbols() {
        write_after(high, symbol, sink)?;
        high = is_high(symbol);
    }
    sink.take_text("'")
}

/// Writes what means a symbol, after a byte from 0x80 on or not.
fn write_after<S: Sink>(high: bool, symbol: Symbol, sink: &mut S) -> fmt::Result
    requires { S.rules.has_room sink.old (text_after high symbol) }
    ensures { Takes S.rules sink.old (text_after high symbol) result sink.new }
{
    if high && is_escape(symbol) {
        return write_again(symbol, sink);
    }
    write_symbol(symbol, sink)
}

/// Ends the quotes, begins them again and writes what means a symbol.
fn write_again<S: Sink>(symbol: Symbol, sink: &mut S) -> fmt::Result
    requires { S.rules.has_room sink.old (0x27 ∷ 0x24 ∷ 0x27 ∷ symbol_text symbol) }
    ensures { Takes S.rules sink.old (0x27 ∷ 0x24 ∷ 0x27 ∷ symbol_text symbol) result sink.new }
{
    sink.take_text("'$'")?;
    write_symbol(symbol, sink)
}

/// Writes what means a symbol.
fn write_symbol<S: Sink>(symbol: Symbol, sink: &mut S) -> fmt::Result
    requires { S.rules.has_room sink.old (symbol_text symbol) }
    ensures { Takes S.rules sink.old (symbol_text symbol) result sink.new }
{
    match symbol {
        Symbol::Character(character) => write_character(character, sink),
        Symbol::Unit(unit) => write_octal(unit.to_u64() as u16, sink),
    }
}

/// Writes what means a character.
fn write_character<S: Sink>(character: char, sink: &mut S) -> fmt::Result
    requires { S.rules.has_room sink.old (character_text character (letter_for character)) }
    ensures { Takes S.rules sink.old (character_text character (letter_for character)) result
        sink.new }
{
    match letter_for(character) {
        Some(letter) => take_ascii(&[b'\\', letter], sink),
        None => write_shown(character, sink),
    }
}

/// Writes a character as it is, or byte by byte if it doesn't stay on the line.
fn write_shown<S: Sink>(character: char, sink: &mut S) -> fmt::Result
    requires { S.rules.has_room sink.old (shown_or_octal character) }
    ensures { Takes S.rules sink.old (shown_or_octal character) result sink.new }
{
    let mut room = [0; 4];
    let text: &str = character.encode_utf8(&mut room);
    if stays_on_line(character) {
        sink.take_text(text)
    } else {
        write_octals(text.as_bytes(), sink)
    }
}

/// Writes each byte as a backslash and three octal digits.
fn write_octals<S: Sink>(bytes: &[u8], sink: &mut S) -> fmt::Result
    requires { S.rules.has_room sink.old (flat_map octal_text bytes.now) }
    ensures { Takes S.rules sink.old (flat_map octal_text bytes.now) result sink.new }
{
    for byte in bytes {
        write_octal(*byte as u16, sink)?;
    }
    Ok(())
}

/// Writes a backslash and three octal digits.
fn write_octal<S: Sink>(number: u16, sink: &mut S) -> fmt::Result
    requires { S.rules.has_room sink.old (octal_text number) }
    ensures { Takes S.rules sink.old (octal_text number) result sink.new }
{
    let text = [
        b'\\',
        octal_digit(number / 64 % 8),
        octal_digit(number / 8 % 8),
        octal_digit(number % 8),
    ];
    take_ascii(&text, sink)
}

/// Writes ASCII bytes, which are text.
fn take_ascii<S: Sink>(bytes: &[u8], sink: &mut S) -> fmt::Result
    requires ascii { AllByRecursion (λ b. b < 0x80) bytes.now }
    requires room { S.rules.has_room sink.old bytes.now }
    ensures { Takes S.rules sink.old bytes.now result sink.new }
{
    sink.take(bytes)
}
