//! Arguments that a program can't use.
ghost use Rattle.std.specs.Prelude.{◌≡◌, ◌++◌, codes, IfOk};
ghost use Rattle.std.specs.Fmt.{WritesStyledOnOk};
ghost use Rattle.std.specs.Fmt.Cut.{cut_to};
ghost use Rattle.std.specs.Fmt.InlineText.{inline_text};
ghost use Rattle.list_programs.specs.Misuse.{misuse_text};
ghost use Rattle.os_args.specs.ErrorText.{shown};
ghost use Rattle.os_str_bytes.specs.WasmPlatform.TheImpl.{ghosts as wasm};

use os_args::ArgumentError;
use os_quote::escaped_line;
use os_str_bytes::{OsStr, Wasm, Writeable};
use std::alloc::{AllocError, Allocator};
use std::fmt;
use std::fmt::InlineText;

/// What is wrong with the arguments of a program.
///
/// ```
/// use list_programs::misuse::Misuse;
///
/// let error = Misuse::Invalid("platform", "linux");
/// assert_eq!(rt; format!(in alloc; "{error}")?.as_str(), "invalid platform 'linux'");
/// ```
#[derive(Clone, Copy)]
pub enum Misuse<'a> {
    /// An option that the program doesn't have, a value that is missing or that the option doesn't
    /// take, or an operand too many.
    Argument(ArgumentError<'a, OsStr<'a, Wasm>>),
    /// Something that has to be there is missing: its description.
    Missing(&'static str),
    /// A word is invalid: the description of what it has to be, and the word.
    Invalid(&'static str, &'a str),
    /// An option isn't for this command or platform: the option, and
    /// the command or platform.
    Misplaced(&'static str, &'static str),
}

/// How many bytes the text of a misuse has in a message.
pub const ROOM: usize = 400;

/// The text of a misuse as a message has it: a text longer than [`ROOM`] bytes is cut, and ends in
/// three dots.
///
/// # Errors
///
/// `AllocError` if an allocation failed.
///
/// ```
/// use list_programs::misuse::{Misuse, cut_text};
///
/// let text = cut_text(alloc, Misuse::Missing("BASE"))?;
/// assert_eq!(rt; text.as_str(), "missing BASE");
/// ```
pub fn cut_text<A: Allocator>(alloc: A, misuse: Misuse<'_>) -> Result<InlineText<ROOM>, AllocError>
    ensures { IfOk result (λ text. inline_text text ≡ cut_to 400 (misuse_text misuse.entry)) }
{
    let text = misuse.to_string(alloc)?;
    Ok(InlineText::new().and_str(text.as_str(), ROOM))
}

impl<'a> fmt::Display for Misuse<'a> {
    ghost use Rattle.std.specs.Prelude.{Some};

    ghost output = { λ misuse. Some (misuse_text misuse) };

    ghost styled_output = { λ misuse _. Some (misuse_text misuse) };

    fn fmt<W: fmt::Write>(&self, f: &mut fmt::Formatter<W>) -> fmt::Result {
        match *self {
            Misuse::Argument(error) => error.fmt(f),
            Misuse::Missing(what) => write_texts("missing ", what, f),
            Misuse::Invalid(what, word) => write_invalid(what, word, f),
            Misuse::Misplaced(option, place) => write_misplaced(option, place, f),
        }
    }
}

/// Writes two texts.
fn write_texts<W: fmt::Write>(first: &str, second: &str, f: &mut fmt::Formatter<W>) -> fmt::Result
    ensures { WritesStyledOnOk W.write_str_gives f.old result (first.now ++ second.now) f.new }
{
    f.write_str(first)?;
    f.write_str(second)
}

/// Writes what a word has to be, and the word.
fn write_invalid<W: fmt::Write>(what: &str, word: &str, f: &mut fmt::Formatter<W>) -> fmt::Result
    ensures { WritesStyledOnOk W.write_str_gives f.old result
        ((codes "invalid " ++ what.now)
        ++ (codes " '" ++ (shown wasm.units word.now ++ codes "'"))) f.new }
{
    write_texts("invalid ", what, f)?;
    write_quoted(word, f)
}

/// Writes a space and a word between quotes, as its escape on one line.
fn write_quoted<W: fmt::Write>(word: &str, f: &mut fmt::Formatter<W>) -> fmt::Result
    ensures { WritesStyledOnOk W.write_str_gives f.old result
        (codes " '" ++ (shown wasm.units word.now ++ codes "'")) f.new }
{
    f.write_str(" '")?;
    escaped_line(OsStr::<Wasm>::new(word)).write_to(f)?;
    f.write_str("'")
}

/// Writes an option, and what it isn't for.
fn write_misplaced<W: fmt::Write>(
    option: &str,
    place: &str,
    f: &mut fmt::Formatter<W>,
) -> fmt::Result
    ensures { WritesStyledOnOk W.write_str_gives f.old result
        (option.now ++ (codes " isn't for " ++ place.now)) f.new }
{
    f.write_str(option)?;
    write_texts(" isn't for ", place, f)
}
