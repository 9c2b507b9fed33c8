//! A word of a command line, as an enum that is generic in the string it holds.
ghost use Rattle.platform_str.specs.Strings.{bytes};
ghost use Rattle.test_line_uses.specs.Arguments.{IsReadAs};

use os_str_ext::OsStrBytesExt;
use platform_str::{OsStr, Platform};

/// What a word is, of strings `S`.
#[derive_where(Clone, Copy, PartialEq, Eq, PartialOrd, Ord, Hash; S)]
pub enum Argument<S> {
    /// The name of `--name`.
    Long(S),
    /// Any other word.
    Operand(S),
}

/// What a word is, of borrowed strings of a platform.
pub type ArgumentOf<'a, E> = Argument<OsStr<'a, E>>;

/// What a word of a command line is: a long option where it starts with two dashes, else an
/// operand.
pub fn read_argument<'a, E: Platform + 'a>(word: OsStr<'a, E>) -> ArgumentOf<'a, E>
    ensures { IsReadAs bytes (bytes word.entry) result }
{
    match word.strip_prefix("--") {
        Some(name) => Argument::Long(name),
        None => Argument::Operand(word),
    }
}
