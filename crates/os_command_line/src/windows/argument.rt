//! An argument of a command line, as a view of its text.
ghost use Rattle.std.specs.Prelude.{◌≡◌};
ghost use Rattle.os_command_line.specs.WindowsReader.{argument_kind};

use platform_str::{OsStr, Windows};

/// An argument of a command line, or its program's name: a view of the text that is read as it.
///
/// [`Argument::units`] returns the 16-bit units that the program gets. Removing quotation marks can
/// bring the halves of a surrogate pair together, so an argument is given as units and not as bytes
/// of the line. No call but [`Argument::to_owned`] allocates.
#[derive(Clone, Copy)]
pub struct Argument<'a> {
    pub(crate) text: OsStr<'a, Windows>,
    pub(crate) kind: Kind,
}

/// How the text of an argument is read.
#[derive(Clone, Copy)]
pub(crate) enum Kind {
    /// As a program's name.
    Name,
    /// As an argument, which may have quotation marks.
    Marked,
    /// As itself: an argument without quotation marks.
    Bare,
}

impl Kind {
    /// The kind of an argument that is bare or not.
    pub(crate) fn of_argument(is_bare: bool) -> Kind
        ensures { result ≡ argument_kind is_bare }
    {
        if is_bare { Kind::Bare } else { Kind::Marked }
    }
}
