//! A string that prints as its escape.
use crate::form::Form;
use crate::write_walk::write_escape_to;
use os_str_bytes::{OsStr, Platform, Writeable, write_filled};
use std::alloc::AllocError;
use std::fmt;

/// A string that prints as its escape. Printing it allocates nothing.
///
/// Returned by [`escaped`](crate::escaped) and [`escaped_line`](crate::escaped_line). A width counts
/// the characters of the escape, and fills after it if no alignment is given. A precision doesn't
/// truncate.
pub struct Escaped<'a, E: Platform + 'a> {
    string: OsStr<'a, E>,
    form: Form,
}

impl<'a, E: Platform> Clone for Escaped<'a, E> {
    ghost use Rattle.std.specs.Prelude.{◌≡◌};

    ghost is_clone = { λ x y. y ≡ x };

    ghost is_infallible = { λ _. Unit {0} };

    fn clone(&self) -> Result<Self, AllocError> {
        Ok(*self)
    }
}

impl<'a, E: Platform> Copy for Escaped<'a, E> {}

impl<'a, E: Platform> Escaped<'a, E> {
    ghost use Rattle.platform_str.specs.Strings.{bytes};
    ghost use Rattle.os_quote.specs.{Escape.IsEscapeBy, Escaped.escaped_text};

    /// A value that prints the string as its escape in this form.
    pub(crate) fn new(form: Form, string: OsStr<'a, E>) -> Self
        ensures { IsEscapeBy form E.units (bytes string.entry) (escaped_text result) }
    {
        Escaped { string, form }
    }
}

impl<'a, E: Platform> fmt::Display for Escaped<'a, E> {
    ghost use Rattle.std.specs.{Prelude.Some, Fmt.spec_fill, Fmt.spec_align, Fmt.spec_width};
    ghost use Rattle.platform_str.specs.Display.{filled};
    ghost use Rattle.os_quote.specs.Escaped.{escaped_text};

    ghost output = { λ e. Some (escaped_text e) };

    ghost styled_output = { λ e spec. Some (filled (spec_fill spec) (spec_align spec)
        (spec_width spec) (escaped_text e)) };

    fn fmt<W: fmt::Write>(&self, f: &mut fmt::Formatter<W>) -> fmt::Result {
        write_filled(self, f)
    }
}

impl<'a, E: Platform> Writeable for Escaped<'a, E> {
    ghost use Rattle.os_quote.specs.Escaped.{escaped_text};

    ghost text = { λ e. escaped_text e };

    #[tactic(auto, using(platform_str::proofs::lemmas::Taking::written))]
    fn write_to<W: fmt::Write>(&self, f: &mut fmt::Formatter<W>) -> fmt::Result {
        write_escape_to(self.form, self.string, f)
    }
}
