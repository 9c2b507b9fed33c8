//! A name that prints as a word.
ghost use Rattle.std.specs.Prelude.{◌≡◌, true};
ghost use Rattle.platform_str.specs.Strings.{bytes};
ghost use Rattle.os_command_line.specs.ShellSteps.{prints_text};

use crate::shell::form::Form;
use crate::shell::write_word::write_in;
use platform_str::{OsStr, Unix, Writeable, write_filled};
use std::alloc::AllocError;
use std::fmt;

/// A name that prints as a word of a shell. Printing it allocates nothing.
///
/// Returned by [`quoted`](crate::shell::quoted) and
/// [`quoted_line`](crate::shell::quoted_line). A width counts the characters of the word, and fills
/// after it if no alignment is given. A precision doesn't truncate.
pub struct Quoted<'a> {
    pub(crate) form: Form,
    pub(crate) name: OsStr<'a, Unix>,
    /// The word is text.
    pub(crate) ghost is_text: { prints_text form (bytes name) ≡ true },
}

impl<'a> Clone for Quoted<'a> {
    ghost is_clone = { λ x y. y ≡ x };

    ghost is_infallible = { λ _. Unit {0} };

    fn clone(&self) -> Result<Self, AllocError> {
        Ok(*self)
    }
}

impl<'a> Copy for Quoted<'a> {}

impl<'a> fmt::Display for Quoted<'a> {
    ghost use Rattle.std.specs.Prelude.{Some};
    ghost use Rattle.std.specs.Fmt.{spec_fill, spec_align, spec_width};
    ghost use Rattle.platform_str.specs.Display.{filled};
    ghost use Rattle.os_command_line.specs.ShellViews.{quoted_text};

    ghost output = { λ q. Some (quoted_text q) };

    ghost styled_output = { λ q spec. Some (filled (spec_fill spec) (spec_align spec)
        (spec_width spec) (quoted_text q)) };

    fn fmt<W: fmt::Write>(&self, f: &mut fmt::Formatter<W>) -> fmt::Result {
        write_filled(self, f)
    }
}

impl<'a> Writeable for Quoted<'a> {
    ghost use Rattle.os_command_line.specs.ShellViews.{quoted_text};

    ghost text = { λ q. quoted_text q };

    #[tactic(auto, using(platform_str::proofs::lemmas::Taking::written))]
    fn write_to<W: fmt::Write>(&self, f: &mut fmt::Formatter<W>) -> fmt::Result {
        write_in(self.form, self.name, f)
    }
}
