//! Strings as texts for printing, written piece by piece.
ghost use Rattle.std.specs.{Prelude.Some, Fmt.spec_fill, Fmt.spec_align, Fmt.spec_width};
ghost use Rattle.platform_str.specs.Display.{shown_bytes, filled};

use crate::lossy::write_text;
use crate::os_str::OsStr;
use crate::platform::Platform;
use crate::writeable::{Writeable, write_filled};
use std::fmt;

/// The lossy text of a string, for printing (std's `std::ffi::os_str::Display`).
///
/// `OsStr::display` and similar calls make it. `{}` writes the lossy text piece by piece: each text
/// as it is in the string, and U+FFFD for each part between them that isn't text. It doesn't
/// allocate. A width counts characters, with U+FFFD as one, and fills like std's on Unix: after the
/// text if no alignment is given. A precision doesn't truncate.
///
/// For the Unix string with the bytes 61 E2 82 41 (hexadecimal), `{}` writes "a\u{FFFD}A".
#[derive(Drop)]
pub struct OsStrDisplay<'a, E: Platform + 'a> {
    pub(crate) string: OsStr<'a, E>,
}

impl<'a, E: Platform> fmt::Display for OsStrDisplay<'a, E> {
    ghost output = { λ shown. Some (E.lossy (shown_bytes shown)) };

    ghost styled_output = { λ shown spec. Some (filled (spec_fill spec) (spec_align spec)
        (spec_width spec) (E.lossy (shown_bytes shown))) };

    fn fmt<W: fmt::Write>(&self, f: &mut fmt::Formatter<W>) -> fmt::Result {
        write_filled(self, f)
    }
}

impl<'a, E: Platform> Writeable for OsStrDisplay<'a, E> {
    ghost text = { λ shown. E.lossy (shown_bytes shown) };

    #[tactic(auto, using(crate::proofs::lemmas::Taking::written))]
    fn write_to<W: fmt::Write>(&self, f: &mut fmt::Formatter<W>) -> fmt::Result {
        write_text::<E, _>(self.string.as_encoded_bytes(), f)
    }
}
