//! What errors print.
ghost use Rattle.std.specs.Prelude.{◌++◌, decimal};
ghost use Rattle.std.specs.Fmt.{WritesStyledOnOk};
ghost use Rattle.path_building.specs.ErrorText.{at_byte};

use std::fmt;
use std::fmt::{InlineText, Write as _};

/// Writes what is at a byte index, and of what.
pub(crate) fn write_at_byte<W: fmt::Write>(
    what: &str,
    index: usize,
    of: &str,
    f: &mut fmt::Formatter<W>,
) -> fmt::Result
    ensures { WritesStyledOnOk W.write_str_gives f.old result
        (at_byte what.now index of.now) f.new }
{
    f.write_str(what)?;
    f.write_str(" at byte ")?;
    write_number(index, f)?;
    f.write_str(of)
}

/// Writes a text, and a number after it.
pub(crate) fn write_with_number<W: fmt::Write>(
    text: &str,
    number: usize,
    f: &mut fmt::Formatter<W>,
) -> fmt::Result
    ensures { WritesStyledOnOk W.write_str_gives f.old result (text.now ++ decimal number) f.new }
{
    f.write_str(text)?;
    write_number(number, f)
}

/// Writes the decimal digits of a number, and ignores the width of the formatter. `platform_str` has
/// this call, too, and this crate doesn't use it, since it is for paths as bytes.
pub(crate) fn write_number<W: fmt::Write>(number: usize, f: &mut fmt::Formatter<W>) -> fmt::Result
    ensures { WritesStyledOnOk W.write_str_gives f.old result (decimal number) f.new }
{
    let mut digits = InlineText::<20>::new();
    write!(digits, "{number}")?;
    f.write_str(digits.as_str())
}
