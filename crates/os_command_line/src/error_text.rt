//! What errors print: what is there, and its index.
ghost use Rattle.std.specs.Fmt.{WritesStyledOnOk};
ghost use Rattle.os_command_line.specs.ErrorText.{at_byte, at_unit};

use platform_str::write_number;
use std::fmt;

/// Writes what is at a byte index.
pub(crate) fn write_at_byte<W: fmt::Write>(
    what: &str,
    index: usize,
    f: &mut fmt::Formatter<W>,
) -> fmt::Result
    ensures { WritesStyledOnOk W.write_str_gives f.old result (at_byte what.now index) f.new }
{
    f.write_str(what)?;
    f.write_str(" at byte ")?;
    write_number(index, f)
}

/// Writes what is at an index of 16-bit units.
pub(crate) fn write_at_unit<W: fmt::Write>(
    what: &str,
    index: usize,
    f: &mut fmt::Formatter<W>,
) -> fmt::Result
    ensures { WritesStyledOnOk W.write_str_gives f.old result (at_unit what.now index) f.new }
{
    f.write_str(what)?;
    f.write_str(" at unit ")?;
    write_number(index, f)
}
