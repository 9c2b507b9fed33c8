//! The digits of a number.
ghost use Rattle.std.specs.Prelude.{decimal};
ghost use Rattle.std.specs.Fmt.{WritesStyledOnOk};

use std::fmt;
use std::fmt::{InlineText, Write as _};

/// Writes the decimal digits of a number, and ignores the formatter's width (own call). It is for
/// an error that prints an index among words.
///
/// ```
/// use os_str_bytes::write_number;
/// use std::fmt;
///
/// #[derive(Drop)]
/// struct AtByte(usize);
///
/// impl fmt::Display for AtByte {
///     fn fmt<W: fmt::Write>(&self, f: &mut fmt::Formatter<W>) -> fmt::Result {
///         f.write_str("at byte ")?;
///         write_number(self.0, f)
///     }
/// }
///
/// assert_eq!(rt; format!(in alloc; "{:99}", AtByte(17))?.as_str(), "at byte 17");
/// ```
pub fn write_number<W: fmt::Write>(number: usize, f: &mut fmt::Formatter<W>) -> fmt::Result
    ensures { WritesStyledOnOk W.write_str_gives f.old result (decimal number) f.new }
{
    let mut digits = InlineText::<20>::new();
    write!(digits, "{number}")?;
    f.write_str(digits.as_str())
}
