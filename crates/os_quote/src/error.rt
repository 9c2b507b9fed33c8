//! The error of reading an escape.
ghost use Rattle.std.specs.Prelude.{◌≡◌, Some};

use os_str_bytes::write_number;
use std::alloc::AllocError;
use std::error::Error;
use std::fmt;

/// The error that [`unescape`](crate::unescape) and [`unescape_line`](crate::unescape_line) return.
///
/// Its `Display` text is a message for people. Width and fill are ignored: `{:>99}` writes what
/// `{}` writes.
///
/// ```
/// use os_quote::QuoteError;
///
/// let error = QuoteError::BadEscape(3);
/// assert_eq!(rt; format!(in alloc; "{error}")?.as_str(), "bad escape at byte 3");
/// let error = QuoteError::NotCanonical;
/// assert_eq!(rt; format!(in alloc; "{error}")?.as_str(), "not the escape of a string");
/// ```
#[derive(Clone, Copy, Debug, PartialEq, Eq)]
pub enum QuoteError {
    /// The byte index of the first backslash that begins no token: `\\`, `\x` with two digits,
    /// or `\u` with four; on one line also `\u{`, five or six digits that begin with no `0`, of a
    /// number up to 10FFFF, and `}`.
    ///
    /// `a\q` is `BadEscape(1)`; `\xff` is `BadEscape(0)`, since a digit is `0` to `9` or `A`
    /// to `F`.
    BadEscape(usize),
    /// Each backslash is in a token, but the text isn't the escape of any string of the platform.
    ///
    /// On Unix an example is `\x41`, since the escape of that string is `A`. In the form for one
    /// line others are a newline, since its escape there is `\u000A`, and a text that ends in a space.
    NotCanonical,
    /// An allocation failed.
    Memory,
}

/// The length of the string that an escape means, or the error.
pub(crate) type Unescaped = Result<usize, QuoteError>;

impl fmt::Display for QuoteError {
    ghost use Rattle.os_quote.specs.ErrorText.{error_text};

    ghost output = { λ error. Some (error_text error) };

    ghost styled_output = { λ error _. Some (error_text error) };

    fn fmt<W: fmt::Write>(&self, f: &mut fmt::Formatter<W>) -> fmt::Result {
        match *self {
            QuoteError::BadEscape(index) => {
                f.write_str("bad escape at byte ")?;
                write_number(index, f)
            }
            QuoteError::NotCanonical => f.write_str("not the escape of a string"),
            QuoteError::Memory => f.write_str("out of memory"),
        }
    }
}

impl Error for QuoteError {}

impl From<AllocError> for QuoteError {
    ghost use Rattle.os_quote.specs.declared.error.QuoteError.TheVariants.{Memory};

    ghost from_gives = { λ _ error. error ≡ Memory };

    fn from(_: AllocError) -> QuoteError {
        QuoteError::Memory
    }
}
