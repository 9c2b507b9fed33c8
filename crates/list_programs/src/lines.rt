//! Escapes of strings, one a line. A plain string that doesn't end in a space is its own escape.
ghost use Rattle.std.specs.Prelude.{◌≡◌, ◌∷◌, ◌++◌, [], false, length, ℕ, List, IsTrue, OnOk, OnErr};
ghost use Rattle.os_quote.specs.Escape.{IsLineEscape};
ghost use Rattle.os_quote.specs.Ending.{ends_in_space};
ghost use Rattle.os_quote.specs.Plain.{IsPlain, IsPlainUpTo};
ghost use Rattle.os_str_bytes.specs.Strings.{bytes};

use crate::items::push_ended;
use os_quote::escape_line;
use os_str_bytes::{OsStr, Platform};
use std::alloc::{AllocError, Allocator};

/// Appends the escape of a string on one line, and a newline.
///
/// # Errors
///
/// `AllocError` if an allocation failed. The output is unchanged then.
///
/// ```
/// use os_str_bytes::{OsStr, Unix};
/// use list_programs::lines::push_line;
///
/// let mut output = Vec::new(alloc);
/// push_line(alloc, OsStr::<Unix>::new("a\nb"), &mut output)?;
/// assert_eq!(rt; output.as_slice(), b"a\\u000Ab\n".as_slice());
/// ```
pub fn push_line<E: Platform, A: Allocator>(
    alloc: A,
    string: OsStr<'_, E>,
    output: &mut Vec<u8, A>,
) -> Result<(), AllocError>
    ensures line { OnOk result ((line : List ℕ) × (IsLineEscape E.units (bytes string.entry) line
        × (output.new.items ≡ output.old.items ++ (line ++ 0x0A ∷ [])))) }
    ensures unchanged { OnErr result (output.new.items ≡ output.old.items) }
{
    push_escape(alloc, string, b'\n', output)
}

/// Appends the escape of a string on one line, and this byte.
///
/// A string that isn't plain is read again from its start. Its escape is made in memory of its own
/// and copied.
///
/// # Errors
///
/// `AllocError` if an allocation failed. The output is unchanged then.
///
/// ```
/// use os_str_bytes::{OsStr, Unix};
/// use list_programs::lines::push_escape;
///
/// let mut output = Vec::new(alloc);
/// push_escape(alloc, OsStr::<Unix>::new("a\tb"), b'\t', &mut output)?;
/// assert_eq!(rt; output.as_slice(), b"a\\u0009b\t".as_slice());
/// ```
pub fn push_escape<E: Platform, A: Allocator>(
    alloc: A,
    string: OsStr<'_, E>,
    end: u8,
    output: &mut Vec<u8, A>,
) -> Result<(), AllocError>
    ensures escape { OnOk result ((text : List ℕ)
        × (IsLineEscape E.units (bytes string.entry) text
        × (output.new.items ≡ output.old.items ++ (text ++ end ∷ [])))) }
    ensures unchanged { OnErr result (output.new.items ≡ output.old.items) }
{
    if is_plain(string.as_encoded_bytes()) {
        return push_ended(string.as_encoded_bytes(), end, output);
    }
    let escape = escape_line(alloc, string)?;
    push_ended(escape.as_bytes(), end, output)
}

/// Whether bytes are their own escape since each is plain: printable ASCII other than the backslash.
/// A space at the end isn't its own escape.
///
/// ```
/// use list_programs::lines::is_plain;
///
/// assert!(rt; is_plain(b"a b") && !is_plain(b"a\nb") && !is_plain(b"a "));
/// ```
pub fn is_plain(bytes: &[u8]) -> bool
    ensures { IsTrue result → IsPlainUpTo bytes.now (length bytes.now)
        × (ends_in_space bytes.now ≡ false) }
{
    are_plain(bytes) && !ends_in_space(bytes)
}

/// Whether the last byte is a space.
fn ends_in_space(bytes: &[u8]) -> bool
    ensures { result ≡ ends_in_space bytes.now }
{
    !bytes.is_empty() && bytes[bytes.len() - 1] == b' '
}

/// Whether each byte is plain. All are tested, also after one that isn't, so that vectors can do it.
/// The test that `os_quote` makes stops at such a byte, and is private.
#[tactic(auto, using(os_quote::proofs::lemmas::PlainBytes::plain_bytes))]
fn are_plain(bytes: &[u8]) -> bool
    ensures { IsTrue result → IsPlainUpTo bytes.now (length bytes.now) }
{
    let mut plain = true;
    for byte in bytes {
        plain &= is_plain_byte(*byte);
    }
    plain
}

/// Whether a byte is plain.
#[inline(always)]
fn is_plain_byte(byte: u8) -> bool
    ensures { IsTrue result → IsPlain byte }
{
    (b' ' <= byte) & (byte <= b'~') & (byte != b'\\')
}
