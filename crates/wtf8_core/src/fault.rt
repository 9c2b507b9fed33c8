//! The faults of bytes, and their texts.
ghost use Rattle.std.specs.Prelude.{◌≡◌, ◌∷◌, [], Some};
ghost use Rattle.std.specs.{Char.encode_utf8, Fmt.WritesStyledOnOk, Fmt.decimal};
ghost use Rattle.wtf8_core.specs.FaultText.{upper_hex, fault_text};
ghost use Rattle.wtf8_core.specs.declared.fault.EncodingError.TheVariants.{Byte, CodePoint, Utf8};

use crate::digits::{code_point_digits, upper_hex_digit};
use std::error::Error;
use std::fmt;

/// The first fault of bytes that aren't a string of a platform.
///
/// Bytes that aren't WTF-8 have one of the first three faults (RFC 3629, section 3, and WTF-8).
/// Bytes that aren't UTF-8 have the last (RFC 3629, section 4). If a sequence lacks a continuation,
/// that is its fault, whatever its value would be. The text of a fault states what it is and, for
/// UTF-8, where; `{:>99}` prints the same as `{}`. os_str_bytes 7.2.1 has the type under the same
/// name, with std's `Utf8Error` in place of the fields of `Utf8`.
///
/// The text of `CodePoint(0xDC00)` is `byte sequence is not representable in the platform
/// encoding; error at code point U+DC00`.
#[derive(Clone, Copy, Debug, PartialEq, Eq)]
pub enum EncodingError {
    /// A byte that can't occur where it is: one of 80 to C1 where a code point should begin, or one
    /// that isn't a continuation where a lead needs one more.
    ///
    /// C0 is `Byte(0xC0)`; E2 82 41 is `Byte(0x41)` (bytes in hexadecimal).
    Byte(u8),
    /// The value, at most 3FFFFF, of a lead with all its continuations, if it is overlong, is past
    /// 10FFFF, or is a low surrogate whose form comes directly after that of a high one.
    ///
    /// E0 80 80 is `CodePoint(0)`; ED A0 80 ED B0 80 is `CodePoint(0xDC00)`. F5 80 80 80 is
    /// `CodePoint(0x14_0000)`: that F5 to FF are leads whose four low bits count is this
    /// project's own reading, and that of os_str_bytes 7.2.1.
    CodePoint(u32),
    /// The bytes end where a lead needs one more continuation.
    ///
    /// E2 82 is `End`.
    End,
    /// The bytes aren't UTF-8. The fields are what [`utf8_fault`](crate::utf8_fault) returns for
    /// them.
    ///
    /// 61 E2 82 41 is `Utf8 { valid_up_to: 1, error_len: Some(2) }`, whose text is `invalid
    /// utf-8 sequence of 2 bytes from index 1`.
    Utf8 {
        /// The length in bytes of the longest prefix that is UTF-8.
        valid_up_to: usize,
        /// The length of the maximal ill-formed part after it, one to three bytes, or `None` if the
        /// bytes end within a character.
        error_len: Option<u8>,
    },
}

/// Writes the last `digits` hexadecimal digits of a number, whatever width the formatter has.
fn write_upper_hex<W: fmt::Write>(value: u32, digits: u32, f: &mut fmt::Formatter<W>) -> fmt::Result
    ensures { WritesStyledOnOk W.write_str_gives f.old result (upper_hex digits value) f.new }
{
    if digits == 0 {
        return Ok(());
    }
    write_upper_hex(value / 16, digits - 1, f)?;
    f.write_char(upper_hex_digit((value % 16) as u8))
}

/// Writes the decimal digits of a number, whatever width the formatter has.
fn write_decimal<W: fmt::Write>(value: usize, f: &mut fmt::Formatter<W>) -> fmt::Result
    ensures { WritesStyledOnOk W.write_str_gives f.old result (decimal value) f.new }
{
    if value < 10 {
        return f.write_char(char::from(b'0' + value as u8));
    }
    write_decimal(value / 10, f)?;
    f.write_char(char::from(b'0' + (value % 10) as u8))
}

/// Writes the text of a byte that can't occur where it is.
fn write_byte<W: fmt::Write>(byte: u8, f: &mut fmt::Formatter<W>) -> fmt::Result
    ensures { WritesStyledOnOk W.write_str_gives f.old result (fault_text (Byte byte)) f.new }
{
    f.write_str(NOT_REPRESENTABLE)?;
    f.write_str("byte b'\\x")?;
    write_upper_hex(u32::from(byte), 2, f)?;
    f.write_str("'")
}

/// Writes the text of a value that is no code point there.
fn write_code_point<W: fmt::Write>(value: u32, f: &mut fmt::Formatter<W>) -> fmt::Result
    ensures { WritesStyledOnOk W.write_str_gives f.old result (fault_text (CodePoint value)) f.new }
{
    f.write_str(NOT_REPRESENTABLE)?;
    f.write_str("code point U+")?;
    write_upper_hex(value, code_point_digits(value), f)
}

/// Writes the text of an ill-formed part of UTF-8, of its length and index.
fn write_ill_formed<W: fmt::Write>(len: u8, index: usize, f: &mut fmt::Formatter<W>) -> fmt::Result
    ensures { WritesStyledOnOk W.write_str_gives f.old result (fault_text (Utf8 index (Some len)))
        f.new }
{
    f.write_str("invalid utf-8 sequence of ")?;
    write_decimal(usize::from(len), f)?;
    f.write_str(" bytes from index ")?;
    write_decimal(index, f)
}

impl fmt::Display for EncodingError {
    ghost output = { λ fault. Some (fault_text fault) };

    ghost styled_output = { λ fault _. Some (fault_text fault) };

    fn fmt<W: fmt::Write>(&self, f: &mut fmt::Formatter<W>) -> fmt::Result {
        match *self {
            EncodingError::Byte(byte) => write_byte(byte, f),
            EncodingError::CodePoint(value) => write_code_point(value, f),
            EncodingError::End => {
                f.write_str(NOT_REPRESENTABLE)?;
                f.write_str("end of string")
            }
            EncodingError::Utf8 {
                valid_up_to,
                error_len,
            } => match error_len {
                Some(len) => write_ill_formed(len, valid_up_to, f),
                None => {
                    f.write_str("incomplete utf-8 byte sequence from index ")?;
                    write_decimal(valid_up_to, f)
                }
            },
        }
    }
}

impl Error for EncodingError {}

/// The fault of bytes that aren't UTF-8, made of the two numbers that
/// [`utf8_fault`](crate::utf8_fault) returns for them (this project's own call).
///
/// `EncodingError::from((1, None))` is `Utf8 { valid_up_to: 1, error_len: None }`.
impl From<(usize, Option<u8>)> for EncodingError {
    ghost from_gives = { λ fault error. error ≡ Utf8 fault.0 fault.1 };

    fn from((valid_up_to, error_len): (usize, Option<u8>)) -> Self {
        EncodingError::Utf8 {
            valid_up_to,
            error_len,
        }
    }
}

const NOT_REPRESENTABLE: &str =
    "byte sequence is not representable in the platform encoding; error at ";
