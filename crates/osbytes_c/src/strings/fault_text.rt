//! The text of a fault.
ghost use Rattle.std.specs.Prelude.{◌≡◌, ◌+◌, ◌<◌, ◌≤◌, ◌++◌, ◌∷◌, [], ℕ, List, MatchOption};
ghost use Rattle.std.specs.Fmt.{decimal};
ghost use Rattle.wtf8_core.specs.FaultText.{fault_text, upper_hex};
ghost use Rattle.wtf8_core.specs.Truncated.{IsTruncated};
ghost use Rattle.osbytes_c.specs.Answers.{IsOneOf, IsWritten};
ghost use Rattle.osbytes_c.specs.Faults.{Names, IsTextOf};
ghost use Rattle.osbytes_c.specs.Statuses.{done, no_fault, no_room};

use crate::status::{NO_FAULT, fits};
use crate::strings::fault::Fault;
use itoa::Buffer;
use wtf8_core::{EncodingError, code_point_digits, push_truncated, upper_hex_digit};

/// Writes the text of a fault into `out`, as far as there is room, and counts its bytes.
#[unsafe(no_mangle)]
pub extern "C" fn osb_core_fault_text(fault: &Fault, out: &mut [u8], count: &mut usize) -> u32
    ensures written { IsWritten result (IsTextOf fault.now) out.old out.new count.new }
    ensures none { result ≡ no_fault → (error : EncodingError) → ¬ (Names fault.now error) }
    ensures answers { IsOneOf (done ∷ no_room ∷ no_fault ∷ []) result }
{
    let Some(error) = error_of(*fault) else {
        return NO_FAULT;
    };
    let written = write_text(error, out);
    *count = written;
    fits(written, out.len())
}

/// The fault that a report names.
fn error_of(fault: Fault) -> Option<EncodingError>
    ensures { MatchOption result ((error : EncodingError) → ¬ (Names fault error))
        (λ error. Names fault error) }
{
    match fault.kind {
        1 => match u8::try_from(fault.value) {
            Ok(byte) => Some(EncodingError::Byte(byte)),
            Err(_) => None,
        },
        2 => Some(EncodingError::CodePoint(fault.value)),
        3 => Some(EncodingError::End),
        4 => match u8::try_from(fault.count) {
            Ok(len) => Some(EncodingError::Utf8 {
                valid_up_to: fault.index,
                error_len: Some(len),
            }),
            Err(_) => None,
        },
        5 => Some(EncodingError::Utf8 {
            valid_up_to: fault.index,
            error_len: None,
        }),
        _ => None,
    }
}

const NOT_REPRESENTABLE: &[u8] =
    b"byte sequence is not representable in the platform encoding; error at ";

/// Writes the text of a fault as far as there is room, and returns its length.
fn write_text(error: EncodingError, out: &mut [u8]) -> usize
    ensures { IsTruncated (fault_text error) out.old out.new result }
{
    match error {
        EncodingError::Byte(byte) => {
            let at = push_truncated(out, 0, NOT_REPRESENTABLE);
            let at = push_truncated(out, at, b"byte b'\\x");
            let at = push_hex(out, at, u32::from(byte), 2);
            push_truncated(out, at, b"'")
        }
        EncodingError::CodePoint(value) => {
            let at = push_truncated(out, 0, NOT_REPRESENTABLE);
            let at = push_truncated(out, at, b"code point U+");
            push_hex(out, at, value, code_point_digits(value))
        }
        EncodingError::End => {
            let at = push_truncated(out, 0, NOT_REPRESENTABLE);
            push_truncated(out, at, b"end of string")
        }
        EncodingError::Utf8 {
            valid_up_to,
            error_len,
        } => match error_len {
            Some(len) => {
                let at = push_truncated(out, 0, b"invalid utf-8 sequence of ");
                let at = push_decimal(out, at, usize::from(len));
                let at = push_truncated(out, at, b" bytes from index ");
                push_decimal(out, at, valid_up_to)
            }
            None => {
                let at = push_truncated(out, 0, b"incomplete utf-8 byte sequence from index ");
                push_decimal(out, at, valid_up_to)
            }
        },
    }
}

/// Appends the digits of a number, as `push_truncated` does.
fn push_decimal(out: &mut [u8], count: usize, number: usize) -> usize
    requires { count ≤ 1000 }
    ensures written { (text : List ℕ) → (old : List ℕ) → IsTruncated text old out.old count
        → IsTruncated (text ++ decimal number) old out.new result }
    ensures len { result ≤ count + 40 }
{
    let mut buffer = Buffer::new();
    push_truncated(out, count, buffer.format(number).as_bytes())
}

/// Appends the last digits of a number, upper-case and hexadecimal, as `push_truncated` does.
fn push_hex(out: &mut [u8], count: usize, value: u32, digits: u32) -> usize
    requires count { count ≤ 1000 }
    requires digits { digits ≤ 8 }
    ensures written { (text : List ℕ) → (old : List ℕ) → IsTruncated text old out.old count
        → IsTruncated (text ++ upper_hex digits value) old out.new result }
    ensures len { result ≡ count + digits }
{
    if digits == 0 {
        return count;
    }
    let at = push_hex(out, count, value / 16, digits - 1);
    push_truncated(out, at, &[upper_hex_digit((value % 16) as u8) as u8])
}
