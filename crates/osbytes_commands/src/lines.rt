//! Units as lines of hexadecimal digits.
ghost use Rattle.std.specs.Prelude.{◌≡◌, ◌≢◌, ℕ, ◌<◌, ◌++◌, IfSome, IfNone, IfOk, OnOk};
ghost use Rattle.os_str_bytes.specs.Strings.{bytes};
ghost use Rattle.program_frame.specs.declared.os.Os.{Os};
ghost use Rattle.osbytes_commands.specs.Lines.{hex_digit, lower_byte_digits, piece_digits, unit_line, unit_lines, BeginsWithUnitLine};

use os_str_bytes::{OsStr, Platform, Windows};
use std::alloc::{AllocError, Allocator};

/// A line for each byte.
pub fn byte_lines<A: Allocator>(alloc: A, bytes: &[u8]) -> Result<Vec<u8, A>, AllocError>
    ensures { IfOk result (λ output. output.items ≡ unit_lines Os.Unix bytes.now) }
{
    let mut output = Vec::new(alloc);
    for byte in bytes {
        output.extend_from_slice(&byte_line(*byte))?;
    }
    Ok(output)
}

/// A line for each unit of a Windows string.
pub fn wide_lines<A: Allocator>(
    alloc: A,
    string: OsStr<'_, Windows>,
) -> Result<Vec<u8, A>, AllocError>
    ensures { IfOk result (λ output. output.items ≡ unit_lines Os.Windows
        (⟦<Windows as Platform>⟧.units (bytes string.entry))) }
{
    let mut output = Vec::new(alloc);
    for unit in string.encode_wide() {
        output.extend_from_slice(&wide_line(unit))?;
    }
    Ok(output)
}

/// The line of a unit that is a byte: two digits, lower-case, and a newline.
fn byte_line(byte: u8) -> [u8; 3]
    ensures { result ≡ unit_line Os.Unix byte }
{
    let [first, second] = lower_byte_digits(byte);
    [first, second, b'\n']
}

/// The line of a unit of 16 bits: four digits, lower-case, and a newline.
fn wide_line(unit: u16) -> [u8; 5]
    ensures { result ≡ unit_line Os.Windows unit }
{
    let [first, second] = lower_byte_digits((unit / 0x100) as u8);
    let [third, fourth] = lower_byte_digits((unit % 0x100) as u8);
    [first, second, third, fourth, b'\n']
}

/// The two digits of a byte.
pub fn lower_byte_digits(byte: u8) -> [u8; 2]
    ensures { result ≡ lower_byte_digits byte }
{
    [hex_digit(byte / 0x10), hex_digit(byte % 0x10)]
}

fn hex_digit(value: u8) -> u8
    requires { value < 16 }
    ensures { result ≡ hex_digit value }
{
    if value < 10 {
        b'0' + value
    } else {
        b'a' + (value - 10)
    }
}

/// Appends the digits of a piece.
pub fn push_piece<A: Allocator>(line: &mut Vec<u8, A>, piece: &[u8]) -> Result<(), AllocError>
    ensures { OnOk result (line.new.items ≡ line.old.items ++ piece_digits piece.now) }
{
    if piece.is_empty() {
        line.push(b'-')?;
    }
    for byte in piece {
        line.extend_from_slice(&lower_byte_digits(*byte))?;
    }
    Ok(())
}

/// The unit that is a byte whose line comes first, and the bytes after that line.
pub fn leading_byte(bytes: &[u8]) -> Option<(u8, &[u8])>
    ensures some { IfSome result (λ prefix. bytes.now
        ≡ unit_line Os.Unix prefix.0 ++ prefix.1.now) }
    ensures none { IfNone result (¬ (BeginsWithUnitLine Os.Unix bytes.now)) }
{
    let [first, second, b'\n', rest @ ..] = bytes else {
        return None;
    };
    Some((hex_value(*first)? * 0x10 + hex_value(*second)?, rest))
}

/// The unit of 16 bits whose line comes first, and the bytes after that line.
pub fn leading_wide(bytes: &[u8]) -> Option<(u16, &[u8])>
    ensures some { IfSome result (λ prefix. bytes.now ≡ unit_line Os.Windows prefix.0
        ++ prefix.1.now) }
    ensures none { IfNone result (¬ (BeginsWithUnitLine Os.Windows bytes.now)) }
{
    let [first, second, third, fourth, b'\n', rest @ ..] = bytes else {
        return None;
    };
    let high = hex_value(*first)? * 0x10 + hex_value(*second)?;
    let low = hex_value(*third)? * 0x10 + hex_value(*fourth)?;
    Some((u16::from(high) * 0x100 + u16::from(low), rest))
}

/// The value of a digit.
fn hex_value(digit: u8) -> Option<u8>
    ensures some { IfSome result (λ value. (value < 16) × (hex_digit value ≡ digit)) }
    ensures none { IfNone result ((value : ℕ) → value < 16 → hex_digit value ≢ digit) }
{
    match digit {
        b'0'..=b'9' => Some(digit - b'0'),
        b'a'..=b'f' => Some(digit - b'a' + 10),
        _ => None,
    }
}
