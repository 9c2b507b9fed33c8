//! Hexadecimal digits, as the texts of faults and escapes have them.
ghost use Rattle.std.specs.Prelude.{◌≡◌, ◌<◌, ◌≤◌};
ghost use Rattle.wtf8_core.specs.FaultText.{upper_hex_digit, code_point_digits};

/// Returns the hexadecimal digit of a value, from `0` to `9` or from `A` to `F`. The value must be
/// below 16.
///
/// It is equivalent to std's `char::from_digit(value, 16)` in upper case.
///
/// ```
/// use wtf8_core::upper_hex_digit;
///
/// assert_eq!(rt; upper_hex_digit(7), '7');
/// assert_eq!(rt; upper_hex_digit(0xD), 'D');
/// ```
pub fn upper_hex_digit(value: u8) -> char
    requires { value < 16 }
    ensures value { result ≡ upper_hex_digit value }
    ensures ascii { result < 128 }
{
    if value < 10 {
        char::from(b'0' + value)
    } else {
        char::from(b'A' + (value - 10))
    }
}

/// Returns the number of hexadecimal digits with which a code point is written after `U+`: all that
/// it has, and at least four (Unicode, appendix A). Any number is taken for a code point.
///
/// ```
/// use wtf8_core::code_point_digits;
///
/// assert_eq!(rt; code_point_digits(0x41), 4);
/// assert_eq!(rt; code_point_digits(0x1_F600), 5);
/// ```
pub fn code_point_digits(value: u32) -> u32
    ensures value { result ≡ code_point_digits value }
    ensures few { result ≤ 8 }
{
    match value {
        0..=0xFFFF => 4,
        0x1_0000..=0xF_FFFF => 5,
        0x10_0000..=0xFF_FFFF => 6,
        0x100_0000..=0xFFF_FFFF => 7,
        _ => 8,
    }
}
