//! Hexadecimal digits.
ghost use Rattle.std.specs.Prelude.{◌≡◌, ◌≤◌, ◌/◌, ◌%◌, ◌∷◌, []};
ghost use Rattle.wtf8_core.specs.FaultText.{upper_hex_digit};

use wtf8_core::{code_point_digits, upper_hex_digit};

/// The two digits of a byte, the high one first.
pub fn byte_digits(byte: u8) -> [char; 2]
    ensures { result ≡ upper_hex_digit (byte / 16) ∷ upper_hex_digit (byte % 16) ∷ [] }
{
    [upper_hex_digit(byte / 16), upper_hex_digit(byte % 16)]
}

/// How many digits a character of the basic plane is written with, which is four.
pub fn digits_of_the_basic_plane(value: u16) -> u32
    ensures { result ≡ 4 }
{
    code_point_digits(u32::from(value))
}

/// How many digits a scalar value is written with, which is six at most.
pub fn digits_of_a_character(character: char) -> u32
    ensures { result ≤ 6 }
{
    code_point_digits(u32::from(character))
}
