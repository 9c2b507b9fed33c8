//! What means a character or a byte in dollar-single-quotes.
ghost use Rattle.std.specs.Prelude.{◌≡◌, ◌+◌, ◌<◌, IfSome};
ghost use Rattle.os_command_line.specs.ShellWriting.{is_escape, is_high, letter_for};

use os_quote::stays_on_line;
use os_str_ext::Symbol;

/// The letter that means a character after a backslash.
pub(crate) fn letter_for(character: char) -> Option<u8>
    ensures value { result ≡ letter_for character }
    ensures ascii { IfSome result (λ letter. letter < 128) }
{
    if character == '\'' {
        Some(b'\'')
    } else if character == '\\' {
        Some(b'\\')
    } else if character == '\n' {
        Some(b'n')
    } else if character == '\t' {
        Some(b't')
    } else if character == '\r' {
        Some(b'r')
    } else {
        None
    }
}

/// Whether a backslash begins what means a symbol.
pub(crate) fn is_escape(symbol: Symbol) -> bool
    ensures { result ≡ is_escape symbol }
{
    match symbol {
        Symbol::Character(character) => {
            character == '\'' || character == '\\' || !stays_on_line(character)
        }
        Symbol::Unit(_) => true,
    }
}

/// Whether a byte from 0x80 on ends what means a symbol.
pub(crate) fn is_high(symbol: Symbol) -> bool
    ensures { result ≡ is_high symbol }
{
    match symbol {
        Symbol::Character(character) => character > '\x7F' && stays_on_line(character),
        Symbol::Unit(_) => false,
    }
}

/// An octal digit.
pub(crate) fn octal_digit(value: u16) -> u8
    requires { value < 8 }
    ensures { result ≡ 0x30 + value }
{
    b'0' + value as u8
}
