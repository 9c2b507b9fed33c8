//! The two forms of an escape. They differ in the characters that they show as they are, and in a
//! space at the end.
ghost use Rattle.std.specs.Prelude.{◌≡◌};
ghost use Rattle.os_quote.specs.{HiddenCharacters.is_in_ranges, Shown.stays_on_line, Ending.has_ending, Ending.ends_in_space};

/// A form of the escape: the characters that are shown as they are.
#[derive(Clone, Copy)]
pub(crate) enum Form {
    /// All but the backslash.
    Text,
    /// All but the backslash that stay on a line. A space at the end is a token, too.
    Line,
}

/// The first and the last number of each range.
macro_rules! ranges {
    ($($first:literal to $last:literal),*) => {
        [$(($first, $last)),*]
    };
}

/// The characters besides the backslash that the escape on one line writes as tokens. Each range
/// has its first and its last (the list is `hidden_ranges` of the definitions).
const HIDDEN: [(u32, u32); 38] = ranges!(
    0x00 to 0x1F, 0x7F to 0xA0, 0xAD to 0xAD, 0x34F to 0x34F, 0x600 to 0x605, 0x61C to 0x61C,
    0x6DD to 0x6DD, 0x70F to 0x70F, 0x890 to 0x891, 0x8E2 to 0x8E2, 0x115F to 0x1160,
    0x1680 to 0x1680, 0x17B4 to 0x17B5, 0x180B to 0x180F, 0x2000 to 0x200F, 0x2028 to 0x202F,
    0x205F to 0x206F, 0x2800 to 0x2800, 0x3000 to 0x3000, 0x3164 to 0x3164, 0xE000 to 0xF8FF,
    0xFDD0 to 0xFDEF, 0xFE00 to 0xFE0F, 0xFEFF to 0xFEFF, 0xFFA0 to 0xFFA0, 0xFFF0 to 0xFFFB,
    0xFFFE to 0xFFFF, 0x1_10BD to 0x1_10BD, 0x1_10CD to 0x1_10CD, 0x1_3430 to 0x1_343F,
    0x1_3441 to 0x1_3442, 0x1_BCA0 to 0x1_BCA3, 0x1_D159 to 0x1_D159, 0x1_D173 to 0x1_D17A,
    0x1_FFFE to 0x1_FFFF, 0x2_FFFE to 0x2_FFFF, 0x3_FFFE to 0x3_FFFF, 0x4_0000 to 0x10_FFFF
);

/// Returns `true` if a character stays on a line: it is shown, and can't alone end the line, move
/// the cursor or override the direction of text.
///
/// These are the characters that [`escape_line`](crate::escape_line) shows as they are, and the
/// backslash. A space is one of them, though at the end of a string it is a token.
///
/// ```
/// use os_quote::stays_on_line;
///
/// assert!(rt; stays_on_line('a') && stays_on_line(' ') && stays_on_line('\\'));
/// assert!(rt; !stays_on_line('\n') && !stays_on_line('\u{202E}'));
/// ```
pub fn stays_on_line(character: char) -> bool
    ensures { result ≡ stays_on_line character }
{
    !is_in_ranges(&HIDDEN, character as u32)
}

/// Whether the last byte is a space that the form writes as a token.
#[inline(always)]
pub(crate) fn has_ending(form: Form, bytes: &[u8]) -> bool
    ensures { result ≡ has_ending form bytes.now }
{
    match form {
        Form::Text => false,
        Form::Line => ends_in_space(bytes),
    }
}

/// Whether the last byte is a space.
fn ends_in_space(bytes: &[u8]) -> bool
    ensures { result ≡ ends_in_space bytes.now }
{
    !bytes.is_empty() && bytes[bytes.len() - 1] == b' '
}

/// Whether a number is in one of these ranges.
fn is_in_ranges(ranges: &[(u32, u32)], number: u32) -> bool
    ensures { result ≡ is_in_ranges ranges.now number }
{
    let mut rest = ranges;
    while let Some((range, more)) = rest.split_first() {
        if range.0 <= number && number <= range.1 {
            return true;
        }
        rest = more;
    }
    false
}
