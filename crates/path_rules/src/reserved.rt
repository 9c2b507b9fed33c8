//! Names that Windows reserves.
ghost use Rattle.std.specs.Prelude.{◌≡◌, ◌↔◌, ℕ, List, IsTrue, nat_eq, slice_index};
ghost use Rattle.std.specs.List.{list_any};
ghost use Rattle.path_rules.specs.Separators.{IsFieldBy};
ghost use Rattle.path_rules.specs.Reserved.{is_reserved_byte, is_dot_or_space, EndsReserved, is_word, is_device_word, is_port_word, is_superscript, is_out, is_device, HasDeviceBase, IsReserved, IsTightBase};

use crate::prefix::upper;

/// Returns `true` if Windows reserves a name (CPython 3.13's `ntpath.isreserved`, of one
/// component).
///
/// Three kinds of names are reserved:
///
/// - names that end in a dot or a space, other than `.` and `..`;
/// - names with a control character or one of `" * / : < > ? \ |`;
/// - the names of devices, in upper or lower case, whatever follows the first dot. These are `CON`,
///   `PRN`, `AUX`, `NUL`, `CONIN$`, `CONOUT$`, and `COM` and `LPT` with a digit from 1 to 9 or one
///   of `¹`, `²`, `³`.
///
/// ```
/// use path_rules::is_reserved;
///
/// assert!(rt; is_reserved(b"nul.txt") && is_reserved(b"Com1") && is_reserved(b"a:b"));
/// assert!(rt; is_reserved(b"a.") && !is_reserved(b".."));
/// assert!(rt; !is_reserved(b"null") && !is_reserved(b"com0"));
/// ```
pub fn is_reserved(name: &[u8]) -> bool
    ensures { IsTrue result ↔ IsReserved name.now }
{
    if ends_reserved(name) {
        return true;
    }
    if has_reserved_byte(name) {
        return true;
    }
    has_device_base(name)
}

/// Whether a name other than `.` and `..` ends in a dot or a space.
fn ends_reserved(name: &[u8]) -> bool
    ensures { IsTrue result ↔ EndsReserved name.now }
{
    match name {
        [b'.'] => false,
        [b'.', b'.'] => false,
        [.., last] => *last == b'.' || *last == b' ',
        [] => false,
    }
}

fn has_reserved_byte(name: &[u8]) -> bool
    ensures { result ≡ list_any is_reserved_byte name.now }
{
    name.iter().any(|b| is_reserved_byte(*b))
}

#[inline(always)]
fn is_reserved_byte(b: u8) -> bool
    ensures { result ≡ is_reserved_byte b }
{
    b < 0x20
        || b == b'"'
        || b == b'*'
        || b == b'/'
        || b == b':'
        || b == b'<'
        || b == b'>'
        || b == b'?'
        || b == b'\\'
        || b == b'|'
}

fn has_device_base(name: &[u8]) -> bool
    ensures { IsTrue result ↔ HasDeviceBase name.now }
{
    is_device(without_spaces(before_dot(name)))
}

/// What comes before the first dot.
fn before_dot(name: &[u8]) -> &[u8]
    ensures { (rest : List ℕ) × IsFieldBy (λ b. nat_eq b 0x2E) name.now result.now rest }
{
    for (i, b) in name.iter().enumerate() {
        if *b == b'.' {
            return &name[..i];
        }
    }
    name
}

/// A name without the spaces at its end.
fn without_spaces(name: &[u8]) -> &[u8]
    ensures { IsTightBase name.now result.now }
{
    let mut at = name.len();
    while at > 0 {
        if name[at - 1] != b' ' {
            return &name[..at];
        }
        at -= 1;
    }
    b"".as_slice()
}

/// Whether the letters are those of a word, in upper or lower case.
#[inline(always)]
fn is_word(a: u8, b: u8, c: u8, word: &[u8; 3]) -> bool
    ensures { result ≡ is_word a b c (slice_index word.now 0) (slice_index word.now 1)
        (slice_index word.now 2) }
{
    upper(a) == word[0] && upper(b) == word[1] && upper(c) == word[2]
}

fn is_device_word(a: u8, b: u8, c: u8) -> bool
    ensures { result ≡ is_device_word a b c }
{
    is_word(a, b, c, b"CON")
        || is_word(a, b, c, b"PRN")
        || is_word(a, b, c, b"AUX")
        || is_word(a, b, c, b"NUL")
}

fn is_port_word(a: u8, b: u8, c: u8) -> bool
    ensures { result ≡ is_port_word a b c }
{
    is_word(a, b, c, b"COM") || is_word(a, b, c, b"LPT")
}

/// Whether the name is that of a device.
fn is_device(base: &[u8]) -> bool
    ensures { result ≡ is_device base.now }
{
    match base {
        [a, b, c] => is_device_word(*a, *b, *c),
        [a, b, c, d] => is_port_word(*a, *b, *c) && *d >= b'1' && *d <= b'9',
        [a, b, c, d, e] => is_port_word(*a, *b, *c) && is_superscript(*d, *e),
        [a, b, c, d, e, f] => is_word(*a, *b, *c, b"CON") && is_word(*d, *e, *f, b"IN$"),
        [a, b, c, d, e, f, g] => is_word(*a, *b, *c, b"CON") && is_out(*d, *e, *f, *g),
        _ => false,
    }
}

/// Whether two bytes are `¹`, `²` or `³`.
fn is_superscript(d: u8, e: u8) -> bool
    ensures { result ≡ is_superscript d e }
{
    d == 0xC2 && (e == 0xB9 || e == 0xB2 || e == 0xB3)
}

/// Whether four bytes are `OUT$`, or `IN$` with a dotless i, whose upper case is `I`.
fn is_out(d: u8, e: u8, f: u8, g: u8) -> bool
    ensures { result ≡ is_out d e f g }
{
    is_word(d, e, f, b"OUT") && g == b'$' || d == 0xC4 && e == 0xB1 && upper(f) == b'N' && g == b'$'
}
