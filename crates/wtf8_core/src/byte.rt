//! Classes of bytes.
ghost use Rattle.std.specs.Prelude.{◌↔◌, IsTrue};
ghost use Rattle.wtf8_core.specs.Byte.{IsContinuation};

/// Whether a byte is a continuation byte: one of 80 to BF (hexadecimal; `UTF8-tail` of RFC 3629,
/// section 4).
///
/// Equivalent to `byte & 0xC0 == 0x80`. No character of a text starts at such a byte, so std's
/// `str::is_char_boundary` is false at its index.
///
/// ```
/// use os_str_bytes::is_continuation;
///
/// assert!(rt; is_continuation(0xA9) && !is_continuation(0xC3));
/// ```
#[inline(always)]
pub fn is_continuation(byte: u8) -> bool
    ensures { IsTrue result ↔ IsContinuation byte }
{
    matches!(byte, 0x80..=0xBF)
}
