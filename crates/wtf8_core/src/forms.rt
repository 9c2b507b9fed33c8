//! Forms: the bytes of code points, written.
ghost use Rattle.std.specs.Prelude.{◌≡◌, ◌++◌, ◌∷◌, ◌+◌, ◌/◌, ◌%◌, ◌≤◌, take, drop, length};
ghost use Rattle.wtf8_core.specs.{CodePoint.IsCodePoint, CodePoint.encode, Decoder.packed_bytes};

/// Writes the form of a code point over the bytes from index `at` on, and returns the index after
/// it (RFC 3629, section 3; this project's own call). The bytes before and after the form are
/// unchanged. It doesn't allocate.
///
/// For a scalar value it writes what std's `char::encode_utf8` writes to `&mut bytes[at..]`; a
/// surrogate is written as in generalized UTF-8 (WTF-8).
///
/// ```
/// let mut bytes = [0; 5];
/// assert_eq!(rt; wtf8_core::write_form(&mut bytes, 1, 0xE9), 3);
/// assert_eq!(rt; bytes, [0, 0xC3, 0xA9, 0, 0]);
/// ```
#[tactic(auto, using(crate::proofs::lemmas::forms::WrittenInPlace::writing), unfolding(crate::specs::CodePoint::encode))]
#[inline(always)]
pub fn write_form(bytes: &mut [u8], at: usize, code_point: u32) -> usize
    requires code_point { IsCodePoint code_point }
    requires room { at + length (encode code_point) ≤ length bytes.old }
    ensures written { take result bytes.new ≡ take at bytes.old ++ encode code_point }
    ensures after { drop result bytes.new ≡ drop result bytes.old }
    ensures end { result ≡ at + length (encode code_point) }
    ensures len { length bytes.new ≡ length bytes.old }
{
    if code_point < 0x80 {
        bytes[at] = code_point as u8;
        return at + 1;
    }
    let last = last_continuation(code_point) as u8;
    if code_point < 0x800 {
        bytes[at] = (0xC0 + code_point / 0x40) as u8;
        bytes[at + 1] = last;
        return at + 2;
    }
    let third = (0x80 + code_point / 0x40 % 0x40) as u8;
    if code_point < 0x1_0000 {
        bytes[at] = (0xE0 + code_point / 0x1000) as u8;
        bytes[at + 1] = third;
        bytes[at + 2] = last;
        return at + 3;
    }
    bytes[at] = (0xF0 + code_point / 0x4_0000) as u8;
    bytes[at + 1] = (0x80 + code_point / 0x1000 % 0x40) as u8;
    bytes[at + 2] = third;
    bytes[at + 3] = last;
    at + 4
}

/// The last byte of a form that has more than one.
#[inline(always)]
fn last_continuation(code_point: u32) -> u32
    ensures { result ≡ 0x80 + code_point % 0x40 }
{
    0x80 + code_point % 0x40
}

/// The bytes of a form packed into a number, the first of them in the lowest bits.
///
/// Whether there are fewer than three bytes is tested before whether there is one. Where lengths
/// are mixed, a processor predicts that branch correctly more often.
#[tactic(auto, unfolding(crate::specs::CodePoint::encode))]
#[inline(always)]
pub(crate) fn packed_form(code_point: u32) -> u32
    requires { IsCodePoint code_point }
    ensures { encode code_point ≡ result % 0x100 ∷ packed_bytes 3 (result / 0x100) }
{
    if code_point < 0x800 {
        if code_point < 0x80 {
            return code_point;
        }
        return 0xC0 + code_point / 0x40 + last_continuation(code_point) * 0x100;
    }
    let last_two = 0x80 + code_point / 0x40 % 0x40 + last_continuation(code_point) * 0x100;
    if code_point < 0x1_0000 {
        return 0xE0 + code_point / 0x1000 + last_two * 0x100;
    }
    let last_three = 0x80 + code_point / 0x1000 % 0x40 + last_two * 0x100;
    0xF0 + code_point / 0x4_0000 + last_three * 0x100
}
