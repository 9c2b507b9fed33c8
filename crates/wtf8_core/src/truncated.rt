//! Texts in a buffer that may be too short for them.
ghost use Rattle.std.specs.Prelude.{◌≡◌, ◌+◌, ◌<◌, ◌^◌, ◌++◌, ℕ, List, length};
ghost use Rattle.wtf8_core.specs.Truncated.{IsTruncated};

/// Appends bytes to a text of `count` bytes in a buffer, as far as there is room, and returns the
/// length of the whole text (this project's own call).
///
/// The buffer has the text truncated to the buffer's length, and is unchanged after it. So a text
/// is written part by part, from count 0 on. The last count is the length that a buffer needs, and
/// shows whether this one has room. The counts stay below 2^64.
///
/// ```
/// use os_str_bytes::push_truncated;
///
/// let mut buffer = [b'-'; 8];
/// let count = push_truncated(&mut buffer, 0, b"abc");
/// assert_eq!(rt; push_truncated(&mut buffer, count, b"def"), 6);
/// assert_eq!(rt; buffer.as_slice(), b"abcdef--".as_slice());
/// assert_eq!(rt; push_truncated(&mut buffer, 6, b"ghi"), 9);
/// assert_eq!(rt; buffer.as_slice(), b"abcdefgh".as_slice());
/// ```
#[inline(always)]
pub fn push_truncated(buffer: &mut [u8], count: usize, bytes: &[u8]) -> usize
    requires { count + length bytes.now < 2 ^ 64 }
    ensures written { (text : List ℕ) → (old : List ℕ) → IsTruncated text old buffer.old count
        → IsTruncated (text ++ bytes.now) old buffer.new result }
    ensures len { result ≡ count + length bytes.now }
{
    let len = count + bytes.len();
    if len <= buffer.len() {
        buffer[count..len].copy_from_slice(bytes);
    } else {
        fill_up(buffer, count, bytes);
    }
    len
}

/// Appends as many bytes as the buffer has room for, where there is no room for all of them.
fn fill_up(buffer: &mut [u8], count: usize, bytes: &[u8])
    requires { length buffer.now < count + length bytes.now }
    ensures { (text : List ℕ) → (old : List ℕ) → IsTruncated text old buffer.old count
        → IsTruncated (text ++ bytes.now) old buffer.new (count + length bytes.now) }
{
    if count < buffer.len() {
        let room = buffer.len() - count;
        buffer[count..].copy_from_slice(&bytes[..room]);
    }
}
