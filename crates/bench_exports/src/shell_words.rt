//! Words of a shell, read and written.
ghost use Rattle.std.specs.Prelude.{◌≡◌, ◌≢◌, ◌+◌, ◌*◌, ◌<◌, ◌^◌, length};
ghost use Rattle.wtf8_core.specs.Truncated.{IsTruncated};
ghost use Rattle.os_command_line.specs.ShellWriting.{quoted_word};

use crate::strings::unix;
use os_command_line::shell::{Specials, Words, quote, quoted, write_quoted};
use std::alloc::Global;

/// Reads a line whose special characters are kept, and returns the sum of the bytes of its words,
/// modulo 2^64, which is turned by 31 before each word; `u64::MAX` where the line has a fault.
#[unsafe(no_mangle)]
pub extern "C" fn port_words(line: &[u8]) -> u64 {
    let mut sum: u64 = 0;
    for read in Words::new(unix(line), Specials::Kept) {
        let Ok(word) = read else {
            return u64::MAX;
        };
        sum = sum.wrapping_mul(31);
        for byte in word.bytes() {
            sum = sum.wrapping_add(u64::from(byte));
        }
    }
    sum
}

/// Returns the number of bytes of the word of a name as it is printed, as a new text, or
/// `usize::MAX` where it is rejected.
#[unsafe(no_mangle)]
pub extern "C" fn port_quoted(alloc: Global, name: &[u8]) -> usize {
    let Ok(word) = quoted(unix(name)) else {
        return usize::MAX;
    };
    match word.to_string(alloc) {
        Ok(text) => text.as_str().len(),
        Err(_) => usize::MAX,
    }
}

/// Returns the number of bytes of the word of a name, as a new string, or `usize::MAX` if it is
/// rejected.
#[unsafe(no_mangle)]
pub extern "C" fn port_quote(alloc: Global, name: &[u8]) -> usize
    ensures { result ≢ usize.MAX → result ≡ length (quoted_word name.now) }
{
    match quote(alloc, unix(name)) {
        Ok(word) => word.as_os_str().len(),
        Err(_) => usize::MAX,
    }
}

/// Writes the word of a name, and returns the number of its bytes, or `usize::MAX` where it is
/// rejected.
#[unsafe(no_mangle)]
pub extern "C" fn port_write_quoted(name: &[u8], out: &mut [u8]) -> usize
    requires { 4 * length name.now + 3 < 2 ^ 64 }
    ensures { result ≢ usize.MAX → IsTruncated (quoted_word name.now) out.old out.new result }
{
    match write_quoted(unix(name), out) {
        Ok(count) => count,
        Err(_) => usize::MAX,
    }
}
