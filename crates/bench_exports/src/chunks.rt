//! Chunks on Unix.
ghost use Rattle.std.specs.Prelude.{◌≡◌, List, length};
ghost use Rattle.wtf8_core.specs.Chunks.{Chunk, AreChunks};

use crate::strings::unix;
use os_str_ext::OsStrBytesExt;

/// Returns the number of chunks of the string.
#[unsafe(no_mangle)]
pub extern "C" fn port_chunks(raw: &[u8]) -> usize
    ensures { (chunks : List Chunk) × AreChunks raw.now chunks × (result ≡ length chunks) }
{
    let mut count = 0;
    for _ in unix(raw).utf8_chunks() {
        count += 1;
    }
    count
}
