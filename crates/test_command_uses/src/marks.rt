//! Marks of readers and writers.
ghost use Rattle.std.specs.Prelude.{◌≡◌, ◌↔◌, false, IsTrue};

use program_frame::marked::Marked;
use std::io::{ErrorKind, Write};

/// Whether a write of no bytes that returns `Ok` sets a writer's mark.
pub fn marked_by_no_bytes<W: Write + Drop>(writer: W) -> bool
    ensures { result ≡ false }
{
    let mut writer = Marked::new(writer);
    writer.write(b"").is_ok() && writer.failed()
}

/// Whether a writer is closed after a write that returns `Ok`.
pub fn closed_by_no_bytes<W: Write + Drop>(writer: W) -> bool
    ensures { result ≡ false }
{
    let mut writer = Marked::new(writer);
    writer.write(b"").is_ok() && writer.closed()
}

/// Whether a write failed since nobody reads any more, by its error and by the writer.
pub fn closed_by_a_write<W: Write + Drop>(writer: W) -> (bool, bool)
    ensures { IsTrue result.0 ↔ IsTrue result.1 }
{
    let mut writer = Marked::new(writer);
    match writer.write(b"a") {
        Ok(_) => (false, writer.closed()),
        Err(error) => (error.kind() == ErrorKind::BrokenPipe, writer.closed()),
    }
}

/// Whether a flush fails because nobody reads any more, and whether the writer is closed after it.
pub fn closed_by_a_flush<W: Write + Drop>(writer: W) -> (bool, bool)
    ensures { IsTrue result.0 ↔ IsTrue result.1 }
{
    let mut writer = Marked::new(writer);
    match writer.flush() {
        Ok(()) => (false, writer.closed()),
        Err(error) => (error.kind() == ErrorKind::BrokenPipe, writer.closed()),
    }
}

/// A reader or a writer that was marked, and is so no more.
pub fn unmarked<T>(inner: T) -> T
    ensures { result ≡ inner }
{
    Marked::new(inner).into_inner()
}
