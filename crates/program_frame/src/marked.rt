//! Readers and writers that remember a failure.
ghost use Rattle.std.specs.Prelude.{◌≡◌, ◌⊎◌, ◌↔◌, true, false, ◌||◌, is_err, IsTrue};
ghost use Rattle.program_frame.specs.Marked.{IsBrokenPipe};
ghost use Rattle.std.specs.Io.{ReadsAtMost, WritesAtMost};
ghost use Rattle.std.specs.Io.KnownBytes.{Keeps, ReadConsumes, WriteAppends};

use std::io;
use std::io::{ErrorKind, Read, Write};

/// A reader or a writer with a mark that records whether one of its calls failed.
///
/// The mark is unset at first. A call that returns an error sets it. So does a write that takes
/// none of the bytes that it is given, if there are any. No other call sets it. So after a `read`
/// that returned an error, [`Marked::failed`] is true. It also records whether the last failed
/// write or flush found that the reader of its output is gone ([`Marked::closed`]).
#[derive(Drop)]
pub struct Marked<T> {
    inner: T,
    failed: bool,
    closed: bool,
}

/// Whether a call failed since nobody reads any more what is written: by the kind `BrokenPipe`.
fn is_broken_pipe<T>(answer: &io::Result<T>) -> bool
    ensures { IsTrue result ↔ IsBrokenPipe answer.now }
{
    match answer {
        Ok(_) => false,
        Err(error) => error.kind() == ErrorKind::BrokenPipe,
    }
}

impl<T> Marked<T> {
    ghost use Rattle.program_frame.specs.Marked.{marked_inner, has_failed, is_closed};

    /// The reader or the writer, with its mark unset.
    ///
    /// ```
    /// use program_frame::marked::Marked;
    ///
    /// let input: &[u8] = b"ab";
    /// assert!(rt; !Marked::new(input).failed());
    /// ```
    pub fn new(inner: T) -> Marked<T>
        ensures inner { marked_inner result ≡ inner }
        ensures unset { has_failed result ≡ false }
    {
        Marked {
            inner,
            failed: false,
            closed: false,
        }
    }

    /// Whether the mark is set.
    ///
    /// ```
    /// use program_frame::marked::Marked;
    ///
    /// let input: &[u8] = b"ab";
    /// let mut reader = Marked::new(input);
    /// let mut piece = [0u8; 4];
    /// assert!(rt; reader.read(&mut piece).is_ok() && !reader.failed());
    /// ```
    pub fn failed(&self) -> bool
        ensures { result ≡ has_failed self.now }
    {
        self.failed
    }

    /// Whether the mark is set, and the last write or flush that failed found that nobody reads
    /// what it writes any more: a pipe whose reader has gone, as that of `head` has.
    ///
    /// ```
    /// use program_frame::marked::Marked;
    ///
    /// let mut taken = Vec::new(alloc);
    /// let mut writer = Marked::new(&mut taken);
    /// assert!(rt; writer.write(b"ab").is_ok() && !writer.closed());
    /// ```
    pub fn closed(&self) -> bool
        ensures { result ≡ is_closed self.now }
    {
        self.failed && self.closed
    }

    /// The reader or the writer, without its mark.
    ///
    /// ```
    /// use program_frame::marked::Marked;
    ///
    /// let input: &[u8] = b"ab";
    /// assert_eq!(rt; Marked::new(input).into_inner(), b"ab".as_slice());
    /// ```
    pub fn into_inner(self) -> T
        ensures { result ≡ marked_inner self }
    {
        self.inner
    }
}

impl<R: Read> Marked<R> {
    ghost use Rattle.program_frame.specs.Marked.{marked_inner, has_failed};

    /// Reads as the reader does, and sets the mark at an error.
    ///
    /// # Errors
    ///
    /// The reader's own.
    ///
    /// ```
    /// use program_frame::marked::Marked;
    ///
    /// let input: &[u8] = b"ab";
    /// let mut reader = Marked::new(input);
    /// let mut piece = [0u8; 4];
    /// assert_eq!(rt; reader.read(&mut piece).ok(), Some(2));
    /// ```
    pub fn read(&mut self, buf: &mut [u8]) -> io::Result<usize>
        ensures bound { ReadsAtMost result buf.new }
        ensures bytes { ReadConsumes (R.remaining (marked_inner self.old))
            (R.remaining (marked_inner self.new)) result buf.new }
        ensures mark { has_failed self.new ≡ (has_failed self.old || is_err result) }
    {
        let result = self.inner.read(buf);
        if result.is_err() {
            self.failed = true;
            self.closed = false;
        }
        result
    }
}

impl<W: Write> Marked<W> {
    ghost use Rattle.program_frame.specs.Marked.{marked_inner, has_failed, failed_write, is_closed};

    /// Writes as the writer does, and sets the mark at an error, or where nothing is taken
    /// of bytes that aren't empty.
    ///
    /// # Errors
    ///
    /// The writer's own.
    ///
    /// ```
    /// use program_frame::marked::Marked;
    ///
    /// let mut taken = Vec::new(alloc);
    /// let mut writer = Marked::new(&mut taken);
    /// assert_eq!(rt; writer.write(b"ab").ok(), Some(2));
    /// assert!(rt; !writer.failed());
    /// ```
    pub fn write(&mut self, buf: &[u8]) -> io::Result<usize>
        ensures bound { WritesAtMost result buf.now }
        ensures bytes { WriteAppends (W.contents (marked_inner self.old))
            (W.contents (marked_inner self.new)) result buf.now }
        ensures mark { has_failed self.new ≡ (has_failed self.old || failed_write result buf.now) }
        ensures closed { (is_closed self.new ≡ true) ↔ (IsBrokenPipe result
            ⊎ ((failed_write result buf.now ≡ false) × (is_closed self.old ≡ true))) }
    {
        let result = self.inner.write(buf);
        let has_failed = match result {
            Ok(count) => count == 0 && !buf.is_empty(),
            Err(_) => true,
        };
        if has_failed {
            self.failed = true;
            self.closed = is_broken_pipe(&result);
        }
        result
    }

    /// Flushes the writer, and sets the mark at an error.
    ///
    /// # Errors
    ///
    /// The writer's own.
    ///
    /// ```
    /// use program_frame::marked::Marked;
    ///
    /// let mut taken: Vec<u8> = Vec::new(alloc);
    /// let mut writer = Marked::new(&mut taken);
    /// assert!(rt; writer.flush().is_ok() && !writer.failed());
    /// ```
    pub fn flush(&mut self) -> io::Result<()>
        ensures bytes { Keeps (W.contents (marked_inner self.old))
            (W.contents (marked_inner self.new)) }
        ensures mark { has_failed self.new ≡ (has_failed self.old || is_err result) }
        ensures closed { (is_closed self.new ≡ true) ↔ (IsBrokenPipe result
            ⊎ ((is_err result ≡ false) × (is_closed self.old ≡ true))) }
    {
        let result = self.inner.flush();
        if result.is_err() {
            self.failed = true;
            self.closed = is_broken_pipe(&result);
        }
        result
    }
}
