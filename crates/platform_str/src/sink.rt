//! What takes bytes, piece by piece: a formatter, a buffer that may be too short, or a vector.
ghost use Rattle.platform_str.specs.Sinks.{PieceRules, SinkRules, Takes};

use std::alloc::Allocator;
use std::fmt;
use wtf8_core::push_truncated;

/// What takes bytes, piece by piece (own trait): a formatter, a buffer that may be too short
/// ([`TruncatedBuffer`]), or a vector. So one function writes to each of these.
pub trait Sink {
    /// What the sink takes, has room for and rejects.
    ghost rules: { SinkRules Self };

    /// The pieces that the sink accepts.
    ghost pieces: { PieceRules };

    /// Takes a piece. An error rejects it, and with it all that begins with what was taken before
    /// and this piece.
    ///
    /// A formatter accepts UTF-8 alone. A buffer has room while the length of what was written is
    /// below 2^64.
    ///
    /// # Errors
    ///
    /// A buffer returns none. After an error a vector still has what it had, and after that at most
    /// a prefix of what it was to take, whether that was one piece or many. What a formatter has
    /// written then isn't known.
    ///
    /// ```
    /// use os_str_bytes::Sink;
    ///
    /// let mut vector: Vec<u8> = Vec::new(alloc);
    /// assert_eq!(rt; vector.take(b"fo"), Ok(()));
    /// assert_eq!(rt; vector.take(b"\x80o"), Ok(()));
    /// assert_eq!(rt; vector.as_slice(), b"fo\x80o".as_slice());
    /// ```
    fn take(&mut self, piece: &[u8]) -> fmt::Result
        requires accepted { pieces.accepts piece.now }
        requires room { rules.has_room self.old piece.now }
        ensures { Takes rules self.old piece.now result self.new };

    /// Takes a text, which each sink accepts.
    ///
    /// ```
    /// use os_str_bytes::Sink;
    /// use std::fmt;
    ///
    /// #[derive(Drop)]
    /// struct Pair<'a>(&'a str);
    ///
    /// impl<'a> fmt::Display for Pair<'a> {
    ///     fn fmt<W: fmt::Write>(&self, f: &mut fmt::Formatter<W>) -> fmt::Result {
    ///         f.take_text("a=")?;
    ///         f.take_text(self.0)
    ///     }
    /// }
    ///
    /// assert_eq!(rt; format!(in alloc; "{}", Pair("b"))?.as_str(), "a=b");
    /// ```
    #[inline(always)]
    fn take_text(&mut self, text: &str) -> fmt::Result
        requires { rules.has_room self.old text.now }
        ensures { Takes rules self.old text.now result self.new }
    {
        self.take(text.as_bytes())
    }
}

impl<W: fmt::Write> Sink for fmt::Formatter<W> {
    ghost use Rattle.platform_str.specs.FormatterSink.{formatter_rules, text_pieces};

    ghost rules = { formatter_rules W.write_str_gives };

    ghost pieces = { text_pieces };

    #[inline(always)]
    fn take(&mut self, piece: &[u8]) -> fmt::Result {
        self.write_str(unsafe { str::from_utf8_unchecked(piece) })
    }
}

/// A buffer that may be too short, and the length of what was written to it so far (own type). What
/// doesn't fit is only counted.
///
/// ```
/// use os_str_bytes::{Sink, TruncatedBuffer};
///
/// let mut bytes = [b'-'; 8];
/// let mut buffer = TruncatedBuffer {
///     bytes: &mut bytes,
///     count: 0,
/// };
/// assert_eq!(rt; buffer.take(b"fo\x80"), Ok(()));
/// assert_eq!(rt; buffer.take_text("o"), Ok(()));
/// assert_eq!(rt; buffer.count, 4);
/// assert_eq!(rt; bytes.as_slice(), b"fo\x80o----".as_slice());
/// ```
#[derive(Drop)]
pub struct TruncatedBuffer<'a> {
    /// The buffer.
    pub bytes: &'a mut [u8],
    /// The length of what was written so far.
    pub count: usize,
}

impl<'a> Sink for TruncatedBuffer<'a> {
    ghost use Rattle.platform_str.specs.BufferSink.{buffer_rules};
    ghost use Rattle.platform_str.specs.Sinks.{any_pieces};

    ghost rules = { buffer_rules };

    ghost pieces = { any_pieces };

    #[inline(always)]
    fn take(&mut self, piece: &[u8]) -> fmt::Result {
        self.count = push_truncated(self.bytes, self.count, piece);
        Ok(())
    }
}

impl<A: Allocator> Sink for Vec<u8, A> {
    ghost use Rattle.platform_str.specs.Sinks.{any_pieces};
    ghost use Rattle.platform_str.specs.VectorSink.{vector_rules};

    ghost rules = { vector_rules };

    ghost pieces = { any_pieces };

    #[inline(always)]
    fn take(&mut self, piece: &[u8]) -> fmt::Result {
        match self.extend_from_slice(piece) {
            Ok(()) => Ok(()),
            Err(_) => Err(fmt::Error),
        }
    }
}
