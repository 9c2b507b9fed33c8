//! Path styles, and the bytes that separate components.
ghost use Rattle.std.specs.Prelude.{◌≡◌, ℕ, ◌+◌, ◌≤◌, ◌<◌, true, false, length, slice_index, MatchOption};
ghost use Rattle.path_rules.specs.Separators.{separates, IsPlain, IsPlainBelow, IsCut, IsField};
ghost use Rattle.path_rules.specs.StyleRules.{rules_of_style, main_separator};

use crate::lanes::{HALF, LANES, len_before};

/// The bytes that separate the components of a path.
#[derive(Clone, Copy, Debug, PartialEq, Eq)]
pub enum Rules {
    /// `/` alone: Unix and wasm.
    Slash,
    /// `/` and `\`: Windows.
    Either,
    /// `\` alone, and `.` is a component: Windows paths that begin with `\\?\`.
    Verbatim,
}

impl Rules {
    /// Returns `true` if a byte is a separator (std's `path::is_separator`, of a byte).
    ///
    /// ```
    /// use path_rules::Rules;
    ///
    /// assert!(rt; Rules::Either.is_separator(b'/') && !Rules::Verbatim.is_separator(b'/'));
    /// ```
    #[inline(always)]
    pub fn is_separator(self, byte: u8) -> bool
        ensures { result ≡ separates self byte }
    {
        match self {
            Rules::Slash => byte == b'/',
            Rules::Either => byte == b'/' || byte == b'\\',
            Rules::Verbatim => byte == b'\\',
        }
    }

    /// What comes before the first separator, and what comes after it; `None` where there is none.
    pub(crate) fn split_first(self, path: &[u8]) -> Option<(&[u8], &[u8])>
        ensures { MatchOption result (IsPlain self path.now)
            (λ cut. IsCut self path.now cut.0.now cut.1.now × IsPlain self cut.0.now) }
    {
        let at = self.first_separator(path);
        if at == path.len() {
            return None;
        }
        Some((&path[..at], &path[at + 1..]))
    }

    /// Returns what comes before the first separator, and what follows from there on.
    ///
    /// ```
    /// use path_rules::Rules;
    ///
    /// let (name, rest) = Rules::Either.split_field(br"a/b\c");
    /// assert!(rt; name == b"a".as_slice() && rest == br"/b\c".as_slice());
    /// assert_eq!(rt; Rules::Slash.split_field(b"a").1, b"".as_slice());
    /// ```
    pub fn split_field(self, path: &[u8]) -> (&[u8], &[u8])
        ensures { IsField self path.now result.0.now result.1.now }
    {
        path.split_at(self.first_separator(path))
    }

    /// The index of the first separator, or the length where there is none.
    fn first_separator(self, path: &[u8]) -> usize
        ensures within { result ≤ length path.now }
        ensures plain { IsPlainBelow self path.now result }
        ensures separator { result < length path.now
            → separates self (slice_index path.now result) ≡ true }
    {
        let mut at = self.skip_lanes(path);
        while at < path.len() && !self.is_separator(path[at]) {
            at += 1;
        }
        at
    }

    /// An index up to which no byte separates. It is that of the first separator, or one after
    /// which fewer bytes remain than half a vector has. Components are found in half the time that
    /// a loop over bytes takes.
    #[inline(always)]
    fn skip_lanes(self, path: &[u8]) -> usize
        ensures within { result ≤ length path.now }
        ensures plain { IsPlainBelow self path.now result }
    {
        let mut at = 0;
        while path.len() - at >= LANES {
            let len = self.lanes_before::<LANES>(path, at);
            at += len;
            if len < LANES {
                return at;
            }
        }
        if path.len() - at < HALF {
            return at;
        }
        at + self.lanes_before::<HALF>(path, at)
    }

    /// The number of bytes before the first separator, among the N bytes from an index on.
    #[inline(always)]
    fn lanes_before<const N: usize>(self, path: &[u8], from: usize) -> usize
        requires inside { from + N ≤ length path.now }
        requires few { N ≤ 64 }
        ensures within { result ≤ N }
        ensures plain { (i : ℕ) → i < result
            → separates self (slice_index path.now (from + i)) ≡ false }
    {
        match self {
            Rules::Slash => len_before::<N>(b'/', path, from),
            Rules::Either => lesser(
                len_before::<N>(b'/', path, from),
                len_before::<N>(b'\\', path, from),
            ),
            Rules::Verbatim => len_before::<N>(b'\\', path, from),
        }
    }

    /// What comes before the last separator, and what comes after it; `None` where there is none.
    pub(crate) fn split_last(self, path: &[u8]) -> Option<(&[u8], &[u8])>
        ensures { MatchOption result (IsPlain self path.now)
            (λ cut. IsCut self path.now cut.0.now cut.1.now × IsPlain self cut.1.now) }
    {
        let mut at = path.len();
        while at > 0 {
            if self.is_separator(path[at - 1]) {
                return Some((&path[..at - 1], &path[at..]));
            }
            at -= 1;
        }
        None
    }
}

/// The lesser of two lengths.
#[inline(always)]
fn lesser(a: usize, b: usize) -> usize
    ensures first { result ≤ a }
    ensures second { result ≤ b }
{
    if a < b { a } else { b }
}

/// The platform whose rules a path follows.
#[derive(Clone, Copy, Debug, PartialEq, Eq)]
pub enum Style {
    /// POSIX: `/` separates, and there are no prefixes.
    Unix,
    /// Windows: `/` and `\` separate, and a path may begin with a prefix, as `C:` or
    /// `\\server\share`; after one that begins with `\\?\` only `\` separates.
    Windows,
}

impl Style {
    /// What separates in a path without a prefix.
    ///
    /// ```
    /// use path_rules::{Rules, Style};
    ///
    /// assert!(rt; Style::Unix.rules() == Rules::Slash && Style::Windows.rules() == Rules::Either);
    /// ```
    pub fn rules(self) -> Rules
        ensures { result ≡ rules_of_style self }
    {
        match self {
            Style::Unix => Rules::Slash,
            Style::Windows => Rules::Either,
        }
    }

    /// The separator that is written: `/` on Unix, `\` on Windows (std's `MAIN_SEPARATOR`).
    ///
    /// ```
    /// use path_rules::Style;
    ///
    /// assert!(rt; Style::Unix.main_separator() == b'/' && Style::Windows.main_separator() == b'\\');
    /// ```
    pub fn main_separator(self) -> u8
        ensures { result ≡ main_separator self }
    {
        match self {
            Style::Unix => b'/',
            Style::Windows => b'\\',
        }
    }
}
