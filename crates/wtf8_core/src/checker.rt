//! Checking bytes that arrive in pieces.
#![tactic(auto, using(crate::proofs::lemmas::table::Pieces::pieces))]

ghost use Rattle.std.specs.Prelude.{◌≡◌, ℕ, ◌<◌, ◌≤◌, ◌∷◌, ◌++◌, List, [], length, MatchOption, MatchResult};
ghost use Rattle.wtf8_core.specs.Checker.{IsInState, Describes, IsFaulty, OnlyEnds, HasFirstFault, fault_at, is_between, saved_progress, Progress, progress};
ghost use Rattle.wtf8_core.specs.{Wtf8.IsWtf8, EncodedPrefix.IsEncodedPrefix, declared.table.State.TheVariants.Between, declared.vectors.Encoding.TheVariants.Wtf8};

use crate::byte::is_continuation;
use crate::fault::EncodingError;
use crate::table::{State, class_at, next_at, state_at};
use crate::utf8::is_short_utf8;
use crate::vectors::Encoding;
use crate::vectors::scan::{ends_with_high_surrogate, scan};
use std::marker::Model;

/// Checks whether bytes that arrive in pieces are WTF-8, and finds their first fault if not.
///
/// It looks up the bytes in a table one by one; where no sequence is open, it reads many bytes at
/// once with vectors. It holds a few numbers and doesn't allocate. Its results are those for the
/// pieces joined. [`feed`](Checker::feed) returns their first fault as soon as no later byte can
/// change it. [`finish`](Checker::finish) also reports that they end within a sequence, and returns
/// `Ok` exactly for WTF-8.
///
/// Its fault is the first `Err` of [`CodePoints`](crate::CodePoints) over the joined bytes.
#[derive(Drop)]
pub struct Checker {
    state: State,
    bits: u32,
    fault: Option<EncodingError>,
}

impl Model for Checker {
    ghost Value = { Progress };

    ghost view = { λ it. progress it.state it.bits it.fault };
}

/// A [`Checker`] as numbers, for a caller that can't keep a `Checker`, as in a C struct (this
/// project's own type).
///
/// [`Checker::save`] makes one, and [`Checker::restore`] makes a checker of it.
#[derive(Clone, Copy, Debug, PartialEq, Eq)]
pub struct SavedChecker {
    /// What is open after the last byte, a number below 16.
    pub state: u8,
    /// The bits that were read of what is open.
    pub bits: u32,
    /// The fault that was found.
    pub fault: Option<EncodingError>,
}

impl Checker {
    /// A checker that has read no bytes yet. The empty list of bytes is WTF-8.
    ///
    /// ```
    /// use os_str_bytes::Checker;
    ///
    /// assert_eq!(rt; Checker::new().finish(), Ok(()));
    /// ```
    pub fn new() -> Checker
        ensures { Describes result [] }
    {
        Checker {
            state: State::Between,
            bits: 0,
            fault: None,
        }
    }

    /// Reads one more piece, of any length. Returns `Err` if the bytes fed so far, joined, this
    /// piece included, have a fault that no later byte can change.
    ///
    /// The fault is the first one of the joined bytes. A sequence that is cut off at the end of the
    /// piece is no fault yet, since the next piece may continue it: only
    /// [`finish`](Checker::finish) returns `EncodingError::End`. After an `Err` every later call
    /// returns the same one.
    ///
    /// ```
    /// use os_str_bytes::{Checker, EncodingError};
    ///
    /// let mut euro = Checker::new();
    /// assert_eq!(rt; euro.feed(b"\xE2"), Ok(()));
    /// assert_eq!(rt; euro.feed(b"\x82\xAC"), Ok(()));
    ///
    /// let mut halves = Checker::new();
    /// assert_eq!(rt; halves.feed(b"\xED\xA0\x80"), Ok(()));
    /// assert_eq!(rt; halves.feed(b"\xED\xB0\x80"), Err(EncodingError::CodePoint(0xDC00)));
    /// ```
    pub fn feed(&mut self, piece: &[u8]) -> Result<(), EncodingError>
        ensures describes { (fed : List ℕ) → Describes self.old fed
            → Describes self.new (fed ++ piece.now) }
        ensures answer { (fed : List ℕ) → Describes self.old fed
            → MatchResult result (λ _. OnlyEnds (fed ++ piece.now))
            (λ fault. IsFaulty (fed ++ piece.now) fault) }
    {
        if let Some(fault) = self.fault {
            return Err(fault);
        }
        match read_piece(self.state, self.bits, piece) {
            Ok((state, bits)) => {
                self.state = state;
                self.bits = bits;
                Ok(())
            }
            Err(fault) => {
                self.fault = Some(fault);
                Err(fault)
            }
        }
    }

    /// Returns `Ok` if all the bytes that were fed, joined, are WTF-8, and else their first fault.
    ///
    /// If the only fault is that they end within a sequence, it is `EncodingError::End`.
    ///
    /// ```
    /// use os_str_bytes::{Checker, EncodingError};
    ///
    /// let mut checker = Checker::new();
    /// assert_eq!(rt; checker.feed(b"\xE2\x82"), Ok(()));
    /// assert_eq!(rt; checker.finish(), Err(EncodingError::End));
    /// ```
    pub fn finish(self) -> Result<(), EncodingError>
        ensures { (fed : List ℕ) → Describes self fed
            → MatchResult result (λ _. IsWtf8 fed) (λ fault. HasFirstFault fed fault) }
    {
        if let Some(fault) = self.fault {
            return Err(fault);
        }
        if is_between(self.state) {
            Ok(())
        } else {
            Err(EncodingError::End)
        }
    }

    /// The checker as numbers (own call).
    ///
    /// ```
    /// use os_str_bytes::{Checker, EncodingError};
    ///
    /// let mut checker = Checker::new();
    /// assert_eq!(rt; checker.feed(b"\xE2"), Ok(()));
    /// let saved = checker.save();
    /// if let Some(mut restored) = Checker::restore(saved) {
    ///     assert_eq!(rt; restored.feed(b"A"), Err(EncodingError::Byte(0x41)));
    /// }
    /// ```
    pub fn save(&self) -> SavedChecker
        ensures saved { saved_progress result ≡ self.now }
        ensures state { result.state < 16 }
    {
        SavedChecker {
            state: self.state as u8,
            bits: self.bits,
            fault: self.fault,
        }
    }

    /// The checker that was saved as these numbers; `None` if the state is a number that
    /// [`Checker::save`] never returns (own call).
    ///
    /// ```
    /// use os_str_bytes::{Checker, SavedChecker};
    ///
    /// let unknown = SavedChecker { state: 16, bits: 0, fault: None };
    /// assert!(rt; Checker::restore(unknown).is_none());
    /// assert!(rt; Checker::restore(Checker::new().save()).is_some());
    /// ```
    pub fn restore(saved: SavedChecker) -> Option<Checker>
        ensures { MatchOption result (16 ≤ saved.state)
            (λ checker. checker ≡ saved_progress saved) }
    {
        let state = state_at(saved.state)?;
        Some(Checker {
            state,
            bits: saved.bits,
            fault: saved.fault,
        })
    }
}

/// Returns the fault of a byte that the table rejects in this state.
#[cold]
fn fault_at(state: State, bits: u32, byte: u8) -> EncodingError
    ensures { result ≡ fault_at state bits byte }
{
    if !is_continuation(byte) {
        return EncodingError::Byte(byte);
    }
    match state {
        State::BadThird => EncodingError::CodePoint(bits % 0x1_0000),
        State::BadFourth => EncodingError::CodePoint(bits % 0x40_0000),
        _ => EncodingError::Byte(byte),
    }
}

/// Whether no sequence is open.
#[inline(always)]
fn is_between(state: State) -> bool
    ensures { result ≡ is_between state }
{
    matches!(state, State::Between | State::AfterHigh)
}

/// Returns the state and the bits after one more byte, or its fault.
#[inline(always)]
fn read_byte(state: State, bits: u32, byte: u8) -> Result<(State, u32), EncodingError>
    ensures { (fed : List ℕ) → IsInState state bits fed
        → MatchResult result (λ r. IsInState r.0 r.1 (fed ++ byte ∷ []))
        (λ fault. IsFaulty (fed ++ byte ∷ []) fault) }
{
    let next = next_at(state, class_at(byte));
    // The low 26 of the bits, followed by the low six of the byte.
    let joined = bits % 0x400_0000 * 0x40 + u32::from(byte % 0x40);
    if let State::Refused = next {
        return Err(fault_at(state, joined, byte));
    }
    Ok((next, joined))
}

/// Returns the state and the bits after more bytes, read one by one, or their first fault.
#[inline(always)]
fn read_bytes(state: State, bits: u32, bytes: &[u8]) -> Result<(State, u32), EncodingError>
    ensures { (fed : List ℕ) → IsInState state bits fed
        → MatchResult result (λ r. IsInState r.0 r.1 (fed ++ bytes.now))
        (λ fault. IsFaulty (fed ++ bytes.now) fault) }
{
    let mut state = state;
    let mut bits = bits;
    for byte in bytes {
        // by `?` the pair is kept as one number: 0.9 ns of the 15 that a check of few bytes takes
        match read_byte(state, bits, *byte) {
            Ok((next, joined)) => (state, bits) = (next, joined),
            Err(fault) => return Err(fault),
        }
    }
    Ok((state, bits))
}

/// Returns the state and the bits after more bytes, where no sequence is open and no high surrogate
/// comes directly before. A prefix that is WTF-8 is read with vectors. Its end is tested for a high
/// surrogate, even if it is a text.
#[inline(always)]
fn read_between(bits: u32, bytes: &[u8]) -> Result<(State, u32), EncodingError>
    ensures { (fed : List ℕ) → IsInState Between bits fed
        → MatchResult result (λ r. IsInState r.0 r.1 (fed ++ bytes.now))
        (λ fault. IsFaulty (fed ++ bytes.now) fault) }
{
    let at = prefix_of_piece(bytes);
    let (_, rest) = bytes.split_at(at);
    if ends_with_high_surrogate(bytes, at) {
        read_bytes(State::AfterHigh, bits, rest)
    } else {
        read_bytes(State::Between, bits, rest)
    }
}

/// Returns the length of a prefix that is WTF-8: all of a short text, or what blocks find. A short
/// piece with a surrogate is read twice, by steps and then by blocks.
#[tactic(auto, using(crate::proofs::lemmas::vectors::Windows::whole_prefixes))]
#[inline(always)]
fn prefix_of_piece(bytes: &[u8]) -> usize
    ensures within { result ≤ length bytes.now }
    ensures prefix { IsEncodedPrefix Wtf8 bytes.now result }
{
    if is_short_utf8(bytes) {
        bytes.len()
    } else {
        scan(bytes, Encoding::Wtf8)
    }
}

/// Returns the state and the bits after one more piece, from any state, or the first fault.
fn read_piece(state: State, bits: u32, piece: &[u8]) -> Result<(State, u32), EncodingError>
    ensures { (fed : List ℕ) → IsInState state bits fed
        → MatchResult result (λ r. IsInState r.0 r.1 (fed ++ piece.now))
        (λ fault. IsFaulty (fed ++ piece.now) fault) }
{
    let mut state = state;
    let mut bits = bits;
    let mut rest = piece;
    while !matches!(state, State::Between) {
        let Some((first, after)) = rest.split_first() else {
            return Ok((state, bits));
        };
        match read_byte(state, bits, *first) {
            Ok((next, joined)) => {
                state = next;
                bits = joined;
            }
            Err(fault) => return Err(fault),
        }
        rest = after;
    }
    read_between(bits, rest)
}
