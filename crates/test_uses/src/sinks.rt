//! Pieces taken by a sink: what a formatter, a buffer or a vector holds after two of them.
ghost use Rattle.std.specs.Prelude.{◌≡◌, ◌+◌, ◌<◌, ◌^◌, ◌++◌, [], ◌∷◌, codes, decimal, length, map, take, IfSome, IsTrue, OnErr, OnOk};
ghost use Rattle.std.specs.Fmt.{WritesStyledOnOk};
ghost use Rattle.platform_str.specs.Sinks.{Takes};
ghost use Rattle.wtf8_core.specs.Occurrence.{IsPrefix};
ghost use Rattle.platform_str.specs.Strings.{bytes};

use platform_str::{OsStr, Platform, Sink, TruncatedBuffer, string_at, write_number};
use std::alloc::Allocator;
use std::fmt;

/// Two texts, taken by any sink.
pub fn take_both<S: Sink>(first: &str, second: &str, sink: &mut S) -> fmt::Result
    requires { S.rules.has_room sink.old (first.now ++ second.now) }
    ensures { Takes S.rules sink.old (first.now ++ second.now) result sink.new }
{
    sink.take_text(first)?;
    sink.take_text(second)
}

/// Prints two texts.
pub fn print_both<W: fmt::Write>(
    first: &str,
    second: &str,
    f: &mut fmt::Formatter<W>,
) -> fmt::Result
    ensures { WritesStyledOnOk W.write_str_gives f.old result (first.now ++ second.now) f.new }
{
    take_both(first, second, f)
}

/// Appends two texts to a vector. If an allocation fails, the vector still has what it had, and
/// nothing else than a prefix of the texts after that.
pub fn push_both<A: Allocator>(vector: &mut Vec<u8, A>, first: &str, second: &str) -> fmt::Result
    ensures both { OnOk result (vector.new.items ≡ vector.old.items ++ (first.now ++ second.now)) }
    ensures kept { OnErr result (IsPrefix vector.old.items vector.new.items) }
    ensures nothing_else { OnErr result
        (IsPrefix vector.new.items (vector.old.items ++ (first.now ++ second.now))) }
{
    take_both(first, second, vector)
}

/// The length of two pieces, joined, at the start of a buffer, if they have room there. A buffer
/// rejects nothing.
pub fn taken_in(bytes: &mut [u8], first: &[u8], second: &[u8]) -> Option<usize>
    requires { length first.now + length second.now < 2 ^ 64 }
    ensures { IfSome result (λ len. take len bytes.new ≡ first.now ++ second.now) }
{
    let mut buffer = TruncatedBuffer { bytes, count: 0 };
    let _ = buffer.take(first);
    let _ = buffer.take(second);
    let len = buffer.count;
    if len <= buffer.bytes.len() {
        Some(len)
    } else {
        None
    }
}

/// Prints a number in brackets.
pub fn print_index<W: fmt::Write>(index: usize, f: &mut fmt::Formatter<W>) -> fmt::Result
    ensures { WritesStyledOnOk W.write_str_gives f.old result
        (codes "[" ++ (decimal index ++ codes "]")) f.new }
{
    f.write_str("[")?;
    write_number(index, f)?;
    f.write_str("]")
}

/// Whether a list has this string alone.
pub fn is_alone<E: Platform>(strings: &[OsStr<'_, E>], string: OsStr<'_, E>) -> bool
    ensures { IsTrue result → map bytes strings.now ≡ bytes string.entry ∷ [] }
{
    let Some(first) = string_at(strings, 0) else {
        return false;
    };
    match string_at(strings, 1) {
        Some(_) => false,
        None => first == string,
    }
}
