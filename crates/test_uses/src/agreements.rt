//! Searches whose results agree, and cuts at what they find.
ghost use Rattle.std.specs.Prelude.{◌≡◌, ◌<◌, IfOk, IsTrue, length};
ghost use Rattle.std.specs.List.{repeat};
ghost use Rattle.platform_str.specs.Strings.{bytes, string_vec_of};

use os_str_ext::OsStrBytesExt;
use platform_str::{OsStr, OsString, Platform, laws};
use std::alloc::{AllocError, Global};

/// Whether a string starts with a pattern exactly where it can be stripped off its start: it is
/// always so.
pub fn starts_alike<'a, S: OsStrBytesExt<'a> + Copy>(string: S, pattern: &str) -> bool
    ensures { IsTrue result }
{
    string.starts_with(pattern) == string.strip_prefix(pattern).is_some()
}

/// Whether a string ends with a pattern exactly where it can be stripped off its end: it is always
/// so.
pub fn ends_alike<'a, S: OsStrBytesExt<'a> + Copy>(string: S, pattern: &str) -> bool
    ensures { IsTrue result }
{
    string.ends_with(pattern) == string.strip_suffix(pattern).is_some()
}

/// Whether what is left of a string without each pattern at its start doesn't start with the pattern:
/// it never does.
pub fn trimmed_at_the_start<'a, S: OsStrBytesExt<'a> + Copy>(string: S, pattern: &str) -> bool
    requires { 0 < length pattern.now }
    ensures { IsTrue result }
{
    !string.trim_start_matches(pattern).starts_with(pattern)
}

/// Whether what is left of a string without each pattern at its end doesn't end with the pattern: it
/// never does.
pub fn trimmed_at_the_end<'a, S: OsStrBytesExt<'a> + Copy>(string: S, pattern: &str) -> bool
    requires { 0 < length pattern.now }
    ensures { IsTrue result }
{
    !string.trim_end_matches(pattern).ends_with(pattern)
}

/// Trims each pattern from a string's start once, and then once more. Both results are equal.
pub fn trimmed_twice_at_the_start<'a, S: OsStrBytesExt<'a> + Copy>(
    string: S,
    pattern: &str,
) -> (S, S)
    requires { 0 < length pattern.now }
    ensures { S.bytes_of result.1 ≡ S.bytes_of result.0 }
{
    let once = string.trim_start_matches(pattern);
    let again = once.trim_start_matches(pattern);
    (once, again)
}

/// Trims each pattern from a string's end once, and then once more. Both results are equal.
pub fn trimmed_twice_at_the_end<'a, S: OsStrBytesExt<'a> + Copy>(string: S, pattern: &str) -> (S, S)
    requires { 0 < length pattern.now }
    ensures { S.bytes_of result.1 ≡ S.bytes_of result.0 }
{
    let once = string.trim_end_matches(pattern);
    let again = once.trim_end_matches(pattern);
    (once, again)
}

/// Trims each pattern from a string's start and end once, and then once more. Both results are
/// equal.
pub fn trimmed_twice<'a, S: OsStrBytesExt<'a> + Copy>(string: S, pattern: &str) -> (S, S)
    requires { 0 < length pattern.now }
    ensures { S.bytes_of result.1 ≡ S.bytes_of result.0 }
{
    let once = string.trim_matches(pattern);
    let again = once.trim_matches(pattern);
    (once, again)
}

/// Whether a string starts with a pattern, and the pattern with what follows it pushed: the string
/// again.
pub fn put_back<'a, E: Platform + 'a>(
    string: OsStr<'a, E>,
    text: &str,
    prefix: &mut OsString<E>,
) -> Result<bool, AllocError>
    requires { (string_vec_of prefix.old).items ≡ text.now }
    ensures { IfOk result (λ starts. IsTrue starts
        → (string_vec_of prefix.new).items ≡ bytes string.entry) }
{
    laws::encoding::<E>();
    let Some(rest) = string.strip_prefix(text) else {
        return Ok(false);
    };
    prefix.push(rest)?;
    Ok(true)
}

/// The string once more than `count` times, and one with the units of `count` times to which the string
/// is pushed: the same.
#[tactic(auto, using(crate::proofs::Repeats::once_more))]
pub fn once_more<'a, E: Platform + 'a>(
    alloc: Global,
    string: OsStr<'a, E>,
    count: usize,
    pushed: &mut OsString<E>,
) -> Result<OsString<E>, AllocError>
    requires more { count < usize.MAX }
    requires units { E.units (string_vec_of pushed.old).items
        ≡ repeat count (E.units (bytes string)) }
    ensures { IfOk result (λ repeated. (string_vec_of repeated).items
        ≡ (string_vec_of pushed.new).items) }
{
    laws::encoding::<E>();
    pushed.push(string)?;
    string.repeat(alloc, count + 1)
}

/// The string once, which is the string.
pub fn once<'a, E: Platform + 'a>(
    alloc: Global,
    string: OsStr<'a, E>,
) -> Result<OsString<E>, AllocError>
    ensures { IfOk result (λ same. (string_vec_of same).items ≡ bytes string.entry) }
{
    laws::encoding::<E>();
    string.repeat(alloc, 1)
}
