//! Raw bytes: those of a string are accepted, and give the string back.
ghost use Rattle.std.specs.Prelude.{◌≡◌, IsOk, IfOk};
ghost use Rattle.platform_str.specs.Strings.{bytes};
ghost use Rattle.platform_str.specs.Cows.{cow_bytes};

use platform_str::{
    ByteCow, EncodingError, OsStr, OsStrBytes, OsStrCow, OsStringBytes, Platform, laws,
};

/// The raw bytes of a string, read again.
pub fn taken_back<'a, E: Platform + 'a>(
    string: OsStr<'a, E>,
) -> Result<OsStrCow<'a, E>, EncodingError>
    ensures accepted { IsOk result }
    ensures same { IfOk result (λ again. cow_bytes again ≡ bytes string.entry) }
{
    taken_back_by_any(string)
}

/// The raw bytes of a borrowed string of any type, read again.
pub fn taken_back_by_any<'a, S: OsStrBytes<'a>>(string: S) -> Result<S::Cow, EncodingError>
    ensures accepted { IsOk result }
    ensures same { IfOk result (λ again. S.Cow.bytes_of again ≡ S.bytes_of string) }
{
    laws::faults::<S::Platform>();
    match string.to_raw_bytes() {
        ByteCow::Borrowed(raw) => S::from_raw_bytes(raw),
        ByteCow::Owned(raw) => S::from_raw_bytes_owned(raw),
    }
}

/// The vector of an owned string of any type, read again.
pub fn moved_back<S: OsStringBytes>(string: S) -> Result<S, EncodingError>
    ensures accepted { IsOk result }
    ensures same { IfOk result (λ again. S.vec_of again ≡ S.vec_of string) }
{
    laws::faults::<S::Platform>();
    S::from_raw_vec(string.into_raw_vec())
}

/// Checks any bytes a second time. The result is that of the first check.
pub fn check_again<E: Platform>(
    raw: &[u8],
) -> (Result<(), EncodingError>, Result<(), EncodingError>)
    ensures { result.0 ≡ result.1 }
{
    laws::faults::<E>();
    let first = E::check(raw);
    let second = E::check(raw);
    match (first, second) {
        (Ok(()), Ok(())) => (Ok(()), Ok(())),
        (first, second) => (first, second),
    }
}
