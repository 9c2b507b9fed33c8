//! Views of borrowed bytes: a string's are taken again, others are rejected with their fault.
ghost use Rattle.std.specs.Prelude.{◌≡◌, Err, IsOk, IfOk};
ghost use Rattle.platform_str.specs.Strings.{bytes};
ghost use Rattle.os_str_bytes.specs.Raw.{raw_bytes};

use os_str_bytes::{EncodingError, OsStr, Platform, RawOsStr, laws};

/// The bytes of a string, viewed again.
pub fn viewed_again<'a, E: Platform + 'a>(
    string: OsStr<'a, E>,
) -> Result<OsStr<'a, E>, EncodingError>
    ensures accepted { IsOk result }
    ensures same { IfOk result (λ again. bytes again ≡ bytes string.entry) }
{
    laws::faults::<E>();
    OsStr::checked(string.as_encoded_bytes())
}

/// The bytes of a raw string, viewed again.
pub fn raw_viewed_again<'a, E: Platform + 'a>(
    string: RawOsStr<'a, E>,
) -> Result<RawOsStr<'a, E>, EncodingError>
    ensures accepted { IsOk result }
    ensures same { IfOk result (λ again. raw_bytes again ≡ raw_bytes string.entry) }
{
    laws::faults::<E>();
    RawOsStr::checked(string.as_encoded_bytes())
}

/// Views bytes with a known fault. The error is that fault.
pub fn view_refused<'a, E: Platform + 'a>(
    raw: &'a [u8],
    known: EncodingError,
) -> Result<OsStr<'a, E>, EncodingError>
    requires { E.first_fault raw.now known }
    ensures { result ≡ Err known }
{
    laws::faults::<E>();
    OsStr::checked(raw)
}

/// Views bytes with a known fault as a raw string. The error is that fault.
pub fn raw_view_refused<'a, E: Platform + 'a>(
    raw: &'a [u8],
    known: EncodingError,
) -> Result<RawOsStr<'a, E>, EncodingError>
    requires { E.first_fault raw.now known }
    ensures { result ≡ Err known }
{
    laws::faults::<E>();
    RawOsStr::checked(raw)
}
