//! Raw strings that are borrowed or owned.
ghost use Rattle.std.specs.Prelude.{◌≡◌, ℕ, List};
ghost use Rattle.platform_str.specs.Cows.{cow_bytes};

use crate::raw_str::RawOsStr;
use crate::raw_string::RawOsString;
use os_str_ext::{OsStrCow, Platform};
use std::alloc::{Allocator, Global};

/// A raw string that is borrowed or owned: the Rust crate's `Cow<RawOsStr>`.
#[derive(Drop)]
pub enum CowRawOsStr<'a, E: Platform + 'a, A: Allocator = Global> {
    Borrowed(RawOsStr<'a, E>),
    Owned(RawOsString<E, A>),
}

/// Conversions of [`CowRawOsStr`] from the platform's own type and back.
pub trait RawOsStrCow<'a, E: Platform + 'a>: Sized {
    type OsStrCow;

    ghost bytes_of: { Self → List ℕ };

    ghost os_bytes_of: { Self.OsStrCow → List ℕ };

    // both values are borrowed, or both are owned and have the same vector
    ghost is_kept: { Self.OsStrCow → Self → Type 0 };

    /// Converts the platform's own type to a raw string, borrowed or moved in its own vector.
    ///
    /// ```
    /// use os_str_bytes::{CowRawOsStr, OsStr, OsStrCow, RawOsStrCow, Unix};
    ///
    /// let string: OsStrCow<'_, Unix> = OsStrCow::Borrowed(OsStr::new("foo"));
    /// assert!(rt; CowRawOsStr::from_os_str(string).as_raw().eq_str("foo"));
    /// ```
    fn from_os_str(string: Self::OsStrCow) -> Self
        ensures bytes { bytes_of result ≡ os_bytes_of string }
        ensures kept { is_kept string result };

    /// Converts the raw string to the platform's own type, borrowed or moved in its own vector.
    ///
    /// ```
    /// use os_str_bytes::{OsStr, RawOsStr, RawOsStrCow, Unix};
    ///
    /// let string = RawOsStr::<Unix>::cow_from_raw_bytes(b"foo")?.into_os_str();
    /// assert!(rt; string.as_os_str() == OsStr::new("foo"));
    /// ```
    fn into_os_str(self) -> Self::OsStrCow
        ensures bytes { os_bytes_of result ≡ bytes_of self }
        ensures kept { is_kept result self };
}

impl<'a, E: Platform + 'a, A: Allocator> RawOsStrCow<'a, E> for CowRawOsStr<'a, E, A> {
    ghost use Rattle.platform_str.specs.Cows.{cow_bytes};
    ghost use Rattle.os_str_bytes.specs.RawCow.{raw_cow_bytes, IsKept};

    type OsStrCow = OsStrCow<'a, E, A>;

    ghost bytes_of = { raw_cow_bytes };

    ghost os_bytes_of = { cow_bytes };

    ghost is_kept = { IsKept };

    fn from_os_str(string: OsStrCow<'a, E, A>) -> Self {
        match string {
            OsStrCow::Borrowed(string) => CowRawOsStr::Borrowed(RawOsStr::new(string)),
            OsStrCow::Owned(string) => CowRawOsStr::Owned(RawOsString::new(string)),
        }
    }

    fn into_os_str(self) -> OsStrCow<'a, E, A> {
        match self {
            CowRawOsStr::Borrowed(raw) => OsStrCow::Borrowed(raw.as_os_str()),
            CowRawOsStr::Owned(raw) => OsStrCow::Owned(raw.into_os_string()),
        }
    }
}

impl<'a, E: Platform, A: Allocator> CowRawOsStr<'a, E, A> {
    ghost use Rattle.os_str_bytes.specs.{Raw.raw_bytes, RawCow.raw_cow_bytes};

    /// A view of the string (own call, instead of `Deref`).
    ///
    /// ```
    /// use os_str_bytes::{RawOsStr, Unix};
    ///
    /// let string = RawOsStr::<Unix>::cow_from_raw_bytes(b"foo")?;
    /// assert!(rt; string.as_raw().eq_str("foo"));
    /// ```
    pub fn as_raw(&self) -> RawOsStr<'_, E>
        ensures { raw_bytes result ≡ raw_cow_bytes self.now }
    {
        match self {
            CowRawOsStr::Borrowed(raw) => *raw,
            CowRawOsStr::Owned(raw) => raw.as_raw(),
        }
    }
}

impl<'a, E: Platform + 'a, A: Allocator> From<RawOsStr<'a, E>> for CowRawOsStr<'a, E, A> {
    ghost use Rattle.std.specs.Prelude.{◌≡◌};
    ghost use Rattle.os_str_bytes.specs.declared.raw_cow.CowRawOsStr.TheVariants.{Borrowed};

    ghost from_gives = { λ raw cow. cow ≡ Borrowed raw };

    fn from(raw: RawOsStr<'a, E>) -> Self {
        CowRawOsStr::Borrowed(raw)
    }
}

impl<'a, E: Platform + 'a, A: Allocator> From<RawOsString<E, A>> for CowRawOsStr<'a, E, A> {
    ghost use Rattle.std.specs.Prelude.{◌≡◌};
    ghost use Rattle.os_str_bytes.specs.declared.raw_cow.CowRawOsStr.TheVariants.{Owned};

    ghost from_gives = { λ raw cow. cow ≡ Owned raw };

    fn from(raw: RawOsString<E, A>) -> Self {
        CowRawOsStr::Owned(raw)
    }
}
