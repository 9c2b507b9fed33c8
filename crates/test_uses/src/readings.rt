//! Lossy readings of any bytes.
ghost use Rattle.std.specs.Prelude.{◌≡◌, ℕ, List, IsOk, IfOk, IsTrue};
ghost use Rattle.wtf8_core.specs.LossyReading.{IsLossyReading, lossy_forms};
ghost use Rattle.wtf8_core.specs.Wtf8.{IsWtf8};
ghost use Rattle.platform_str.specs.Strings.{bytes};
ghost use Rattle.platform_str.specs.Cows.{cow_bytes};

use platform_str::{OsStr, OsStrCow, Platform, Windows, laws};
use std::alloc::{AllocError, Global};
use wtf8_core::CodePoints;

/// Whether the lossy reading of any bytes is accepted: it always is.
pub fn reading_is_accepted<E: Platform>(alloc: Global, raw: &[u8]) -> Result<bool, AllocError>
    ensures { IfOk result (λ accepted. IsTrue accepted) }
{
    laws::faults::<E>();
    let reading = E::read_lossy(alloc, raw)?;
    Ok(E::check(reading.as_slice()).is_ok())
}

/// The lossy reading of a string's bytes: the string, without memory.
pub fn read_from_string<'a, E: Platform + 'a>(
    alloc: Global,
    string: OsStr<'a, E>,
) -> Result<OsStrCow<'a, E>, AllocError>
    ensures without_memory { IsOk result }
    ensures same { IfOk result (λ read. cow_bytes read ≡ bytes string.entry) }
{
    OsStr::from_raw_bytes_lossy(alloc, string.as_encoded_bytes())
}

/// Two readings of any bytes, which are alike.
pub fn read_alike<'a, E: Platform + 'a>(
    alloc: Global,
    raw: &'a [u8],
) -> Result<(OsStrCow<'a, E>, OsStrCow<'a, E>), AllocError>
    ensures { IfOk result (λ both. cow_bytes both.0 ≡ cow_bytes both.1) }
{
    laws::readings::<E>();
    let first = OsStr::from_raw_bytes_lossy(alloc, raw)?;
    let second = OsStr::from_raw_bytes_lossy(alloc, raw)?;
    Ok((first, second))
}

/// The items of any bytes, and their reading on Windows: the forms of the items, with U+FFFD for
/// each fault.
pub fn read_by_items<'a>(
    alloc: Global,
    raw: &'a [u8],
) -> Result<(CodePoints<'a>, Vec<u8>), AllocError>
    ensures { IfOk result (λ read. read.1.items ≡ lossy_forms read.0) }
{
    wtf8_core::laws::lossy_reading();
    let reading = Windows::read_lossy(alloc, raw)?;
    Ok((CodePoints::new(raw), reading))
}

/// Any bytes and their lossy reading, which is a string.
pub fn reading_is_string<'a, E: Platform + 'a>(raw: &[u8], reading: &'a [u8]) -> OsStr<'a, E>
    requires { E.reads_as raw.now reading.now }
    ensures { bytes result ≡ reading.now }
{
    laws::readings::<E>();
    OsStr::from_encoded_bytes_unchecked(reading)
}

/// A string, which is its own lossy reading.
pub fn reads_as_itself<'a, E: Platform + 'a>(string: OsStr<'a, E>) -> OsStr<'a, E>
    ensures { E.reads_as (bytes result) (bytes result) }
{
    laws::readings::<E>();
    string
}

/// Any bytes have a lossy reading on the platform.
pub fn some_reading<E: Platform>(raw: &[u8])
    ensures { (reading : List ℕ) × E.reads_as raw.now reading }
{
    laws::readings::<E>();
}

/// Any bytes have a lossy reading as WTF-8.
pub fn has_reading(raw: &[u8])
    ensures { (reading : List ℕ) × (IsLossyReading raw.now reading × IsWtf8 reading) }
{
    wtf8_core::laws::lossy_reading();
}

/// WTF-8 bytes and their lossy reading, which is those bytes.
pub fn wtf8_reads_as_itself(raw: &[u8], reading: &[u8])
    requires wtf8 { IsWtf8 raw.now }
    requires reading { IsLossyReading raw.now reading.now }
    ensures { reading.now ≡ raw.now }
{
    wtf8_core::laws::lossy_reading();
}
