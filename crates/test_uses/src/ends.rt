//! Ended iterators stay ended: after `None` comes `None`.
ghost use Rattle.std.specs.Prelude.{IsTrue};

use os_str_bytes::{
    CodePoints, DecodeWide, EncodeWide, OsUnits, Pattern, Platform, RSplit, RawRSplit, RawSplit,
    Split, Utf8Chunks, WideUnits,
};

/// Whether the pieces of a string stay ended, which they always do.
pub fn split_stays_ended<'a, E: Platform + 'a, P: Pattern>(pieces: &mut Split<'a, E, P>) -> bool
    ensures { IsTrue result }
{
    pieces.next().is_some() || pieces.next().is_none()
}

/// Whether the pieces of a string from the end stay ended, which they always do.
pub fn rsplit_stays_ended<'a, E: Platform + 'a, P: Pattern>(pieces: &mut RSplit<'a, E, P>) -> bool
    ensures { IsTrue result }
{
    pieces.next().is_some() || pieces.next().is_none()
}

/// Whether the pieces of a raw string stay ended, which they always do.
pub fn raw_split_stays_ended<'a, E: Platform + 'a, P: Pattern>(
    pieces: &mut RawSplit<'a, E, P>,
) -> bool
    ensures { IsTrue result }
{
    pieces.next().is_some() || pieces.next().is_none()
}

/// Whether the pieces of a raw string from the end stay ended, which they always do.
pub fn raw_rsplit_stays_ended<'a, E: Platform + 'a, P: Pattern>(
    pieces: &mut RawRSplit<'a, E, P>,
) -> bool
    ensures { IsTrue result }
{
    pieces.next().is_some() || pieces.next().is_none()
}

/// Whether the chunks of a string stay ended, which they always do.
pub fn chunks_stay_ended<'a, E: Platform + 'a>(chunks: &mut Utf8Chunks<'a, E>) -> bool
    ensures { IsTrue result }
{
    chunks.next().is_some() || chunks.next().is_none()
}

/// Whether the units of a part stay ended, which they always do.
pub fn units_stay_ended<'a, E: Platform + 'a>(units: &mut OsUnits<'a, E>) -> bool
    ensures { IsTrue result }
{
    units.next().is_some() || units.next().is_none()
}

/// Whether the units of a Windows string stay ended, which they always do.
pub fn wide_units_stay_ended<'a>(units: &mut WideUnits<'a>) -> bool
    ensures { IsTrue result }
{
    units.next().is_some() || units.next().is_none()
}

/// Whether code points stay ended, which they always do.
pub fn code_points_stay_ended<'a>(items: &mut CodePoints<'a>) -> bool
    ensures { IsTrue result }
{
    items.next().is_some() || items.next().is_none()
}

/// Whether the units of bytes stay ended, which they always do.
pub fn encoder_stays_ended<'a>(items: &mut EncodeWide<'a>) -> bool
    ensures { IsTrue result }
{
    items.next().is_some() || items.next().is_none()
}

/// Whether the bytes of units stay ended, which they always do.
pub fn decoder_stays_ended<'a>(bytes: &mut DecodeWide<'a>) -> bool
    ensures { IsTrue result }
{
    bytes.next().is_some() || bytes.next().is_none()
}
