//! Clones of iterators: they have the same left, and take no memory.
ghost use Rattle.std.specs.Prelude.{◌≡◌, IsOk, IfOk};

use os_str_bytes::{OsUnits, Pattern, Platform, RSplit, RawRSplit, RawSplit, Split, Utf8Chunks};
use std::alloc::AllocError;

/// The pieces that are left of a string, again.
pub fn split_again<'a, E: Platform + 'a, P: Pattern>(
    pieces: &Split<'a, E, P>,
) -> Result<Split<'a, E, P>, AllocError>
    ensures without_memory { IsOk result }
    ensures same { IfOk result (λ again. again ≡ pieces.now) }
{
    pieces.clone()
}

/// Those from the end.
pub fn rsplit_again<'a, E: Platform + 'a, P: Pattern>(
    pieces: &RSplit<'a, E, P>,
) -> Result<RSplit<'a, E, P>, AllocError>
    ensures without_memory { IsOk result }
    ensures same { IfOk result (λ again. again ≡ pieces.now) }
{
    pieces.clone()
}

/// Those of a raw string.
pub fn raw_split_again<'a, E: Platform + 'a, P: Pattern>(
    pieces: &RawSplit<'a, E, P>,
) -> Result<RawSplit<'a, E, P>, AllocError>
    ensures without_memory { IsOk result }
    ensures same { IfOk result (λ again. again ≡ pieces.now) }
{
    pieces.clone()
}

/// Those of a raw string from the end.
pub fn raw_rsplit_again<'a, E: Platform + 'a, P: Pattern>(
    pieces: &RawRSplit<'a, E, P>,
) -> Result<RawRSplit<'a, E, P>, AllocError>
    ensures without_memory { IsOk result }
    ensures same { IfOk result (λ again. again ≡ pieces.now) }
{
    pieces.clone()
}

/// The chunks that are left, again.
pub fn chunks_again<'a, E: Platform + 'a>(
    chunks: &Utf8Chunks<'a, E>,
) -> Result<Utf8Chunks<'a, E>, AllocError>
    ensures without_memory { IsOk result }
    ensures same { IfOk result (λ again. again ≡ chunks.now) }
{
    chunks.clone()
}

/// The units that are left of a part, again.
pub fn units_again<'a, E: Platform + 'a>(
    units: &OsUnits<'a, E>,
) -> Result<OsUnits<'a, E>, AllocError>
    ensures without_memory { IsOk result }
    ensures same { IfOk result (λ again. again ≡ units.now) }
{
    units.clone()
}
