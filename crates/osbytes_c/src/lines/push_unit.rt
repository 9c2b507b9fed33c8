//! Units in a buffer that may be too short for them.
ghost use Rattle.std.specs.Prelude.{◌+◌, ◌<◌, ◌^◌, ◌∷◌, []};
ghost use Rattle.platform_str.specs.BufferSink.{Pushes};

/// Appends a unit to a buffer that has `count` units, as far as there is room.
#[inline(always)]
pub(crate) fn push_unit(out: &mut [u16], count: usize, unit: u16) -> usize
    requires { count + 1 < 2 ^ 64 }
    ensures { Pushes (unit ∷ []) out.old count out.new result }
{
    if count < out.len() {
        out[count] = unit;
    }
    count + 1
}
