//! A place of C's for a compiled set of path patterns.
ghost use Rattle.std.specs.Prelude.{◌≡◌, Option, Some, None, true, false, is_some};
ghost use Rattle.osbytes_c.specs.declared.globs.sets.Globs.{Globs};

use crate::globs::sets::Globs;
use std::marker::{Model, Send};

/// A place of C's for a set: whether there is one, and where it lies.
#[repr(C)]
pub struct HeldGlobs {
    full: bool,
    at: *mut u8,
    pub ghost globs: { Option Globs },
}

impl Model for HeldGlobs {
    ghost use Rattle.osbytes_c.specs.Places.{kept};
    ghost use Rattle.osbytes_c.specs.contracts.globs.sets.Globs.{the_row as the_globs};

    ghost also_owns = { λ h. kept the_globs h.full h.at h.globs };
}

// SAFETY: proved in `proofs/globs/places/HeldGlobs/TheSendSync`.
unsafe impl Send for HeldGlobs {}

/// Whether there is a set.
pub(crate) fn is_full(held: &mut HeldGlobs) -> bool
    ensures full { (result ≡ held.old.full) × (result ≡ is_some held.old.globs) }
    ensures left { held.new ≡ held.old }
{
    held.full
}

/// Puts a set into an empty place.
pub(crate) fn put(held: &mut HeldGlobs, globs: Globs)
    requires { held.old.full ≡ false }
    ensures { held.new ≡ record held.old { full = true; globs = Some globs } }
{
    let at = held.at as *mut Globs;
    unsafe {
        at.write(globs);
    }
    held.full = true;
}

/// Takes the set out of a full place.
pub(crate) fn take(held: &mut HeldGlobs) -> Globs
    requires { held.old.full ≡ true }
    ensures globs { held.old.globs ≡ Some result }
    ensures left { held.new ≡ record held.old { full = false; globs = None } }
{
    held.full = false;
    let at = held.at as *const Globs;
    unsafe { at.read() }
}
