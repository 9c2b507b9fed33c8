//! A place of C's for the ignore files of a tree, compiled.
ghost use Rattle.std.specs.Prelude.{◌≡◌, Option, Some, None, true, false, is_some};
ghost use Rattle.osbytes_c.specs.declared.ignores.sets.Ignores.{Ignores};

use crate::ignores::sets::Ignores;
use std::marker::{Model, Send};

/// A place of C's for files: whether there are any, and where they lie.
#[repr(C)]
pub struct HeldIgnores {
    full: bool,
    at: *mut u8,
    pub ghost ignores: { Option Ignores },
}

impl Model for HeldIgnores {
    ghost use Rattle.osbytes_c.specs.Places.{kept};
    ghost use Rattle.osbytes_c.specs.contracts.ignores.sets.Ignores.{the_row as the_ignores};

    ghost also_owns = { λ h. kept the_ignores h.full h.at h.ignores };
}

// SAFETY: proved in `proofs/ignores/places/HeldIgnores/TheSendSync`.
unsafe impl Send for HeldIgnores {}

/// Whether there are files.
pub(crate) fn is_full(held: &mut HeldIgnores) -> bool
    ensures full { (result ≡ held.old.full) × (result ≡ is_some held.old.ignores) }
    ensures left { held.new ≡ held.old }
{
    held.full
}

/// Puts files into an empty place.
pub(crate) fn put(held: &mut HeldIgnores, ignores: Ignores)
    requires { held.old.full ≡ false }
    ensures { held.new ≡ record held.old { full = true; ignores = Some ignores } }
{
    let at = held.at as *mut Ignores;
    unsafe {
        at.write(ignores);
    }
    held.full = true;
}

/// Takes the files out of a full place.
pub(crate) fn take(held: &mut HeldIgnores) -> Ignores
    requires { held.old.full ≡ true }
    ensures ignores { held.old.ignores ≡ Some result }
    ensures left { held.new ≡ record held.old { full = false; ignores = None } }
{
    held.full = false;
    let at = held.at as *const Ignores;
    unsafe { at.read() }
}
