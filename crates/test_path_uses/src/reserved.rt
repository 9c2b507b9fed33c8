//! Names that Windows keeps for itself.
ghost use Rattle.std.specs.Prelude.{◌≡◌, ◌++◌, ◌∷◌, [], ℕ, List, false, IsTrue};
ghost use Rattle.std.specs.List.{list_any};
ghost use Rattle.path_rules.specs.Reserved.{EndsReserved, HasDeviceBase, is_reserved_byte};

use path_rules::is_reserved;

/// Whether a name is reserved: if it ends in a space or has a colon; and else if it isn't reserved by
/// its bytes, only as a device.
pub fn reserved(name: &[u8]) -> bool
    ensures space { (before : List ℕ) → name.now ≡ before ++ 0x20 ∷ [] → IsTrue result }
    ensures colon { (before : List ℕ) → (after : List ℕ) → name.now ≡ before ++ 0x3A ∷ after
        → IsTrue result }
    ensures device { IsTrue result → ¬ (EndsReserved name.now)
        → list_any is_reserved_byte name.now ≡ false → HasDeviceBase name.now }
{
    is_reserved(name)
}
