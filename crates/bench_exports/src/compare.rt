//! The order of strings on Unix.
ghost use Rattle.std.specs.Prelude.{◌≡◌, ◌↔◌, IsTrue};
ghost use Rattle.std.specs.Ordering.{nat_cmp};
ghost use Rattle.std.specs.declared.cmp.Ordering.TheVariants.{Less};
ghost use Rattle.std.specs.Cmp.Lexicographic.{slice_cmp};

use crate::strings::unix;
use platform_str::laws;
use std::cmp::Ordering;

/// Whether the first string comes before the second.
#[unsafe(no_mangle)]
pub extern "C" fn port_is_less(a: &[u8], b: &[u8]) -> bool
    ensures { IsTrue result ↔ (slice_cmp nat_cmp a.now b.now ≡ Less) }
{
    let a = unix(a);
    let b = unix(b);
    laws::comparisons(&a, &b);
    match a.cmp(&b) {
        Ordering::Less => true,
        Ordering::Equal => false,
        Ordering::Greater => false,
    }
}
