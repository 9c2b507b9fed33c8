//! The order of strings.
ghost use Rattle.std.specs.Prelude.{◌≡◌};
ghost use Rattle.std.specs.Ordering.{nat_cmp};
ghost use Rattle.std.specs.Cmp.Lexicographic.{slice_cmp};
ghost use Rattle.osbytes_c.specs.Answers.{order_number};

use crate::strings::unix;
use platform_str::laws;
use std::cmp::Ordering;

/// How two strings of a platform are ordered, as their bytes are: 0 they are equal, 1 the first is
/// less, 2 it is greater.
#[unsafe(no_mangle)]
pub extern "C" fn osb_core_compare(a: &[u8], b: &[u8]) -> u32
    ensures { result ≡ order_number (slice_cmp nat_cmp a.now b.now) }
{
    let a = unix(a);
    let b = unix(b);
    laws::comparisons(&a, &b);
    match a.cmp(&b) {
        Ordering::Less => 1,
        Ordering::Equal => 0,
        Ordering::Greater => 2,
    }
}
