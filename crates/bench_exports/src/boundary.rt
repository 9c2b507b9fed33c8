//! Boundaries on Unix.
ghost use Rattle.std.specs.Prelude.{◌↔◌, IsTrue};
ghost use Rattle.wtf8_core.specs.Boundary.{IsBoundary};

use crate::strings::unix;
use os_str_ext::OsStrBytesExt;

/// Whether the string may be cut at index `at`.
#[unsafe(no_mangle)]
pub extern "C" fn port_is_boundary(raw: &[u8], at: usize) -> bool
    ensures { IsTrue result ↔ IsBoundary raw.now at }
{
    unix(raw).is_boundary(at)
}
