//! Where a string may be cut.
ghost use Rattle.std.specs.Prelude.{◌≡◌, ◌∷◌, []};
ghost use Rattle.wtf8_core.specs.Boundary.{IsBoundary};
ghost use Rattle.osbytes_c.specs.Answers.{IsOneOf};
ghost use Rattle.osbytes_c.specs.Statuses.{done, none};

use crate::status::reported;
use crate::strings::unix;
use os_str_ext::OsStrBytesExt;

/// Whether a string of any platform may be cut at the index.
#[unsafe(no_mangle)]
pub extern "C" fn osb_core_is_boundary(bytes: &[u8], index: usize) -> u32
    ensures is { result ≡ done → IsBoundary bytes.now index }
    ensures none { result ≡ none → ¬ (IsBoundary bytes.now index) }
    ensures answers { IsOneOf (done ∷ none ∷ []) result }
{
    reported(unix(bytes).is_boundary(index))
}
