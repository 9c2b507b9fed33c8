//! Joining Windows strings.
ghost use Rattle.std.specs.Prelude.{◌≡◌, ◌++◌, ◌+◌, ◌<◌, length, OnOk, OnErr, vec_capacity, vec_len};
ghost use Rattle.wtf8_core.specs.{Wtf8.IsWtf8, UnitsOf.units_of};

use crate::memory::Pushed;
use std::alloc::Allocator;
use wtf8_core::{pair_between, write_form};

/// Appends a Windows string to another (WTF-8: concatenation). If the first ends with a high
/// surrogate and the second starts with a low one, the form of the pair's code point replaces both.
/// Nothing changes if the allocation fails: memory is requested first, and then the form is written
/// in place.
pub(crate) fn push_wtf8<A: Allocator>(string: &mut Vec<u8, A>, more: &[u8]) -> Pushed
    requires string { IsWtf8 string.old.items }
    requires more { IsWtf8 more.now }
    ensures formed { IsWtf8 string.new.items }
    ensures ok { OnOk result (units_of string.new.items
        ≡ units_of string.old.items ++ units_of more.now) }
    ensures err { OnErr result (string.new.items ≡ string.old.items) }
    ensures full { OnErr result (vec_capacity string.old < vec_len string.old + length more.now) }
{
    let bytes = string.as_slice();
    let Some(pair) = pair_between(bytes, more) else {
        return string.extend_from_slice(more);
    };
    let at = bytes.len() - 3;
    let (_, after) = more.split_at(2);
    string.extend_from_slice(after)?;
    write_form(string.as_mut_slice(), at, pair);
    Ok(())
}
