//! Ignore files.
ghost use Rattle.std.specs.Prelude.{◌<◌, IfOk, length};
ghost use Rattle.os_ignore.specs.Ignores.{IsOnly, files_of};
ghost use Rattle.os_ignore.specs.Verdicts.{IsVerdict};

use os_ignore::{Ignore, Verdict};
use std::alloc::{AllocError, Allocator};

/// The one file of a tree.
pub fn read_ignore<A: Allocator + Copy>(alloc: A, file: &[u8]) -> Result<Ignore<A>, AllocError>
    ensures { IfOk result (λ ignore. IsOnly file.now (files_of ignore)) }
{
    Ignore::new(alloc, file)
}

/// The verdict of files on a path, which has this index.
pub fn matched<A: Allocator + Copy>(
    ignore: &Ignore<A>,
    path: &[u8],
    slash: usize,
    is_dir: bool,
) -> Verdict
    requires { slash < length path.now }
    ensures { IsVerdict (files_of ignore.now) path.now is_dir result }
{
    ignore.matched(path, is_dir)
}
