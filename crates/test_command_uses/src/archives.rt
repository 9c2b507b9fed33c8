//! The names in archives that have a fault at their first header.
ghost use Rattle.std.specs.Prelude.{◌≡◌, false};
ghost use Rattle.program_frame.specs.Marked.{marked_inner, has_failed};
ghost use Rattle.tar_names.specs.declared.fault.TarFault.TheVariants.{Kind, Size};
ghost use Rattle.test_command_uses.specs.Archives.{BeginsSparse, LacksSize, RejectsFirst};

use list_programs::options::ListOptions;
use names_commands::fault::Fault;
use names_commands::tar::run_tar;
use os_str_bytes::Platform;
use program_frame::marked::Marked;
use std::alloc::Allocator;
use std::io::Write;
use tar_names::laws::sizes;

/// The names in an archive whose first file is sparse: nothing is written, and the first entry is
/// rejected.
pub fn sparse_first<E: Platform, A: Allocator + Copy, W: Write>(
    alloc: A,
    list: ListOptions,
    archive: &[u8],
    writer: &mut Marked<W>,
) -> Result<(), Fault>
    requires sparse { BeginsSparse archive.now }
    requires unmarked { has_failed writer.old ≡ false }
    ensures { RejectsFirst Kind (W.contents (marked_inner writer.old))
        (W.contents (marked_inner writer.new)) result }
{
    run_tar::<E, A, &[u8], W>(alloc, list, &mut Marked::new(archive), writer)
}

/// The names in an archive whose first header has no digit in its size: nothing is written, and the
/// first entry is rejected.
pub fn sizeless_first<E: Platform, A: Allocator + Copy, W: Write>(
    alloc: A,
    list: ListOptions,
    archive: &[u8],
    writer: &mut Marked<W>,
) -> Result<(), Fault>
    requires sizeless { LacksSize archive.now }
    requires unmarked { has_failed writer.old ≡ false }
    ensures { RejectsFirst Size (W.contents (marked_inner writer.old))
        (W.contents (marked_inner writer.new)) result }
{
    sizes();
    run_tar::<E, A, &[u8], W>(alloc, list, &mut Marked::new(archive), writer)
}
