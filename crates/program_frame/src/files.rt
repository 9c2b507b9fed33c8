//! Files by their names, read whole.
ghost use Rattle.std.specs.Prelude.{◌≡◌, Err, IfOk};
ghost use Rattle.program_frame.specs.Files.{KnownFiles};

use crate::fault::Failure;
use crate::input::read_all;
use crate::marked::Marked;
use std::alloc::Allocator;
use std::fs::File;
use std::io::ErrorKind;
use std::rt;

/// Why a file can't be read.
#[derive(Clone, Copy, PartialEq, Eq)]
pub enum FileFault {
    /// No file has the name.
    NoFile,
    /// It couldn't be opened for another reason, or a read failed, as that of a directory does.
    Read,
    /// An allocation failed.
    Memory,
}

/// What has files by their names.
pub trait Files {
    // which files there are
    ghost known: { Self → KnownFiles };

    /// The bytes of the file of this name.
    ///
    /// # Errors
    ///
    /// Why it can't be read.
    ///
    /// ```
    /// use program_frame::files::{Disk, FileFault, Files};
    ///
    /// let disk = Disk::new(&rt);
    /// assert!(rt; disk.read(alloc, "no/such/file").err() == Some(FileFault::NoFile));
    /// ```
    fn read<A: Allocator>(&self, alloc: A, name: &str) -> Result<Vec<u8, A>, FileFault>
        ensures bytes { IfOk result (λ bytes. (known self.now).has name.now bytes.items) }
        ensures no_file { result ≡ Err FileFault.NoFile → (known self.now).lacks name.now }
        ensures failed { result ≡ Err FileFault.Read → (known self.now).fails name.now };
}

/// The files of the runtime. No proof knows anything about them: a name may have a file at one time
/// and none at another, and the file may have any bytes. So no contract states what a read returns,
/// as with the rest of the outside world.
#[derive(Clone, Copy)]
pub struct Disk<'r, R> {
    rt: &'r R,
}

impl<'r, R: rt::Files> Disk<'r, R> {
    /// The files of this runtime.
    ///
    /// ```
    /// use program_frame::files::{Disk, Files};
    ///
    /// assert!(rt; Disk::new(&rt).read(alloc, "/dev/null").is_ok_and(|bytes| bytes.is_empty()));
    /// ```
    pub fn new(rt: &'r R) -> Disk<'r, R> {
        Disk { rt }
    }
}

impl<'r, R: rt::Files> Files for Disk<'r, R> {
    ghost use Rattle.program_frame.specs.Files.{any_files};

    ghost known = { λ _. any_files };

    fn read<A: Allocator>(&self, alloc: A, name: &str) -> Result<Vec<u8, A>, FileFault> {
        let file = match File::open(self.rt, name) {
            Ok(file) => file,
            Err(error) => return Err(fault_of(error.kind())),
        };
        match read_all(alloc, &mut Marked::new(file)) {
            Ok(bytes) => Ok(bytes),
            Err(Failure::Memory) => Err(FileFault::Memory),
            Err(Failure::Read | Failure::Write) => Err(FileFault::Read),
        }
    }
}

/// The fault for an error of this kind in opening a file.
fn fault_of(kind: ErrorKind) -> FileFault {
    match kind {
        ErrorKind::NotFound => FileFault::NoFile,
        ErrorKind::OutOfMemory => FileFault::Memory,
        _ => FileFault::Read,
    }
}
