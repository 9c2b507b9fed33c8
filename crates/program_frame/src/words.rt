//! The arguments of a program.
ghost use Rattle.std.specs.Prelude.{◌≡◌, ◌≢◌, drop, map, string_bytes, IfOk, IfErr, OnOk, IsOk};
ghost use Rattle.std.specs.IoError.{error_kind};
ghost use Rattle.std.specs.Vec.Iter.{into_iter_items};
ghost use Rattle.program_frame.specs.Words.{words_after_name};

use std::alloc::{AllocError, Allocator};
use std::env::Args;
use std::io;
use std::io::ErrorKind;

/// Why a program's arguments aren't available.
#[derive(Clone, Copy, PartialEq, Eq)]
pub enum NoWords {
    /// An allocation failed.
    Memory,
    /// The arguments aren't available for another reason, such as invalid UTF-8 in one of them.
    Unreadable,
}

/// Returns the arguments after the program's name, which is the first argument.
///
/// # Errors
///
/// [`NoWords::Memory`] if an allocation failed, and [`NoWords::Unreadable`] if the arguments
/// aren't available for another reason.
///
/// ```
/// use program_frame::words::words;
///
/// let no_words = Ok(Vec::new(alloc).into_iter());
/// assert!(rt; words(alloc, no_words).is_ok_and(|words| words.is_empty()));
/// ```
pub fn words<A: Allocator>(alloc: A, args: io::Result<Args>) -> Result<Vec<String, A>, NoWords>
    ensures ok { OnOk result (IsOk args) }
    ensures words { IfOk result (λ words. IfOk args
        (λ args. map string_bytes words.items ≡ words_after_name args)) }
    ensures memory { IfOk args (λ _. IfErr result (λ why. why ≡ NoWords.Memory)) }
    ensures no_words { IfErr args (λ error. error_kind error ≢ ErrorKind.OutOfMemory
        → result ≡ Err NoWords.Unreadable) }
    ensures no_memory { IfErr args
        (λ error. error_kind error ≡ ErrorKind.OutOfMemory → result ≡ Err NoWords.Memory) }
{
    match args {
        Ok(args) => match after_name(alloc, args) {
            Ok(words) => Ok(words),
            Err(_) => Err(NoWords::Memory),
        },
        Err(error) if error.kind() == ErrorKind::OutOfMemory => Err(NoWords::Memory),
        Err(_) => Err(NoWords::Unreadable),
    }
}

/// The arguments but the first.
fn after_name<A: Allocator>(alloc: A, args: Args) -> Result<Vec<String, A>, AllocError>
    ensures { IfOk result (λ words. words.items ≡ drop 1 (into_iter_items args)) }
{
    args.skip(1).collect(alloc)
}
