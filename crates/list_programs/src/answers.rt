//! The outcomes of a program for lists: that of a run over a list, and that of writing a text such
//! as its help.
ghost use Rattle.std.specs.Prelude.{◌≡◌, ◌≢◌, ◌↔◌, true, false, Err, IfErr};
ghost use Rattle.std.specs.Option.{option_map};
ghost use Rattle.list_programs.specs.ListRun.{EndedBy, Runs, ended_by};
ghost use Rattle.program_frame.specs.Marked.{marked_inner, has_failed};
ghost use Rattle.list_programs.specs.ProgramFault.{EndsRunOf};
ghost use Rattle.list_programs.specs.Rules.{passing};
ghost use Rattle.program_frame.specs.Written.{WritesText};
ghost use Rattle.program_frame.specs.declared.fault.Failure.{Failure};
ghost use Rattle.list_programs.specs.declared.fault.ListFault.{ListFault};
ghost use Rattle.list_programs.specs.declared.program_fault.Fault.TheVariants.{List as OfList, Words};

use crate::fault::ListFault;
use crate::program_fault::Fault;
use crate::rejections::Rejections;
use crate::run::{run, run_with};
use crate::task::ListTask;
use program_frame::fault::Failure;
use program_frame::marked::Marked;
use program_frame::writing::write_out;
use std::alloc::Allocator;
use std::io::{Read, Write};

/// Runs over the list, and returns its outcome as a program's. Both marks must be unset (test:
/// [`Marked::failed`]).
///
/// # Errors
///
/// [`Fault::List`] with the error of [`run`]. If nothing was written, [`Fault::Words`] with `none`,
/// where one is given.
///
/// ```
/// use names_commands::fault::{CommandFault, Fault};
/// use names_commands::task::{OnPlatform, Settings, Task};
/// use os_str_bytes::Unix;
/// use list_programs::answers::run_list;
/// use program_frame::marked::Marked;
///
/// let mut taken = Vec::new(alloc);
/// let (mut reader, mut writer) = (Marked::new(b"a\0".as_slice()), Marked::new(&mut taken));
/// let mut listing = OnPlatform::<Unix>::new(Settings::new(Task::ListAll, 255));
/// let none = Some(CommandFault::NoOutput);
/// let ended: Result<(), Fault> = run_list(alloc, &mut listing, none, &mut reader, &mut writer);
/// assert!(rt; ended.is_ok());
/// // all has been read
/// let ended = run_list(alloc, &mut listing, none, &mut reader, &mut writer);
/// assert!(rt; matches!(ended, Err(Fault::Words(CommandFault::NoOutput))));
/// assert_eq!(rt; taken.as_slice(), b"a\n".as_slice());
/// ```
pub fn run_list<T: ListTask, U: Copy, A: Allocator, R: Read, W: Write>(
    alloc: A,
    task: &mut T,
    none: Option<U>,
    reader: &mut Marked<R>,
    writer: &mut Marked<W>,
) -> Result<(), Fault<T::Rejection, U>>
    requires reader_unmarked { has_failed reader.old ≡ false }
    requires writer_unmarked { has_failed writer.old ≡ false }
    ensures run { EndedBy (option_map Words none) (Runs (T.rules (T.plan task.old)) OfList)
        (R.remaining (marked_inner reader.old)) (R.remaining (marked_inner reader.new))
        (W.contents (marked_inner writer.old)) (W.contents (marked_inner writer.new)) result }
    ensures read { (result ≡ Err (Fault.List (ListFault.Run Failure.Read)))
        ↔ (has_failed reader.new ≡ true) }
    ensures write { (result ≡ Err (Fault.List (ListFault.Run Failure.Write)))
        ↔ (has_failed writer.new ≡ true) }
{
    match run(alloc, task, reader, writer) {
        Ok(wrote) => ended_by(none, wrote),
        Err(fault) => Err(Fault::List(fault)),
    }
}

/// Returns the outcome of a run that wrote something or nothing, which may be a fault.
fn ended_by<F, U: Copy>(none: Option<U>, wrote: bool) -> Result<(), Fault<F, U>>
    ensures { result ≡ ended_by (option_map Words none) wrote }
{
    match none {
        None => Ok(()),
        Some(why) => {
            if wrote {
                Ok(())
            } else {
                Err(Fault::Words(why))
            }
        }
    }
}

/// Runs over the list, with `rejections` to decide what becomes of rejected items, and returns the
/// outcome as a program's. Both marks must be unset (test: [`Marked::failed`]).
///
/// # Errors
///
/// [`Fault::List`] with the error of [`run_with`].
///
/// ```
/// use os_str_bytes::Unix;
/// use paths_commands::fault::Fault;
/// use paths_commands::task::{OnPlatform, Task};
/// use list_programs::answers::run_list_with;
/// use list_programs::options::ListOptions;
/// use list_programs::rejections::KeepGoing;
/// use program_frame::marked::Marked;
///
/// let mut taken = Vec::new(alloc);
/// let (mut reader, mut writer) = (Marked::new(b"..\0a\0".as_slice()), Marked::new(&mut taken));
/// let mut task = OnPlatform::<Unix>::new(Task::Normalize, ListOptions::new(255));
/// let mut rejections = KeepGoing::new("paths", &rt);
/// let ended: Result<(), Fault> =
///     run_list_with(alloc, &mut task, &mut rejections, &mut reader, &mut writer);
/// assert!(rt; ended.is_ok() && rejections.count() == 1);
/// assert_eq!(rt; taken.as_slice(), b"a\0".as_slice());
/// ```
pub fn run_list_with<T: ListTask, N: Rejections<T::Rejection>, U, A: Allocator, R: Read, W: Write>(
    alloc: A,
    task: &mut T,
    rejections: &mut N,
    reader: &mut Marked<R>,
    writer: &mut Marked<W>,
) -> Result<(), Fault<T::Rejection, U>>
    requires reader_unmarked { has_failed reader.old ≡ false }
    requires writer_unmarked { has_failed writer.old ≡ false }
    ensures run { Runs (passing (N.passed rejections.new) (T.rules (T.plan task.old))) OfList
        (R.remaining (marked_inner reader.old)) (R.remaining (marked_inner reader.new))
        (W.contents (marked_inner writer.old)) (W.contents (marked_inner writer.new)) result }
    ensures ends { IfErr result (λ fault. EndsRunOf N.stops fault) }
    ensures read { (result ≡ Err (Fault.List (ListFault.Run Failure.Read)))
        ↔ (has_failed reader.new ≡ true) }
    ensures write { (result ≡ Err (Fault.List (ListFault.Run Failure.Write)))
        ↔ (has_failed writer.new ≡ true) }
{
    match run_with(alloc, task, rejections, reader, writer) {
        Ok(_) => Ok(()),
        Err(fault) => Err(Fault::List(fault)),
    }
}

/// Writes a text, such as a program's help. The mark must be unset (test: [`Marked::failed`]).
///
/// # Errors
///
/// [`Fault::List`] with `Run(Write)` where a write or the flush failed. A beginning of the text was
/// written then.
///
/// ```
/// use paths_commands::fault::Fault;
/// use list_programs::answers::write_help;
/// use program_frame::marked::Marked;
///
/// let mut taken = Vec::new(alloc);
/// let answer: Result<(), Fault> = write_help("help\n", &mut Marked::new(&mut taken));
/// assert!(rt; answer.is_ok());
/// assert_eq!(rt; taken.as_slice(), b"help\n".as_slice());
/// ```
pub fn write_help<F, U, W: Write>(text: &str, writer: &mut Marked<W>) -> Result<(), Fault<F, U>>
    requires { has_failed writer.old ≡ false }
    ensures help { WritesText text.now (OfList (ListFault.Run Failure.Write))
        (W.contents (marked_inner writer.old)) (W.contents (marked_inner writer.new)) result }
    ensures no_read { result ≢ Err (Fault.List (ListFault.Run Failure.Read)) }
    ensures write { (result ≡ Err (Fault.List (ListFault.Run Failure.Write)))
        ↔ (has_failed writer.new ≡ true) }
{
    match write_out(writer, text.as_bytes()) {
        Ok(()) => Ok(()),
        Err(_) => Err(Fault::List(ListFault::Run(Failure::Write))),
    }
}
