//! One run over a list: it reads items, makes their output and writes it, block by block.
ghost use Rattle.std.specs.Prelude.{◌≡◌, ◌≢◌, ◌↔◌, ◌+◌, ◌<◌, ◌≤◌, ◌^◌, ◌||◌, ◌++◌, [], length, ℕ, List, true, false, OnOk, OnErr, IfOk, IfErr};
ghost use Rattle.std.specs.Io.KnownBytes.{Appends, IsAtEnd};
ghost use Rattle.program_frame.specs.declared.fault.Failure.{Failure};
ghost use Rattle.list_programs.specs.declared.fault.ListFault.{ListFault};
ghost use Rattle.program_frame.specs.Marked.{marked_inner, has_failed};
ghost use Rattle.program_frame.specs.Written.{AppendsBeginning};
ghost use Rattle.list_programs.specs.Rules.{IsRejected, EndsRun, passing};
ghost use Rattle.list_programs.specs.Reading.{HasBegun, IsEnded, Reads, Stops, Begins};
ghost use Rattle.list_programs.specs.ListRun.{WritesOutput, WritesUpTo, WritesBeginning, WritesSome, Finishes, IsLast, has_some};

use crate::fault::ListFault;
use crate::reading::{read_block, write_at};
use crate::rejections::{Rejections, Stop};
use crate::task::ListTask;
use program_frame::fault::Failure;
use program_frame::marked::Marked;
use program_frame::writing::write_out;
use std::alloc::Allocator;
use std::io::{Read, Write};

/// How many bytes are read at a time.
const BLOCK: usize = 16384;

/// How far a run has come.
#[derive(Clone, Copy)]
struct Progress {
    // how many items have ended
    count: u64,
    // whether something was written
    wrote: bool,
}

/// Reads all items that the reader has, and writes the output for each, block by block. Returns
/// whether the output has a byte. Both marks must be unset (test: [`Marked::failed`]).
///
/// The last item may lack the byte that ends it if [`ListTask::takes_unended`] allows that. After
/// each block all of its output is written and flushed. Only the item that has begun and the output
/// of a block are kept.
///
/// # Errors
///
/// [`ListFault::Rejected`] and [`ListFault::TooLong`] report the first item that is rejected.
/// [`ListFault::Unended`] reports a last item that must have its end and lacks it. With each of
/// these, exactly the output for the items before the reported one has been written.
///
/// [`ListFault::Run`] has `Read` exactly where a read failed, `Write` exactly where a write or a
/// flush did, and `Memory` where an allocation failed. [`ListFault::TooMuch`] reports an input of
/// 2^64 - 1 bytes or more. Then the output for some of the first items has been written, and each
/// of them has its end. With `Write` it may be a beginning of that output, or of all the output.
///
/// ```
/// use names_commands::task::{OnPlatform, Settings, Task};
/// use os_str_bytes::Unix;
/// use list_programs::run::run;
/// use program_frame::marked::Marked;
///
/// let names: &[u8] = b"a\nb\0\xFF\0c\0";
/// let mut taken = Vec::new(alloc);
/// let (mut reader, mut writer) = (Marked::new(names), Marked::new(&mut taken));
/// let mut listing = OnPlatform::<Unix>::new(Settings::new(Task::ListAll, 255));
/// assert!(rt; run(alloc, &mut listing, &mut reader, &mut writer) == Ok(true));
/// assert_eq!(rt; taken.as_slice(), b"a\\u000Ab\n\\xFF\nc\n".as_slice());
/// ```
pub fn run<T: ListTask, A: Allocator, R: Read, W: Write>(
    alloc: A,
    task: &mut T,
    reader: &mut Marked<R>,
    writer: &mut Marked<W>,
) -> Result<bool, ListFault<T::Rejection>>
    requires reader_unmarked { has_failed reader.old ≡ false }
    requires writer_unmarked { has_failed writer.old ≡ false }

    // The output.
    ensures all_read { OnOk result (IsAtEnd (R.remaining (marked_inner reader.new))) }
    ensures written { OnOk result (WritesOutput (T.rules (T.plan task.old))
        (R.remaining (marked_inner reader.old)) (W.contents (marked_inner writer.old))
        (W.contents (marked_inner writer.new))) }
    ensures some { IfOk result (λ wrote. WritesSome wrote (W.contents (marked_inner writer.old))
        (W.contents (marked_inner writer.new))) }

    // What was written before a fault.
    ensures stopped { IfErr result (λ fault. fault ≢ ListFault.Run Failure.Write
        → WritesUpTo (T.rules (T.plan task.old)) fault
        (R.remaining (marked_inner reader.old)) (W.contents (marked_inner writer.old))
        (W.contents (marked_inner writer.new))) }
    ensures beginning { result ≡ Err (ListFault.Run Failure.Write)
        → WritesBeginning (T.rules (T.plan task.old))
        (R.remaining (marked_inner reader.old)) (W.contents (marked_inner writer.old))
        (W.contents (marked_inner writer.new)) }

    // When a read or a write is to blame.
    ensures read { (result ≡ Err (ListFault.Run Failure.Read)) ↔ (has_failed reader.new ≡ true) }
    ensures write { (result ≡ Err (ListFault.Run Failure.Write)) ↔ (has_failed writer.new ≡ true) }
{
    run_with(alloc, task, &mut Stop, reader, writer)
}

/// Reads all items that the reader has, and writes the output for each, as [`run`] does. Returns
/// whether the output has a byte. What becomes of an item that is rejected is left to `rejections`:
/// where it passes over it, nothing is written for the item, and the run goes on. Both marks must be
/// unset (test: [`Marked::failed`]).
///
/// # Errors
///
/// Those of [`run`]. [`ListFault::Rejected`] is returned only if `rejections` ends the run. An item
/// that is too long ends it in any case.
///
/// ```
/// use os_str_bytes::Unix;
/// use paths_commands::task::{OnPlatform, Task};
/// use list_programs::options::ListOptions;
/// use list_programs::rejections::KeepGoing;
/// use list_programs::run::run_with;
/// use program_frame::marked::Marked;
///
/// let paths: &[u8] = b"a/../b\0../c\0d/./e\0";
/// let mut taken = Vec::new(alloc);
/// let (mut reader, mut writer) = (Marked::new(paths), Marked::new(&mut taken));
/// let mut task = OnPlatform::<Unix>::new(Task::Normalize, ListOptions::new(255));
/// let mut rejections = KeepGoing::new("paths", &rt);
/// assert!(rt; run_with(alloc, &mut task, &mut rejections, &mut reader, &mut writer).is_ok());
/// assert_eq!(rt; rejections.count(), 1);
/// assert_eq!(rt; taken.as_slice(), b"b\0d/e\0".as_slice());
/// ```
pub fn run_with<T: ListTask, N: Rejections<T::Rejection>, A: Allocator, R: Read, W: Write>(
    alloc: A,
    task: &mut T,
    rejections: &mut N,
    reader: &mut Marked<R>,
    writer: &mut Marked<W>,
) -> Result<bool, ListFault<T::Rejection>>
    requires reader_unmarked { has_failed reader.old ≡ false }
    requires writer_unmarked { has_failed writer.old ≡ false }

    // The output.
    ensures all_read { OnOk result (IsAtEnd (R.remaining (marked_inner reader.new))) }
    ensures written { OnOk result
        (WritesOutput (passing (N.passed rejections.new) (T.rules (T.plan task.old)))
        (R.remaining (marked_inner reader.old)) (W.contents (marked_inner writer.old))
        (W.contents (marked_inner writer.new))) }
    ensures some { IfOk result (λ wrote. WritesSome wrote (W.contents (marked_inner writer.old))
        (W.contents (marked_inner writer.new))) }

    // What was written before a fault.
    ensures stopped { IfErr result (λ fault. fault ≢ ListFault.Run Failure.Write
        → WritesUpTo (passing (N.passed rejections.new) (T.rules (T.plan task.old))) fault
        (R.remaining (marked_inner reader.old)) (W.contents (marked_inner writer.old))
        (W.contents (marked_inner writer.new))) }
    ensures beginning { result ≡ Err (ListFault.Run Failure.Write)
        → WritesBeginning (passing (N.passed rejections.new) (T.rules (T.plan task.old)))
        (R.remaining (marked_inner reader.old)) (W.contents (marked_inner writer.old))
        (W.contents (marked_inner writer.new)) }
    ensures ends { IfErr result (λ fault. EndsRun N.stops fault) }

    // When a read or a write is to blame.
    ensures read { (result ≡ Err (ListFault.Run Failure.Read)) ↔ (has_failed reader.new ≡ true) }
    ensures write { (result ≡ Err (ListFault.Run Failure.Write)) ↔ (has_failed writer.new ≡ true) }
{
    let mut begun = Vec::new(&alloc);
    let mut so_far = Progress {
        count: 0,
        wrote: false,
    };
    let mut total = 0;
    let mut piece = [0u8; BLOCK];
    loop {
        let size = match reader.read(&mut piece) {
            Ok(0) => {
                return finish::<T, N, &A, W>(&alloc, task, so_far, &begun, rejections, writer);
            }
            Ok(size) => size,
            Err(_) => return Err(ListFault::Run(Failure::Read)),
        };
        if size as u64 >= u64::MAX - total {
            return Err(ListFault::TooMuch);
        }
        total += size as u64;
        let block = &piece[..size];
        match write_block::<T, N, &A, W>(
            &alloc, task, so_far, block, &mut begun, rejections, writer,
        ) {
            Ok(progress) => so_far = progress,
            Err(fault) => return Err(fault),
        }
    }
}

/// Reads a block, and writes the output for the items that end in it. It returns how far the run has
/// come then.
fn write_block<T: ListTask, N: Rejections<T::Rejection>, A: Allocator + Copy, W: Write>(
    alloc: A,
    task: &mut T,
    so_far: Progress,
    block: &[u8],
    begun: &mut Vec<u8, A>,
    rejections: &mut N,
    writer: &mut Marked<W>,
) -> Result<Progress, ListFault<T::Rejection>>
    requires counted { so_far.count + length begun.old.items + length block.now + 1 < 2 ^ 64 }
    requires begun { HasBegun (passing (N.passed rejections.old) (T.rules (T.plan task.old)))
        begun.old.items }
    requires unmarked { has_failed writer.old ≡ false }
    ensures ok { IfOk result (λ progress. (text : List ℕ)
        × (Reads (passing (N.passed rejections.new) (T.rules (T.plan task.old)))
        (record { begun = begun.old.items; count = so_far.count; output = [] }) block.now
        (record { begun = begun.new.items; count = progress.count; output = text })
        × (Appends (W.contents (marked_inner writer.old)) (W.contents (marked_inner writer.new))
        text × (progress.wrote ≡ (so_far.wrote || has_some text))))) }
    ensures stopped { IfErr result (λ fault. fault ≢ ListFault.Run Failure.Write → (text : List ℕ)
        × (((more : List ℕ) → Stops (passing (N.passed rejections.new) (T.rules (T.plan task.old)))
        (record { begun = begun.old.items; count = so_far.count; output = [] }) (block.now ++ more) text
        fault)
        × Appends (W.contents (marked_inner writer.old)) (W.contents (marked_inner writer.new))
        text)) }
    ensures beginning { result ≡ Err (ListFault.Run Failure.Write) → (text : List ℕ)
        × (((more : List ℕ) → Begins (passing (N.passed rejections.new) (T.rules (T.plan task.old)))
        (record { begun = begun.old.items; count = so_far.count; output = [] }) (block.now ++ more) text)
        × AppendsBeginning (W.contents (marked_inner writer.old))
        (W.contents (marked_inner writer.new)) text) }
    ensures no_read { result ≢ Err (ListFault.Run Failure.Read) }
    ensures marked { (result ≡ Err (ListFault.Run Failure.Write)) ↔ (has_failed writer.new ≡ true) }
    ensures more { N.passed rejections.old ≤ N.passed rejections.new }
    ensures ends { IfErr result (λ fault. EndsRun N.stops fault) }
    ensures plan { T.plan task.new ≡ T.plan task.old }
{
    let mut output = Vec::new(alloc);
    let count = so_far.count;
    let ended = read_block::<T, N, A>(alloc, task, count, block, begun, rejections, &mut output);
    match write_output(writer, so_far.wrote, &output) {
        Ok(wrote) => match ended {
            Ok(count) => Ok(Progress { count, wrote }),
            Err(fault) => Err(fault),
        },
        Err(fault) => Err(fault),
    }
}

/// Writes what is to be written for the item that has begun where the input ends. It returns whether
/// something was written in the run.
fn finish<T: ListTask, N: Rejections<T::Rejection>, A: Allocator + Copy, W: Write>(
    alloc: A,
    task: &mut T,
    so_far: Progress,
    begun: &[u8],
    rejections: &mut N,
    writer: &mut Marked<W>,
) -> Result<bool, ListFault<T::Rejection>>
    requires counted { so_far.count + 1 < 2 ^ 64 }
    requires begun { HasBegun (passing (N.passed rejections.old) (T.rules (T.plan task.old)))
        begun.now }
    requires unmarked { has_failed writer.old ≡ false }
    ensures ok { IfOk result (λ wrote. (text : List ℕ)
        × (Finishes (passing (N.passed rejections.new) (T.rules (T.plan task.old))) begun.now text
        × (Appends (W.contents (marked_inner writer.old)) (W.contents (marked_inner writer.new))
        text × (wrote ≡ (so_far.wrote || has_some text))))) }
    ensures stopped { IfErr result (λ fault. fault ≢ ListFault.Run Failure.Write
        → IsRejected (T.rules (T.plan task.old)) (so_far.count + 1) begun.now fault) }
    ensures ended { IfErr result (λ fault. IsEnded (T.rules (T.plan task.old)) fault []) }
    ensures unchanged { IfErr result (λ fault. fault ≢ ListFault.Run Failure.Write
        → writer.new ≡ writer.old) }
    ensures beginning { result ≡ Err (ListFault.Run Failure.Write) → (text : List ℕ)
        × (IsLast (passing (N.passed rejections.new) (T.rules (T.plan task.old))) begun.now text
        × AppendsBeginning (W.contents (marked_inner writer.old))
        (W.contents (marked_inner writer.new)) text) }
    ensures no_read { result ≢ Err (ListFault.Run Failure.Read) }
    ensures marked { (result ≡ Err (ListFault.Run Failure.Write)) ↔ (has_failed writer.new ≡ true) }
    ensures more { N.passed rejections.old ≤ N.passed rejections.new }
    ensures ends { IfErr result (λ fault. EndsRun N.stops fault) }
{
    if begun.is_empty() {
        return Ok(so_far.wrote);
    }
    let number = so_far.count + 1;
    if !task.takes_unended() {
        return Err(ListFault::Unended(number, task.end()));
    }
    let mut output = Vec::new(alloc);
    match write_at::<T, N, A>(alloc, task, number, begun, rejections, &mut output) {
        Ok(()) => write_output(writer, so_far.wrote, &output),
        Err(fault) => Err(fault),
    }
}

/// Writes all of the output, and flushes. Returns whether something was written, before or now.
fn write_output<F: Copy, W: Write>(
    writer: &mut Marked<W>,
    wrote: bool,
    output: &[u8],
) -> Result<bool, ListFault<F>>
    requires { has_failed writer.old ≡ false }
    ensures some { IfOk result (λ now. now ≡ (wrote || has_some output.now)) }
    ensures written { OnOk result (Appends (W.contents (marked_inner writer.old))
        (W.contents (marked_inner writer.new)) output.now) }
    ensures fault { IfErr result (λ fault. fault ≡ ListFault.Run Failure.Write) }
    ensures beginning { result ≡ Err (ListFault.Run Failure.Write)
        → AppendsBeginning (W.contents (marked_inner writer.old))
        (W.contents (marked_inner writer.new)) output.now }
    ensures no_read { result ≢ Err (ListFault.Run Failure.Read) }
    ensures marked { (result ≡ Err (ListFault.Run Failure.Write)) ↔ (has_failed writer.new ≡ true) }
    ensures ends { IfErr result (λ fault. EndsRun ⊥ fault) }
{
    match write_out(writer, output) {
        Ok(()) => Ok(wrote_some(wrote, output)),
        Err(_) => Err(ListFault::Run(Failure::Write)),
    }
}

/// Whether something was written, before or with this output.
fn wrote_some(wrote: bool, output: &[u8]) -> bool
    ensures { result ≡ (wrote || has_some output.now) }
{
    if wrote { true } else { !output.is_empty() }
}
