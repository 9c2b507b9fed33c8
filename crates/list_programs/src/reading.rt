//! Items of an input that comes in blocks.
ghost use Rattle.std.specs.Prelude.{◌≡◌, ◌+◌, ◌<◌, ◌^◌, ◌≤◌, ◌++◌, [], length, ℕ, List, OnOk, OnErr, IfOk, IfErr};
ghost use Rattle.list_programs.specs.Items.{Lacks};
ghost use Rattle.list_programs.specs.Rules.{IsFaultAt, IsEntry, EndsRun, passing};
ghost use Rattle.list_programs.specs.Reading.{HasBegun, IsKeepFault, Reads, Stops};

use crate::fault::{ItemFault, ListFault};
use crate::items::split_at_end;
use crate::rejections::Rejections;
use crate::task::ListTask;
use program_frame::fault::Failure;
use std::alloc::Allocator;

/// Reads a block. It appends the output for the items that end in the block, and keeps the item
/// that begins last. It returns the number of items that have ended.
pub fn read_block<T: ListTask, N: Rejections<T::Rejection>, A: Allocator + Copy>(
    alloc: A,
    task: &mut T,
    count: u64,
    block: &[u8],
    begun: &mut Vec<u8, A>,
    rejections: &mut N,
    output: &mut Vec<u8, A>,
) -> Result<u64, ListFault<T::Rejection>>
    requires counted { count + length begun.old.items + length block.now + 1 < 2 ^ 64 }
    requires begun { HasBegun (passing (N.passed rejections.old) (T.rules (T.plan task.old)))
        begun.old.items }
    ensures ok { IfOk result
        (λ ended. Reads (passing (N.passed rejections.new) (T.rules (T.plan task.old)))
        (record { begun = begun.old.items; count = count; output = output.old.items }) block.now
        (record { begun = begun.new.items; count = ended; output = output.new.items })) }
    ensures fault { IfErr result (λ fault. (more : List ℕ)
        → Stops (passing (N.passed rejections.new) (T.rules (T.plan task.old)))
        (record { begun = begun.old.items; count = count; output = output.old.items })
        (block.now ++ more) output.new.items fault) }
    ensures more { N.passed rejections.old ≤ N.passed rejections.new }
    ensures ends { IfErr result (λ fault. EndsRun N.stops fault) }
    ensures plan { T.plan task.new ≡ T.plan task.old }
{
    let mut ended = count;
    let mut rest = block;
    while let Some((last, after)) = split_at_end(task.end().byte(), rest) {
        match end_item::<T, N, A>(alloc, task, ended + 1, last, begun, rejections, output) {
            Ok(()) => {}
            Err(fault) => return Err(fault),
        }
        ended += 1;
        rest = after;
    }
    match keep(task, ended + 1, rest, begun) {
        Ok(()) => Ok(ended),
        Err(fault) => Err(fault),
    }
}

/// Appends the output for the item that has begun. These are its last bytes.
fn end_item<T: ListTask, N: Rejections<T::Rejection>, A: Allocator + Copy>(
    alloc: A,
    task: &mut T,
    number: u64,
    last: &[u8],
    begun: &mut Vec<u8, A>,
    rejections: &mut N,
    output: &mut Vec<u8, A>,
) -> Result<(), ListFault<T::Rejection>>
    requires begun { HasBegun (passing (N.passed rejections.old) (T.rules (T.plan task.old)))
        begun.old.items }
    requires whole { Lacks (T.rules (T.plan task.old)).end last.now }
    ensures ok { OnOk result ((text : List ℕ)
        × IsEntry (passing (N.passed rejections.new) (T.rules (T.plan task.old)))
        (begun.old.items ++ last.now, text)
        × (output.new.items ≡ output.old.items ++ text)) }
    ensures none { OnOk result (begun.new.items ≡ []) }
    ensures fault { IfErr result (λ fault.
        IsFaultAt (T.rules (T.plan task.old)) number (begun.old.items ++ last.now) fault) }
    ensures unchanged { OnErr result (output.new.items ≡ output.old.items) }
    ensures more { N.passed rejections.old ≤ N.passed rejections.new }
    ensures ends { IfErr result (λ fault. EndsRun N.stops fault) }
    ensures plan { T.plan task.new ≡ T.plan task.old }
{
    if begun.is_empty() && last.len() <= task.longest_item() {
        return write_at::<T, N, A>(alloc, task, number, last, rejections, output);
    }
    match keep(task, number, last, begun) {
        Ok(()) => {}
        Err(fault) => return Err(fault),
    }
    match write_at::<T, N, A>(alloc, task, number, begun, rejections, output) {
        Ok(()) => {}
        Err(fault) => return Err(fault),
    }
    begun.clear();
    Ok(())
}

/// Appends what is written for the item with this number: nothing where it is passed over.
pub fn write_at<T: ListTask, N: Rejections<T::Rejection>, A: Allocator + Copy>(
    alloc: A,
    task: &mut T,
    number: u64,
    item: &[u8],
    rejections: &mut N,
    output: &mut Vec<u8, A>,
) -> Result<(), ListFault<T::Rejection>>
    requires short { length item.now ≤ (T.rules (T.plan task.old)).longest }
    ensures ok { OnOk result ((text : List ℕ)
        × ((passing (N.passed rejections.new) (T.rules (T.plan task.old))).is_text item.now text
        × (output.new.items ≡ output.old.items ++ text))) }
    ensures fault { IfErr result (λ fault.
        IsFaultAt (T.rules (T.plan task.old)) number item.now fault) }
    ensures unchanged { OnErr result (output.new.items ≡ output.old.items) }
    ensures more { N.passed rejections.old ≤ N.passed rejections.new }
    ensures ends { IfErr result (λ fault. EndsRun N.stops fault) }
    ensures plan { T.plan task.new ≡ T.plan task.old }
{
    match task.write_item(alloc, item, output) {
        Ok(()) => Ok(()),
        Err(ItemFault::Rejected(why)) => {
            if rejections.passes(number, item, why) {
                return Ok(());
            }
            Err(ListFault::Rejected(number, why))
        }
        Err(ItemFault::TooLong) => Err(ListFault::TooLong(number, task.max())),
        Err(ItemFault::Memory) => Err(ListFault::Run(Failure::Memory)),
    }
}

/// Keeps more bytes of the item that has begun.
fn keep<T: ListTask, A: Allocator>(
    task: &T,
    number: u64,
    more: &[u8],
    begun: &mut Vec<u8, A>,
) -> Result<(), ListFault<T::Rejection>>
    requires { length begun.old.items ≤ (T.rules (T.plan task.now)).longest }
    ensures kept { OnOk result (begun.new.items ≡ begun.old.items ++ more.now) }
    ensures short { OnOk result (length begun.new.items ≤ (T.rules (T.plan task.now)).longest) }
    ensures fault { IfErr result (λ fault.
        IsKeepFault (T.rules (T.plan task.now)) number (begun.old.items ++ more.now) fault) }
    ensures ends { IfErr result (λ fault. EndsRun ⊥ fault) }
{
    if more.len() > task.longest_item() - begun.len() {
        return Err(ListFault::TooLong(number, task.max()));
    }
    match begun.extend_from_slice(more) {
        Ok(()) => Ok(()),
        Err(_) => Err(ListFault::Run(Failure::Memory)),
    }
}
