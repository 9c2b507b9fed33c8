//! What is written for one item.
ghost use Rattle.std.specs.Prelude.{◌≡◌, ◌↔◌, ◌≤◌, ◌*◌, ◌++◌, ◌∷◌, [], length, false, ℕ, List, OnOk, OnErr, IfOk, IfErr, IsTrue, MatchOption};
ghost use Rattle.os_quote.specs.Escape.{IsLineEscape};
ghost use Rattle.os_str_bytes.specs.Strings.{bytes};
ghost use Rattle.list_programs.specs.Items.{Lacks};
ghost use Rattle.list_programs.specs.ListOptions.{byte_of};
ghost use Rattle.list_programs.specs.Rules.{IsItemFault};
ghost use Rattle.list_programs.specs.declared.fault.ItemFault.TheVariants.{Rejected, Memory};
ghost use Rattle.names_commands.specs.declared.task.EmptyLine.{EmptyLine as DeclaredEmptyLine};
ghost use Rattle.names_commands.specs.declared.task.Task.TheVariants.{Join};
ghost use Rattle.names_commands.specs.Ignoring.{IsInTree};
ghost use Rattle.names_commands.specs.Names.{EndsInReturn, IsFit, IsNameRejection, IsNoName, IsUnfit};
ghost use Rattle.names_commands.specs.declared.fault.Rejection.{Rejection as RejectionOf};
ghost use Rattle.names_commands.specs.Task.{longest_item, rules_of, IsEmpty, IsEscapeOf, IsTaken, IsText, quote_fault};

use crate::fault::Rejection;
use crate::ignoring::is_from_top;
use crate::task::{EmptyLine, Settings, Task};
use crate::words::{write_names, write_word};
use list_programs::fault::ItemFault;
use list_programs::items::{push_ended, split_at_end};
use list_programs::lines::{is_plain, push_line};
use list_programs::options::{ItemEnd, ListOptions};
use os_quote::{QuoteError, unescape_line};
use os_str_bytes::{OsStr, Platform, Wasm};
use std::alloc::Allocator;

/// Appends what is written for an item.
pub fn write_item<E: Platform, A: Allocator + Copy>(
    alloc: A,
    settings: Settings,
    item: &[u8],
    output: &mut Vec<u8, A>,
) -> Result<(), ItemFault<Rejection>>
    requires { length item.now ≤ longest_item settings }
    ensures ok { OnOk result ((text : List ℕ)
        × (IsText ⟦<E as Platform>⟧ settings.task settings.list item.now text
        × (output.new.items ≡ output.old.items ++ text))) }
    ensures fault { IfErr result (λ fault.
        IsItemFault (rules_of ⟦<E as Platform>⟧ settings) item.now fault) }
    ensures unchanged { OnErr result (output.new.items ≡ output.old.items) }
{
    match settings.task {
        Task::ListAll => {
            let name = named::<E>(item)?;
            write_line::<E, A>(alloc, name, output)
        }
        Task::Check => {
            named::<E>(item)?;
            Ok(())
        }
        Task::Join(empty) => write_name::<E, A>(alloc, empty, settings.list, item, output),
        Task::ListWords(form) => {
            named::<E>(item)?;
            write_word(alloc, form, item, output)
        }
        Task::JoinWords => write_names(alloc, settings.list, item, output),
    }
}

/// The name that an item is.
#[tactic(auto, using(list_programs::proofs::lemmas::Items::has_end))]
pub(crate) fn named<'a, E: Platform>(item: &'a [u8]) -> Result<OsStr<'a, E>, ItemFault<Rejection>>
    ensures bytes { IfOk result (λ name. bytes name ≡ item.now) }
    ensures formed { OnOk result (E.well_formed item.now) }
    ensures whole { OnOk result (Lacks 0 item.now) }
    ensures fault { IfErr result (λ fault. (why : RejectionOf)
        × ((fault ≡ Rejected why) × IsNameRejection ⟦<E as Platform>⟧ item.now why)) }
{
    let name = match OsStr::checked(item) {
        Ok(name) => name,
        Err(error) => return Err(ItemFault::Rejected(Rejection::NoString(error))),
    };
    match split_at_end(0, item) {
        None => Ok(name),
        Some(_) => Err(ItemFault::Rejected(Rejection::HasNul)),
    }
}

/// The name of a list that an item is. It is a path from the top if it has to be one.
pub(crate) fn named_in<'a, E: Platform>(
    item: &'a [u8],
    from_top: bool,
) -> Result<OsStr<'a, E>, ItemFault<Rejection>>
    ensures bytes { IfOk result (λ name. bytes name ≡ item.now) }
    ensures formed { OnOk result (E.well_formed item.now) }
    ensures whole { OnOk result (Lacks 0 item.now) }
    ensures placed { OnOk result (IsInTree from_top item.now) }
    ensures fault { IfErr result (λ fault. IsNoName ⟦<E as Platform>⟧ from_top item.now fault) }
{
    let name = named::<E>(item)?;
    if from_top && !is_from_top(item) {
        return Err(ItemFault::Rejected(Rejection::NotFromTop));
    }
    Ok(name)
}

/// Why a name can't be written with this end: it has a NUL, or the newline that ends it.
#[tactic(auto, using(list_programs::proofs::lemmas::Items::has_end))]
pub(crate) fn unfit(name: &[u8], end: ItemEnd) -> Option<Rejection>
    ensures { MatchOption result (IsFit end name.now) (λ why. IsUnfit end name.now why) }
{
    if let Some(_) = split_at_end(0, name) {
        return Some(Rejection::HasNul);
    }
    match end {
        ItemEnd::Nul => None,
        ItemEnd::Newline => match split_at_end(b'\n', name) {
            Some(_) => Some(Rejection::HasNewline),
            None => None,
        },
    }
}

/// Whether a line ends in a carriage return, as each line of a file does whose lines end as on Windows.
pub(crate) fn ends_in_return(line: &[u8]) -> bool
    ensures { IsTrue result ↔ EndsInReturn line.now }
{
    matches!(line.split_last(), Some((b'\r', _)))
}

/// Appends the escape of a name and a newline.
pub(crate) fn write_line<E: Platform, A: Allocator>(
    alloc: A,
    name: OsStr<'_, E>,
    output: &mut Vec<u8, A>,
) -> Result<(), ItemFault<Rejection>>
    ensures line { OnOk result ((line : List ℕ) × (IsLineEscape E.units (bytes name.entry) line
        × (output.new.items ≡ output.old.items ++ (line ++ 0x0A ∷ [])))) }
    ensures fault { IfErr result (λ fault. fault ≡ Memory) }
    ensures unchanged { OnErr result (output.new.items ≡ output.old.items) }
{
    Ok(push_line(alloc, name, output)?)
}

/// Appends a name and the byte that ends it.
pub(crate) fn push_name<A: Allocator>(
    name: &[u8],
    end: ItemEnd,
    output: &mut Vec<u8, A>,
) -> Result<(), ItemFault<Rejection>>
    ensures ok { OnOk result
        (output.new.items ≡ output.old.items ++ (name.now ++ byte_of end ∷ [])) }
    ensures fault { IfErr result (λ fault. fault ≡ Memory) }
    ensures unchanged { OnErr result (output.new.items ≡ output.old.items) }
{
    Ok(push_ended(name, end.byte(), output)?)
}

/// Appends the name that a line is the escape of, and its end.
fn write_name<E: Platform, A: Allocator + Copy>(
    alloc: A,
    empty: EmptyLine,
    list: ListOptions,
    line: &[u8],
    output: &mut Vec<u8, A>,
) -> Result<(), ItemFault<Rejection>>
    requires { length line.now ≤ 6 * list.max }
    ensures ok { OnOk result ((text : List ℕ)
        × (IsText ⟦<E as Platform>⟧ (Join empty) list line.now text
        × (output.new.items ≡ output.old.items ++ text))) }
    ensures fault { IfErr result (λ fault. IsItemFault
        (rules_of ⟦<E as Platform>⟧ (record { task = Join empty; list = list })) line.now fault) }
    ensures unchanged { OnErr result (output.new.items ≡ output.old.items) }
{
    if is_rejected(line, empty) {
        return Err(ItemFault::Rejected(Rejection::EmptyLine));
    }
    if line.len() <= list.max && is_plain(line) {
        return push_name(line, list.end, output);
    }
    if ends_in_return(line) {
        return Err(ItemFault::Rejected(Rejection::EndsInReturn));
    }
    write_escaped::<E, A>(alloc, list, line, output)
}

/// Whether a line is rejected since it is empty.
fn is_rejected(line: &[u8], empty: EmptyLine) -> bool
    ensures rejected { IsTrue result → IsEmpty empty line.now }
    ensures taken { result ≡ false → IsTaken empty line.now }
{
    match empty {
        EmptyLine::IsRejected => line.is_empty(),
        EmptyLine::IsEmptyName => false,
    }
}

/// Appends the name that a line is the escape of, and its end, where the line isn't plain.
fn write_escaped<E: Platform, A: Allocator + Copy>(
    alloc: A,
    list: ListOptions,
    line: &[u8],
    output: &mut Vec<u8, A>,
) -> Result<(), ItemFault<Rejection>>
    requires { ¬ (EndsInReturn line.now) }
    ensures ok { OnOk result ((text : List ℕ)
        × (IsEscapeOf ⟦<E as Platform>⟧ list line.now text
        × (output.new.items ≡ output.old.items ++ text))) }
    ensures fault { (empty : DeclaredEmptyLine) → IfErr result (λ fault. IsItemFault
        (rules_of ⟦<E as Platform>⟧ (record { task = Join empty; list = list })) line.now fault) }
    ensures unchanged { OnErr result (output.new.items ≡ output.old.items) }
{
    if let Err(error) = Wasm::check(line) {
        return Err(ItemFault::Rejected(Rejection::NoString(error)));
    }
    let text = unsafe { str::from_utf8_unchecked(line) };
    let name = match unescape_line::<E, A>(alloc, text) {
        Ok(string) => string.into_encoded_bytes(),
        Err(error) => return Err(quote_fault_of(error)),
    };
    if name.len() > list.max {
        return Err(ItemFault::TooLong);
    }
    if let Some(why) = unfit(&name, list.end) {
        return Err(ItemFault::Rejected(why));
    }
    push_name(&name, list.end, output)
}

/// Why nothing is written for a line that isn't an escape for this reason.
fn quote_fault_of(error: QuoteError) -> ItemFault<Rejection>
    ensures { result ≡ quote_fault error }
{
    match error {
        QuoteError::BadEscape(index) => ItemFault::Rejected(Rejection::BadEscape(index)),
        QuoteError::NotCanonical => ItemFault::Rejected(Rejection::NotCanonical),
        QuoteError::Memory => ItemFault::Memory,
    }
}
