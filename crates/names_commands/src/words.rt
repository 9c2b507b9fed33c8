//! Words of a shell: what is written for one name, and for a line of them.
ghost use Rattle.std.specs.Prelude.{◌≡◌, ◌++◌, ◌∷◌, [], ℕ, List, IfOk, OnOk, OnErr, IfErr};
ghost use Rattle.os_command_line.specs.ShellViews.{word_bytes};
ghost use Rattle.os_command_line.specs.ShellWriting.{IsNameFault};
ghost use Rattle.os_str_bytes.specs.Strings.{bytes, string_vec_of};
ghost use Rattle.list_programs.specs.Items.{Lacks};
ghost use Rattle.list_programs.specs.ListOptions.{byte_of};
ghost use Rattle.list_programs.specs.declared.fault.ItemFault.TheVariants.{Memory};
ghost use Rattle.names_commands.specs.Names.{EndsInReturn};
ghost use Rattle.names_commands.specs.Words.{IsWord, IsWordLine, IsName, AreNamesOf, IsWordFault, IsLineFault};

use crate::fault::Rejection;
use crate::item::{ends_in_return, push_name, unfit};
use crate::task::WordForm;
use list_programs::fault::ItemFault;
use list_programs::items::push_ended;
use list_programs::options::ListOptions;
use os_command_line::shell::{ShellError, Specials, Word, Words, quote, quote_line};
use os_str_bytes::{OsStr, OsString, Unix};
use std::alloc::Allocator;

/// Appends the word of a name, and a newline.
#[tactic(auto, using(list_programs::proofs::lemmas::Items::end_in))]
pub(crate) fn write_word<A: Allocator>(
    alloc: A,
    form: WordForm,
    name: &[u8],
    output: &mut Vec<u8, A>,
) -> Result<(), ItemFault<Rejection>>
    requires { Lacks 0 name.now }
    ensures line { OnOk result ((text : List ℕ) × (IsWordLine form name.now text
        × (output.new.items ≡ output.old.items ++ text))) }
    ensures fault { IfErr result (λ fault. fault ≡ Memory) }
    ensures unchanged { OnErr result (output.new.items ≡ output.old.items) }
{
    match word_of(alloc, form, OsStr::from_encoded_bytes_unchecked(name)) {
        Ok(word) => Ok(push_ended(word.as_os_str().as_encoded_bytes(), b'\n', output)?),
        Err(ShellError::Nul(_)) => unreachable!(),
        Err(ShellError::Memory) => Err(ItemFault::Memory),
    }
}

/// The word of a name.
fn word_of<A: Allocator>(
    alloc: A,
    form: WordForm,
    name: OsStr<'_, Unix>,
) -> Result<OsString<Unix, A>, ShellError>
    ensures word { IfOk result
        (λ word. IsWord form (bytes name.entry) (string_vec_of word).items) }
    ensures fault { IfErr result (λ fault. IsNameFault (bytes name.entry) fault) }
{
    match form {
        WordForm::Posix => quote(alloc, name),
        WordForm::OneLine => quote_line(alloc, name),
    }
}

/// Appends each word of a line, and its end after it.
pub(crate) fn write_names<A: Allocator + Copy>(
    alloc: A,
    list: ListOptions,
    line: &[u8],
    output: &mut Vec<u8, A>,
) -> Result<(), ItemFault<Rejection>>
    ensures ok { OnOk result ((text : List ℕ) × (AreNamesOf list line.now text
        × (output.new.items ≡ output.old.items ++ text))) }
    ensures fault { IfErr result (λ fault. IsLineFault list line.now fault) }
    ensures unchanged { OnErr result (output.new.items ≡ output.old.items) }
{
    if ends_in_return(line) {
        return Err(ItemFault::Rejected(Rejection::EndsInReturn));
    }
    let mut names = Vec::new(alloc);
    push_names(alloc, list, line, &mut names)?;
    Ok(output.extend_from_slice(&names)?)
}

/// Appends the names of a line's words to a list of names. Where a word is rejected, the list may
/// have some of them afterwards.
fn push_names<A: Allocator + Copy>(
    alloc: A,
    list: ListOptions,
    line: &[u8],
    names: &mut Vec<u8, A>,
) -> Result<(), ItemFault<Rejection>>
    requires { ¬ (EndsInReturn line.now) }
    ensures ok { OnOk result ((text : List ℕ) × (AreNamesOf list line.now text
        × (names.new.items ≡ names.old.items ++ text))) }
    ensures fault { IfErr result (λ fault. IsLineFault list line.now fault) }
{
    let line = OsStr::from_encoded_bytes_unchecked(line);
    for word in Words::with_dollar_quotes(line, Specials::Refused) {
        match word {
            Ok(word) => match push_word(alloc, list, word, names) {
                Ok(()) => {}
                Err(fault) => return Err(fault),
            },
            Err(fault) => return Err(ItemFault::Rejected(Rejection::BadWords(fault))),
        }
    }
    Ok(())
}

/// Appends a word and its end.
fn push_word<A: Allocator + Copy>(
    alloc: A,
    list: ListOptions,
    word: Word<'_>,
    names: &mut Vec<u8, A>,
) -> Result<(), ItemFault<Rejection>>
    ensures name { OnOk result (IsName list (word_bytes word.entry)) }
    ensures ok { OnOk result (names.new.items
        ≡ names.old.items ++ (word_bytes word.entry ++ byte_of list.end ∷ [])) }
    ensures fault { IfErr result (λ fault. IsWordFault list (word_bytes word.entry) fault) }
{
    let name = word.to_owned(alloc)?.into_encoded_bytes();
    if name.len() > list.max {
        return Err(ItemFault::TooLong);
    }
    if let Some(why) = unfit(&name, list.end) {
        return Err(ItemFault::Rejected(why));
    }
    push_name(&name, list.end, names)
}
