//! Words in memory of their own.
ghost use Rattle.std.specs.Prelude.{◌≡◌, ◌++◌, true, ℕ, List, IfOk, IfErr, OnOk, OnErr};
ghost use Rattle.platform_str.specs.Strings.{bytes, string_vec_of};
ghost use Rattle.os_command_line.specs.ShellSteps.{form_text};
ghost use Rattle.os_command_line.specs.ReservedWords.{first_word, word_on};
ghost use Rattle.os_command_line.specs.Shell.{IsTextOf};
ghost use Rattle.os_command_line.specs.ShellCharacters.{IsCharacterText};
ghost use Rattle.os_command_line.specs.ShellWriting.{HasNoNul, IsNameFault, IsLineText, IsLineWord, quoted_word};
ghost use Rattle.os_command_line.specs.declared.shell.language.Language.{Language};

use crate::shell::error::ShellError;
use crate::shell::form::{Form, first_form_of, form_of, line_form_of};
use crate::shell::write_buffer::push_in;
use platform_str::{OsStr, OsString, Unix};
use std::alloc::{AllocError, Allocator};

/// Returns the word that every POSIX shell reads as this name: the bytes that
/// [`write_quoted`](crate::shell::write_quoted) writes. (The crates shlex and shell-words have
/// `quote` for texts.) It makes one allocation, of the word's length.
/// [`quoted`](crate::shell::quoted) documents the locales and positions in which the word is read. A
/// word with control characters isn't safe to paste at a prompt: use [`quote_line`] there.
///
/// # Errors
///
/// `Nul` with the index of the first NUL of the name, `Memory` if the allocation fails.
///
/// ```
/// use os_command_line::shell::quote;
/// use os_str_bytes::{OsStr, Unix};
///
/// let word = quote(alloc, OsStr::<Unix>::new("a b"))?;
/// assert!(rt; word.as_os_str() == OsStr::new("'a b'"));
/// ```
pub fn quote<A: Allocator>(alloc: A, name: OsStr<'_, Unix>) -> Result<OsString<Unix, A>, ShellError>
    ensures word { IfOk result
        (λ word. (string_vec_of word).items ≡ quoted_word (bytes name.entry)) }
    ensures read { IfOk result (λ word. (l : Language)
        → IsTextOf l (string_vec_of word).items (bytes name.entry)) }
    ensures characters { IfOk result (λ word. (l : Language)
        → IsCharacterText l (string_vec_of word).items (bytes name.entry)) }
    ensures no_nul { OnOk result (HasNoNul (bytes name.entry)) }
    ensures fault { IfErr result (λ fault. IsNameFault (bytes name.entry) fault) }
{
    let mut word = Vec::new(alloc);
    push_next(&mut word, name)?;
    Ok(unix_string(word))
}

/// Returns the word on one line that bash, zsh, ksh93, mksh and busybox read as this name: what
/// [`quoted_line`](crate::shell::quoted_line) prints, in the locales of that. It makes one request,
/// of the word's length.
///
/// # Errors
///
/// `Nul` with the index of the first NUL of the name, `Memory` if the allocation fails.
///
/// ```
/// use os_command_line::shell::quote_line;
/// use os_str_bytes::{OsStr, Unix};
///
/// let word = quote_line(alloc, OsStr::<Unix>::new("a\tb"))?;
/// assert!(rt; word.as_os_str() == OsStr::new("$'a\\tb'"));
/// ```
pub fn quote_line<A: Allocator>(
    alloc: A,
    name: OsStr<'_, Unix>,
) -> Result<OsString<Unix, A>, ShellError>
    ensures word { IfOk result
        (λ word. IsLineWord (bytes name.entry) (string_vec_of word).items) }
    ensures read { IfOk result (λ word. (l : Language) → l.dollar_quotes ≡ true
        → IsTextOf l (string_vec_of word).items (bytes name.entry)) }
    ensures characters { IfOk result (λ word. (l : Language) → l.dollar_quotes ≡ true
        → IsCharacterText l (string_vec_of word).items (bytes name.entry)) }
    ensures stays { IfOk result (λ word. IsLineText (string_vec_of word).items) }
    ensures no_nul { OnOk result (HasNoNul (bytes name.entry)) }
    ensures fault { IfErr result (λ fault. IsNameFault (bytes name.entry) fault) }
{
    let mut word = Vec::new(alloc);
    push_word_line(&mut word, name)?;
    Ok(unix_string(word))
}

/// Appends the word of a name ([`quote`]) to a line. The space that separates words is the
/// caller's. A word with control characters isn't safe to paste at a prompt: use
/// [`push_word_line`] there.
///
/// On an empty line the word is the first, by which a shell finds what to run: there a reserved
/// word is quoted, as [`join`](crate::shell::join) quotes it.
///
/// # Errors
///
/// `Nul` with the index of the first NUL of the name, `Memory` if an allocation fails. The line is
/// then as it was.
///
/// ```
/// use os_command_line::shell::push_word;
/// use os_str_bytes::{OsStr, Unix};
///
/// let mut line = b"rm -- ".to_vec(alloc)?;
/// push_word(&mut line, OsStr::<Unix>::new("a b"))?;
/// assert_eq!(rt; line.as_slice(), b"rm -- 'a b'".as_slice());
/// let mut line = Vec::new(alloc);
/// push_word(&mut line, OsStr::<Unix>::new("time"))?;
/// assert_eq!(rt; line.as_slice(), b"'time'".as_slice());
/// ```
#[tactic(auto, using(crate::proofs::lemmas::ShellFirst::on_empty, crate::proofs::lemmas::ShellFirst::on_other))]
pub fn push_word<A: Allocator>(
    line: &mut Vec<u8, A>,
    name: OsStr<'_, Unix>,
) -> Result<(), ShellError>
    ensures word { OnOk result
        (line.new.items ≡ line.old.items ++ word_on line.old.items (bytes name.entry)) }
    ensures no_nul { OnOk result (HasNoNul (bytes name.entry)) }
    ensures fault { IfErr result (λ fault. IsNameFault (bytes name.entry) fault) }
    ensures unchanged { OnErr result (line.new.items ≡ line.old.items) }
{
    if line.is_empty() {
        return push_first(line, name);
    }
    push_next(line, name)
}

/// Appends the word of a name that is first on a line.
pub(crate) fn push_first<A: Allocator>(
    line: &mut Vec<u8, A>,
    name: OsStr<'_, Unix>,
) -> Result<(), ShellError>
    ensures word { OnOk result
        (line.new.items ≡ line.old.items ++ first_word (bytes name.entry)) }
    ensures no_nul { OnOk result (HasNoNul (bytes name.entry)) }
    ensures fault { IfErr result (λ fault. IsNameFault (bytes name.entry) fault) }
    ensures unchanged { OnErr result (line.new.items ≡ line.old.items) }
{
    let form = first_form_of(name)?;
    append(line, form, name)?;
    Ok(())
}

/// Appends the word of a name that isn't first on a line.
pub(crate) fn push_next<A: Allocator>(
    line: &mut Vec<u8, A>,
    name: OsStr<'_, Unix>,
) -> Result<(), ShellError>
    ensures word { OnOk result
        (line.new.items ≡ line.old.items ++ quoted_word (bytes name.entry)) }
    ensures no_nul { OnOk result (HasNoNul (bytes name.entry)) }
    ensures fault { IfErr result (λ fault. IsNameFault (bytes name.entry) fault) }
    ensures unchanged { OnErr result (line.new.items ≡ line.old.items) }
{
    let form = form_of(name)?;
    append(line, form, name)?;
    Ok(())
}

/// Appends the word of a name on one line ([`quote_line`]) to a line. The space that separates
/// words is the caller's. It quotes no reserved word: for a command's name use [`push_word`].
///
/// # Errors
///
/// `Nul` with the index of the first NUL of the name, `Memory` if an allocation fails. The line is
/// then as it was.
///
/// ```
/// use os_command_line::shell::push_word_line;
/// use os_str_bytes::{OsStr, Unix};
///
/// let mut line = b"rm -- ".to_vec(alloc)?;
/// push_word_line(&mut line, OsStr::<Unix>::new("a\n"))?;
/// assert_eq!(rt; line.as_slice(), b"rm -- $'a\\n'".as_slice());
/// ```
pub fn push_word_line<A: Allocator>(
    line: &mut Vec<u8, A>,
    name: OsStr<'_, Unix>,
) -> Result<(), ShellError>
    ensures word { OnOk result ((word : List ℕ) × IsLineWord (bytes name.entry) word
        × (line.new.items ≡ line.old.items ++ word)) }
    ensures no_nul { OnOk result (HasNoNul (bytes name.entry)) }
    ensures fault { IfErr result (λ fault. IsNameFault (bytes name.entry) fault) }
    ensures unchanged { OnErr result (line.new.items ≡ line.old.items) }
{
    let form = line_form_of(name)?;
    append(line, form, name)?;
    Ok(())
}

/// Appends a name in a form. It is written twice, the first time to count its bytes: so the line
/// grows at once, or is left as it was.
fn append<A: Allocator>(
    line: &mut Vec<u8, A>,
    form: Form,
    name: OsStr<'_, Unix>,
) -> Result<(), AllocError>
    ensures text { OnOk result
        (line.new.items ≡ line.old.items ++ form_text form (bytes name.entry)) }
    ensures unchanged { OnErr result (line.new.items ≡ line.old.items) }
{
    if name.len() > usize::MAX / 8 {
        return Err(AllocError);
    }
    let before = line.len();
    let len = push_in(form, name, &mut []);
    let Some(after) = before.checked_add(len) else {
        return Err(AllocError);
    };
    line.resize(after, 0)?;
    let (_, room) = line.as_mut_slice().split_at_mut(before);
    push_in(form, name, room);
    Ok(())
}

/// Bytes as a string, in their own vector.
pub(crate) fn unix_string<A: Allocator>(bytes: Vec<u8, A>) -> OsString<Unix, A>
    ensures { string_vec_of result ≡ bytes }
{
    OsString::from_encoded_bytes_unchecked(bytes)
}
