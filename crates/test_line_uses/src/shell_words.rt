//! Words of a shell: what was written of names is read as these names, and nothing else.
ghost use Rattle.std.specs.Prelude.{◌≡◌, ◌≢◌, ◌⊎◌, ◌∷◌, ◌++◌, [], false, true, Ok, Err, ℕ, List, IfOk, MatchResult, codes, map, string_bytes};
ghost use Rattle.std.specs.Char.{encode_utf8};
ghost use Rattle.std.specs.Int.{is_in_range};
ghost use Rattle.std.specs.List.{flat_map};
ghost use Rattle.std.specs.Str.{chars};
ghost use Rattle.platform_str.specs.Strings.{bytes, string_vec_of};
ghost use Rattle.os_command_line.specs.Charset.{double_byte};
ghost use Rattle.os_command_line.specs.Shell.{AreWords, IsTextOf, language};
ghost use Rattle.os_command_line.specs.ShellCharacters.{Reads as ReadsCharacters};
ghost use Rattle.os_command_line.specs.ShellViews.{is_refused};
ghost use Rattle.os_command_line.specs.ShellWriting.{IsLineText};
ghost use Rattle.os_command_line.specs.declared.shell.error.ShellError.TheVariants.{Nul, Memory};
ghost use Rattle.test_line_uses.specs.Faults.{special_at, unclosed_at};

use os_command_line::shell::{
    ShellError, Specials, Words, join, laws, push_word, quote, quote_line, quoted_fish,
    quoted_powershell,
};
use platform_str::{OsStr, OsString, Unix, Windows};
use std::alloc::{AllocError, Allocator, Global};

/// The words of a line that is the text of a name, as [`quote`] writes it: this name alone.
pub fn only_word<'l>(line: OsStr<'l, Unix>, specials: Specials) -> Words<'l>
    ensures { (name : List ℕ)
        → IsTextOf (language (is_refused specials) false) (bytes line.entry) name
        → result ≡ Ok name ∷ [] }
{
    laws::words();
    laws::lines();
    Words::new(line, specials)
}

/// The words of a line that is the text of a name, as [`quote_line`] writes it where `$'..'` is
/// read: this name alone.
pub fn only_line_word<'l>(line: OsStr<'l, Unix>, specials: Specials) -> Words<'l>
    ensures { (name : List ℕ)
        → IsTextOf (language (is_refused specials) true) (bytes line.entry) name
        → result ≡ Ok name ∷ [] }
{
    laws::words();
    laws::lines();
    Words::with_dollar_quotes(line, specials)
}

/// The words of a line that is the words of names, as `join` writes it: these names.
pub fn all_words<'l>(line: OsStr<'l, Unix>, specials: Specials) -> Words<'l>
    ensures { (names : List (List ℕ))
        → AreWords (language (is_refused specials) false) (bytes line.entry) names
        → result ≡ map Ok names }
{
    laws::lines();
    Words::new(line, specials)
}

/// The words of two names, which are equal only if the names are.
pub fn two_words<A: Allocator + Copy>(
    alloc: A,
    first: OsStr<'_, Unix>,
    second: OsStr<'_, Unix>,
) -> Result<(OsString<Unix, A>, OsString<Unix, A>), ShellError>
    ensures { IfOk result (λ words. (string_vec_of words.0).items ≡ (string_vec_of words.1).items
        → bytes first.entry ≡ bytes second.entry) }
{
    laws::words();
    let one = quote(alloc, first)?;
    let other = quote(alloc, second)?;
    Ok((one, other))
}

/// The words of two names on one line, which are equal only if the names are.
pub fn two_line_words<A: Allocator + Copy>(
    alloc: A,
    first: OsStr<'_, Unix>,
    second: OsStr<'_, Unix>,
) -> Result<(OsString<Unix, A>, OsString<Unix, A>), ShellError>
    ensures { IfOk result (λ words. (string_vec_of words.0).items ≡ (string_vec_of words.1).items
        → bytes first.entry ≡ bytes second.entry) }
{
    laws::line_words();
    let one = quote_line(alloc, first)?;
    let other = quote_line(alloc, second)?;
    Ok((one, other))
}

/// A name's word on one line: what a shell reads from its characters in GBK, before a space, is the name.
pub fn word_in_gbk<A: Allocator>(
    alloc: A,
    name: OsStr<'_, Unix>,
) -> Result<OsString<Unix, A>, ShellError>
    ensures { IfOk result (λ word. (read : List ℕ) → (rest : List (List ℕ))
        → ReadsCharacters (language true true) true
        (double_byte (is_in_range 0x81 0xFE) (is_in_range 0x40 0xFE)
        ((string_vec_of word).items ++ 0x20 ∷ [])) read rest
        → read ≡ bytes name.entry) }
{
    laws::charsets();
    laws::charset_words();
    quote_line(alloc, name)
}

/// The word in fish of a character past ASCII and a single quote: no backslash comes after the character.
pub fn fish_word_after_wide(alloc: Global) -> Result<String, AllocError>
    ensures { IfOk result (λ text. string_bytes text
        ≡ 0x27 ∷ 0xC3 ∷ 0x81 ∷ 0x27 ∷ 0x5C ∷ 0x27 ∷ 0x27 ∷ 0x27 ∷ []) }
{
    match quoted_fish(OsStr::new("\u{C1}'")) {
        Ok(quoted) => quoted.to_string(alloc),
        Err(_) => Err(AllocError),
    }
}

/// A line of a reserved word, twice: where it is first it is quoted.
pub fn line_of_reserved<A: Allocator>(alloc: A) -> Result<OsString<Unix, A>, ShellError>
    ensures { IfOk result (λ line. (string_vec_of line).items ≡ codes "'time' time") }
{
    join(alloc, &[OsStr::new("time"), OsStr::new("time")])
}

/// A line to which a reserved word was appended twice: only the first is quoted.
pub fn line_pushed<A: Allocator>(alloc: A) -> Result<Vec<u8, A>, ShellError>
    ensures { IfOk result (λ line. line.items ≡ codes "'if'if") }
{
    let mut line = Vec::new(alloc);
    push_word(&mut line, OsStr::new("if"))?;
    push_word(&mut line, OsStr::new("if"))?;
    Ok(line)
}

/// A word on one line.
pub fn word_on_line<A: Allocator>(
    alloc: A,
    name: OsStr<'_, Unix>,
) -> Result<OsString<Unix, A>, ShellError>
    ensures { IfOk result (λ word. IsLineText (string_vec_of word).items) }
{
    quote_line(alloc, name)
}

/// The word of a text that needs quotes, byte by byte.
pub fn word_of_text<A: Allocator>(alloc: A) -> Result<OsString<Unix, A>, ShellError>
    ensures { IfOk result (λ word. (string_vec_of word).items ≡ codes "'~a'\\''b'") }
{
    quote(alloc, OsStr::new("~a'b"))
}

/// The word of an empty name, which isn't nothing.
pub fn word_of_no_text<A: Allocator>(alloc: A) -> Result<OsString<Unix, A>, ShellError>
    ensures { IfOk result (λ word. (string_vec_of word).items ≡ codes "''") }
{
    quote(alloc, OsStr::new(""))
}

/// The word of a name that begins with a tilde, which shells would expand.
pub fn word_of_tilde<A: Allocator>(alloc: A) -> Result<OsString<Unix, A>, ShellError>
    ensures { IfOk result (λ word. (string_vec_of word).items ≡ codes "'~a'") }
{
    quote(alloc, OsStr::new("~a"))
}

/// The word of a name whose only special byte is a single quote.
pub fn word_of_quote<A: Allocator>(alloc: A) -> Result<OsString<Unix, A>, ShellError>
    ensures { IfOk result (λ word. (string_vec_of word).items ≡ codes "'a'\\''s'") }
{
    quote(alloc, OsStr::new("a's"))
}

/// The word of a plain name, and of one with a line below.
pub fn word_of_plain<A: Allocator>(alloc: A) -> Result<OsString<Unix, A>, ShellError>
    ensures { IfOk result (λ word. (string_vec_of word).items ≡ codes "a_z") }
{
    quote(alloc, OsStr::new("a_z"))
}

/// The word of a name whose second byte is NUL: it is refused with that index.
pub fn word_with_nul<A: Allocator>(
    alloc: A,
    name: OsStr<'_, Unix>,
) -> Result<OsString<Unix, A>, ShellError>
    ensures { bytes name.entry ≡ 0x61 ∷ 0 ∷ []
        → MatchResult result (λ _. ⊥) (λ fault. (fault ≡ Nul 1) ⊎ (fault ≡ Memory)) }
{
    quote(alloc, name)
}

/// The words of a line that ends within single quotes: the one before them, and a fault at their index.
pub fn words_before_fault<'l>(line: OsStr<'l, Unix>) -> Words<'l>
    ensures { bytes line.entry ≡ codes "a 'b"
        → result ≡ Ok (codes "a") ∷ Err (unclosed_at 2) ∷ [] }
{
    laws::lines();
    Words::new(line, Specials::Refused)
}

/// The words of a line of a backslash and a newline: none.
pub fn words_of_joined_line<'l>(line: OsStr<'l, Unix>, specials: Specials) -> Words<'l>
    ensures { bytes line.entry ≡ codes "\\\n" → result ≡ [] }
{
    laws::lines();
    Words::new(line, specials)
}

/// The words of a line of `$`, a backslash and a newline, and `a` in single quotes: `a`.
pub fn words_of_joined_dollar<'l>(line: OsStr<'l, Unix>, specials: Specials) -> Words<'l>
    ensures { bytes line.entry ≡ codes "$\\\n'a'" → result ≡ Ok (codes "a") ∷ [] }
{
    laws::lines();
    Words::with_dollar_quotes(line, specials)
}

/// The words of a line with an exclamation mark: the one before it, and a fault at its index.
pub fn words_before_history<'l>(line: OsStr<'l, Unix>) -> Words<'l>
    ensures { bytes line.entry ≡ codes "a !b"
        → result ≡ Ok (codes "a") ∷ Err (special_at 2) ∷ [] }
{
    laws::lines();
    Words::new(line, Specials::Refused)
}

/// A string of PowerShell of a text with a single quotation mark, byte by byte.
pub fn string_of_quote(alloc: Global, name: OsStr<'_, Windows>) -> Result<String, AllocError>
    ensures { IfOk result (λ text. chars (bytes name.entry) ≡ codes "a'b"
        → string_bytes text ≡ codes "'a''b'") }
{
    match quoted_powershell(name) {
        Ok(quoted) => quoted.to_string(alloc),
        Err(_) => Err(AllocError),
    }
}

/// A string of PowerShell of two typographic quotation marks: not these in quotation marks, where the
/// first would escape the second.
pub fn string_of_marks(alloc: Global, name: OsStr<'_, Windows>) -> Result<String, AllocError>
    ensures { IfOk result (λ text. chars (bytes name.entry) ≡ 0x201B ∷ 0x201B ∷ []
        → string_bytes text
        ≢ flat_map encode_utf8 (0x27 ∷ 0x201B ∷ 0x201B ∷ 0x27 ∷ [])) }
{
    laws::other_shells();
    match quoted_powershell(name) {
        Ok(quoted) => quoted.to_string(alloc),
        Err(_) => Err(AllocError),
    }
}
