//! Names as words of a shell. Each export states its clauses whole, for who comes to it from the
//! header.
ghost use Rattle.std.specs.Prelude.{◌≡◌, ◌⊎◌, ◌<◌, ◌↔◌, ◌*◌, ◌+◌, ◌^◌, ◌∷◌, [], length, MatchResult, OnOk};
ghost use Rattle.os_command_line.specs.Fish.{fish_word, IsFishText};
ghost use Rattle.os_command_line.specs.ReservedWords.{first_word};
ghost use Rattle.os_command_line.specs.ShellWriting.{quoted_word, IsLineWord, HasNoNul, IsFirstNul};
ghost use Rattle.osbytes_c.specs.Answers.{IsOneOf, IsWritten, Writes};
ghost use Rattle.osbytes_c.specs.Words.{IsWordOf};
ghost use Rattle.osbytes_c.specs.Statuses.{done, has_nul, no_room, too_long};

use crate::status::{HAS_NUL, TOO_LONG, fits};
use crate::strings::unix;
use os_command_line::shell::{
    NulError, write_quoted, write_quoted_first, write_quoted_fish, write_quoted_line,
};

/// Whose word it is.
#[derive(Clone, Copy)]
pub(crate) enum Shell {
    /// That of every POSIX shell.
    Posix,
    /// That of every POSIX shell, for the first word on a line.
    First,
    /// That of the shells that read `$'..'`, on one line.
    Line,
    /// That of fish.
    Fish,
}

/// Writes the word of a name in every POSIX shell into `out`, as far as there is room, and counts
/// its bytes: at most four for each byte of the name, and three. `index` is that of the name's
/// first NUL.
#[unsafe(no_mangle)]
pub extern "C" fn osb_core_shell_quote(
    name: &[u8],
    out: &mut [u8],
    count: &mut usize,
    index: &mut usize,
) -> u32
    ensures written { IsWritten result (λ word. word ≡ quoted_word name.now) out.old out.new
        count.new }
    ensures name { (result ≡ done) ⊎ (result ≡ no_room) → HasNoNul name.now }
    ensures nul { result ≡ has_nul → IsFirstNul name.now index.new }
    ensures long { (result ≡ too_long) ↔ (usize.MAX < 4 * length name.now + 3) }
    ensures answers { IsOneOf (done ∷ no_room ∷ has_nul ∷ too_long ∷ []) result }
{
    quote(Shell::Posix, name, out, count, index)
}

/// Writes the word of a name that is first on a line, where a reserved word is quoted.
#[unsafe(no_mangle)]
pub extern "C" fn osb_core_shell_quote_first(
    name: &[u8],
    out: &mut [u8],
    count: &mut usize,
    index: &mut usize,
) -> u32
    ensures written { IsWritten result (λ word. word ≡ first_word name.now) out.old out.new
        count.new }
    ensures name { (result ≡ done) ⊎ (result ≡ no_room) → HasNoNul name.now }
    ensures nul { result ≡ has_nul → IsFirstNul name.now index.new }
    ensures long { (result ≡ too_long) ↔ (usize.MAX < 4 * length name.now + 3) }
    ensures answers { IsOneOf (done ∷ no_room ∷ has_nul ∷ too_long ∷ []) result }
{
    quote(Shell::First, name, out, count, index)
}

/// Writes the word of a name on one line, for the shells that read `$'..'`.
#[unsafe(no_mangle)]
pub extern "C" fn osb_core_shell_quote_line(
    name: &[u8],
    out: &mut [u8],
    count: &mut usize,
    index: &mut usize,
) -> u32
    ensures written { IsWritten result (IsLineWord name.now) out.old out.new count.new }
    ensures name { (result ≡ done) ⊎ (result ≡ no_room) → HasNoNul name.now }
    ensures nul { result ≡ has_nul → IsFirstNul name.now index.new }
    ensures long { (result ≡ too_long) ↔ (usize.MAX < 4 * length name.now + 3) }
    ensures answers { IsOneOf (done ∷ no_room ∷ has_nul ∷ too_long ∷ []) result }
{
    quote(Shell::Line, name, out, count, index)
}

/// Writes the word of a name in fish.
#[unsafe(no_mangle)]
pub extern "C" fn osb_core_fish_quote(
    name: &[u8],
    out: &mut [u8],
    count: &mut usize,
    index: &mut usize,
) -> u32
    ensures written { IsWritten result
        (λ word. IsFishText word name.now × (word ≡ fish_word name.now)) out.old out.new
        count.new }
    ensures name { (result ≡ done) ⊎ (result ≡ no_room) → HasNoNul name.now }
    ensures nul { result ≡ has_nul → IsFirstNul name.now index.new }
    ensures long { (result ≡ too_long) ↔ (usize.MAX < 4 * length name.now + 3) }
    ensures answers { IsOneOf (done ∷ no_room ∷ has_nul ∷ too_long ∷ []) result }
{
    quote(Shell::Fish, name, out, count, index)
}

/// Writes the word of a name in a shell.
fn quote(shell: Shell, name: &[u8], out: &mut [u8], count: &mut usize, index: &mut usize) -> u32
    ensures written { IsWritten result (IsWordOf shell name.now) out.old out.new count.new }
    ensures name { (result ≡ done) ⊎ (result ≡ no_room) → HasNoNul name.now }
    ensures nul { result ≡ has_nul → IsFirstNul name.now index.new }
    ensures long { (result ≡ too_long) ↔ (usize.MAX < 4 * length name.now + 3) }
    ensures answers { IsOneOf (done ∷ no_room ∷ has_nul ∷ too_long ∷ []) result }
{
    if name.len() > usize::MAX / 4 {
        return TOO_LONG;
    }
    match write_word(shell, name, out) {
        Ok(written) => {
            *count = written;
            fits(written, out.len())
        }
        Err(fault) => {
            *index = fault.index;
            HAS_NUL
        }
    }
}

/// Writes the word of a name in a shell, truncated, and counts its bytes.
#[inline(always)]
fn write_word(shell: Shell, name: &[u8], out: &mut [u8]) -> Result<usize, NulError>
    requires { 4 * length name.now + 3 < 2 ^ 64 }
    ensures word { MatchResult result
        (λ count. Writes (IsWordOf shell name.now) out.old out.new count)
        (λ fault. IsFirstNul name.now fault.index) }
    ensures name { OnOk result (HasNoNul name.now) }
{
    match shell {
        Shell::Posix => write_quoted(unix(name), out),
        Shell::First => write_quoted_first(unix(name), out),
        Shell::Line => write_quoted_line(unix(name), out),
        Shell::Fish => write_quoted_fish(unix(name), out),
    }
}
