//! The first of the patterns that matches a name.
ghost use Rattle.std.specs.Prelude.{◌≡◌, ◌<◌, ℕ, Option, map, length, string_bytes, IfOk};
ghost use Rattle.os_str_bytes.specs.Strings.{bytes};
ghost use Rattle.names_commands.specs.FirstGlob.{IsFirstBy, IsTypedAt};
ghost use Rattle.names_commands.specs.Why.{IsGlobReason, IsTextOfFirst};

use crate::pick::{added_before, typed};
use crate::why::push_at;
use glob_patterns::GlobSet;
use list_programs::items::push_ended;
use list_programs::lines::push_line;
use os_str_bytes::{OsStr, Platform};
use std::alloc::{AllocError, Allocator, Global};

/// Patterns, compiled and as texts.
#[derive(Drop)]
pub struct Globs<'r, E: Platform, A: Allocator = Global> {
    /// The patterns, compiled.
    pub set: GlobSet<E, A>,
    /// Their texts.
    pub texts: &'r [String<A>],
    /// How many come before those of `--name`. The others begin with `**/`, which wasn't typed.
    pub plain: usize,
    ghost counted: { length texts.now ≡ length set.set.patterns.items },
}

/// What is written for a name that no line decides: the first pattern that matches it, and its escape,
/// or nothing where none does.
pub(crate) fn text_of_first<E: Platform, A: Allocator + Copy, B: Allocator>(
    alloc: A,
    globs: &Globs<'_, E, B>,
    name: OsStr<'_, E>,
) -> Result<Vec<u8, A>, AllocError>
    ensures { IfOk result (λ text. (first : Option ℕ)
        × (IsFirstBy ⟦<E as Platform>⟧ globs.now.set (bytes name.entry) first
        × IsTextOfFirst ⟦<E as Platform>⟧ globs.now.plain (map string_bytes globs.now.texts.now)
        (bytes name.entry) first text.items)) }
{
    match first_of(alloc, &globs.set, name)? {
        Some(index) => glob_reason::<E, A, B>(alloc, globs, index, name),
        None => Ok(Vec::new(alloc)),
    }
}

/// The index of the first pattern that matches a name.
fn first_of<E: Platform, A: Allocator, B: Allocator>(
    alloc: A,
    set: &GlobSet<E, B>,
    name: OsStr<'_, E>,
) -> Result<Option<usize>, AllocError>
    ensures { IfOk result (IsFirstBy ⟦<E as Platform>⟧ set.now (bytes name.entry)) }
{
    let mut found = Vec::new(alloc);
    set.matches(name, &mut found)?;
    match found.first() {
        Some(index) => Ok(Some(*index)),
        None => Ok(None),
    }
}

/// The pattern at `index`, and the escape of the name that it matches.
fn glob_reason<E: Platform, A: Allocator + Copy, B: Allocator>(
    alloc: A,
    globs: &Globs<'_, E, B>,
    index: usize,
    name: OsStr<'_, E>,
) -> Result<Vec<u8, A>, AllocError>
    requires { index < length globs.now.texts.now }
    ensures { IfOk result (λ reason. IsGlobReason ⟦<E as Platform>⟧ globs.now.plain
        (map string_bytes globs.now.texts.now) (bytes name.entry) index reason.items) }
{
    let pattern = typed_at(globs.plain, globs.texts, index);
    let mut reason = Vec::new(alloc);
    push_ended(b"GLOB", b':', &mut reason)?;
    push_at(alloc, index + 1, pattern, &mut reason)?;
    push_line(alloc, name, &mut reason)?;
    Ok(reason)
}

/// What was typed of the pattern at `index`, where `plain` patterns come before those of `--name`.
fn typed_at<A: Allocator>(plain: usize, patterns: &[String<A>], index: usize) -> &[u8]
    requires { index < length patterns.now }
    ensures { IsTypedAt plain (map string_bytes patterns.now) index result.now }
{
    typed(patterns[index].as_bytes(), added_before(plain, index))
}
