//! Joins: what `push` makes, and what a string starts with.
ghost use Rattle.std.specs.Prelude.{◌≡◌, ◌↔◌, ◌++◌, ℕ, List, IfOk, OnOk, IsTrue};
ghost use Rattle.wtf8_core.specs.Join.{IsJoin};
ghost use Rattle.platform_str.specs.Strings.{bytes, string_vec_of};

use os_str_ext::OsStrBytesExt;
use platform_str::{OsStr, OsString, Platform, laws};
use std::alloc::{AllocError, Allocator, Global};

/// Any two strings have a join.
pub fn has_join<'a, E: Platform + 'a>(a: OsStr<'a, E>, b: OsStr<'a, E>) -> OsStr<'a, E>
    ensures same { bytes result ≡ bytes a.entry }
    ensures some { (joined : List ℕ)
        × IsJoin E.well_formed E.units (bytes a.entry) (bytes b.entry) joined }
{
    laws::joins::<E>();
    a
}

/// A string pushed onto two equal ones, which are equal again.
pub fn pushed_alike<E: Platform, A: Allocator>(
    a: &mut OsString<E, A>,
    b: &mut OsString<E, A>,
    more: OsStr<'_, E>,
) -> Result<(), AllocError>
    requires { (string_vec_of a.old).items ≡ (string_vec_of b.old).items }
    ensures alike { OnOk result ((string_vec_of a.new).items ≡ (string_vec_of b.new).items) }
    ensures units { OnOk result (E.units (string_vec_of a.new).items
        ≡ E.units (string_vec_of a.old).items ++ E.units (bytes more.entry)) }
{
    laws::joins::<E>();
    a.push(more)?;
    b.push(more)
}

/// Three strings joined, the first two first and the last two first, which is the same string.
pub fn joined_either_way<'a, E: Platform + 'a>(
    alloc: Global,
    a: OsStr<'a, E>,
    b: OsStr<'a, E>,
    c: OsStr<'a, E>,
) -> Result<(OsString<E>, OsString<E>), AllocError>
    ensures alike { IfOk result (λ both. (string_vec_of both.0).items
        ≡ (string_vec_of both.1).items) }
    ensures units { IfOk result (λ both. E.units (string_vec_of both.0).items
        ≡ E.units (bytes a.entry) ++ E.units (bytes b.entry) ++ E.units (bytes c.entry)) }
{
    laws::joins::<E>();
    Ok((
        joined_from_the_start(alloc, a, b, c)?,
        joined_from_the_end(alloc, a, b, c)?,
    ))
}

/// Three strings joined, the first two first.
fn joined_from_the_start<'a, E: Platform + 'a>(
    alloc: Global,
    a: OsStr<'a, E>,
    b: OsStr<'a, E>,
    c: OsStr<'a, E>,
) -> Result<OsString<E>, AllocError>
    ensures { IfOk result (λ joined. E.units (string_vec_of joined).items
        ≡ E.units (bytes a.entry) ++ E.units (bytes b.entry) ++ E.units (bytes c.entry)) }
{
    let mut joined = a.to_owned(alloc)?;
    joined.push(b)?;
    joined.push(c)?;
    Ok(joined)
}

/// Three strings joined, the last two first.
fn joined_from_the_end<'a, E: Platform + 'a>(
    alloc: Global,
    a: OsStr<'a, E>,
    b: OsStr<'a, E>,
    c: OsStr<'a, E>,
) -> Result<OsString<E>, AllocError>
    ensures { IfOk result (λ joined. E.units (string_vec_of joined).items
        ≡ E.units (bytes a.entry) ++ E.units (bytes b.entry) ++ E.units (bytes c.entry)) }
{
    let mut back = b.to_owned(alloc)?;
    back.push(c)?;
    let mut joined = a.to_owned(alloc)?;
    joined.push(back.as_os_str())?;
    Ok(joined)
}

/// Whether a string starts with another: exactly where it is the join of that one and some
/// string.
pub fn starts_as_joined<'a, E: Platform + 'a>(string: OsStr<'a, E>, prefix: OsStr<'a, E>) -> bool
    ensures { IsTrue result ↔ ((rest : List ℕ)
        × (E.well_formed rest × IsJoin E.well_formed E.units (bytes prefix.entry) rest
        (bytes string.entry))) }
{
    laws::joins::<E>();
    string.starts_with_os(prefix)
}

/// Whether a string onto which one was pushed starts with what it was: it always does.
pub fn starts_with_what_was_there<'a, E: Platform + 'a>(
    longer: &mut OsString<E>,
    string: OsStr<'a, E>,
    more: OsStr<'a, E>,
) -> Result<bool, AllocError>
    requires { (string_vec_of longer.old).items ≡ bytes string }
    ensures { IfOk result (λ starts. IsTrue starts) }
{
    longer.push(more)?;
    Ok(E::starts_with_os(
        longer.as_os_str().as_encoded_bytes(),
        string.as_encoded_bytes(),
    ))
}
