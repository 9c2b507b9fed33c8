//! The prefix of a path, with parts that are strings of its platform.
ghost use Rattle.std.specs.Prelude.{◌≡◌, List, ℕ, MatchOption};
ghost use Rattle.platform_str.specs.Strings.{bytes};
ghost use Rattle.path_rules.specs.Prefix.{Kind, IsPrefixOf};
ghost use Rattle.path_rules.specs.PrefixViews.{kind_of};
ghost use Rattle.os_path.specs.Prefixes.{os_kind_of, HasPrefix, HasNoPrefix, IsFormedKind};

use crate::style::PathStyle;
use path_rules::{Prefix, Style};
use platform_str::OsStr;

/// The prefix of a path, if it has one.
pub(crate) fn prefix_of<'a, E: PathStyle>(path: OsStr<'a, E>) -> Option<Prefix<OsStr<'a, E>>>
    ensures { MatchOption result (HasNoPrefix E.follows (bytes path.entry))
        (λ prefix. HasPrefix E.follows (bytes path.entry) (os_kind_of prefix)) }
{
    match E::style() {
        Style::Unix => None,
        Style::Windows => windows_prefix(path),
    }
}

/// The prefix of a Windows path.
fn windows_prefix<'a, E: PathStyle>(path: OsStr<'a, E>) -> Option<Prefix<OsStr<'a, E>>>
    ensures { MatchOption result
        ((kind : Kind) → (rest : List ℕ) → ¬ (IsPrefixOf (bytes path.entry) kind rest))
        (λ prefix. (rest : List ℕ) × IsPrefixOf (bytes path.entry) (os_kind_of prefix) rest) }
{
    match path_rules::windows_prefix(path.as_encoded_bytes()) {
        Some((prefix, _)) => Some(strings_of(prefix)),
        None => None,
    }
}

/// A prefix of well-formed bytes, as strings.
fn strings_of<'a, E: PathStyle>(prefix: Prefix<&'a [u8]>) -> Prefix<OsStr<'a, E>>
    requires { IsFormedKind E.well_formed (kind_of prefix) }
    ensures { os_kind_of result ≡ kind_of prefix.entry }
{
    match prefix {
        Prefix::Verbatim(name) => Prefix::Verbatim(OsStr::from_encoded_bytes_unchecked(name)),
        Prefix::VerbatimUnc(server, share) => Prefix::VerbatimUnc(
            OsStr::from_encoded_bytes_unchecked(server),
            OsStr::from_encoded_bytes_unchecked(share),
        ),
        Prefix::VerbatimDisk(letter) => Prefix::VerbatimDisk(letter),
        Prefix::Device(name) => Prefix::Device(OsStr::from_encoded_bytes_unchecked(name)),
        Prefix::Unc(server, share) => Prefix::Unc(
            OsStr::from_encoded_bytes_unchecked(server),
            OsStr::from_encoded_bytes_unchecked(share),
        ),
        Prefix::Disk(letter) => Prefix::Disk(letter),
    }
}
