//! Prefixes, parents and last names of paths, and which are absolute.
ghost use Rattle.std.specs.Prelude.{◌↔◌, ℕ, List, IsTrue, MatchOption};
ghost use Rattle.path_rules.specs.Parent.{IsParent, HasNoParent, HasFileName, HasNoFileName};
ghost use Rattle.path_rules.specs.Prefix.{Kind, IsPrefixOf};
ghost use Rattle.path_rules.specs.PrefixViews.{kind_of};
ghost use Rattle.path_rules.specs.Root.{IsAbsolute};

use path_rules::{Prefix, Style};

/// The prefix of a Windows path, and what follows it.
pub fn windows_prefix(path: &[u8]) -> Option<(Prefix<&[u8]>, &[u8])>
    ensures { MatchOption result
        ((kind : Kind) → (rest : List ℕ) → ¬ (IsPrefixOf path.now kind rest))
        (λ found. IsPrefixOf path.now (kind_of found.0) found.1.now) }
{
    path_rules::windows_prefix(path)
}

/// The path without its last component.
pub fn parent(style: Style, path: &[u8]) -> Option<&[u8]>
    ensures { MatchOption result (HasNoParent style path.now)
        (λ parent. IsParent style path.now parent.now) }
{
    path_rules::parent(style, path)
}

/// The last component, if it is a name.
pub fn file_name(style: Style, path: &[u8]) -> Option<&[u8]>
    ensures { MatchOption result (HasNoFileName style path.now)
        (λ name. HasFileName style path.now name.now) }
{
    path_rules::file_name(style, path)
}

/// Whether a path is absolute.
pub fn is_absolute(style: Style, path: &[u8]) -> bool
    ensures { IsTrue result ↔ IsAbsolute style path.now }
{
    path_rules::is_absolute(style, path)
}
