//! Paths of a platform that are compared by their components.
ghost use Rattle.std.specs.Prelude.{◌≡◌, Some, refl};
ghost use Rattle.std.specs.Ordering.{is_eq};
ghost use Rattle.std.specs.Cmp.{eq_by_cmp_equiv, partial_order_from_total, partial_equiv_from_equiv};
ghost use Rattle.platform_str.specs.Strings.{path_bytes};
ghost use Rattle.path_rules.specs.Keys.{HasKeys, keys_cmp, keys_writes};

use crate::style::PathStyle;
use platform_str::{Path, Platform};
use std::cmp::Ordering;
use std::hash::{Hash, Hasher};

/// A path that is compared, ordered and hashed by its components (std's `==`, `Ord` and `Hash` of
/// `Path`), as the key of a map.
///
/// Paths of a platform have no `==` of their own: a [`platform_str::OsStr`] is compared by its
/// bytes, and this by its components, one by one. A prefix is less than a root, that than `.`, that
/// than `..`, that than a name, and names are compared as bytes. Prefixes are compared by kind and
/// parts, so that the drives `C:` and `c:` are the same.
///
/// ```
/// use os_path::ByComponents;
/// use platform_str::{OsStr, Path, Unix};
///
/// let path = ByComponents::new(Path::<Unix>::new(OsStr::new("/usr//lib/")));
/// assert!(rt; path == ByComponents::new(Path::new(OsStr::new("/usr/./lib"))));
/// assert!(rt; path < ByComponents::new(Path::new(OsStr::new("/usr/lib/a"))));
/// ```
#[derive_where(Clone, Copy)]
pub struct ByComponents<'a, E: Platform + 'a> {
    path: Path<'a, E>,
    keys: path_rules::ByComponents<'a>,
}

impl<'a, E: PathStyle> ByComponents<'a, E> {
    ghost use Rattle.os_path.specs.Keys.{path_keys, compared_bytes};

    /// The path, for comparisons (own call).
    ///
    /// ```
    /// use os_path::ByComponents;
    /// use platform_str::{OsStr, Path, Windows};
    ///
    /// let path = ByComponents::new(Path::<Windows>::new(OsStr::new("C:\\a\\b")));
    /// assert!(rt; path == ByComponents::new(Path::new(OsStr::new("c:/a/b/"))));
    /// ```
    #[inline(always)]
    pub fn new(path: Path<'a, E>) -> Self
        ensures keys { HasKeys E.follows (path_bytes path.entry) (path_keys result) }
        ensures path { compared_bytes result ≡ path_bytes path.entry }
    {
        let bytes = path.as_os_str().as_encoded_bytes();
        ByComponents {
            path,
            keys: path_rules::ByComponents::new(E::style(), bytes),
        }
    }

    /// The path as it was given (own call).
    ///
    /// ```
    /// use os_path::ByComponents;
    /// use platform_str::{OsStr, Path, Unix};
    ///
    /// let path = ByComponents::new(Path::<Unix>::new(OsStr::new("a//b")));
    /// assert!(rt; path.path().as_os_str() == OsStr::new("a//b"));
    /// ```
    pub fn path(self) -> Path<'a, E>
        ensures { path_bytes result ≡ compared_bytes self.entry }
    {
        self.path
    }
}

impl<'a, E: Platform> PartialEq for ByComponents<'a, E> {
    ghost use Rattle.os_path.specs.Keys.{path_keys, by_path_keys_total};

    ghost eq = { λ x y. is_eq (keys_cmp (path_keys x) (path_keys y)) };

    ghost laws = { partial_equiv_from_equiv (eq_by_cmp_equiv by_path_keys_total) };

    #[inline(always)]
    fn eq(&self, other: &Self) -> bool {
        self.keys == other.keys
    }
}

impl<'a, E: Platform> Eq for ByComponents<'a, E> {
    ghost use Rattle.os_path.specs.Keys.{by_path_keys_total};

    ghost laws = { eq_by_cmp_equiv by_path_keys_total };
}

impl<'a, E: Platform> PartialOrd for ByComponents<'a, E> {
    ghost use Rattle.os_path.specs.Keys.{path_keys, by_path_keys_total};

    ghost partial_cmp = { λ x y. Some (keys_cmp (path_keys x) (path_keys y)) };

    ghost laws = { partial_order_from_total by_path_keys_total };

    #[inline(always)]
    fn partial_cmp(&self, other: &Self) -> Option<Ordering> {
        self.keys.partial_cmp(&other.keys)
    }
}

impl<'a, E: Platform> Ord for ByComponents<'a, E> {
    ghost use Rattle.os_path.specs.Keys.{path_keys, by_path_keys_total};

    ghost cmp = { λ x y. keys_cmp (path_keys x) (path_keys y) };

    ghost total = { by_path_keys_total };

    ghost matches_partial_cmp = { λ x y. refl };

    ghost matches_eq = { λ x y. refl };

    #[inline(always)]
    fn cmp(&self, other: &Self) -> Ordering {
        self.keys.cmp(&other.keys)
    }
}

impl<'a, E: Platform> Hash for ByComponents<'a, E> {
    ghost use Rattle.os_path.specs.Keys.{path_keys, path_hashes_alike};

    ghost hash_input = { λ x. keys_writes (path_keys x) };

    ghost respects_eq = { path_hashes_alike };

    fn hash<H: Hasher>(&self, state: &mut H) {
        self.keys.hash(state);
    }
}
