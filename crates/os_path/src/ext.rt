//! The calls that every path of a platform has.
ghost use Rattle.std.specs.Prelude.{List, ℕ, ◌≡◌, ◌↔◌, IsTrue, MatchOption, Bool, Some, IfOk, IfErr, map};
ghost use Rattle.platform_str.specs.Strings.{bytes, path_bytes, path_vec_of};
ghost use Rattle.path_building.specs.Join.{IsJoin};
ghost use Rattle.path_building.specs.FileName.{IsNamed, IsExtensionSet, IsExtensionAdded};
ghost use Rattle.path_building.specs.FileStem.{IsStemSet};
ghost use Rattle.path_building.specs.Trailing.{IsWithTrailingSep};
ghost use Rattle.path_rules.specs.Name.{IsExtension, IsExtensionText, HasNoExtension};
ghost use Rattle.path_rules.specs.Components.{AreComponents};
ghost use Rattle.path_rules.specs.Parent.{IsParent, HasNoParent, HasFileName, HasNoFileName};
ghost use Rattle.path_rules.specs.Root.{HasRoot, IsAbsolute};
ghost use Rattle.path_rules.specs.Component.{Item};
ghost use Rattle.path_rules.specs.Compare.{StartsWith, EndsWith, HaveAlikeComponents};
ghost use Rattle.path_rules.specs.Strip.{IsStripped};
ghost use Rattle.path_rules.specs.Simplified.{IsSimplified};
ghost use Rattle.path_rules.specs.StyleRules.{rules_of_style};
ghost use Rattle.path_rules.specs.Trailing.{EndsWithSeparator, TrimsTrailing};
ghost use Rattle.path_building.specs.Normalized.{IsNormalized, IsNormalizeFault};
ghost use Rattle.path_building.specs.Cleaned.{IsCleaned};
ghost use Rattle.path_building.specs.Checked.{IsCheckedJoin, IsBelowBase};
ghost use Rattle.path_building.specs.Faults.{IsBaseFault, IsJoinFault};
ghost use Rattle.path_building.specs.CheckedEnd.{IsCheckedJoinEnded};
ghost use Rattle.path_building.specs.FullPath.{IsFullPath, IsAbsoluteFault};
ghost use Rattle.path_building.specs.Relative.{IsRelativeFrom};
ghost use Rattle.path_building.specs.Restyled.{IsRestyled};
ghost use Rattle.os_path.specs.Bases.{path_of_base};
ghost use Rattle.os_path.specs.Converted.{IsConvertFault};
ghost use Rattle.std.specs.Option.{option_map};
ghost use Rattle.os_path.specs.Prefixes.{os_kind_of, HasPrefix, HasNoPrefix};
ghost use Rattle.os_path.specs.Compared.{IsOrder};
ghost use Rattle.os_path.specs.Reserved.{IsReservedPath};
ghost use Rattle.path_building.specs.Collected.{string_of};
ghost use Rattle.os_path.specs.Names.{HasFileStem, HasFilePrefix, HasExtension, LacksExtension};

use crate::ancestors::Ancestors;
use crate::base::Base;
use crate::compared::{are_equal, order};
use crate::components::{Components, name_of};
use crate::iter::Iter;
use crate::made::{part, path_of};
use crate::prefixes::prefix_of;
use crate::reserved::has_reserved_name;
use crate::style::PathStyle;
use crate::styles::{ConvertError, checked};
use path_building::{AbsoluteError, BaseError, JoinError, NormalizeError, StyleError};
use path_rules::Prefix;
use platform_str::{OsStr, Path, PathBuf, Platform};
use std::alloc::{AllocError, Allocator};
use std::cmp::Ordering;

/// The calls of std's `Path` that look at the path alone, for a path of any platform.
///
/// Components are those of `path_rules`: the parts between separators, without empty parts and
/// without each `.` that isn't at the start. `..` is never resolved. Each part that a call returns
/// is a part of the path's bytes and a string of its platform.
pub trait PathExt<'a>: Sized + Copy {
    /// The platform whose rules the path follows.
    type Platform: PathStyle + 'a;

    // the path's bytes
    ghost bytes_of: { Self → List ℕ };

    /// The path's bytes (own call).
    ///
    /// ```
    /// use os_path::PathExt;
    /// use platform_str::{OsStr, Path, Unix};
    ///
    /// assert_eq!(rt; Path::<Unix>::new(OsStr::new("a/b")).path_bytes(), b"a/b".as_slice());
    /// ```
    fn path_bytes(self) -> &'a [u8]
        ensures value { result.now ≡ bytes_of self }
        ensures formed { Self.Platform.well_formed result.now };

    // Components.

    /// The components, from both ends (std's `Path::components`).
    ///
    /// ```
    /// use os_path::{Component, PathExt};
    /// use platform_str::{OsStr, Path, Windows};
    ///
    /// let mut left = Path::<Windows>::new(OsStr::new("C:\\a/.\\..")).components();
    /// assert!(rt; left.next() == Some(Component::Prefix(OsStr::new("C:"))));
    /// assert!(rt; left.next_back() == Some(Component::ParentDir));
    /// assert!(rt; left.next() == Some(Component::RootDir));
    /// assert!(rt; left.next() == Some(Component::Normal(OsStr::new("a"))));
    /// assert!(rt; left.next().is_none());
    /// ```
    final fn components(self) -> Components<'a, Self::Platform>
        ensures items { AreComponents Self.Platform.follows (bytes_of self) result.items }
        ensures style { result.style ≡ Self.Platform.follows }
        ensures path { result.path ≡ bytes_of self }
        ensures taken { result.taken ≡ 0 }
    {
        Components::new(OsStr::from_encoded_bytes_unchecked(self.path_bytes()))
    }

    /// The components as strings, from both ends (std's `Path::iter`); a root is the separator that
    /// is written.
    ///
    /// ```
    /// use os_path::{PathExt, path};
    /// use platform_str::{OsStr, Windows};
    ///
    /// let mut left = path::<Windows>("c:/a/./b").iter();
    /// assert!(rt; left.next() == Some(OsStr::new("c:")));
    /// assert!(rt; left.next() == Some(OsStr::new("\\")));
    /// assert!(rt; left.next_back() == Some(OsStr::new("b")));
    /// assert!(rt; left.next() == Some(OsStr::new("a")) && left.next().is_none());
    /// ```
    final fn iter(self) -> Iter<'a, Self::Platform>
        ensures { (items : List Item) × (AreComponents Self.Platform.follows (bytes_of self) items
            × (result ≡ map (string_of Self.Platform.follows) items)) }
    {
        Iter::new(self.components())
    }

    /// The path without its last component (std's `Path::parent`); `None` if the path has no
    /// component, or if its last one is a prefix or a root.
    ///
    /// ```
    /// use os_path::PathExt;
    /// use platform_str::{OsStr, Path, Unix};
    ///
    /// let path = Path::<Unix>::new(OsStr::new("/usr//lib/"));
    /// assert!(rt; path.parent().is_some_and(|parent| parent.as_os_str() == OsStr::new("/usr")));
    /// assert!(rt; Path::<Unix>::new(OsStr::new("/")).parent().is_none());
    /// ```
    final fn parent(self) -> Option<Path<'a, Self::Platform>>
        ensures { MatchOption result (HasNoParent Self.Platform.follows (bytes_of self))
            (λ parent. IsParent Self.Platform.follows (bytes_of self) (path_bytes parent)) }
    {
        match path_rules::parent(Self::Platform::style(), self.path_bytes()) {
            Some(parent) => Some(part(parent)),
            None => None,
        }
    }

    /// The path and its parents, each after the path that it is the parent of (std's
    /// `Path::ancestors`).
    ///
    /// ```
    /// use os_path::PathExt;
    /// use platform_str::{OsStr, Path, Unix};
    ///
    /// let mut left = Path::<Unix>::new(OsStr::new("/a")).ancestors();
    /// assert!(rt; left.next().is_some_and(|path| path.as_os_str() == OsStr::new("/a")));
    /// assert!(rt; left.next().is_some_and(|path| path.as_os_str() == OsStr::new("/")));
    /// assert!(rt; left.next().is_none());
    /// ```
    final fn ancestors(self) -> Ancestors<'a, Self::Platform>
        ensures { result ≡ Some (bytes_of self) }
    {
        Ancestors::new(part(self.path_bytes()))
    }

    /// The last component if it is a name (std's `Path::file_name`).
    ///
    /// ```
    /// use os_path::PathExt;
    /// use platform_str::{OsStr, Path, Unix};
    ///
    /// let path = Path::<Unix>::new(OsStr::new("/usr/lib/."));
    /// assert!(rt; path.file_name() == Some(OsStr::new("lib")));
    /// assert!(rt; Path::<Unix>::new(OsStr::new("a/..")).file_name().is_none());
    /// ```
    final fn file_name(self) -> Option<OsStr<'a, Self::Platform>>
        ensures { MatchOption result (HasNoFileName Self.Platform.follows (bytes_of self))
            (λ name. HasFileName Self.Platform.follows (bytes_of self) (bytes name)) }
    {
        let Some(last) = self.components().next_back() else {
            return None;
        };
        name_of(last)
    }

    /// The last name without its extension and the dot before it (std's `Path::file_stem`).
    ///
    /// ```
    /// use os_path::PathExt;
    /// use platform_str::{OsStr, Path, Unix};
    ///
    /// let path = Path::<Unix>::new(OsStr::new("a/b.tar.gz"));
    /// assert!(rt; path.file_stem() == Some(OsStr::new("b.tar")));
    /// ```
    final fn file_stem(self) -> Option<OsStr<'a, Self::Platform>>
        ensures { MatchOption result (HasNoFileName Self.Platform.follows (bytes_of self))
            (λ stem. HasFileStem Self.Platform.follows (bytes_of self) (bytes stem)) }
    {
        let Some(name) = self.file_name() else {
            return None;
        };
        let stem = path_rules::stem(name.as_encoded_bytes());
        Some(OsStr::from_encoded_bytes_unchecked(stem))
    }

    /// The last name up to its first dot that isn't its first byte (std's `Path::file_prefix`).
    ///
    /// ```
    /// use os_path::PathExt;
    /// use platform_str::{OsStr, Path, Unix};
    ///
    /// let path = Path::<Unix>::new(OsStr::new("a/b.tar.gz"));
    /// assert!(rt; path.file_prefix() == Some(OsStr::new("b")));
    /// ```
    final fn file_prefix(self) -> Option<OsStr<'a, Self::Platform>>
        ensures { MatchOption result (HasNoFileName Self.Platform.follows (bytes_of self))
            (λ prefix. HasFilePrefix Self.Platform.follows (bytes_of self) (bytes prefix)) }
    {
        let Some(name) = self.file_name() else {
            return None;
        };
        let prefix = path_rules::name_prefix(name.as_encoded_bytes());
        Some(OsStr::from_encoded_bytes_unchecked(prefix))
    }

    /// What comes after the last dot of the last name, if that dot isn't its first byte (std's
    /// `Path::extension`).
    ///
    /// ```
    /// use os_path::PathExt;
    /// use platform_str::{OsStr, Path, Unix};
    ///
    /// let path = Path::<Unix>::new(OsStr::new("a/b.tar.gz"));
    /// assert!(rt; path.extension() == Some(OsStr::new("gz")));
    /// assert!(rt; Path::<Unix>::new(OsStr::new("a/.profile")).extension().is_none());
    /// ```
    final fn extension(self) -> Option<OsStr<'a, Self::Platform>>
        ensures { MatchOption result (LacksExtension Self.Platform.follows (bytes_of self))
            (λ extension. HasExtension Self.Platform.follows (bytes_of self) (bytes extension)) }
    {
        match self.file_name() {
            Some(name) => extension_of(name),
            None => None,
        }
    }

    // Prefixes and roots.

    /// The prefix of a Windows path, if it has one (std's `Component::Prefix`, and its `kind`);
    /// `None` for a path of another platform.
    ///
    /// ```
    /// use os_path::{PathExt, Prefix};
    /// use platform_str::{OsStr, Path, Unix, Windows};
    ///
    /// let path = Path::<Windows>::new(OsStr::new("//server/share/a"));
    /// let expected = Prefix::Unc(OsStr::new("server"), OsStr::new("share"));
    /// assert!(rt; path.prefix() == Some(expected));
    /// assert!(rt; Path::<Unix>::new(OsStr::new("C:/a")).prefix().is_none());
    /// ```
    final fn prefix(self) -> Option<Prefix<OsStr<'a, Self::Platform>>>
        ensures { MatchOption result (HasNoPrefix Self.Platform.follows (bytes_of self))
            (λ prefix. HasPrefix Self.Platform.follows (bytes_of self) (os_kind_of prefix)) }
    {
        prefix_of(OsStr::from_encoded_bytes_unchecked(self.path_bytes()))
    }

    /// Whether the path has a root (std's `Path::has_root`).
    ///
    /// ```
    /// use os_path::PathExt;
    /// use platform_str::{OsStr, Path, Windows};
    ///
    /// assert!(rt; Path::<Windows>::new(OsStr::new("C:\\a")).has_root());
    /// assert!(rt; !Path::<Windows>::new(OsStr::new("C:a")).has_root());
    /// ```
    final fn has_root(self) -> bool
        ensures { IsTrue result ↔ HasRoot Self.Platform.follows (bytes_of self) }
    {
        path_rules::has_root(Self::Platform::style(), self.path_bytes())
    }

    /// Whether the path is absolute (std's `Path::is_absolute`): on Unix and wasm, if it has a
    /// root; on Windows, if it has a prefix and a root.
    ///
    /// ```
    /// use os_path::PathExt;
    /// use platform_str::{OsStr, Path, Windows};
    ///
    /// assert!(rt; Path::<Windows>::new(OsStr::new("C:\\a")).is_absolute());
    /// assert!(rt; !Path::<Windows>::new(OsStr::new("\\a")).is_absolute());
    /// ```
    final fn is_absolute(self) -> bool
        ensures { IsTrue result ↔ IsAbsolute Self.Platform.follows (bytes_of self) }
    {
        path_rules::is_absolute(Self::Platform::style(), self.path_bytes())
    }

    /// Whether the path isn't absolute (std's `Path::is_relative`).
    ///
    /// ```
    /// use os_path::PathExt;
    /// use platform_str::{OsStr, Path, Unix};
    ///
    /// assert!(rt; Path::<Unix>::new(OsStr::new("a")).is_relative());
    /// ```
    final fn is_relative(self) -> bool
        ensures { IsTrue result ↔ (¬ (IsAbsolute Self.Platform.follows (bytes_of self))) }
    {
        !path_rules::is_absolute(Self::Platform::style(), self.path_bytes())
    }

    // Comparisons.

    /// Whether the first components of the path are those of the base (std's `Path::starts_with`).
    /// Components are compared, not bytes.
    ///
    /// ```
    /// use os_path::PathExt;
    /// use platform_str::{OsStr, Path, Unix};
    ///
    /// let path = Path::<Unix>::new(OsStr::new("/usr//lib"));
    /// assert!(rt; path.starts_with(Path::new(OsStr::new("/usr/"))));
    /// assert!(rt; !path.starts_with(Path::new(OsStr::new("/us"))));
    /// ```
    final fn starts_with(self, base: Path<'_, Self::Platform>) -> bool
        ensures { IsTrue result
            ↔ StartsWith Self.Platform.follows (bytes_of self) (path_bytes base.entry) }
    {
        path_rules::starts_with(
            Self::Platform::style(),
            self.path_bytes(),
            base.as_os_str().as_encoded_bytes(),
        )
    }

    /// Whether the last components of the path are those of the child (std's `Path::ends_with`).
    ///
    /// ```
    /// use os_path::PathExt;
    /// use platform_str::{OsStr, Path, Unix};
    ///
    /// let path = Path::<Unix>::new(OsStr::new("/usr/lib/"));
    /// assert!(rt; path.ends_with(Path::new(OsStr::new("lib"))));
    /// assert!(rt; !path.ends_with(Path::new(OsStr::new("/lib"))));
    /// ```
    final fn ends_with(self, child: Path<'_, Self::Platform>) -> bool
        ensures { IsTrue result
            ↔ EndsWith Self.Platform.follows (bytes_of self) (path_bytes child.entry) }
    {
        path_rules::ends_with(
            Self::Platform::style(),
            self.path_bytes(),
            child.as_os_str().as_encoded_bytes(),
        )
    }

    /// The rest of the path after the components of the base (std's `Path::strip_prefix`); `None` if
    /// the path doesn't start with the base ([`PathExt::starts_with`]).
    ///
    /// The rest is a part of the path's bytes, from its next component to the end of its last. It
    /// begins with the root if the base is a prefix alone, as `C:`. The base joined with the rest
    /// has the path's components, under the conditions of `path_building::laws::strip_joined`.
    ///
    /// ```
    /// use os_path::PathExt;
    /// use platform_str::{OsStr, Path, Unix};
    ///
    /// let path = Path::<Unix>::new(OsStr::new("/usr//lib/a/"));
    /// let rest = path.strip_prefix(Path::new(OsStr::new("/usr/")));
    /// assert!(rt; rest.is_some_and(|rest| rest.as_os_str() == OsStr::new("lib/a")));
    /// assert!(rt; path.strip_prefix(Path::new(OsStr::new("/us"))).is_none());
    /// ```
    final fn strip_prefix(self, base: Path<'_, Self::Platform>) -> Option<Path<'a, Self::Platform>>
        ensures { MatchOption result
            (¬ (StartsWith Self.Platform.follows (bytes_of self) (path_bytes base.entry)))
            (λ rest. (more : List Item) × IsStripped Self.Platform.follows (bytes_of self)
            (path_bytes base.entry) (path_bytes rest) more) }
    {
        match path_rules::strip_prefix(
            Self::Platform::style(),
            self.path_bytes(),
            base.as_os_str().as_encoded_bytes(),
        ) {
            Some(rest) => Some(part(rest)),
            None => None,
        }
    }

    /// Whether both paths have the same components (std's `==` of paths); drives are the same in
    /// upper and lower case.
    ///
    /// ```
    /// use os_path::{PathExt, path};
    /// use platform_str::Unix;
    ///
    /// assert!(rt; path::<Unix>("/usr//lib/").equals(path("/usr/./lib")));
    /// assert!(rt; !path::<Unix>("a").equals(path("./a")));
    /// ```
    final fn equals(self, other: Path<'_, Self::Platform>) -> bool
        ensures { IsTrue result
            ↔ HaveAlikeComponents Self.Platform.follows (bytes_of self) (path_bytes other.entry) }
    {
        are_equal(
            Self::Platform::style(),
            self.path_bytes(),
            other.as_os_str().as_encoded_bytes(),
        )
    }

    /// The order of both paths by their components (std's `Ord` of paths). As the key of a map a
    /// path is a [`crate::ByComponents`].
    ///
    /// ```
    /// use os_path::{PathExt, path};
    /// use platform_str::Unix;
    /// use std::cmp::Ordering;
    ///
    /// assert!(rt; path::<Unix>("a/b").compare(path("a-b")) == Ordering::Less);
    /// assert!(rt; path::<Unix>("a/b").compare(path("a//b/")) == Ordering::Equal);
    /// ```
    final fn compare(self, other: Path<'_, Self::Platform>) -> Ordering
        ensures { IsOrder Self.Platform.follows (bytes_of self) (path_bytes other.entry) result }
    {
        order(
            Self::Platform::style(),
            self.path_bytes(),
            other.as_os_str().as_encoded_bytes(),
        )
    }

    /// Whether a name of the path is one that Windows keeps for itself (CPython 3.13's
    /// `isreserved`, of a whole path), by [`crate::is_reserved`]. A path of another platform than
    /// Windows has no such name.
    ///
    /// ```
    /// use os_path::{PathExt, path};
    /// use platform_str::{Unix, Windows};
    ///
    /// assert!(rt; path::<Windows>("C:\\a\\nul.txt").is_reserved());
    /// assert!(rt; path::<Windows>("a./b").is_reserved() && path::<Windows>("x/a:b").is_reserved());
    /// assert!(rt; !path::<Windows>("C:..\\a").is_reserved() && !path::<Unix>("nul").is_reserved());
    /// ```
    final fn is_reserved(self) -> bool
        ensures { IsTrue result ↔ IsReservedPath Self.Platform.follows (bytes_of self) }
    {
        has_reserved_name(Self::Platform::style(), self.path_bytes())
    }

    // Separators at the end.

    /// Whether the last byte is a separator (std's `Path::has_trailing_sep`).
    ///
    /// ```
    /// use os_path::PathExt;
    /// use platform_str::{OsStr, Path, Unix};
    ///
    /// assert!(rt; Path::<Unix>::new(OsStr::new("a/")).has_trailing_sep());
    /// ```
    final fn has_trailing_sep(self) -> bool
        ensures { IsTrue result
            ↔ EndsWithSeparator (rules_of_style Self.Platform.follows) (bytes_of self) }
    {
        path_rules::has_trailing_sep(Self::Platform::style(), self.path_bytes())
    }

    /// The path without the separators at its end (std's `Path::trim_trailing_sep`). A path that
    /// has a root and no parent is kept as it is. After `\\?\` a `/` is part of a name and stays,
    /// where std takes it off.
    ///
    /// ```
    /// use os_path::PathExt;
    /// use platform_str::{OsStr, Path, Unix};
    ///
    /// let path = Path::<Unix>::new(OsStr::new("a//"));
    /// assert!(rt; path.trim_trailing_sep().as_os_str() == OsStr::new("a"));
    /// ```
    final fn trim_trailing_sep(self) -> Path<'a, Self::Platform>
        ensures { TrimsTrailing Self.Platform.follows (bytes_of self) (path_bytes result) }
    {
        part(path_rules::trim_trailing_sep(Self::Platform::style(), self.path_bytes()))
    }

    // Normal forms.

    /// The path without `\\?\`, if that names the same path (the crate dunce's `simplified`); any
    /// other path is returned unchanged, and so is each path of another platform than Windows.
    ///
    /// `\\?\` is taken off before a drive and its root, if no component is `.` or `..`, none is
    /// reserved (`path_rules::is_reserved`) or longer than 255 UTF-16 code units, and the path isn't
    /// longer than 260. A name with a lone surrogate may be among them. The path that is returned is
    /// absolute, has a root and has the same components below its prefix exactly as the path
    /// (`path_rules::laws::simplified_place`); so `\\?\C:` stays.
    ///
    /// ```
    /// use os_path::PathExt;
    /// use platform_str::{OsStr, Path, Windows};
    ///
    /// let path = Path::<Windows>::new(OsStr::new("\\\\?\\C:\\a\\b"));
    /// assert!(rt; path.simplified().as_os_str() == OsStr::new("C:\\a\\b"));
    /// let path = Path::<Windows>::new(OsStr::new("\\\\?\\C:\\con"));
    /// assert!(rt; path.simplified().as_os_str() == path.as_os_str());
    /// ```
    final fn simplified(self) -> Path<'a, Self::Platform>
        ensures { IsSimplified Self.Platform.follows (bytes_of self) (path_bytes result) }
    {
        part(path_rules::simplified(Self::Platform::style(), self.path_bytes()))
    }

    /// The normal form of the path: the path without `.`, and without each `..` and the name
    /// before it (std's `Path::normalize_lexically`), in new memory. It names the same file where
    /// no name is a symbolic link.
    ///
    /// A `.` at the start of a path without a root is kept. A path whose prefix begins with `\\?\`
    /// isn't resolved. A first name that alone would be read as a prefix gets `.\` before it. A
    /// root before the name `??` gets `\.` before it, since Windows reads `\??\` as `\\?\`
    /// (`path_building::laws::no_object`). A normal form is its own
    /// (`path_building::laws::normalized_again`).
    ///
    /// # Errors
    ///
    /// `NoName` if a `..` has no name before it to take away; `Memory` if an allocation fails.
    ///
    /// ```
    /// use os_path::{NormalizeError, PathExt};
    /// use platform_str::{OsStr, Path, Unix, Windows};
    ///
    /// let path = Path::<Unix>::new(OsStr::new("/usr//./lib/../bin/"));
    /// assert!(rt; path.normalize(alloc)?.as_os_str() == OsStr::new("/usr/bin"));
    /// let path = Path::<Windows>::new(OsStr::new("a\\..\\C:"));
    /// assert!(rt; path.normalize(alloc)?.as_os_str() == OsStr::new(".\\C:"));
    /// let error = Path::<Unix>::new(OsStr::new("a/../..")).normalize(alloc).err();
    /// assert!(rt; error == Some(NormalizeError::NoName));
    /// ```
    final fn normalize<A: Allocator + Clone>(
        self,
        alloc: A,
    ) -> Result<PathBuf<Self::Platform, A>, NormalizeError>
        ensures ok { IfOk result
            (λ normal. IsNormalized Self.Platform.follows (bytes_of self)
            (path_vec_of normal).items) }
        ensures err { IfErr result
            (λ error. IsNormalizeFault Self.Platform.follows (bytes_of self) error) }
    {
        let made = path_building::normalize(alloc, Self::Platform::style(), self.path_bytes())?;
        Ok(path_of(made))
    }

    /// The path cleaned: without `.`, without each `..` and the name before it, and without a `..`
    /// at a root (Go's `filepath.Clean`, CPython's `normpath`), in new memory.
    ///
    /// A `..` that has neither a name nor a root before it is kept, and the empty path is `.`. A
    /// path whose prefix begins with `\\?\`, a first name that would be read as a prefix and the name
    /// `??` after a root are treated as by [`PathExt::normalize`]. A clean path is its own clean form
    /// (`path_building::laws::cleaned_again`).
    ///
    /// Any other prefix gets one spelling, in which `\` separates: `\\server\share\x` is the clean path
    /// of itself and of `//server/share/x` (`path_building::laws::one_clean_path`). Only the prefix
    /// `//?/share` keeps `/`, since Windows reads a path that begins with `\\?\` by other rules.
    ///
    /// # Errors
    ///
    /// `AllocError` if an allocation fails.
    ///
    /// ```
    /// use os_path::PathExt;
    /// use platform_str::{OsStr, Path, Unix};
    ///
    /// let path = Path::<Unix>::new(OsStr::new("./../a//b/.."));
    /// assert!(rt; path.clean(alloc)?.as_os_str() == OsStr::new("../a"));
    /// let path = Path::<Unix>::new(OsStr::new(""));
    /// assert!(rt; path.clean(alloc)?.as_os_str() == OsStr::new("."));
    /// ```
    final fn clean<A: Allocator + Clone>(
        self,
        alloc: A,
    ) -> Result<PathBuf<Self::Platform, A>, AllocError>
        ensures { IfOk result
            (λ clean. IsCleaned Self.Platform.follows (bytes_of self) (path_vec_of clean).items) }
    {
        let made = path_building::clean(alloc, Self::Platform::style(), self.path_bytes())?;
        Ok(path_of(made))
    }

    // What is built.

    /// The path with a separator at its end, in new memory (std's `Path::with_trailing_sep`).
    ///
    /// A path that ends with a separator is returned unchanged. So are an empty path and a drive
    /// alone, as `C:` (`path_building::laws::trailing_separators`).
    ///
    /// # Errors
    ///
    /// `AllocError` if an allocation fails.
    ///
    /// ```
    /// use os_path::PathExt;
    /// use platform_str::{OsStr, Path, Unix};
    ///
    /// let path = Path::<Unix>::new(OsStr::new("a/b")).with_trailing_sep(alloc)?;
    /// assert!(rt; path.as_os_str() == OsStr::new("a/b/"));
    /// assert!(rt; path.as_path().with_trailing_sep(alloc)?.as_os_str() == OsStr::new("a/b/"));
    /// ```
    final fn with_trailing_sep<A: Allocator + Clone>(
        self,
        alloc: A,
    ) -> Result<PathBuf<Self::Platform, A>, AllocError>
        ensures { IfOk result (λ ended. IsWithTrailingSep Self.Platform.follows (bytes_of self)
            (path_vec_of ended).items) }
    {
        let made = path_building::with_trailing_sep(
            alloc,
            Self::Platform::style(),
            self.path_bytes(),
        )?;
        Ok(path_of(made))
    }

    /// Joins a path to this one, in new memory (std's `Path::join`).
    ///
    /// A path with a prefix is returned unchanged. One with a root alone keeps this path's prefix.
    /// Any other follows this path, after a separator unless this path is empty, ends with one, or
    /// is a drive alone as `C:`. After a path that begins with `\\?\` it is resolved: `.` is left
    /// out, `..` takes the name before it away, and it is written with `\` between its components.
    ///
    /// # Errors
    ///
    /// `AllocError` if an allocation fails.
    ///
    /// ```
    /// use os_path::PathExt;
    /// use platform_str::{OsStr, Path, Unix, Windows};
    ///
    /// let joined = Path::<Unix>::new(OsStr::new("/usr")).join(alloc, Path::new(OsStr::new("lib")))?;
    /// assert!(rt; joined.as_os_str() == OsStr::new("/usr/lib"));
    /// let drive = Path::<Windows>::new(OsStr::new("C:"));
    /// assert!(rt; drive.join(alloc, Path::new(OsStr::new("a")))?.as_os_str() == OsStr::new("C:a"));
    /// ```
    final fn join<A: Allocator + Clone>(
        self,
        alloc: A,
        path: Path<'_, Self::Platform>,
    ) -> Result<PathBuf<Self::Platform, A>, AllocError>
        ensures { IfOk result (λ joined. IsJoin Self.Platform.follows (bytes_of self)
            (path_bytes path.entry) (path_vec_of joined).items) }
    {
        let made = path_building::join(
            alloc,
            Self::Platform::style(),
            self.path_bytes(),
            path.as_os_str().as_encoded_bytes(),
        )?;
        Ok(path_of(made))
    }

    /// Returns the path as a base, below which [`Base::join`] puts names that come out of an archive
    /// or a request (own call). It is tested once, before the first name.
    ///
    /// # Errors
    ///
    /// The first of these that holds. On Unix each path without a NUL is a base.
    ///
    /// - `Nul` with the byte index of the first NUL.
    /// - `Incomplete` if a name after the Windows path would be read as a part of its beginning, as
    ///   after `\\server` ([`path_building::Base::new`]).
    /// - `Reserved` if a name of the Windows path is reserved ([`PathExt::is_reserved`]), as `C:\nul`,
    ///   and `C:\a `, which Windows reads as `C:\a`. After `\\?\` only an empty name is and one with a
    ///   `/`, as in `\\?\C:\a\\b` and `\\?\C:/a`.
    ///
    /// ```
    /// use os_path::{BaseError, PathExt, path};
    /// use platform_str::{OsStr, Windows};
    ///
    /// let base = path::<Windows>("C:\\files").as_base()?;
    /// for name in ["a/b", "c"] {
    ///     assert!(rt; base.join(alloc, path(name))?.as_path().starts_with(path("C:\\files")));
    /// }
    /// let error = path::<Windows>("\\\\server").as_base().err();
    /// assert!(rt; error == Some(BaseError::Incomplete));
    /// let error = path::<Windows>("C:\\files ").as_base().err();
    /// assert!(rt; error == Some(BaseError::Reserved));
    /// ```
    final fn as_base(self) -> Result<Base<'a, Self::Platform>, BaseError>
        ensures ok { IfOk result (λ base. path_of_base base ≡ bytes_of self) }
        ensures err { IfErr result
            (λ error. IsBaseFault Self.Platform.follows (bytes_of self) error) }
    {
        Base::new(part(self.path_bytes()))
    }

    /// Joins a path to this one that can't leave it, in new memory (typed-path's `join_checked`), as
    /// [`PathExt::as_base`] and [`Base::join`] do. It is meant for names that come out of an archive
    /// or a request. For many names below one path, make the base once.
    ///
    /// The result has the components of this path, then the names of the other, in which `.` and
    /// `..` are resolved. It is written with the main separator, and has no NUL. If this path is a
    /// prefix alone and begins with `\\?\`, as `\\?\C:`, it gets its root. No path leaves this one
    /// unless a name is a symbolic link (clause `below`, `path_building::laws::joined_below`).
    ///
    /// # Errors
    ///
    /// - `Base` if this path is no base ([`PathExt::as_base`]).
    /// - `Name` if the other path isn't joined to it ([`Base::join`]): it has a NUL, a prefix or a
    ///   root, or a `..` would leave the base. On Windows a name that has a colon or is reserved is
    ///   rejected, too. Or an allocation fails.
    ///
    /// ```
    /// use os_path::{JoinError, NameError, PathExt, path};
    /// use platform_str::{OsStr, Unix, Windows};
    ///
    /// let base = path::<Unix>("/srv/files");
    /// let joined = base.join_checked(alloc, path("./a/../b//c"))?;
    /// assert!(rt; joined.as_os_str() == OsStr::new("/srv/files/b/c"));
    /// let error = base.join_checked(alloc, path("a/../../etc")).err();
    /// assert!(rt; error == Some(JoinError::Name(NameError::Leaves(2))));
    /// let error = base.join_checked(alloc, path("..\0x")).err();
    /// assert!(rt; error == Some(JoinError::Name(NameError::Nul(2))));
    /// let error = path::<Windows>("C:\\files").join_checked(alloc, path("a/nul.txt")).err();
    /// assert!(rt; error == Some(JoinError::Name(NameError::Reserved(1))));
    /// ```
    final fn join_checked<A: Allocator + Clone>(
        self,
        alloc: A,
        path: Path<'_, Self::Platform>,
    ) -> Result<PathBuf<Self::Platform, A>, JoinError>
        ensures ok { IfOk result (λ joined. IsCheckedJoin Self.Platform.follows
            (bytes_of self) (path_bytes path.entry) (path_vec_of joined).items) }
        ensures below { IfOk result (λ joined. IsBelowBase Self.Platform.follows
            (bytes_of self) (path_vec_of joined).items) }
        ensures err { IfErr result
            (λ error. IsJoinFault Self.Platform.follows (bytes_of self) (path_bytes path.entry)
            error) }
    {
        match path_building::join_checked(
            alloc,
            Self::Platform::style(),
            self.path_bytes(),
            path.as_os_str().as_encoded_bytes(),
        ) {
            Ok(made) => Ok(path_of(made)),
            Err(error) => Err(error),
        }
    }

    /// Returns a path below this one, as [`PathExt::join_checked`] does, and keeps a separator at the
    /// end of the other path, for the directories of an archive (own call). The separator is written
    /// as [`PathExt::with_trailing_sep`] writes it.
    ///
    /// # Errors
    ///
    /// The error that [`PathExt::join_checked`] returns.
    ///
    /// ```
    /// use os_path::{JoinError, NameError, PathExt, path};
    /// use platform_str::{OsStr, Unix};
    ///
    /// let base = path::<Unix>("/srv");
    /// let ended = base.join_checked_keeping_sep(alloc, path("a/./b//"))?;
    /// assert!(rt; ended.as_os_str() == OsStr::new("/srv/a/b/"));
    /// let error = base.join_checked_keeping_sep(alloc, path("../")).err();
    /// assert!(rt; error == Some(JoinError::Name(NameError::Leaves(0))));
    /// ```
    final fn join_checked_keeping_sep<A: Allocator + Clone>(
        self,
        alloc: A,
        path: Path<'_, Self::Platform>,
    ) -> Result<PathBuf<Self::Platform, A>, JoinError>
        ensures ok { IfOk result (λ ended. IsCheckedJoinEnded Self.Platform.follows
            (bytes_of self) (path_bytes path.entry) (path_vec_of ended).items) }
        ensures below { IfOk result (λ ended. IsBelowBase Self.Platform.follows
            (bytes_of self) (path_vec_of ended).items) }
        ensures err { IfErr result
            (λ error. IsJoinFault Self.Platform.follows (bytes_of self) (path_bytes path.entry)
            error) }
    {
        match path_building::join_checked_keeping_sep(
            alloc,
            Self::Platform::style(),
            self.path_bytes(),
            path.as_os_str().as_encoded_bytes(),
        ) {
            Ok(made) => Ok(path_of(made)),
            Err(error) => Err(error),
        }
    }

    /// Returns the path as an absolute path, in new memory (std's `path::absolute`). A relative path
    /// is taken below the given directory, and no file system is read.
    ///
    /// On Unix the components are written with one `/` between them. A `.` at the start is left out,
    /// `..` is kept, and `//` at the start stays if no third `/` follows.
    ///
    /// On Windows the path is joined to the directory and cleaned, as by [`PathExt::join`] and
    /// [`PathExt::clean`]. A path as `C:a` is below the directory if that is on the same drive. A
    /// path that begins with `\\?\` or `\\.\` is returned as it is.
    ///
    /// A separator at the end of the path is kept, as [`PathExt::with_trailing_sep`] writes it. The
    /// directory isn't read if the path is absolute.
    ///
    /// # Errors
    ///
    /// The first of these that holds:
    ///
    /// - `Empty` if the path is empty.
    /// - `Prefix` if the Windows path begins with two separators and has no prefix, as `\\server`,
    ///   or if it begins with `\??\`.
    /// - `Reserved` if a name of the Windows path is reserved, as `nul`
    ///   ([`PathExt::is_reserved`]).
    /// - `Directory` if the path is relative, and the directory isn't absolute or lacks a part of its
    ///   prefix.
    /// - `Drive` if the path has a drive and no root, and the directory doesn't begin with that drive.
    /// - `Memory` if an allocation fails.
    ///
    /// ```
    /// use os_path::{AbsoluteError, PathExt, path};
    /// use platform_str::{OsStr, Unix, Windows};
    ///
    /// let full = path::<Unix>("./a/b/").absolute(alloc, path("/usr"))?;
    /// assert!(rt; full.as_os_str() == OsStr::new("/usr/a/b/"));
    /// let full = path::<Windows>("../a").absolute(alloc, path("C:\\x\\y"))?;
    /// assert!(rt; full.as_os_str() == OsStr::new("C:\\x\\a"));
    /// let error = path::<Unix>("a").absolute(alloc, path("usr")).err();
    /// assert!(rt; error == Some(AbsoluteError::Directory));
    /// ```
    final fn absolute<A: Allocator + Clone>(
        self,
        alloc: A,
        directory: Path<'_, Self::Platform>,
    ) -> Result<PathBuf<Self::Platform, A>, AbsoluteError>
        ensures ok { IfOk result (λ full. IsFullPath Self.Platform.follows
            (bytes_of self) (path_bytes directory.entry) (path_vec_of full).items) }
        ensures err { IfErr result (λ error. IsAbsoluteFault Self.Platform.follows
            (bytes_of self) (path_bytes directory.entry) error) }
    {
        match path_building::absolute(
            alloc,
            Self::Platform::style(),
            self.path_bytes(),
            directory.as_os_str().as_encoded_bytes(),
        ) {
            Ok(made) => Ok(path_of(made)),
            Err(error) => Err(error),
        }
    }

    /// Returns the path relative to a base, in new memory (the crate pathdiff's `diff_paths`). The
    /// base joined with the result leads to the same file as the path.
    ///
    /// The components that both begin with are left out. Each other component of the base becomes a
    /// `..`, except a `.` at its start, and the remaining components of the path follow. A path
    /// with another prefix or another root than the base's is returned whole, written with the main
    /// separator. If it begins with `\\?\`, its `.` and `..` are resolved.
    ///
    /// Returns `None` if the base is absolute and the path isn't, or if the base goes up by a `..`
    /// where the path doesn't. It also returns `None` if the base joined with the result would lead
    /// to another file. Two paths lead to the same file if their clean forms are alike, without
    /// symbolic links.
    ///
    /// # Errors
    ///
    /// `AllocError` if an allocation fails.
    ///
    /// ```
    /// use os_path::PathExt;
    /// use platform_str::{OsStr, Path, Unix};
    ///
    /// let path = Path::<Unix>::new(OsStr::new("/usr/lib/a"));
    /// let way = path.relative_from(alloc, Path::new(OsStr::new("/usr/bin")))?;
    /// assert!(rt; way.is_some_and(|way| way.as_os_str() == OsStr::new("../lib/a")));
    /// let name = Path::<Unix>::new(OsStr::new("a"));
    /// assert!(rt; name.relative_from(alloc, path)?.is_none());
    /// ```
    final fn relative_from<A: Allocator + Clone>(
        self,
        alloc: A,
        base: Path<'_, Self::Platform>,
    ) -> Result<Option<PathBuf<Self::Platform, A>>, AllocError>
        ensures { IfOk result (λ way. IsRelativeFrom Self.Platform.follows (bytes_of self)
            (path_bytes base.entry) (option_map (λ p. (path_vec_of p).items) way)) }
    {
        let way = path_building::relative_from(
            alloc,
            Self::Platform::style(),
            self.path_bytes(),
            base.as_os_str().as_encoded_bytes(),
        )?;
        match way {
            Some(way) => Ok(Some(path_of(way))),
            None => Ok(None),
        }
    }

    /// The path of another platform with the same components, in new memory (typed-path's
    /// `with_encoding`): the root, `.`, `..` and the names, written with the main separator. If both
    /// platforms have one style, the bytes are the path's.
    ///
    /// On Windows a root before the name `??` gets `\.` before it, since `\??\` is read as `\\?\`. A name
    /// may still be one that Windows keeps for itself (`path_rules::is_reserved`).
    ///
    /// # Errors
    ///
    /// `Component` with the index of the first component that the platform's style can't have: a
    /// prefix, a name that has one of its separators, or a first name that it would read as a
    /// prefix; `Encoding` if the bytes aren't a string of the platform; `Memory` if an allocation
    /// fails.
    ///
    /// ```
    /// use os_path::{ConvertError, PathExt};
    /// use platform_str::{OsStr, Path, Unix, Windows};
    ///
    /// let path = Path::<Unix>::new(OsStr::new("/usr//lib/.."));
    /// let path = path.with_style::<Windows, _>(alloc)?;
    /// assert!(rt; path.as_os_str() == OsStr::new("\\usr\\lib\\.."));
    /// let path = Path::<Windows>::new(OsStr::new("C:\\a"));
    /// let error = path.with_style::<Unix, _>(alloc).err();
    /// assert!(rt; error == Some(ConvertError::Component(0)));
    /// ```
    final fn with_style<F: PathStyle, A: Allocator + Clone>(
        self,
        alloc: A,
    ) -> Result<PathBuf<F, A>, ConvertError>
        ensures ok { IfOk result (λ made. IsRestyled Self.Platform.follows F.follows
            (bytes_of self) (path_vec_of made).items) }
        ensures err { IfErr result (λ error. IsConvertFault Self.Platform.follows F.follows
            F.first_fault (bytes_of self) error) }
    {
        match path_building::with_style(
            alloc,
            Self::Platform::style(),
            F::style(),
            self.path_bytes(),
        ) {
            Ok(made) => checked(made),
            Err(StyleError::Component(index)) => Err(ConvertError::Component(index)),
            Err(StyleError::Memory) => Err(ConvertError::Memory),
        }
    }

    /// The path with another last name, in new memory (std's `Path::with_file_name`): the name is
    /// joined to the path's parent; if the path doesn't end in a name, to the path itself.
    ///
    /// # Errors
    ///
    /// `AllocError` if an allocation fails.
    ///
    /// ```
    /// use os_path::PathExt;
    /// use platform_str::{OsStr, Path, Unix};
    ///
    /// let path = Path::<Unix>::new(OsStr::new("/tmp/a.txt"));
    /// let named = path.with_file_name(alloc, OsStr::new("b"))?;
    /// assert!(rt; named.as_os_str() == OsStr::new("/tmp/b"));
    /// ```
    final fn with_file_name<A: Allocator + Clone>(
        self,
        alloc: A,
        name: OsStr<'_, Self::Platform>,
    ) -> Result<PathBuf<Self::Platform, A>, AllocError>
        ensures { IfOk result (λ named. IsNamed Self.Platform.follows (bytes_of self)
            (bytes name.entry) (path_vec_of named).items) }
    {
        let made = path_building::with_file_name(
            alloc,
            Self::Platform::style(),
            self.path_bytes(),
            name.as_encoded_bytes(),
        )?;
        Ok(path_of(made))
    }

    /// Returns the path with another stem of its last name, in new memory (CPython's
    /// `PurePath.with_stem`; std has none). The new stem and the extension that the last name has
    /// are one name. It replaces the last name as [`PathExt::with_file_name`] replaces it. A path
    /// that doesn't end in a name is returned as it is.
    ///
    /// Any stem is accepted. An empty one leaves the dot and the extension, or no name where there
    /// is no extension. A separator in the stem separates components. A stem that begins with a root
    /// or a prefix replaces more than the last name, as in [`PathExt::join`].
    ///
    /// # Errors
    ///
    /// `AllocError` if an allocation fails.
    ///
    /// ```
    /// use os_path::{PathExt, path};
    /// use platform_str::{OsStr, Unix};
    ///
    /// let changed = path::<Unix>("a/b.tar.gz").with_file_stem(alloc, OsStr::new("c"))?;
    /// assert!(rt; changed.as_os_str() == OsStr::new("a/c.gz"));
    /// let kept = path::<Unix>("a/..").with_file_stem(alloc, OsStr::new("c"))?;
    /// assert!(rt; kept.as_os_str() == OsStr::new("a/.."));
    /// ```
    final fn with_file_stem<A: Allocator + Clone>(
        self,
        alloc: A,
        stem: OsStr<'_, Self::Platform>,
    ) -> Result<PathBuf<Self::Platform, A>, AllocError>
        ensures { IfOk result (λ made. IsStemSet Self.Platform.follows (bytes_of self)
            (bytes stem.entry) (path_vec_of made).items) }
    {
        let made = path_building::with_file_stem(
            alloc,
            Self::Platform::style(),
            self.path_bytes(),
            stem.as_encoded_bytes(),
        )?;
        Ok(path_of(made))
    }

    /// The path with another extension of its last name, in new memory (std's
    /// `Path::with_extension`). A dot and the extension replace what follows the name's stem; an
    /// empty extension removes it. A path that doesn't end in a name is returned unchanged.
    ///
    /// No byte of the extension separates (test: [`path_rules::is_extension_text`]); std panics.
    ///
    /// # Errors
    ///
    /// `AllocError` if an allocation fails.
    ///
    /// ```
    /// use os_path::PathExt;
    /// use platform_str::{OsStr, Path, Unix};
    ///
    /// let path = Path::<Unix>::new(OsStr::new("a/b.txt"));
    /// let changed = path.with_extension(alloc, OsStr::new("rs"))?;
    /// assert!(rt; changed.as_os_str() == OsStr::new("a/b.rs"));
    /// ```
    final fn with_extension<A: Allocator>(
        self,
        alloc: A,
        extension: OsStr<'_, Self::Platform>,
    ) -> Result<PathBuf<Self::Platform, A>, AllocError>
        requires { IsExtensionText Self.Platform.follows (bytes extension) }
        ensures { IfOk result (λ made. (is_set : Bool)
            × IsExtensionSet Self.Platform.follows (bytes_of self) (bytes extension.entry)
            (path_vec_of made).items is_set) }
    {
        let made = path_building::with_extension(
            alloc,
            Self::Platform::style(),
            self.path_bytes(),
            extension.as_encoded_bytes(),
        )?;
        Ok(path_of(made))
    }

    /// The path with an extension after its last name, in new memory (std's
    /// `Path::with_added_extension`). An empty extension changes nothing, and a path that doesn't
    /// end in a name is returned unchanged.
    ///
    /// No byte of the extension separates (test: [`path_rules::is_extension_text`]); std panics.
    ///
    /// # Errors
    ///
    /// `AllocError` if an allocation fails.
    ///
    /// ```
    /// use os_path::PathExt;
    /// use platform_str::{OsStr, Path, Unix};
    ///
    /// let path = Path::<Unix>::new(OsStr::new("a/b.tar"));
    /// let changed = path.with_added_extension(alloc, OsStr::new("gz"))?;
    /// assert!(rt; changed.as_os_str() == OsStr::new("a/b.tar.gz"));
    /// ```
    final fn with_added_extension<A: Allocator>(
        self,
        alloc: A,
        extension: OsStr<'_, Self::Platform>,
    ) -> Result<PathBuf<Self::Platform, A>, AllocError>
        requires { IsExtensionText Self.Platform.follows (bytes extension) }
        ensures { IfOk result (λ made. (is_added : Bool)
            × IsExtensionAdded Self.Platform.follows (bytes_of self) (bytes extension.entry)
            (path_vec_of made).items is_added) }
    {
        let made = path_building::with_added_extension(
            alloc,
            Self::Platform::style(),
            self.path_bytes(),
            extension.as_encoded_bytes(),
        )?;
        Ok(path_of(made))
    }
}

impl<'a, E: PathStyle + 'a> PathExt<'a> for Path<'a, E> {
    ghost use Rattle.platform_str.specs.Strings.{path_bytes};

    type Platform = E;

    ghost bytes_of = { path_bytes };

    fn path_bytes(self) -> &'a [u8] {
        self.as_os_str().as_encoded_bytes()
    }
}

/// The extension of a name.
fn extension_of<'a, E: Platform>(name: OsStr<'a, E>) -> Option<OsStr<'a, E>>
    ensures { MatchOption result (HasNoExtension (bytes name.entry))
        (λ extension. (stem : List ℕ) × IsExtension (bytes name.entry) stem (bytes extension)) }
{
    match path_rules::extension(name.as_encoded_bytes()) {
        Some(extension) => Some(OsStr::from_encoded_bytes_unchecked(extension)),
        None => None,
    }
}
