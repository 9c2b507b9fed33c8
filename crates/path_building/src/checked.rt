//! A path below a base, or what is wrong with it.
ghost use Rattle.std.specs.Prelude.{◌≡◌, ◌↔◌, ◌++◌, map, IsTrue, IfOk, IfErr, OnOk};
ghost use Rattle.path_rules.specs.StyleRules.{rules_of_style};
ghost use Rattle.path_rules.specs.Views.{item_of};
ghost use Rattle.path_building.specs.Spelled.{AreSpelled, IsNamesAfter};
ghost use Rattle.path_building.specs.Base.{IsVerbatimAlone};
ghost use Rattle.path_building.specs.Checked.{NameNoStream, AreCheckedNames, IsCheckedJoin, IsBelowBase};
ghost use Rattle.path_building.specs.Faults.{IsNameFault, IsJoinFault};

use crate::base::{Base, BaseError, first_nul, is_verbatim_alone};
use crate::joining::is_prefixed;
use crate::normal::{all_names, written_as};
use crate::walk::{NameError, fit_names};
use crate::writing::both;
use path_rules::parts::{Parsed, begins_with_separator, head_of};
use path_rules::{Component, Style};
use std::alloc::{AllocError, Allocator};
use std::error::Error;
use std::fmt;

/// Why [`join_checked`] returns no path.
///
/// It prints as a message for a person. It has no width: `{:>99}` writes what `{}` does.
///
/// ```
/// use path_building::{BaseError, JoinError, NameError};
///
/// let error = JoinError::Base(BaseError::Reserved);
/// assert_eq!(rt; format!(in alloc; "{error}")?.as_str(), "the base has a reserved name");
/// let error = JoinError::Name(NameError::Leaves(2));
/// let text = "the path leaves the base at component 2";
/// assert_eq!(rt; format!(in alloc; "{error}")?.as_str(), text);
/// ```
#[derive(Clone, Copy, Debug, PartialEq, Eq)]
pub enum JoinError {
    /// The base is none.
    Base(BaseError),
    /// The path isn't joined to a base.
    Name(NameError),
}

impl fmt::Display for JoinError {
    ghost use Rattle.std.specs.Prelude.{Some};
    ghost use Rattle.path_building.specs.ErrorText.{join_error_text};

    ghost output = { λ error. Some (join_error_text error) };

    ghost styled_output = { λ error _. Some (join_error_text error) };

    fn fmt<W: fmt::Write>(&self, f: &mut fmt::Formatter<W>) -> fmt::Result {
        match *self {
            JoinError::Base(error) => error.fmt(f),
            JoinError::Name(error) => error.fmt(f),
        }
    }
}

impl Error for JoinError {}

impl From<AllocError> for JoinError {
    ghost use Rattle.std.specs.Prelude.{◌≡◌};
    ghost use Rattle.path_building.specs.declared.checked.JoinError.TheVariants.{Name};
    ghost use Rattle.path_building.specs.declared.walk.NameError.TheVariants.{Memory};

    ghost from_gives = { λ _ error. error ≡ Name Memory };

    fn from(_: AllocError) -> JoinError {
        JoinError::Name(NameError::Memory)
    }
}

impl From<BaseError> for JoinError {
    ghost use Rattle.std.specs.Prelude.{◌≡◌};
    ghost use Rattle.path_building.specs.declared.checked.JoinError.TheVariants.{Base};

    ghost from_gives = { λ fault error. error ≡ Base fault };

    fn from(fault: BaseError) -> JoinError {
        JoinError::Base(fault)
    }
}

impl From<NameError> for JoinError {
    ghost use Rattle.std.specs.Prelude.{◌≡◌};
    ghost use Rattle.path_building.specs.declared.checked.JoinError.TheVariants.{Name};

    ghost from_gives = { λ fault error. error ≡ Name fault };

    fn from(fault: NameError) -> JoinError {
        JoinError::Name(fault)
    }
}

impl<'a> Base<'a> {
    ghost use Rattle.path_building.specs.BaseViews.{base_style, base_path};

    /// Joins a path that can't leave the base, in new memory (typed-path's `join_checked`). It is
    /// meant for names that come out of an archive or a request. The result has the base's
    /// components, then the names of the path, in which `.` and `..` are resolved. It is written
    /// with the main separator. A base that is a prefix alone and begins with `\\?\`, as `\\?\C:`,
    /// gets its root.
    ///
    /// The result has no NUL. Its normal form begins with those of the base's normal form
    /// ([`crate::laws::joined_below`]). So no path leaves the base unless a name is a symbolic link.
    ///
    /// # Errors
    ///
    /// The first of these that holds. An index is that of a component, as [`path_rules::Components`]
    /// counts them. The first component at fault is named, even if a later `..` removes it:
    ///
    /// - `Nul` with the byte index of the path's first NUL.
    /// - `Prefix` if the path has a prefix.
    /// - `Root` if the path has a root.
    /// - `Leaves` if a `..` has no name of the path before it to remove, as in `..` and `a/../..`.
    /// - `Stream` if a name of a Windows path has a colon, as `a:b`.
    /// - `Reserved` if a name of a Windows path is reserved, as `nul.txt`
    ///   ([`path_rules::is_reserved`]).
    /// - `Memory` if an allocation fails.
    ///
    /// ```
    /// use path_building::{Base, NameError};
    /// use path_rules::Style;
    ///
    /// let base = Base::new(Style::Windows, br"C:\files")?;
    /// assert_eq!(rt; base.join(alloc, b"./a/../b")?.as_slice(), br"C:\files\b".as_slice());
    /// assert!(rt; base.join(alloc, b"a/../..").is_err_and(|e| e == NameError::Leaves(2)));
    /// assert!(rt; base.join(alloc, b"a/nul.txt").is_err_and(|e| e == NameError::Reserved(1)));
    /// ```
    pub fn join<A: Allocator + Clone>(&self, alloc: A, path: &[u8]) -> Result<Vec<u8, A>, NameError>
        ensures ok { IfOk result (λ joined. IsCheckedJoin (base_style self.now) (base_path self.now)
            path.now joined.items) }
        ensures below { IfOk result
            (λ joined. IsBelowBase (base_style self.now) (base_path self.now) joined.items) }
        ensures err { IfErr result (λ error. IsNameFault (base_style self.now) path.now error) }
    {
        let names = checked_names(alloc.clone()?, self.parsed.style, path)?;
        if is_verbatim_alone(&self.parsed) {
            let root = both(alloc.clone()?, self.parsed.whole, br"\".as_slice())?;
            return Ok(names_after(alloc, self.parsed.style, &root, &names)?);
        }
        Ok(names_below(alloc, &self.parsed, &names)?)
    }
}

/// Joins a path to a base that it can't leave, in new memory: [`Base::new`], and [`Base::join`],
/// which list the errors. For many paths below one base, make the [`Base`] once.
///
/// # Errors
///
/// `Base` if the base is none, and else `Name` if the path isn't joined to it.
///
/// ```
/// use path_building::{BaseError, JoinError, NameError, join_checked};
/// use path_rules::Style;
///
/// let path = join_checked(alloc, Style::Unix, b"/srv/files", b"./a/../b//c")?;
/// assert_eq!(rt; path.as_slice(), b"/srv/files/b/c".as_slice());
/// let path = join_checked(alloc, Style::Windows, br"C:\files", b"a/b")?;
/// assert_eq!(rt; path.as_slice(), br"C:\files\a\b".as_slice());
/// let rejected = join_checked(alloc, Style::Unix, b"/srv/files", b"..\0x");
/// assert!(rt; rejected.is_err_and(|e| e == JoinError::Name(NameError::Nul(2))));
/// let rejected = join_checked(alloc, Style::Windows, br"\\server", br"share\x");
/// assert!(rt; rejected.is_err_and(|e| e == JoinError::Base(BaseError::Incomplete)));
/// ```
pub fn join_checked<A: Allocator + Clone>(
    alloc: A,
    style: Style,
    base: &[u8],
    path: &[u8],
) -> Result<Vec<u8, A>, JoinError>
    ensures ok { IfOk result (λ joined. IsCheckedJoin style base.now path.now joined.items) }
    ensures below { IfOk result (λ joined. IsBelowBase style base.now joined.items) }
    ensures err { IfErr result (λ error. IsJoinFault style base.now path.now error) }
{
    let base = Base::new(style, base)?;
    Ok(base.join(alloc, path)?)
}

/// Checked names after a path that isn't a prefix alone after which only `\` separates.
fn names_after<A: Allocator + Clone>(
    alloc: A,
    style: Style,
    path: &[u8],
    names: &[Component<&[u8]>],
) -> Result<Vec<u8, A>, AllocError>
    requires spelled { AreSpelled (rules_of_style style) (map item_of names.now) }
    requires streams { NameNoStream style (map item_of names.now) }
    requires no_alone { ¬ (IsVerbatimAlone style path.now) }
    ensures { IfOk result
        (λ joined. IsNamesAfter style path.now (map item_of names.now) joined.items) }
{
    names_below(alloc, &Parsed::new(style, path), names)
}

/// Checked names after such a path that was parsed.
fn names_below<A: Allocator + Clone>(
    alloc: A,
    path: &Parsed<'_>,
    names: &[Component<&[u8]>],
) -> Result<Vec<u8, A>, AllocError>
    requires spelled { AreSpelled (rules_of_style path.now.style) (map item_of names.now) }
    requires streams { NameNoStream path.now.style (map item_of names.now) }
    requires no_alone { ¬ (IsVerbatimAlone path.now.style path.now.whole.now) }
    ensures { IfOk result (λ joined. IsNamesAfter path.now.style path.now.whole.now
        (map item_of names.now) joined.items) }
{
    let head = path.head();
    let mut all = all_names(alloc.clone()?, head.rules, head.body)?;
    add_names(&mut all, names)?;
    written_as(alloc, path.style, path.whole, head, head.start, &all)
}

/// The names that a path leads to, or what is wrong with it.
fn checked_names<'a, A: Allocator>(
    alloc: A,
    style: Style,
    path: &'a [u8],
) -> Result<Vec<Component<&'a [u8]>, A>, NameError>
    ensures ok { IfOk result
        (λ names. AreCheckedNames style path.entry.now (map item_of names.items)) }
    ensures spelled { IfOk result
        (λ names. AreSpelled (rules_of_style style) (map item_of names.items)) }
    ensures streams { IfOk result (λ names. NameNoStream style (map item_of names.items)) }
    ensures err { IfErr result (λ error. IsNameFault style path.entry.now error) }
{
    if let Some(index) = first_nul(path) {
        return Err(NameError::Nul(index));
    }
    if is_prefixed(style, path) {
        return Err(NameError::Prefix);
    }
    if begins_with_separator(style.rules(), path) {
        return Err(NameError::Root);
    }
    let head = head_of(style, path);
    fit_names(alloc, style, head.rules, head.start, head.body)
}

/// Appends names to others.
pub(crate) fn add_names<'a, A: Allocator>(
    names: &mut Vec<Component<&'a [u8]>, A>,
    more: &[Component<&'a [u8]>],
) -> Result<(), AllocError>
    ensures { OnOk result
        (map item_of names.new.items ≡ map item_of names.old.items ++ map item_of more.now) }
{
    for name in more {
        names.push(*name)?;
    }
    Ok(())
}
