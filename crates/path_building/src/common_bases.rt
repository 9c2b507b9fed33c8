//! The common base of paths.
ghost use Rattle.std.specs.Prelude.{◌≡◌, ◌↔◌, ℕ, List, length, IsTrue, map, IfOk, IfErr};
ghost use Rattle.std.specs.Fmt.{WritesStyledOnOk};
ghost use Rattle.path_rules.specs.Heads.{prefix_items};
ghost use Rattle.path_rules.specs.Compare.{AreAllAlike};
ghost use Rattle.path_building.specs.ErrorText.{unlike_first};
ghost use Rattle.path_building.specs.Spelled.{cleaned_start};
ghost use Rattle.path_building.specs.CommonBase.{bytes_of, HaveOnePrefix, HaveOneRoot, IsCommonBase, IsCommonBaseFault, BeginAlike, IsFront, IsBaseOf, IsApart, IsFirstApart, IsFrontBeside, PartsAt, IsShared};

use crate::error_text::write_number;
use crate::normal::is_root;
use path_rules::parts::{Start, are_alike, head_of};
use path_rules::{Component, Components, Style, end_trimmed, parent};
use std::error::Error;
use std::fmt;

/// Why paths have no common base ([`common_base`]).
///
/// It prints as a message for a person. It has no width: `{:>99}` writes what `{}` does.
///
/// ```
/// use path_building::CommonBaseError;
///
/// let error = CommonBaseError::Root(2);
/// assert_eq!(rt; format!(in alloc; "{error}")?.as_str(), "the root of path 2 isn't that of path 0");
/// ```
#[derive(Clone, Copy, Debug, PartialEq, Eq)]
pub enum CommonBaseError {
    /// There are no paths.
    NoPath,
    /// The path at this index is the first with another prefix than the first path's.
    Prefix(usize),
    /// The path at this index has a root, and the first path has none, or it has none, and the first
    /// path has one.
    Root(usize),
}

impl fmt::Display for CommonBaseError {
    ghost use Rattle.std.specs.Prelude.{Some};
    ghost use Rattle.path_building.specs.ErrorText.{common_base_error_text};

    ghost output = { λ error. Some (common_base_error_text error) };

    ghost styled_output = { λ error _. Some (common_base_error_text error) };

    fn fmt<W: fmt::Write>(&self, f: &mut fmt::Formatter<W>) -> fmt::Result {
        match *self {
            CommonBaseError::NoPath => f.write_str("there are no paths"),
            CommonBaseError::Prefix(index) => write_unlike("the prefix", index, f),
            CommonBaseError::Root(index) => write_unlike("the root", index, f),
        }
    }
}

/// Writes that a part of the path at an index isn't that of the first path.
fn write_unlike<W: fmt::Write>(what: &str, index: usize, f: &mut fmt::Formatter<W>) -> fmt::Result
    ensures { WritesStyledOnOk W.write_str_gives f.old result (unlike_first what.now index) f.new }
{
    f.write_str(what)?;
    f.write_str(" of path ")?;
    write_number(index, f)?;
    f.write_str(" isn't that of path 0")
}

impl Error for CommonBaseError {}

/// Returns the longest path that all paths begin with (CPython's `os.path.commonpath`).
///
/// Components are compared, as by [`path_rules::starts_with`], so the base of `/usr/lib` and
/// `/usr/local` is `/usr`. The result is a part of the first path's bytes, up to the end of a
/// component. It is empty if relative paths have no component in common. `..` is a component like
/// any other, and so is a `.` at the start of a path.
///
/// It takes time in proportion to the bytes of all paths. Separators of the first path that follow
/// each other are read again for each path. So is a prefix, and also for each component that is
/// left out.
///
/// # Errors
///
/// - `NoPath` if there are no paths.
/// - `Prefix` with the index of the first path that has another prefix than the first path.
/// - `Root` with the index of the first path that has a root component where the first path has
///   none, or none where it has one.
///
/// Of `Prefix` and `Root` the smaller index is returned, and `Prefix` if both are the same.
///
/// ```
/// use path_building::{CommonBaseError, common_base};
/// use path_rules::Style;
///
/// let base = common_base(Style::Unix, &[b"/usr/lib/a".as_slice(), b"/usr//local/".as_slice()]);
/// assert!(rt; base == Ok(b"/usr".as_slice()));
/// let base = common_base(Style::Windows, &[br"C:\a\b".as_slice(), b"c:/a/c".as_slice()]);
/// assert!(rt; base == Ok(br"C:\a".as_slice()));
/// let rejected = common_base(Style::Unix, &[b"/usr".as_slice(), b"usr".as_slice()]);
/// assert!(rt; rejected == Err(CommonBaseError::Root(1)));
/// ```
pub fn common_base<'a>(style: Style, paths: &[&'a [u8]]) -> Result<&'a [u8], CommonBaseError>
    ensures ok { IfOk result (λ base. IsCommonBase style (map bytes_of paths.now) base.now) }
    ensures err { IfErr result (λ error. IsCommonBaseFault style (map bytes_of paths.now) error) }
{
    match paths {
        [first, others @ ..] => base_of(style, first, others),
        [] => Err(CommonBaseError::NoPath),
    }
}

/// The longest path that a first path and all others begin with.
#[tactic(auto, using(crate::proofs::lemmas::CommonBases::all_walked, crate::proofs::lemmas::CommonBases::apart,))]
fn base_of<'a>(style: Style, first: &'a [u8], others: &[&[u8]]) -> Result<&'a [u8], CommonBaseError>
    ensures ok { IfOk result
        (λ base. IsBaseOf style first.entry.now (map bytes_of others.now) base.now) }
    ensures err { IfErr result
        (λ error. IsFirstApart style first.entry.now (map bytes_of others.now) error) }
{
    let mut base = end_trimmed(style, first);
    let mut index = 1;
    let mut left = others;
    while let [path, more @ ..] = left {
        base = common_base_with(style, first, base, path, index)?;
        index += 1;
        left = more;
    }
    Ok(base)
}

/// Returns the longest path that a common base and one more path begin with. [`common_base`] calls it
/// for each path in turn, and so can a caller whose paths aren't in one slice.
///
/// The base is what [`path_rules::end_trimmed`] returned for the first path, or what this call
/// returned for the path before.
///
/// # Errors
///
/// - `Prefix` with the given index if the path has another prefix than the first path.
/// - `Root` with the given index if the path has a root component where the first path has none, or
///   none where it has one.
///
/// ```
/// use path_building::common_base_with;
/// use path_rules::{Style, end_trimmed};
///
/// let first = b"/usr/lib/a".as_slice();
/// let base = end_trimmed(Style::Unix, first);
/// let base = common_base_with(Style::Unix, first, base, b"/usr/lib/b", 1);
/// assert!(rt; base == Ok(b"/usr/lib".as_slice()));
/// ```
pub fn common_base_with<'a>(
    style: Style,
    first: &[u8],
    base: &'a [u8],
    path: &[u8],
    index: usize,
) -> Result<&'a [u8], CommonBaseError>
    requires { IsFront style first.now base.now }
    ensures ok { IfOk result (λ shared. BeginAlike style first.now path.now
        × IsShared style base.entry.now path.now shared.now) }
    ensures err { IfErr result (λ error. IsApart style first.now path.now index error) }
{
    if !have_one_prefix(style, first, path) {
        return Err(CommonBaseError::Prefix(index));
    }
    if !have_one_root(style, first, path) {
        return Err(CommonBaseError::Root(index));
    }
    Ok(shared(style, base, path))
}

/// Whether two paths have prefixes that are alike, or neither has one.
fn have_one_prefix(style: Style, path: &[u8], other: &[u8]) -> bool
    ensures { IsTrue result ↔ HaveOnePrefix style path.now other.now }
{
    are_one_prefix(head_of(style, other).prefix, head_of(style, path).prefix)
}

/// Whether two prefixes are alike, or both are empty.
fn are_one_prefix(s: &[u8], t: &[u8]) -> bool
    ensures { IsTrue result ↔ AreAllAlike (prefix_items s.now) (prefix_items t.now) }
{
    if s.is_empty() {
        return t.is_empty();
    }
    if t.is_empty() {
        return false;
    }
    are_alike(Component::Prefix(s), Component::Prefix(t))
}

/// Whether two paths have a root component, or neither has one.
fn have_one_root(style: Style, path: &[u8], other: &[u8]) -> bool
    ensures { IsTrue result ↔ HaveOneRoot style path.now other.now }
{
    are_one_root(head_of(style, other).start, head_of(style, path).start)
}

/// Whether two starts are roots, or neither is one.
fn are_one_root(start: Start, other: Start) -> bool
    ensures { IsTrue result ↔ (cleaned_start start ≡ cleaned_start other) }
{
    match start {
        Start::Root => is_root(other),
        _ => !is_root(other),
    }
}

/// The longest front of a base that another path begins with.
#[tactic(auto, using(crate::proofs::lemmas::CommonBases::not_begun, crate::proofs::lemmas::CommonBases::one_further, crate::proofs::lemmas::CommonBases::all_together, crate::proofs::lemmas::CommonBases::other_over, crate::proofs::lemmas::CommonBases::other_unlike,))]
fn shared<'a>(style: Style, base: &'a [u8], other: &[u8]) -> &'a [u8]
    requires { IsFrontBeside style base.now other.now }
    ensures { IsShared style base.entry.now other.now result.now }
{
    let mut left = Components::new(style, base);
    let mut others = Components::new(style, other);
    loop {
        let Some(item) = left.next() else {
            return base;
        };
        let Some(have) = others.next() else {
            return front_of(style, base, left);
        };
        if !are_alike(have, item) {
            return front_of(style, base, left);
        }
    }
}

/// The front of a base without its remaining components and the one before them.
#[tactic(auto, using(crate::proofs::lemmas::CommonBases::next_above, crate::proofs::lemmas::CommonBases::last_above, crate::proofs::lemmas::CommonBases::top_left,))]
fn front_of<'a>(style: Style, base: &'a [u8], mut left: Components<'_>) -> &'a [u8]
    ensures { (other : List ℕ) → PartsAt style base.entry.now other (length left.entry.items)
        → IsFrontBeside style base.entry.now other
        → IsShared style base.entry.now other result.now }
{
    let mut front = base;
    loop {
        let Some(above) = parent(style, front) else {
            return front;
        };
        front = above;
        let Some(_) = left.next() else {
            return front;
        };
    }
}
