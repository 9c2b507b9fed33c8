//! What may be the base of names that come from outside.
ghost use Rattle.std.specs.Prelude.{◌≡◌, ◌↔◌, [], IsTrue, MatchOption};
ghost use Rattle.std.specs.List.{AllByRecursion};
ghost use Rattle.path_rules.specs.declared.rules.Rules.TheVariants as rule;
ghost use Rattle.path_rules.specs.Component.{components_in};
ghost use Rattle.path_rules.specs.Views.{item_of};
ghost use Rattle.path_rules.specs.Separators.{Edge};
ghost use Rattle.path_rules.specs.Prefix.{WithPrefix, rules_of};
ghost use Rattle.path_rules.specs.Parsed.{FoundOr, FoundWith, kind_found};
ghost use Rattle.path_building.specs.Written.{BeginsAsObject};
ghost use Rattle.path_building.specs.Base.{HasNoNul, IsFirstNul, NamesNoObject, EndsInDotOrSpace, IsOpenKind, BeginsOpen, LacksPart, IsVerbatimAlone, IsFree, AreFree, HasFreeNames, IsMisread, HasReservedName, IsBase};

use crate::beginning::{begins_twice, is_question_mark};
use crate::error_text::write_at_byte;
use memchr::memchr;
use path_rules::parts::{Parsed, has_single_separators, next_in};
use path_rules::{Component, Prefix, Rules, Style, is_reserved};
use std::error::Error;
use std::fmt;

/// Why a path is no base ([`Base::new`]).
///
/// It prints as a message for a person. It has no width: `{:>99}` writes what `{}` does.
///
/// ```
/// use path_building::BaseError;
///
/// let error = BaseError::Nul(2);
/// assert_eq!(rt; format!(in alloc; "{error}")?.as_str(), "NUL at byte 2 of the base");
/// ```
#[derive(Clone, Copy, Debug, PartialEq, Eq)]
pub enum BaseError {
    /// The byte index of the first NUL.
    Nul(usize),
    /// The Windows path is incomplete: a name after it would be read as a part of its beginning.
    Incomplete,
    /// A name of the Windows path is reserved ([`path_rules::is_reserved`]), as `C:\nul` and `C:\a `, or
    /// is none that Windows can have, as in `\\?\C:\a\\b`.
    Reserved,
}

impl fmt::Display for BaseError {
    ghost use Rattle.std.specs.Prelude.{Some};
    ghost use Rattle.path_building.specs.ErrorText.{base_error_text};

    ghost output = { λ error. Some (base_error_text error) };

    ghost styled_output = { λ error _. Some (base_error_text error) };

    fn fmt<W: fmt::Write>(&self, f: &mut fmt::Formatter<W>) -> fmt::Result {
        match *self {
            BaseError::Nul(index) => write_at_byte("NUL", index, " of the base", f),
            BaseError::Incomplete => f.write_str("the base has an incomplete prefix"),
            BaseError::Reserved => f.write_str("the base has a reserved name"),
        }
    }
}

impl Error for BaseError {}

/// A complete path without a NUL, below which names from outside may be put by [`Base::join`].
///
/// On Unix each path without a NUL is one. It may be relative.
#[derive(Clone, Copy)]
pub struct Base<'a> {
    pub(crate) parsed: Parsed<'a>,
    ghost complete: { ∥ IsBase parsed.style parsed.whole.now ∥₁ },
}

impl<'a> Base<'a> {
    ghost use Rattle.std.specs.Prelude.{IfOk, IfErr};
    ghost use Rattle.path_building.specs.BaseViews.{base_style, base_path};
    ghost use Rattle.path_building.specs.Faults.{IsBaseFault};

    /// Returns the path as a base.
    ///
    /// # Errors
    ///
    /// The first of these that holds:
    ///
    /// - `Nul` with the byte index of the first NUL.
    /// - `Incomplete` if a name after the Windows path would be read as a part of its beginning. Its
    ///   prefix lacks a part, as `\\?\UNC\server`, or ends in a dot or a space, as
    ///   `\\server\share `. Or the name after `\\?\` or `\\.\` is `UNC` or `GLOBALROOT`, in upper
    ///   or lower case, or the server is `?`, as in `//?/UNC/server`. Or the path has no prefix and
    ///   begins with two separators, as `\\server`, or with `\??\`.
    /// - `Reserved` if a name of the Windows path is reserved ([`path_rules::is_reserved`]), as
    ///   `C:\nul`, and `C:\a `, which Windows reads as `C:\a`. After `\\?\`, where Windows reads
    ///   names as they are, only an empty name is and one with a `/`, as in `\\?\C:\a\\b` and
    ///   `\\?\C:/a`.
    ///
    /// ```
    /// use path_building::{Base, BaseError};
    /// use path_rules::Style;
    ///
    /// assert!(rt; Base::new(Style::Windows, br"C:\files").is_ok());
    /// let rejected = Base::new(Style::Windows, br"C:\files ");
    /// assert!(rt; rejected.is_err_and(|e| e == BaseError::Reserved));
    /// let rejected = Base::new(Style::Windows, br"\\?\C:/a");
    /// assert!(rt; rejected.is_err_and(|e| e == BaseError::Reserved));
    /// let rejected = Base::new(Style::Windows, br"\\?\unc\server");
    /// assert!(rt; rejected.is_err_and(|e| e == BaseError::Incomplete));
    /// ```
    pub fn new(style: Style, path: &'a [u8]) -> Result<Self, BaseError>
        ensures style { IfOk result (λ base. base_style base ≡ style) }
        ensures path { IfOk result (λ base. base_path base ≡ path.entry.now) }
        ensures err { IfErr result (λ error. IsBaseFault style path.entry.now error) }
    {
        if let Some(index) = first_nul(path) {
            return Err(BaseError::Nul(index));
        }
        let parsed = Parsed::new(style, path);
        if is_open(&parsed) {
            return Err(BaseError::Incomplete);
        }
        if has_reserved_name(&parsed) {
            return Err(BaseError::Reserved);
        }
        Ok(Base { parsed })
    }

    /// The path, parsed.
    ///
    /// ```
    /// use path_building::Base;
    /// use path_rules::Style;
    ///
    /// let base = Base::new(Style::Windows, br"C:\files")?;
    /// assert!(rt; base.parsed().is_absolute());
    /// assert_eq!(rt; base.parsed().whole, br"C:\files".as_slice());
    /// ```
    pub fn parsed(&self) -> Parsed<'a>
        ensures style { result.style ≡ base_style self.now }
        ensures path { result.whole.now ≡ base_path self.now }
        ensures base { IsBase result.style result.whole.now }
    {
        self.parsed
    }
}

/// The index of the first NUL.
#[tactic(auto, using(crate::proofs::lemmas::Bases::nul_found))]
pub(crate) fn first_nul(bytes: &[u8]) -> Option<usize>
    ensures { MatchOption result (HasNoNul bytes.now) (λ index. IsFirstNul bytes.now index) }
{
    memchr(0, bytes)
}

/// Whether a Windows path is incomplete as a base. Windows then reads the next name as a part of
/// its prefix, or the path as one of another kind.
#[tactic(auto, using(crate::proofs::lemmas::Bases::open_found))]
pub(crate) fn is_open(path: &Parsed<'_>) -> bool
    ensures { IsTrue result ↔ LacksPart path.now.style path.now.whole.now }
{
    begins_open(path.style, path.prefix, path.rest)
}

fn begins_open(style: Style, prefix: Option<Prefix<&[u8]>>, rest: &[u8]) -> bool
    ensures { IsTrue result ↔ FoundOr (BeginsOpen style) (λ kind _. IsOpenKind kind)
        (kind_found prefix.entry) rest.now }
{
    match prefix {
        Some(Prefix::Verbatim(name)) => names_no_object(name),
        Some(Prefix::VerbatimUnc(server, share)) => server.is_empty() || share.is_empty(),
        Some(Prefix::Device(name)) => names_no_object(name) || ends_in_dot_or_space(name),
        Some(Prefix::Unc(server, share)) => is_question_mark(server) || ends_in_dot_or_space(share),
        Some(_) => false,
        None => match style {
            Style::Unix => false,
            Style::Windows => begins_twice(rest) || begins_as_object(rest),
        },
    }
}

/// Whether a name after `\\?\` or `\\.\` is empty, `UNC` or `GLOBALROOT`, in upper or lower case.
fn names_no_object(name: &[u8]) -> bool
    ensures { IsTrue result ↔ NamesNoObject name.now }
{
    name.is_empty() || name.eq_ignore_ascii_case(b"UNC") || name.eq_ignore_ascii_case(b"GLOBALROOT")
}

fn ends_in_dot_or_space(name: &[u8]) -> bool
    ensures { IsTrue result ↔ EndsInDotOrSpace name.now }
{
    match name {
        [.., last] => *last == b'.' || *last == b' ',
        [] => false,
    }
}

/// Whether Windows reads a name of the path otherwise.
fn has_reserved_name(path: &Parsed<'_>) -> bool
    ensures { IsTrue result ↔ HasReservedName path.now.style path.now.whole.now }
{
    !path.is_verbatim() && !are_names_free(path) || is_misread(path)
}

/// Whether a path that begins with `\\?\` has a `/` or two `\` in a row after its prefix.
#[tactic(auto, using(path_rules::proofs::lemmas::Parsings::with_found))]
fn is_misread(path: &Parsed<'_>) -> bool
    ensures { IsTrue result ↔ WithPrefix path.now.style path.now.whole.now IsMisread }
{
    misreads(path.prefix, path.rest)
}

fn misreads(prefix: Option<Prefix<&[u8]>>, rest: &[u8]) -> bool
    ensures { IsTrue result ↔ FoundWith IsMisread (kind_found prefix.entry) rest.now }
{
    match prefix {
        Some(Prefix::Verbatim(_) | Prefix::VerbatimUnc(_, _) | Prefix::VerbatimDisk(_)) => {
            !has_single_separators(rest)
        }
        _ => false,
    }
}

/// Whether no name of a Windows path is reserved.
pub(crate) fn are_names_free(path: &Parsed<'_>) -> bool
    ensures { IsTrue result ↔ HasFreeNames path.now.style path.now.whole.now }
{
    let head = path.head();
    are_free(path.style, head.rules, head.body)
}

fn are_free(style: Style, rules: Rules, body: &[u8]) -> bool
    ensures { IsTrue result ↔ AreFree style (components_in rules body.now) }
{
    match style {
        Style::Unix => true,
        Style::Windows => all_free(rules, body),
    }
}

fn all_free(rules: Rules, body: &[u8]) -> bool
    ensures { IsTrue result ↔ AllByRecursion IsFree (components_in rules body.now) }
{
    let mut left = body;
    while let Some((item, rest)) = next_in(rules, left) {
        if !is_free(item) {
            return false;
        }
        left = rest;
    }
    true
}

fn is_free(item: Component<&[u8]>) -> bool
    ensures { IsTrue result ↔ IsFree (item_of item.entry) }
{
    match item {
        Component::Normal(name) => !is_reserved(name),
        _ => true,
    }
}

fn begins_as_object(path: &[u8]) -> bool
    ensures { IsTrue result ↔ BeginsAsObject path.now }
{
    match path {
        [a, b, c, rest @ ..] => {
            Rules::Either.is_separator(*a) && *b == b'?' && *c == b'?' && is_edge(rest)
        }
        _ => false,
    }
}

/// Whether bytes are empty or begin with a separator.
fn is_edge(rest: &[u8]) -> bool
    ensures { IsTrue result ↔ Edge rule.Either rest.now }
{
    match rest {
        [b, ..] => Rules::Either.is_separator(*b),
        [] => true,
    }
}

/// Whether a path is a prefix alone after which only `\` separates.
#[tactic(auto, using(crate::proofs::lemmas::Bases::alone_found))]
pub(crate) fn is_verbatim_alone(path: &Parsed<'_>) -> bool
    ensures { IsTrue result ↔ IsVerbatimAlone path.now.style path.now.whole.now }
{
    is_alone(path.prefix, path.rest)
}

fn is_alone(prefix: Option<Prefix<&[u8]>>, rest: &[u8]) -> bool
    ensures { IsTrue result ↔ FoundWith (λ kind rest. (rest ≡ []) × (rules_of kind ≡ rule.Verbatim))
        (kind_found prefix.entry) rest.now }
{
    match prefix {
        Some(Prefix::Verbatim(_) | Prefix::VerbatimUnc(_, _) | Prefix::VerbatimDisk(_)) => {
            rest.is_empty()
        }
        _ => false,
    }
}
