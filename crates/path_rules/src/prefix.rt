//! The prefix of a Windows path.
ghost use Rattle.std.specs.Prelude.{◌≡◌, ◌≢◌, ◌++◌, ◌<◌, ◌≤◌, [], List, ℕ, length, MatchOption, IfSome};
ghost use Rattle.std.specs.Option.{option_map};
ghost use Rattle.path_rules.specs.Separators.{IsField};
ghost use Rattle.path_rules.specs.Prefix.{Kind, is_letter, upper, lead_of, verbatim_lead, double_lead, begins_verbatim, IsPrefixOf, IsUnc, IsVerbatim, IsVerbatimUnc};
ghost use Rattle.path_rules.specs.StyleRules.{rules_of_path};
ghost use Rattle.path_rules.specs.PrefixViews.{kind_of, rules_after, lead_view, verbatim_lead_view};

use crate::rules::{Rules, Style};

/// The prefix of a Windows path (std's `Prefix`). Its strings are of type `S`, such as `&[u8]`.
///
/// The letter of a drive is upper case, however it is written.
#[derive(Clone, Copy, Debug, PartialEq, Eq)]
pub enum Prefix<S> {
    /// `\\?\name`
    Verbatim(S),
    /// `\\?\UNC\server\share`
    VerbatimUnc(S, S),
    /// `\\?\C:`
    VerbatimDisk(u8),
    /// `\\.\name`
    Device(S),
    /// `\\server\share`
    Unc(S, S),
    /// `C:`
    Disk(u8),
}

impl<S: Copy> Prefix<S> {
    /// What separates after the prefix (`\` alone if std's `Prefix::is_verbatim` is true).
    ///
    /// ```
    /// use path_rules::{Prefix, Rules};
    ///
    /// assert!(rt; Prefix::Verbatim(b"a".as_slice()).rules() == Rules::Verbatim);
    /// assert!(rt; Prefix::<&[u8]>::Disk(b'C').rules() == Rules::Either);
    /// ```
    pub fn rules(self) -> Rules
        ensures { result ≡ rules_after self }
    {
        match self {
            Prefix::Verbatim(_) | Prefix::VerbatimUnc(_, _) | Prefix::VerbatimDisk(_) => {
                Rules::Verbatim
            }
            _ => Rules::Either,
        }
    }
}

/// How a path begins.
#[derive(Clone, Copy)]
enum Lead<S> {
    Verbatim(S),
    Device(S),
    Double(S),
    Drive(u8, S),
    Plain,
}

/// How what follows `\\?\` begins.
#[derive(Clone, Copy)]
enum VerbatimLead<S> {
    Unc(S),
    Drive(u8, S),
    Name,
}

#[inline(always)]
fn is_letter(byte: u8) -> bool
    ensures { result ≡ is_letter byte }
{
    (byte >= b'A' && byte <= b'Z') || (byte >= b'a' && byte <= b'z')
}

#[inline(always)]
pub(crate) fn upper(byte: u8) -> u8
    ensures { result ≡ upper byte }
{
    if byte >= b'a' && byte <= b'z' {
        byte - 32
    } else {
        byte
    }
}

/// How a path begins, which at most four bytes determine.
fn lead_of(path: &[u8]) -> Lead<&[u8]>
    ensures { lead_view result ≡ lead_of path.now }
{
    let [a, b, rest @ ..] = path else {
        return Lead::Plain;
    };
    if Rules::Either.is_separator(*a) && Rules::Either.is_separator(*b) {
        return double_lead(*a, *b, rest);
    }
    if is_letter(*a) && *b == b':' {
        return Lead::Drive(*a, rest);
    }
    Lead::Plain
}

/// How a path with two separators at its start begins.
fn double_lead(a: u8, b: u8, path: &[u8]) -> Lead<&[u8]>
    ensures { lead_view result ≡ double_lead a b path.now }
{
    let [c, d, rest @ ..] = path else {
        return Lead::Double(path);
    };
    if a == b'\\' && b == b'\\' && *c == b'?' && *d == b'\\' {
        return Lead::Verbatim(rest);
    }
    if *c == b'.' && Rules::Either.is_separator(*d) {
        return Lead::Device(rest);
    }
    Lead::Double(path)
}

/// How what follows `\\?\` begins, by its first part and what follows that.
fn verbatim_lead<'a>(part: &[u8], after: &'a [u8]) -> VerbatimLead<&'a [u8]>
    ensures { verbatim_lead_view result ≡ verbatim_lead part.now after.entry.now }
{
    match part {
        [b'U', b'N', b'C'] => match after {
            [_, more @ ..] => VerbatimLead::Unc(more),
            [] => VerbatimLead::Name,
        },
        [a, b':'] if is_letter(*a) => VerbatimLead::Drive(*a, after),
        _ => VerbatimLead::Name,
    }
}

/// Splits the prefix off a Windows path, and returns it and the rest; `None` if there is none. A
/// path has at most one prefix, of at most one kind (std's `PrefixComponent::kind`).
///
/// - `\\?\UNC\server\share`, `\\?\C:` and `\\?\name` end before a `\`; the server and the share
///   of the first may be empty, and `C:` is a drive only if a separator or nothing follows it;
/// - `\\.\name` and `\\server\share` end before a separator; neither the server nor the share is
///   empty, and the separators may be `/`;
/// - `C:`, a letter and a colon, whatever follows.
///
/// ```
/// use path_rules::{Prefix, windows_prefix};
///
/// let (prefix, rest) = windows_prefix(br"\\server\share\a").expect(&rt, "a prefix");
/// assert!(rt; prefix == Prefix::Unc(b"server".as_slice(), b"share".as_slice()));
/// assert_eq!(rt; rest, br"\a".as_slice());
/// assert!(rt; windows_prefix(br"\\server").is_none() && windows_prefix(b"CC:").is_none());
/// ```
pub fn windows_prefix(path: &[u8]) -> Option<(Prefix<&[u8]>, &[u8])>
    ensures { MatchOption result
        ((kind : Kind) → (rest : List ℕ) → ¬ (IsPrefixOf path.now kind rest))
        (λ found. IsPrefixOf path.now (kind_of found.0) found.1.now) }
{
    match lead_of(path) {
        Lead::Verbatim(rest) => Some(verbatim_prefix(rest)),
        Lead::Device(rest) => {
            let (name, rest) = Rules::Either.split_field(rest);
            Some((Prefix::Device(name), rest))
        }
        Lead::Double(rest) => unc_prefix(rest),
        Lead::Drive(letter, rest) => Some((Prefix::Disk(upper(letter)), rest)),
        Lead::Plain => None,
    }
}

/// The server and the share that two separators begin.
fn unc_prefix(path: &[u8]) -> Option<(Prefix<&[u8]>, &[u8])>
    ensures { MatchOption result
        ((kind : Kind) → (rest : List ℕ) → ¬ (IsUnc path.now kind rest))
        (λ found. IsUnc path.now (kind_of found.0) found.1.now) }
{
    let (server, after) = Rules::Either.split_field(path);
    let [_, more @ ..] = after else {
        return None;
    };
    let (share, rest) = Rules::Either.split_field(more);
    if server.is_empty() || share.is_empty() {
        return None;
    }
    Some((Prefix::Unc(server, share), rest))
}

/// The prefix that `\\?\` begins.
fn verbatim_prefix(path: &[u8]) -> (Prefix<&[u8]>, &[u8])
    ensures { IsVerbatim path.now (kind_of result.0) result.1.now }
{
    let (part, after) = Rules::Either.split_field(path);
    match verbatim_lead(part, after) {
        VerbatimLead::Unc(more) => verbatim_unc(more),
        VerbatimLead::Drive(letter, rest) => (Prefix::VerbatimDisk(upper(letter)), rest),
        VerbatimLead::Name => {
            let (name, rest) = Rules::Verbatim.split_field(path);
            (Prefix::Verbatim(name), rest)
        }
    }
}

/// The server and the share that `\\?\UNC\` begins; either may be empty.
fn verbatim_unc(path: &[u8]) -> (Prefix<&[u8]>, &[u8])
    ensures { IsVerbatimUnc path.now (kind_of result.0) result.1.now }
{
    let (server, after) = Rules::Verbatim.split_field(path);
    let [_, more @ ..] = after else {
        return (Prefix::VerbatimUnc(server, b"".as_slice()), after);
    };
    let (share, rest) = Rules::Verbatim.split_field(more);
    if share.is_empty() {
        return (Prefix::VerbatimUnc(server, share), after);
    }
    (Prefix::VerbatimUnc(server, share), rest)
}

/// Whether the prefix begins with `\\?\`.
///
/// ```
/// use path_rules::parts::is_verbatim;
///
/// assert!(rt; is_verbatim(br"\\?\C:") && !is_verbatim(b"C:"));
/// ```
pub fn is_verbatim(prefix: &[u8]) -> bool
    ensures { result ≡ begins_verbatim prefix.now }
{
    match prefix {
        [a, b, c, d, ..] => *a == b'\\' && *b == b'\\' && *c == b'?' && *d == b'\\',
        _ => false,
    }
}

/// What separates in a path.
pub(crate) fn rules_of(style: Style, path: &[u8]) -> Rules
    ensures { result ≡ rules_of_path style path.now }
{
    match style {
        Style::Unix => Rules::Slash,
        Style::Windows => {
            if is_verbatim(path) {
                Rules::Verbatim
            } else {
                Rules::Either
            }
        }
    }
}
