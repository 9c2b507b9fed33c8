//! A path whose prefix is found once.
ghost use Rattle.std.specs.Prelude.{◌≡◌, ◌↔◌, ◌++◌, ℕ, [], IsTrue};
ghost use Rattle.path_rules.specs.declared.rules.Style.TheVariants as whose;
ghost use Rattle.path_rules.specs.Prefix.{Disk, IsPrefixed, IsRawPrefix, WithPrefix, HasKind};
ghost use Rattle.path_rules.specs.StyleRules.{rules_of_path};
ghost use Rattle.path_rules.specs.Parsed.{IsFound, FoundWith, KindFound, SomeFound, RootFound, AbsoluteFound, IsVerbatimKind, rules_found, IsStartFound, kind_found};

use crate::head::{Head, Start, root_of, start_of};
use crate::prefix::{Prefix, windows_prefix};
use crate::root::begins_with_separator;
use crate::rules::{Rules, Style};

/// A path whose prefix is found once: no method searches for it again.
///
/// ```
/// use path_rules::Style;
/// use path_rules::parts::Parsed;
///
/// let path = Parsed::new(Style::Windows, br"C:\a");
/// assert!(rt; path.is_prefixed() && path.is_absolute() && !path.is_verbatim());
/// assert!(rt; path.raw_prefix() == b"C:".as_slice() && path.rest == br"\a".as_slice());
/// ```
#[derive(Clone, Copy)]
pub struct Parsed<'a> {
    /// Whose rules it follows.
    pub style: Style,
    /// The path.
    pub whole: &'a [u8],
    /// Its prefix.
    pub prefix: Option<Prefix<&'a [u8]>>,
    /// What follows the prefix, or the path.
    pub rest: &'a [u8],
    ghost found: { ∥ IsFound style whole.now (kind_found prefix) rest.now ∥₁ },
}

impl<'a> Parsed<'a> {
    ghost use Rattle.path_rules.specs.Root.{HasRoot, IsAbsolute};
    ghost use Rattle.path_rules.specs.Heads.{items_of};
    ghost use Rattle.path_rules.specs.HeadParts.{IsHead};
    ghost use Rattle.path_rules.specs.Components.{AreComponents};

    /// Parses a path.
    ///
    /// ```
    /// use path_rules::Style;
    /// use path_rules::parts::Parsed;
    ///
    /// let path = Parsed::new(Style::Windows, br"C:\a");
    /// assert!(rt; path.whole == br"C:\a".as_slice() && path.rest == br"\a".as_slice());
    /// ```
    pub fn new(style: Style, path: &'a [u8]) -> Self
        ensures style { result.style ≡ style }
        ensures whole { result.whole.now ≡ path.entry.now }
    {
        match style {
            Style::Unix => Parsed {
                style,
                whole: path,
                prefix: None,
                rest: path,
            },
            Style::Windows => Parsed::of_windows(path),
        }
    }

    fn of_windows(path: &'a [u8]) -> Self
        ensures style { result.style ≡ whose.Windows }
        ensures whole { result.whole.now ≡ path.entry.now }
    {
        match windows_prefix(path) {
            Some((prefix, rest)) => Parsed {
                style: Style::Windows,
                whole: path,
                prefix: Some(prefix),
                rest,
            },
            None => Parsed {
                style: Style::Windows,
                whole: path,
                prefix: None,
                rest: path,
            },
        }
    }

    /// What separates in the path: its style's separators, or those after its prefix.
    ///
    /// ```
    /// use path_rules::{Rules, Style};
    /// use path_rules::parts::Parsed;
    ///
    /// assert!(rt; Parsed::new(Style::Unix, b"/a").rules() == Rules::Slash);
    /// assert!(rt; Parsed::new(Style::Windows, br"\\?\C:\a").rules() == Rules::Verbatim);
    /// ```
    #[tactic(auto, using(crate::proofs::lemmas::Parsings::rules_are))]
    pub fn rules(&self) -> Rules
        ensures found { result ≡ rules_found self.now.style (kind_found self.now.prefix) }
        ensures path { result ≡ rules_of_path self.now.style self.now.whole.now }
    {
        rules_found(self.style, self.prefix)
    }

    /// The bytes of the prefix, empty if there is none.
    ///
    /// ```
    /// use path_rules::Style;
    /// use path_rules::parts::Parsed;
    ///
    /// assert_eq!(rt; Parsed::new(Style::Windows, br"C:\a").raw_prefix(), b"C:".as_slice());
    /// assert!(rt; Parsed::new(Style::Windows, br"\a").raw_prefix().is_empty());
    /// ```
    #[tactic(auto, using(crate::proofs::lemmas::Parsings::rest_inside, crate::proofs::lemmas::Parsings::raw_joined, crate::proofs::lemmas::Parsings::raw_found))]
    pub fn raw_prefix(&self) -> &'a [u8]
        ensures raw { IsRawPrefix self.now.style self.now.whole.now result.now }
        ensures joined { self.now.whole.now ≡ result.now ++ self.now.rest.now }
    {
        &self.whole[..self.whole.len() - self.rest.len()]
    }

    /// The path's parts ([`crate::parts::head_of`]).
    ///
    /// ```
    /// use path_rules::Style;
    /// use path_rules::parts::Parsed;
    ///
    /// assert_eq!(rt; Parsed::new(Style::Windows, br"C:\a\b").head().body, br"a\b".as_slice());
    /// ```
    #[tactic(auto, using(crate::proofs::lemmas::Parsings::parsed_head, crate::proofs::lemmas::Parsings::parsed_items))]
    pub fn head(&self) -> Head<'a>
        ensures items { AreComponents self.now.style self.now.whole.now (items_of result) }
        ensures parts { IsHead self.now.style self.now.whole.now result }
    {
        let (start, body) = start_found(self.style, self.prefix, self.rest);
        Head {
            rules: self.rules(),
            prefix: self.raw_prefix(),
            start,
            body,
        }
    }

    /// Whether the path begins with a prefix.
    ///
    /// ```
    /// use path_rules::Style;
    /// use path_rules::parts::Parsed;
    ///
    /// assert!(rt; Parsed::new(Style::Windows, b"C:a").is_prefixed());
    /// assert!(rt; !Parsed::new(Style::Unix, b"C:a").is_prefixed());
    /// ```
    #[tactic(auto, using(crate::proofs::lemmas::Parsings::is_prefixed))]
    pub fn is_prefixed(&self) -> bool
        ensures { IsTrue result ↔ IsPrefixed self.now.style self.now.whole.now }
    {
        is_some(self.prefix)
    }

    /// Whether the path begins with a prefix after which only `\` separates, as `\\?\C:`.
    ///
    /// ```
    /// use path_rules::Style;
    /// use path_rules::parts::Parsed;
    ///
    /// assert!(rt; Parsed::new(Style::Windows, br"\\?\C:\a").is_verbatim());
    /// assert!(rt; !Parsed::new(Style::Windows, br"C:\a").is_verbatim());
    /// ```
    #[tactic(auto, using(crate::proofs::lemmas::Parsings::has_kind))]
    pub fn is_verbatim(&self) -> bool
        ensures { IsTrue result ↔ HasKind self.now.style self.now.whole.now IsVerbatimKind }
    {
        has_verbatim_rules(self.prefix)
    }

    /// Whether the path is a drive alone, as `C:`.
    ///
    /// ```
    /// use path_rules::Style;
    /// use path_rules::parts::Parsed;
    ///
    /// assert!(rt; Parsed::new(Style::Windows, b"C:").is_drive_alone());
    /// assert!(rt; !Parsed::new(Style::Windows, br"C:\").is_drive_alone());
    /// ```
    #[tactic(auto, using(crate::proofs::lemmas::Parsings::with_found))]
    pub fn is_drive_alone(&self) -> bool
        ensures { IsTrue result ↔ WithPrefix self.now.style self.now.whole.now
            (λ kind rest. (rest ≡ []) × ((letter : ℕ) × (kind ≡ Disk letter))) }
    {
        is_drive(self.prefix, self.rest)
    }

    /// Whether the path has a root (std's `Path::has_root`).
    ///
    /// ```
    /// use path_rules::Style;
    /// use path_rules::parts::Parsed;
    ///
    /// assert!(rt; Parsed::new(Style::Windows, br"\a").has_root());
    /// assert!(rt; !Parsed::new(Style::Windows, b"C:a").has_root());
    /// ```
    #[tactic(auto, using(crate::proofs::lemmas::Parsings::root_found))]
    pub fn has_root(&self) -> bool
        ensures { IsTrue result ↔ HasRoot self.now.style self.now.whole.now }
    {
        has_root(self.style, self.prefix, self.rest)
    }

    /// Whether the path is absolute (std's `Path::is_absolute`).
    ///
    /// ```
    /// use path_rules::Style;
    /// use path_rules::parts::Parsed;
    ///
    /// assert!(rt; Parsed::new(Style::Windows, br"C:\a").is_absolute());
    /// assert!(rt; !Parsed::new(Style::Windows, br"\a").is_absolute());
    /// ```
    #[tactic(auto, using(crate::proofs::lemmas::Parsings::is_absolute))]
    pub fn is_absolute(&self) -> bool
        ensures { IsTrue result ↔ IsAbsolute self.now.style self.now.whole.now }
    {
        is_absolute(self.style, self.prefix, self.rest)
    }
}

fn rules_found(style: Style, prefix: Option<Prefix<&[u8]>>) -> Rules
    ensures { result ≡ rules_found style (kind_found prefix.entry) }
{
    match prefix {
        Some(Prefix::Verbatim(_) | Prefix::VerbatimUnc(_, _) | Prefix::VerbatimDisk(_)) => {
            Rules::Verbatim
        }
        Some(_) => Rules::Either,
        None => style.rules(),
    }
}

fn start_found<'a>(style: Style, prefix: Option<Prefix<&[u8]>>, rest: &'a [u8]) -> (Start, &'a [u8])
    ensures { IsStartFound style (kind_found prefix.entry) rest.entry.now result.0 result.1.now }
{
    match prefix {
        Some(prefix) => root_of(prefix, rest),
        None => start_of(style.rules(), rest),
    }
}

fn is_some(prefix: Option<Prefix<&[u8]>>) -> bool
    ensures { IsTrue result ↔ SomeFound (kind_found prefix.entry) }
{
    match prefix {
        Some(_) => true,
        None => false,
    }
}

fn has_verbatim_rules(prefix: Option<Prefix<&[u8]>>) -> bool
    ensures { IsTrue result ↔ KindFound IsVerbatimKind (kind_found prefix.entry) }
{
    matches!(
        prefix,
        Some(Prefix::Verbatim(_) | Prefix::VerbatimUnc(_, _) | Prefix::VerbatimDisk(_))
    )
}

fn is_drive(prefix: Option<Prefix<&[u8]>>, rest: &[u8]) -> bool
    ensures { IsTrue result ↔ FoundWith
        (λ kind rest. (rest ≡ []) × ((letter : ℕ) × (kind ≡ Disk letter)))
        (kind_found prefix.entry) rest.now }
{
    match prefix {
        Some(Prefix::Disk(_)) => rest.is_empty(),
        _ => false,
    }
}

fn has_root(style: Style, prefix: Option<Prefix<&[u8]>>, rest: &[u8]) -> bool
    ensures { IsTrue result ↔ RootFound style (kind_found prefix.entry) rest.now }
{
    match prefix {
        Some(Prefix::Disk(_)) => begins_with_separator(Rules::Either, rest),
        Some(_) => true,
        None => begins_with_separator(style.rules(), rest),
    }
}

fn is_absolute(style: Style, prefix: Option<Prefix<&[u8]>>, rest: &[u8]) -> bool
    ensures { IsTrue result ↔ AbsoluteFound style (kind_found prefix.entry) rest.now }
{
    match style {
        Style::Unix => begins_with_separator(Rules::Slash, rest),
        Style::Windows => match prefix {
            Some(Prefix::Disk(_)) => begins_with_separator(Rules::Either, rest),
            Some(_) => true,
            None => false,
        },
    }
}
