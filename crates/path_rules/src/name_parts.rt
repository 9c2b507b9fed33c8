//! The parts of a name around its dots.
ghost use Rattle.std.specs.Prelude.{◌≡◌, ◌↔◌, IsTrue, MatchOption, List, ℕ};
ghost use Rattle.path_rules.specs.Name.{IsExtension, HasNoExtension, IsStem, IsNamePrefix, IsExtensionText, dot_dot};

use crate::rules::Style;

/// Splits a name at its last dot into the name without its extension, and the extension. Returns
/// `None` if the only dot is the first byte, if there is none, and for `..`.
///
/// The two parts, joined by a dot, are the name.
///
/// ```
/// use path_rules::split_extension;
///
/// assert!(rt; split_extension(b"a.tar.gz") == Some((b"a.tar".as_slice(), b"gz".as_slice())));
/// assert!(rt; split_extension(b"a.") == Some((b"a".as_slice(), b"".as_slice())));
/// assert!(rt; split_extension(b".profile").is_none() && split_extension(b"..").is_none());
/// ```
pub fn split_extension(name: &[u8]) -> Option<(&[u8], &[u8])>
    ensures { MatchOption result (HasNoExtension name.now)
        (λ parts. IsExtension name.now parts.0.now parts.1.now) }
{
    if is_dot_dot(name) {
        return None;
    }
    let mut at = name.len();
    while at > 1 {
        if name[at - 1] == b'.' {
            return Some((&name[..at - 1], &name[at..]));
        }
        at -= 1;
    }
    None
}

/// Returns the name without its extension and the dot before it, or the whole name if it has no
/// extension (std's `Path::file_stem` of a path whose last component is the name).
///
/// ```
/// use path_rules::stem;
///
/// assert_eq!(rt; stem(b"a.tar.gz"), b"a.tar".as_slice());
/// assert_eq!(rt; stem(b".profile"), b".profile".as_slice());
/// ```
pub fn stem(name: &[u8]) -> &[u8]
    ensures { IsStem name.now result.now }
{
    match split_extension(name) {
        Some((stem, _)) => stem,
        None => name,
    }
}

/// Returns the extension of a name, which follows its last dot (std's `Path::extension` of a path
/// whose last component is the name). Returns `None` if the only dot is the first byte, if there is
/// none, and for `..`.
///
/// ```
/// use path_rules::extension;
///
/// assert_eq!(rt; extension(b"a.tar.gz"), Some(b"gz".as_slice()));
/// assert_eq!(rt; extension(b".profile"), None);
/// ```
pub fn extension(name: &[u8]) -> Option<&[u8]>
    ensures { MatchOption result (HasNoExtension name.now)
        (λ extension. (stem : List ℕ) × IsExtension name.now stem extension.now) }
{
    match split_extension(name) {
        Some((_, extension)) => Some(extension),
        None => None,
    }
}

/// Returns the part of a name before its first dot, where a dot as the first byte doesn't count.
/// Returns the whole name if there is no such dot, and for `..`. It is std's `Path::file_prefix` of
/// a path whose last component is the name.
///
/// ```
/// use path_rules::name_prefix;
///
/// assert_eq!(rt; name_prefix(b"a.tar.gz"), b"a".as_slice());
/// assert_eq!(rt; name_prefix(b".profile.d"), b".profile".as_slice());
/// ```
pub fn name_prefix(name: &[u8]) -> &[u8]
    ensures { IsNamePrefix name.now result.now }
{
    if is_dot_dot(name) {
        return name;
    }
    let mut at = 1;
    while at < name.len() {
        if name[at] == b'.' {
            return &name[..at];
        }
        at += 1;
    }
    name
}

/// Whether a name is `..`.
#[inline(always)]
fn is_dot_dot(name: &[u8]) -> bool
    ensures { IsTrue result ↔ (name.now ≡ dot_dot) }
{
    match name {
        [b'.', b'.'] => true,
        _ => false,
    }
}

/// Returns `true` if the bytes have no separator, which `set_extension` of `path_building` and its
/// kin require of an extension (own call).
///
/// ```
/// use path_rules::{Style, is_extension_text};
///
/// assert!(rt; is_extension_text(Style::Unix, br"tar.gz") && is_extension_text(Style::Unix, br"a\b"));
/// assert!(rt; !is_extension_text(Style::Windows, br"a\b"));
/// ```
pub fn is_extension_text(style: Style, extension: &[u8]) -> bool
    ensures { IsTrue result ↔ IsExtensionText style extension.now }
{
    match style.rules().split_first(extension) {
        Some(_) => false,
        None => true,
    }
}
