//! The pattern of one string.
ghost use Rattle.std.specs.Prelude.{◌≡◌, IfOk};
ghost use Rattle.platform_str.specs.Strings.{bytes, string_vec_of};
ghost use Rattle.glob_text.specs.Escape.{escaped, IsPatternOf};
ghost use Rattle.glob_text.specs.Marks.{is_quoting};
ghost use Rattle.glob_patterns.specs.Letters.{letters_of};
ghost use Rattle.glob_patterns.specs.Options.{syntax_of};

use crate::options::GlobOptions;
use glob_text::escape;
use os_str_ext::{OsStr, OsString, Platform};
use std::alloc::{AllocError, Allocator};

/// Returns the pattern that matches this string and, where case matters, nothing else.
/// [`Glob::from_os_str`](crate::Glob::from_os_str) fails for it only if an allocation fails. A
/// character that these options read as more than a letter is quoted by a `\`. Where `\` quotes
/// nothing, the character is in a class of its own.
///
/// Where both `/` and `\` are separators, the pattern also matches strings that have the other
/// separator in its place.
///
/// # Errors
///
/// `AllocError` if an allocation fails.
///
/// ```
/// use glob_patterns::{Glob, GlobError, GlobOptions, Separators, escape_pattern};
/// use os_str_ext::{OsStr, Unix, Windows};
///
/// let options = GlobOptions::new(Separators::Slash);
/// let name = OsStr::<Unix>::new("a*[b]");
/// let pattern = escape_pattern(alloc, options, name)?;
/// assert!(rt; pattern.as_os_str() == OsStr::new(r"a\*\[b]"));
/// let glob = Glob::from_os_str(alloc, options, pattern.as_os_str())?;
/// assert!(rt; glob.is_match(name) && !glob.is_match(OsStr::new("ab[b]")));
///
/// let options = GlobOptions::new(Separators::SlashAndBackslash);
/// let pattern = escape_pattern(alloc, options, OsStr::<Windows>::new("a[b]"))?;
/// assert!(rt; pattern.as_os_str() == OsStr::new("a[[]b]"));
/// ```
pub fn escape_pattern<E: Platform, A: Allocator>(
    alloc: A,
    options: GlobOptions,
    string: OsStr<'_, E>,
) -> Result<OsString<E, A>, AllocError>
    ensures text { IfOk result (λ pattern. (string_vec_of pattern).items
        ≡ escaped (is_quoting (syntax_of options)) (bytes string.entry)) }
    ensures pattern { IfOk result (λ pattern. IsPatternOf E.well_formed (letters_of E.units)
        (syntax_of options) (string_vec_of pattern).items
        (letters_of E.units (bytes string.entry))) }
{
    let text = escape(alloc, options.syntax(), string.as_encoded_bytes())?;
    Ok(OsString::from_encoded_bytes_unchecked(text))
}
