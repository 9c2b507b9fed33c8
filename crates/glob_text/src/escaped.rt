//! Texts that, as patterns, match a given one alone.
ghost use Rattle.std.specs.Prelude.{◌≡◌, ◌++◌, IfOk, OnOk};
ghost use Rattle.glob_text.specs.Marks.{is_quoting, kind_of};
ghost use Rattle.glob_text.specs.Escape.{is_literal, escaped_letter, escaped};

use crate::mark::{Kind, kind_of};
use crate::syntax::Syntax;
use std::alloc::{AllocError, Allocator};

impl Kind {
    /// Whether a letter of this kind matches itself.
    fn is_literal(self) -> bool
        ensures { result ≡ is_literal self }
    {
        match self {
            Kind::Literal => true,
            Kind::Quote
            | Kind::Star
            | Kind::Question
            | Kind::Bracket
            | Kind::Open
            | Kind::Comma
            | Kind::Close => false,
        }
    }
}

/// Appends a letter, quoted unless it matches itself.
fn push_escaped<A: Allocator>(
    quoting: bool,
    byte: u8,
    text: &mut Vec<u8, A>,
) -> Result<(), AllocError>
    ensures { OnOk result (text.new.items ≡ text.old.items ++ escaped_letter quoting byte) }
{
    if kind_of(quoting, u32::from(byte)).is_literal() {
        text.push(byte)?;
        return Ok(());
    }
    if quoting {
        text.push(b'\\')?;
        text.push(byte)?;
        return Ok(());
    }
    text.push(b'[')?;
    text.push(byte)?;
    text.push(b']')?;
    Ok(())
}

/// Returns the text that, as a pattern, matches this text and, where case matters, nothing else. A
/// character that the syntax reads as more than a letter is quoted by a `\`. Where `\` quotes
/// nothing, the character is in a class of its own.
///
/// # Errors
///
/// `AllocError` if an allocation fails.
///
/// ```
/// use glob_text::{Syntax, escape};
/// use wildcards::Separators;
///
/// let separators = Separators::Slash;
/// let syntax =
///     Syntax { separators, escapes: true, class_escapes: false, case_insensitive: false };
/// assert_eq!(rt; escape(alloc, syntax, b"a*[b]")?.as_slice(), br"a\*\[b]".as_slice());
/// let syntax = Syntax { escapes: false, ..syntax };
/// assert_eq!(rt; escape(alloc, syntax, b"a*[b]")?.as_slice(), b"a[*][[]b]".as_slice());
/// ```
pub fn escape<A: Allocator>(alloc: A, syntax: Syntax, text: &[u8]) -> Result<Vec<u8, A>, AllocError>
    ensures { IfOk result (λ pattern. pattern.items ≡ escaped (is_quoting syntax) text.now) }
{
    let quoting = syntax.is_quoting();
    let mut pattern = Vec::new(alloc);
    let mut left = text;
    while let Some((byte, rest)) = left.split_first() {
        push_escaped(quoting, *byte, &mut pattern)?;
        left = rest;
    }
    Ok(pattern)
}
