//! Items and the byte that ends each.
ghost use Rattle.std.specs.Prelude.{◌≡◌, ◌∷◌, ◌++◌, [], MatchOption, OnOk, OnErr};
ghost use Rattle.list_programs.specs.Items.{Lacks, IsCutAt};

use memchr::memchr;
use std::alloc::{AllocError, Allocator};

/// What comes before the first byte `end`, and what comes after it.
///
/// ```
/// use list_programs::items::split_at_end;
///
/// let parts = split_at_end(0, b"a\0b");
/// assert!(rt; parts == Some((b"a".as_slice(), b"b".as_slice())));
/// assert!(rt; split_at_end(0, b"ab").is_none());
/// ```
pub fn split_at_end(end: u8, bytes: &[u8]) -> Option<(&[u8], &[u8])>
    ensures { MatchOption result (Lacks end bytes.now)
        (λ parts. IsCutAt end bytes.now parts.0.now parts.1.now) }
{
    let Some(at) = memchr(end, bytes) else {
        return None;
    };
    let (prefix, rest) = bytes.split_at(at);
    let (_, after) = rest.split_at(1);
    Some((prefix, after))
}

/// Appends bytes and the byte that ends them.
///
/// # Errors
///
/// `AllocError` if an allocation failed. The output is unchanged then.
///
/// ```
/// use list_programs::items::push_ended;
///
/// let mut output = Vec::new(alloc);
/// push_ended(b"ab", 0, &mut output)?;
/// assert_eq!(rt; output.as_slice(), b"ab\0".as_slice());
/// ```
pub fn push_ended<A: Allocator>(
    bytes: &[u8],
    end: u8,
    output: &mut Vec<u8, A>,
) -> Result<(), AllocError>
    ensures ok { OnOk result (output.new.items ≡ output.old.items ++ (bytes.now ++ end ∷ [])) }
    ensures unchanged { OnErr result (output.new.items ≡ output.old.items) }
{
    output.reserve(bytes.len() + 1)?;
    output.extend_from_slice(bytes)?;
    output.push_reserved(end);
    Ok(())
}
