//! Parts of a pattern, one after the other.
ghost use Rattle.std.specs.Prelude.{◌≡◌, ◌++◌, OnOk, OnErr};
ghost use Rattle.wildcards.specs.Groups.{group};

use crate::part::Part;
use crate::piece::Piece;
use std::alloc::{AllocError, Allocator};

/// Appends a part to a pattern. If the part is `**` (`deep`), it takes any number of components
/// before a separator (`joined`), and else one or more, as in globset and in git's ignore files.
///
/// # Errors
///
/// `AllocError` if an allocation fails. The pattern is unchanged then.
///
/// ```
/// use wildcards::{Bytes, Options, Part, Piece, Separators, matches, push_group};
///
/// let options = Options { separators: Separators::Slash, literal_leading_dot: false };
/// for joined in [true, false] {
///     let mut stars = Vec::new(alloc);
///     stars.push(Piece::Many)?;
///     stars.push(Piece::Many)?;
///     let mut pattern = Vec::new(alloc);
///     push_group(&mut pattern, Part::new(alloc, stars)?, true, joined)?;
///     assert!(rt; matches::<Bytes, _>(options, &pattern, b"a/b"));
///     assert!(rt; matches::<Bytes, _>(options, &pattern, b"a"));
///     assert!(rt; pattern.len() == if joined { 1 } else { 2 });
/// }
/// ```
pub fn push_group<A: Allocator>(
    pattern: &mut Vec<Piece<Part<A>>, A>,
    part: Part<A>,
    deep: bool,
    joined: bool,
) -> Result<(), AllocError>
    ensures appended { OnOk result (pattern.new.items ≡ pattern.old.items ++ group deep joined part) }
    ensures unchanged { OnErr result (pattern.new.items ≡ pattern.old.items) }
{
    if deep {
        pattern.push(Piece::Many)?;
    }
    if deep && joined {
        return Ok(());
    }
    if pattern.push(Piece::One(part)).is_err() {
        if deep {
            pattern.pop();
        }
        return Err(AllocError);
    }
    Ok(())
}
