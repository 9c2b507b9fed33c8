//! A path of one platform as a path of another.
ghost use Rattle.std.specs.Prelude.{◌≡◌, IfOk, IfErr};
ghost use Rattle.platform_str.specs.Strings.{path_vec_of};
ghost use Rattle.wtf8_core.specs.declared.fault.EncodingError as of_bytes;
ghost use Rattle.os_path.specs.declared.styles.ConvertError.TheVariants as why;

use crate::made::path_of;
use crate::style::PathStyle;
use platform_str::{PathBuf, write_number};
use std::alloc::Allocator;
use std::error::Error;
use std::fmt;
use wtf8_core::EncodingError;

/// Why a path of another platform can't have a path's components.
///
/// It prints as a message for a person. It has no width: `{:>99}` writes what `{}` does.
///
/// ```
/// use os_path::ConvertError;
///
/// let error = ConvertError::Component(3);
/// assert_eq!(rt; format!(in alloc; "{error}")?.as_str(), "the platform can't have component 3");
/// ```
#[derive(Clone, Copy, Debug, PartialEq, Eq)]
pub enum ConvertError {
    /// The component at this index is the first that the platform's style can't have.
    Component(usize),
    /// The bytes that the path would have aren't a string of the platform.
    Encoding(EncodingError),
    /// An allocation failed.
    Memory,
}

impl fmt::Display for ConvertError {
    ghost use Rattle.std.specs.Prelude.{Some};
    ghost use Rattle.os_path.specs.ErrorText.{convert_error_text};

    ghost output = { λ error. Some (convert_error_text error) };

    ghost styled_output = { λ error _. Some (convert_error_text error) };

    fn fmt<W: fmt::Write>(&self, f: &mut fmt::Formatter<W>) -> fmt::Result {
        match *self {
            ConvertError::Component(index) => {
                f.write_str("the platform can't have component ")?;
                write_number(index, f)
            }
            ConvertError::Encoding(fault) => fault.fmt(f),
            ConvertError::Memory => f.write_str("out of memory"),
        }
    }
}

impl Error for ConvertError {}

/// Bytes as a path, if they are a string of the platform.
pub(crate) fn checked<F: PathStyle, A: Allocator>(
    made: Vec<u8, A>,
) -> Result<PathBuf<F, A>, ConvertError>
    ensures ok { IfOk result (λ path. (path_vec_of path).items ≡ made.items) }
    ensures err { IfErr result (λ error. (fault : of_bytes.EncodingError)
        × ((error ≡ why.Encoding fault) × F.first_fault made.items fault)) }
{
    match F::check(&made) {
        Ok(()) => Ok(path_of(made)),
        Err(fault) => Err(ConvertError::Encoding(fault)),
    }
}
