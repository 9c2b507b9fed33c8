//! A fault as C sees it.
ghost use Rattle.std.specs.Prelude.{◌≡◌};
ghost use Rattle.osbytes_c.specs.Faults.{kind_of, value_of};

use wtf8_core::EncodingError;

/// The first fault of bytes that aren't a string of a platform.
#[repr(C)]
#[derive(Clone, Copy)]
pub struct Fault {
    /// What it is: 1 a byte, 2 a code point, 3 the end, 4 a part that isn't UTF-8, 5 the same where
    /// the bytes end.
    pub kind: u32,
    /// The byte, the code point, or 0.
    pub value: u32,
    /// How many bytes are well formed before it.
    pub index: usize,
    /// How many bytes are rejected with it.
    pub count: usize,
}

/// The kind of a fault.
pub(crate) fn kind_of(error: EncodingError) -> u32
    ensures { result ≡ kind_of error }
{
    match error {
        EncodingError::Byte(_) => 1,
        EncodingError::CodePoint(_) => 2,
        EncodingError::End => 3,
        EncodingError::Utf8 {
            valid_up_to: _,
            error_len,
        } => match error_len {
            Some(_) => 4,
            None => 5,
        },
    }
}

/// The value of a fault.
pub(crate) fn value_of(error: EncodingError) -> u32
    ensures { result ≡ value_of error }
{
    match error {
        EncodingError::Byte(byte) => u32::from(byte),
        EncodingError::CodePoint(value) => value,
        EncodingError::End => 0,
        EncodingError::Utf8 {
            valid_up_to: _,
            error_len: _,
        } => 0,
    }
}
