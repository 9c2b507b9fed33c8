//! A word of a line, as a view of its text.

use crate::shell::language::Language;

/// A word of a line: a view of the text that is read as it, quotes and all.
///
/// [`Word::bytes`] gives the bytes that a program gets. No call but [`Word::to_owned`] allocates.
#[derive(Clone, Copy)]
pub struct Word<'a> {
    pub(crate) language: Language,
    pub(crate) raw: &'a [u8],
    /// Whether each byte of the text means itself.
    pub(crate) is_bare: bool,
}
