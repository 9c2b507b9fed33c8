//! Texts of strings among other words: what a text holds once they were printed to it.
ghost use Rattle.std.specs.Prelude.{◌≡◌, ◌++◌, OnOk, Some, codes, decimal, string_bytes};
ghost use Rattle.std.specs.Fmt.{WritesStyledOnOk, formatter_spec, spec_align, spec_fill, spec_width};
ghost use Rattle.platform_str.specs.Display.{filled};
ghost use Rattle.platform_str.specs.Strings.{bytes};

use os_quote::QuoteError;
use platform_str::{OsStr, Platform, Unix, Writeable, write_filled};
use std::alloc::AllocError;
use std::fmt;
use std::fmt::Write as _;

/// A string between quotes, to be printed.
#[derive(Drop)]
pub struct Quoted<'a, E: Platform + 'a> {
    /// The string.
    pub string: OsStr<'a, E>,
}

impl<'a, E: Platform> fmt::Display for Quoted<'a, E> {
    ghost output = { λ quoted. Some (codes "'" ++ (E.lossy (bytes quoted.string) ++ codes "'")) };

    ghost styled_output = { λ quoted _.
        Some (codes "'" ++ (E.lossy (bytes quoted.string) ++ codes "'")) };

    fn fmt<W: fmt::Write>(&self, f: &mut fmt::Formatter<W>) -> fmt::Result {
        self.write_to(f)
    }
}

impl<'a, E: Platform> Writeable for Quoted<'a, E> {
    ghost text = { λ quoted. codes "'" ++ (E.lossy (bytes quoted.string) ++ codes "'") };

    fn write_to<W: fmt::Write>(&self, f: &mut fmt::Formatter<W>) -> fmt::Result {
        f.write_str("'")?;
        self.string.display().write_to(f)?;
        f.write_str("'")
    }
}

/// Writes a string between quotes, filled to the width of the formatter.
pub fn print_quoted<'a, E: Platform + 'a, W: fmt::Write>(
    string: OsStr<'a, E>,
    f: &mut fmt::Formatter<W>,
) -> fmt::Result
    ensures { WritesStyledOnOk W.write_str_gives f.old result
        (filled (spec_fill (formatter_spec f.old)) (spec_align (formatter_spec f.old))
        (spec_width (formatter_spec f.old))
        (codes "'" ++ (E.lossy (bytes string.entry) ++ codes "'"))) f.new }
{
    write_filled(&Quoted { string }, f)
}

/// Writes a string between quotes at the end of a log, whatever the width of the formatter is.
pub fn log_quoted(log: &mut String, string: OsStr<'_, Unix>) -> Result<(), AllocError>
    ensures { OnOk result (string_bytes log.new ≡ string_bytes log.old
        ++ (codes "'" ++ (⟦<Unix as Platform>⟧.lossy (bytes string.entry) ++ codes "'"))) }
{
    let quoted = Quoted { string };
    write!(log, "{quoted:9}")
}

/// Writes why a text is no escape at the end of a log.
pub fn log_bad_escape(log: &mut String, index: usize) -> Result<(), AllocError>
    ensures { OnOk result (string_bytes log.new ≡ string_bytes log.old
        ++ (codes "bad escape at byte " ++ decimal index)) }
{
    write!(log, "{}", QuoteError::BadEscape(index))
}
