//! Printing: what a formatter holds once a string was printed to it, with a width and a fill.
ghost use Rattle.std.specs.Prelude.{Some, List, ℕ};
ghost use Rattle.std.specs.Fmt.{WritesStyledOnOk, formatter_spec, spec_align, spec_fill, spec_width};
ghost use Rattle.os_quote.specs.Escape.{IsEscape, IsLineEscape};
ghost use Rattle.os_str_bytes.specs.Raw.{raw_bytes};
ghost use Rattle.platform_str.specs.Display.{filled};
ghost use Rattle.platform_str.specs.Strings.{bytes, path_bytes};

use os_quote::{escaped, escaped_line};
use os_str_bytes::RawOsStr;
use platform_str::{OsStr, Path, Platform};
use std::fmt;
use std::fmt::Display;

/// Prints a string's lossy text with the fill, the alignment and the width of the formatter.
pub fn print<'a, E: Platform + 'a, W: fmt::Write>(
    string: OsStr<'a, E>,
    f: &mut fmt::Formatter<W>,
) -> fmt::Result
    ensures { WritesStyledOnOk W.write_str_gives f.old result
        (filled (spec_fill (formatter_spec f.old)) (spec_align (formatter_spec f.old))
        (spec_width (formatter_spec f.old)) (E.lossy (bytes string.entry))) f.new }
{
    let shown_of_string = string.display();
    shown_of_string.fmt(f)
}

/// Prints a path in the same way.
pub fn print_path<'a, E: Platform + 'a, W: fmt::Write>(
    path: Path<'a, E>,
    f: &mut fmt::Formatter<W>,
) -> fmt::Result
    ensures { WritesStyledOnOk W.write_str_gives f.old result
        (filled (spec_fill (formatter_spec f.old)) (spec_align (formatter_spec f.old))
        (spec_width (formatter_spec f.old)) (E.lossy (path_bytes path.entry))) f.new }
{
    let shown = path.display();
    shown.fmt(f)
}

/// Prints a raw string in the same way.
pub fn print_raw<'a, E: Platform + 'a, W: fmt::Write>(
    raw: RawOsStr<'a, E>,
    f: &mut fmt::Formatter<W>,
) -> fmt::Result
    ensures { WritesStyledOnOk W.write_str_gives f.old result
        (filled (spec_fill (formatter_spec f.old)) (spec_align (formatter_spec f.old))
        (spec_width (formatter_spec f.old)) (E.lossy (raw_bytes raw.entry))) f.new }
{
    let shown = raw.display();
    shown.fmt(f)
}

/// Prints a string's escape on one line in the same way.
pub fn print_escaped_line<'a, E: Platform + 'a, W: fmt::Write>(
    string: OsStr<'a, E>,
    f: &mut fmt::Formatter<W>,
) -> fmt::Result
    ensures { (text : List ℕ) × IsLineEscape E.units (bytes string.entry) text
        × WritesStyledOnOk W.write_str_gives f.old result
        (filled (spec_fill (formatter_spec f.old)) (spec_align (formatter_spec f.old))
        (spec_width (formatter_spec f.old)) text) f.new }
{
    let shown = escaped_line(string);
    shown.fmt(f)
}

/// Prints a string's escape in the same way.
pub fn print_escaped<'a, E: Platform + 'a, W: fmt::Write>(
    string: OsStr<'a, E>,
    f: &mut fmt::Formatter<W>,
) -> fmt::Result
    ensures { (text : List ℕ) × IsEscape E.units (bytes string.entry) text
        × WritesStyledOnOk W.write_str_gives f.old result
        (filled (spec_fill (formatter_spec f.old)) (spec_align (formatter_spec f.old))
        (spec_width (formatter_spec f.old)) text) f.new }
{
    let shown = escaped(string);
    shown.fmt(f)
}
