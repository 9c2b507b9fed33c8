//! Path patterns over names that need not be text.
ghost use Rattle.std.specs.Prelude.{◌↔◌, List, IfOk, IsTrue};
ghost use Rattle.os_str_bytes.specs.Strings.{bytes};
ghost use Rattle.glob_text.specs.Marks.{Mark};
ghost use Rattle.glob_text.specs.Meaning.{MatchesWrittenOut};
ghost use Rattle.glob_text.specs.Texts.{AreWrittenOut};
ghost use Rattle.glob_patterns.specs.Letters.{letters_of};
ghost use Rattle.glob_patterns.specs.Options.{options_of, syntax_of};

use glob_patterns::{Glob, GlobError, GlobOptions, Separators};
use os_str_bytes::{OsStr, Platform, Windows};
use std::alloc::Global;
use std::io;

/// Whether a path has a pattern, such as `src/**/[a-m]*.rt`.
pub fn has_pattern<E: Platform>(
    alloc: Global,
    path: OsStr<'_, E>,
    pattern: &str,
    options: GlobOptions,
) -> Result<bool, GlobError>
    ensures { IfOk result (λ has. (written : List (List Mark))
        × (AreWrittenOut E.well_formed (letters_of E.units) (syntax_of options) pattern.now written
        × (IsTrue has ↔ MatchesWrittenOut (options_of options) written
        (letters_of E.units (bytes path.entry))))) }
{
    Ok(Glob::new(alloc, options, pattern)?.is_match(path))
}

/// Prints whether a name is one symbol and an extension that begins with `t`.
pub fn show(rt: &HostRuntime, name: OsStr<'_, Windows>) -> io::Result<()> {
    let options = GlobOptions::new(Separators::SlashAndBackslash);
    match has_pattern(rt.alloc(), name, "?.t*", options) {
        Ok(true) => println!(rt; "one symbol before .t"),
        _ => println!(rt; "another name"),
    }
}
