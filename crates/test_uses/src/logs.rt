//! Logs: what a text holds once a string was printed to it.
ghost use Rattle.std.specs.Prelude.{◌≡◌, ◌++◌, ◌∷◌, [], ℕ, List, OnOk, IfSome, string_bytes};
ghost use Rattle.platform_str.specs.Strings.{bytes};
ghost use Rattle.os_quote.specs.Escape.{IsEscape};

use os_quote::escaped;
use platform_str::{OsStr, Platform, Unix, Windows};
use std::alloc::{AllocError, Allocator};
use std::fmt::{Display, Write as _};

/// Writes a line with the escape of a Unix string at the end of a log.
pub fn log_escaped(log: &mut String, string: OsStr<'_, Unix>) -> Result<(), AllocError>
    ensures { OnOk result ((text : List ℕ)
        × (IsEscape (λ b. b) (bytes string.entry) text
        × (string_bytes log.new ≡ string_bytes log.old ++ (text ++ 0x0A ∷ [])))) }
{
    writeln!(log, "{}", escaped(string))
}

/// Writes the lossy text of a Windows string at the end of a log.
pub fn log_shown(log: &mut String, string: OsStr<'_, Windows>) -> Result<(), AllocError>
    ensures { OnOk result (string_bytes log.new
        ≡ string_bytes log.old ++ ⟦<Windows as Platform>⟧.lossy (bytes string.entry)) }
{
    write!(log, "{}", string.display())
}

/// Writes a line with what `{}` writes of a value at the end of a log.
pub fn log_line<D: Display, A: Allocator>(log: &mut String<A>, shown: &D) -> Result<(), AllocError>
    ensures { OnOk result (IfSome (D.output shown.now)
        (λ text. string_bytes log.new ≡ string_bytes log.old ++ (text ++ 0x0A ∷ []))) }
{
    writeln!(log, "{shown}")
}

/// Writes a line with the lossy text of a string of any platform at the end of a log.
pub fn log_line_shown<'a, E: Platform + 'a, A: Allocator>(
    log: &mut String<A>,
    string: OsStr<'a, E>,
) -> Result<(), AllocError>
    ensures { OnOk result (string_bytes log.new
        ≡ string_bytes log.old ++ (E.lossy (bytes string.entry) ++ 0x0A ∷ [])) }
{
    log_line(log, &string.display())
}

/// Writes a line with the escape of a string of any platform at the end of a log.
pub fn log_line_escaped<'a, E: Platform + 'a, A: Allocator>(
    log: &mut String<A>,
    string: OsStr<'a, E>,
) -> Result<(), AllocError>
    ensures { OnOk result ((text : List ℕ) × (IsEscape E.units (bytes string.entry) text
        × (string_bytes log.new ≡ string_bytes log.old ++ (text ++ 0x0A ∷ [])))) }
{
    log_line(log, &escaped(string))
}
