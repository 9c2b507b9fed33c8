//! A command line, cut after its program's name or after its next argument.
ghost use Rattle.std.specs.Prelude.{MatchOption};
ghost use Rattle.std.specs.List.{AllByRecursion};
ghost use Rattle.wtf8_core.specs.UnitsOf.{units_of};
ghost use Rattle.platform_str.specs.Strings.{bytes};
ghost use Rattle.os_command_line.specs.Windows.{IsBlank, IsNext};
ghost use Rattle.os_command_line.specs.WindowsSteps.{IsArgument, IsNameCut};
ghost use Rattle.os_command_line.specs.WindowsViews.{argument_units};

use crate::windows::argument::{Argument, Kind};
use crate::windows::scan::{after_argument, after_name, skip_blanks};
use platform_str::{OsStr, Windows};

/// The text of the program's name, and the rest of the line.
pub(crate) fn cut_name(line: OsStr<'_, Windows>) -> (OsStr<'_, Windows>, OsStr<'_, Windows>)
    ensures { IsNameCut (bytes line.entry) (bytes result.0) (bytes result.1) }
{
    let line = line.as_encoded_bytes();
    let rest = after_name(line);
    let (name, rest) = line.split_at(line.len() - rest.len());
    (
        OsStr::from_encoded_bytes_unchecked(name),
        OsStr::from_encoded_bytes_unchecked(rest),
    )
}

/// The next argument, and the rest of the line; `None` where only blanks are left.
#[tactic(auto, using(crate::proofs::lemmas::WindowsCuts::next_of))]
pub(crate) fn cut_argument(line: OsStr<'_, Windows>) -> Option<(Argument<'_>, OsStr<'_, Windows>)>
    ensures { MatchOption result (AllByRecursion IsBlank (units_of (bytes line.entry)))
        (λ cut. IsNext (units_of (bytes line.entry)) (argument_units cut.0)
        (units_of (bytes cut.1))) }
{
    let (text, rest, is_bare) = cut_text(line)?;
    let kind = Kind::of_argument(is_bare);
    Some((Argument { text, kind }, rest))
}

/// The text of the next argument, the rest of the line, and whether the text means itself; `None`
/// where only blanks are left.
fn cut_text(line: OsStr<'_, Windows>) -> Option<(OsStr<'_, Windows>, OsStr<'_, Windows>, bool)>
    ensures { MatchOption result (AllByRecursion IsBlank (units_of (bytes line.entry)))
        (λ cut. IsArgument (bytes line.entry) (bytes cut.0) (bytes cut.1) cut.2) }
{
    let text = skip_blanks(line.as_encoded_bytes());
    if text.is_empty() {
        return None;
    }
    let end = after_argument(text);
    let (raw, rest) = text.split_at(text.len() - end.0.len());
    Some((
        OsStr::from_encoded_bytes_unchecked(raw),
        OsStr::from_encoded_bytes_unchecked(rest),
        end.1,
    ))
}
