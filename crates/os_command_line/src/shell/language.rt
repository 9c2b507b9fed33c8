//! Which language a line is read in.

/// What a reader does with a byte that some shell gives a meaning of its own.
#[derive(Clone, Copy, Debug, PartialEq, Eq)]
pub enum Specials {
    /// It is a fault. So each POSIX shell (dash, bash, zsh, ksh93, mksh, busybox, posh, yash) reads
    /// the same words as arguments in a script and, if the line has no control character, at a
    /// prompt. Nothing in them is expanded or taken from a history, and no operator or comment ends
    /// them.
    ///
    /// Outside quotes these are `| & ; < > ( ) $ * ? [ { } ~ !`, a grave accent and a carriage
    /// return, and `# = ^` where they are first in a word; in double quotes `$`, a grave accent and
    /// `!`, also after a backslash. (Where a history is read, bash and zsh expand `!`, and `^`
    /// first on a line; a carriage return is a blank to fish, and ends a line that is pasted into a
    /// terminal.)
    ///
    /// It promises nothing in these cases:
    ///
    /// - A line with control characters at a prompt. A terminal or a line editor acts on these, in
    ///   quotes too, as on U+0015, which clears what was typed before it. bash takes a `^` after a
    ///   newline as a substitution in its history.
    /// - A shell in a locale that isn't C or UTF-8.
    /// - Blanks beyond ASCII, as U+3000. They are part of a word here and separate words in yash;
    ///   POSIX 2.3 leaves them to the locale.
    /// - Options that give more bytes a meaning, as zsh's `extendedglob`.
    /// - What the first word does, which may be a reserved word or an alias.
    /// - fish and csh, whose escapes differ.
    Refused,
    /// It means itself.
    Kept,
}

/// What a reader refuses, and which quotes it has.
#[derive(Clone, Copy)]
pub(crate) struct Language {
    pub(crate) refuses_specials: bool,
    pub(crate) dollar_quotes: bool,
}

impl Language {
    ghost use Rattle.os_command_line.specs.Shell.{language};
    ghost use Rattle.os_command_line.specs.ShellViews.{is_refused};
    ghost use Rattle.std.specs.Prelude.{◌≡◌};

    /// The language with or without dollar-single-quotes.
    pub(crate) fn new(specials: Specials, dollar_quotes: bool) -> Language
        ensures { result ≡ language (is_refused specials) dollar_quotes }
    {
        let refuses_specials = match specials {
            Specials::Refused => true,
            Specials::Kept => false,
        };
        Language {
            refuses_specials,
            dollar_quotes,
        }
    }
}
