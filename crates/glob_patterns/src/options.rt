//! How a pattern is read and matched.
ghost use Rattle.std.specs.Prelude.{◌≡◌};
ghost use Rattle.glob_patterns.specs.Options.{usual_options, syntax_of, options_of};

use glob_text::Syntax;
use wildcards::{Options, Separators};

/// How a pattern is read and matched.
#[derive(Clone, Copy, PartialEq, Eq)]
pub struct GlobOptions {
    /// Which characters are separators. A separator in a pattern matches any of them, and nothing
    /// else in a pattern matches one but a component `**`.
    pub separators: Separators,
    /// Whether a dot at the start of a component is only matched by a literal dot at the start of
    /// one (POSIX, "Shell Command Language", 2.13.3).
    pub literal_leading_dot: bool,
    /// Whether a `\` quotes the next character, where it isn't a separator.
    pub escapes: bool,
    /// Whether a `\` in a class quotes the next character. Otherwise it is a member.
    pub class_escapes: bool,
    /// Whether characters that differ in case alone are one: those with the same simple case
    /// folding (The Unicode Standard, 3.13). A class has those of its members.
    pub case_insensitive: bool,
}

impl GlobOptions {
    /// Returns the options with these separators. Wildcards match leading dots, and case matters. A
    /// `\` quotes where it isn't a separator, but not in classes.
    ///
    /// ```
    /// use glob_patterns::{GlobOptions, Separators};
    ///
    /// let options = GlobOptions::new(Separators::Slash);
    /// assert!(rt; options.escapes && !options.literal_leading_dot);
    /// assert!(rt; !options.class_escapes && !options.case_insensitive);
    /// ```
    pub const fn new(separators: Separators) -> Self
        ensures { result ≡ usual_options separators }
    {
        GlobOptions {
            separators,
            literal_leading_dot: false,
            escapes: true,
            class_escapes: false,
            case_insensitive: false,
        }
    }

    /// How the text of a pattern is read.
    pub(crate) fn syntax(self) -> Syntax
        ensures { result ≡ syntax_of self }
    {
        Syntax {
            separators: self.separators,
            escapes: self.escapes,
            class_escapes: self.class_escapes,
            case_insensitive: self.case_insensitive,
        }
    }

    /// How paths are matched.
    pub(crate) fn matching(self) -> Options
        ensures { result ≡ options_of self }
    {
        Options {
            separators: self.separators,
            literal_leading_dot: self.literal_leading_dot,
        }
    }
}
