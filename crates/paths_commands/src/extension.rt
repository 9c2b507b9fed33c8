//! What may take the place of a name's extension.
ghost use Rattle.path_rules.specs.Name.{IsExtensionText};

use path_rules::{Style, is_extension_text};

/// An extension for the names of paths of this style, in whose text no byte separates.
#[derive(Clone, Copy)]
pub struct Extension<'a> {
    /// Whose rules the paths follow.
    pub style: Style,
    /// What comes after the dot. If it is empty there is no dot either.
    pub text: &'a str,
    ghost plain: { IsExtensionText style text.now },
}

impl<'a> Extension<'a> {
    ghost use Rattle.std.specs.Prelude.{◌≡◌, MatchOption};

    /// The text as an extension for paths of this style, or `None` if a byte of it separates
    /// ([`path_rules::is_extension_text`]).
    ///
    /// ```
    /// use path_rules::Style;
    /// use paths_commands::extension::Extension;
    ///
    /// assert!(rt; Extension::new(Style::Unix, r"tar\gz").is_some_and(|it| it.text == r"tar\gz"));
    /// assert!(rt; Extension::new(Style::Windows, r"tar\gz").is_none());
    /// ```
    pub fn new(style: Style, text: &'a str) -> Option<Extension<'a>>
        ensures { MatchOption result (¬ (IsExtensionText style text.entry.now))
            (λ it. (it.style ≡ style) × (it.text.now ≡ text.entry.now)) }
    {
        if is_extension_text(style, text.as_bytes()) {
            return Some(Extension { style, text });
        }
        None
    }
}
