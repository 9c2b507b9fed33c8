//! Which letters separate the components of a path.
ghost use Rattle.std.specs.Prelude.{◌≡◌};
ghost use Rattle.wildcards.specs.Components.{separates};

/// Which characters separate the components of a path.
#[derive(Clone, Copy, PartialEq, Eq)]
pub enum Separators {
    /// None: a path is one component.
    None,
    /// `/`, as on Unix.
    Slash,
    /// `/` and `\`, as on Windows.
    SlashAndBackslash,
}

impl Separators {
    /// Whether a letter is one of them. For [`Separators::Slash`] `/` is one, and `\` isn't.
    ///
    /// ```
    /// use wildcards::Separators;
    ///
    /// assert!(rt; Separators::Slash.contains(0x2F) && !Separators::Slash.contains(0x5C));
    /// ```
    #[inline(always)]
    pub fn contains(self, letter: u32) -> bool
        ensures { result ≡ separates self letter }
    {
        match self {
            Separators::None => false,
            Separators::Slash => letter == 0x2F,
            Separators::SlashAndBackslash => letter == 0x2F || letter == 0x5C,
        }
    }
}
