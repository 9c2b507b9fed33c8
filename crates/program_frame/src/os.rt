//! Platforms by name.
ghost use Rattle.std.specs.Prelude.{◌≡◌, ◌≢◌, IfSome, IfNone};
ghost use Rattle.program_frame.specs.Os.{os_word};
ghost use Rattle.program_frame.specs.declared.os.Os.{Os};

/// The platform whose strings a command is about. What is generic over platforms is called by a
/// `match` with an arm for each, since calls differ in which of their type arguments it is.
#[derive(Clone, Copy, PartialEq, Eq)]
pub enum Os {
    /// Strings of bytes.
    Unix,
    /// Strings of 16-bit units; their bytes are WTF-8.
    Windows,
    /// Strings of bytes that are UTF-8.
    Wasm,
}

impl Os {
    /// The platform that this word names: `unix`, `windows` or `wasm`.
    ///
    /// ```
    /// use program_frame::os::Os;
    ///
    /// assert!(rt; Os::named("wasm") == Some(Os::Wasm) && Os::named("linux").is_none());
    /// ```
    pub fn named(word: &str) -> Option<Os>
        ensures some { IfSome result (λ os. word.now ≡ os_word os) }
        ensures none { IfNone result ((os : Os) → word.now ≢ os_word os) }
    {
        match word {
            "unix" => Some(Os::Unix),
            "windows" => Some(Os::Windows),
            "wasm" => Some(Os::Wasm),
            _ => None,
        }
    }
}
