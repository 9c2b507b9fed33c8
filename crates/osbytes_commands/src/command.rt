//! Commands, and the arguments that name them.
ghost use Rattle.std.specs.Prelude.{◌≡◌, ◌≢◌, ◌↔◌, IsTrue, IfOk, IfErr, OnErr, map, string_bytes};
ghost use Rattle.osbytes_commands.specs.Command.{os_of, words_of, IsUnusable};
ghost use Rattle.osbytes_commands.specs.declared.command.Command.{Command};

use crate::fault::Fault;
use program_frame::os::Os;

/// What the program does with its input.
#[derive(Clone, Copy, PartialEq, Eq)]
pub enum Command<'a> {
    /// `units`: reads the bytes of a string, and writes its units, each on a line.
    Units(Os),
    /// `raw`: reads units, each on a line, and writes the bytes of the string that has them.
    Raw(Os),
    /// `find`: reads the bytes of a string, and writes the first index of the pattern in it.
    Find(Os, &'a str),
    /// `split`: reads the bytes of a string, and writes its pieces between the matches of the
    /// pattern, each on a line.
    Split(Os, &'a str),
    /// `chunks`: reads the bytes of a string, and writes its chunks, each on a line.
    Chunks(Os),
    /// `quote`: reads the bytes of a string, and writes its escape.
    Quote(Os),
    /// `unquote`: reads the escape of a string, and writes the bytes of the string.
    Unquote(Os),
}

impl<'a> Command<'a> {
    /// The platform whose strings the command is about.
    ///
    /// ```
    /// use osbytes_commands::command::Command;
    /// use program_frame::os::Os;
    ///
    /// assert!(rt; Command::Find(Os::Windows, "a").os() == Os::Windows);
    /// ```
    pub fn os(self) -> Os
        ensures { result ≡ os_of self.entry }
    {
        match self {
            Command::Units(os)
            | Command::Raw(os)
            | Command::Find(os, _)
            | Command::Split(os, _)
            | Command::Chunks(os)
            | Command::Quote(os)
            | Command::Unquote(os) => os,
        }
    }

    /// Whether the command can't run, as `split` at the empty pattern can't.
    ///
    /// ```
    /// use osbytes_commands::command::Command;
    /// use program_frame::os::Os;
    ///
    /// assert!(rt; Command::Split(Os::Unix, "").is_unusable());
    /// assert!(rt; !Command::Find(Os::Unix, "").is_unusable());
    /// ```
    pub fn is_unusable(self) -> bool
        ensures { IsTrue result ↔ IsUnusable self.entry }
    {
        match self {
            Command::Units(_)
            | Command::Raw(_)
            | Command::Find(_, _)
            | Command::Chunks(_)
            | Command::Quote(_)
            | Command::Unquote(_) => false,
            Command::Split(_, pattern) => pattern.is_empty(),
        }
    }

    /// Returns the command that the arguments after the program's name specify. They are the
    /// command's name, the platform's and, for `find` and `split`, the pattern, and nothing else.
    /// It doesn't allocate.
    ///
    /// # Errors
    ///
    /// [`Fault::Usage`] for all other words.
    ///
    /// ```
    /// use osbytes_commands::command::Command;
    /// use program_frame::os::Os;
    /// use osbytes_commands::fault::Fault;
    ///
    /// let mut words = Vec::new(alloc);
    /// for word in ["find", "windows", "a"] {
    ///     words.push(String::from_str(alloc, word)?)?;
    /// }
    /// assert!(rt; Command::parse(&words) == Ok(Command::Find(Os::Windows, "a")));
    /// assert!(rt; Command::parse(&words[..2]) == Err(Fault::Usage));
    /// ```
    pub fn parse(words: &'a [String]) -> Result<Command<'a>, Fault>
        ensures command { IfOk result (λ command. map string_bytes words.now ≡ words_of command) }
        ensures usage { IfErr result (λ fault. fault ≡ Fault.Usage) }
        ensures no_command { OnErr result ((command : Command)
            → map string_bytes words.now ≢ words_of command) }
    {
        match words {
            [name, os] => {
                let os = Os::named(os.as_str()).ok_or(Fault::Usage)?;
                match name.as_str() {
                    "units" => Ok(Command::Units(os)),
                    "raw" => Ok(Command::Raw(os)),
                    "chunks" => Ok(Command::Chunks(os)),
                    "quote" => Ok(Command::Quote(os)),
                    "unquote" => Ok(Command::Unquote(os)),
                    _ => Err(Fault::Usage),
                }
            }
            [name, os, pattern] => {
                let os = Os::named(os.as_str()).ok_or(Fault::Usage)?;
                match name.as_str() {
                    "find" => Ok(Command::Find(os, pattern.as_str())),
                    "split" => Ok(Command::Split(os, pattern.as_str())),
                    _ => Err(Fault::Usage),
                }
            }
            _ => Err(Fault::Usage),
        }
    }
}
