//! The options of a small program.
ghost use Rattle.std.specs.Prelude.{◌≡◌, [], OnOk};
ghost use Rattle.os_args.specs.Joining.{all_left};
ghost use Rattle.os_args.specs.Views.{reading};
ghost use Rattle.examples.specs.declared.options.Rejection.TheVariants.{Argument, Memory};

use os_args::{ArgumentError, Arguments, Word, laws};
use os_str_bytes::{OsStr, Platform, Unix};
use std::alloc::{AllocError, AllocFailed, Global};
use std::fmt::{Display as _, Write as _};
use std::{fmt, io};

/// The options and files of `pack [-v] [-t FILE] [-l LEVEL] [-s NAME] FILE..`.
#[derive(Drop)]
pub struct Options<'a, E: Platform + 'a> {
    /// Where the archive goes.
    pub to: Option<OsStr<'a, E>>,
    /// The compression level.
    pub level: Option<OsStr<'a, E>>,
    /// What is left out.
    pub skip: Option<OsStr<'a, E>>,
    /// Print each file name.
    pub verbose: bool,
    /// What is packed.
    pub files: Vec<OsStr<'a, E>>,
}

/// Why nothing is packed, of strings `S`.
#[derive(Clone, Copy)]
pub enum Rejection<'a, S> {
    /// The arguments are rejected.
    Argument(ArgumentError<'a, S>),
    /// An allocation failed.
    Memory,
}

impl<'a, S> From<ArgumentError<'a, S>> for Rejection<'a, S> {
    ghost from_gives = { λ error rejection. rejection ≡ Argument error };

    fn from(error: ArgumentError<'a, S>) -> Self {
        Rejection::Argument(error)
    }
}

impl<'a, S, T: Drop> From<AllocFailed<T>> for Rejection<'a, S> {
    ghost from_gives = { λ _ rejection. rejection ≡ Memory };

    fn from(_error: AllocFailed<T>) -> Self {
        Rejection::Memory
    }
}

impl<'a> fmt::Display for Rejection<'a, OsStr<'a, Unix>> {
    fn fmt<W: fmt::Write>(&self, f: &mut fmt::Formatter<W>) -> fmt::Result {
        match *self {
            Rejection::Argument(error) => error.fmt(f),
            Rejection::Memory => f.write_str("out of memory"),
        }
    }
}

impl<'a, E: Platform> Options<'a, E> {
    /// No option is set, and no file is given.
    fn none(alloc: Global) -> Self {
        Options {
            to: None,
            level: None,
            skip: None,
            verbose: false,
            files: Vec::new(alloc),
        }
    }

    /// Parses the arguments. If it succeeds, none is left.
    pub fn parse(
        alloc: Global,
        arguments: &mut Arguments<'_, 'a, E>,
    ) -> Result<Self, Rejection<'a, OsStr<'a, E>>>
        ensures { OnOk result (all_left (reading arguments.new) ≡ []) }
    {
        laws::steps_end();
        let mut options = Options::none(alloc);
        while let Some(word) = arguments.next()? {
            match word {
                Word::Short('t') | Word::Long("to") => options.to = Some(arguments.value()?),
                Word::Short('l') | Word::Long("level") => options.level = Some(arguments.value()?),
                Word::Short('s') | Word::Long("skip") => options.skip = Some(arguments.value()?),
                Word::Short('v') | Word::Long("verbose") => options.verbose = true,
                Word::Value(file) => options.files.push(file)?,
                other => return Err(other.unexpected().into()),
            }
        }
        Ok(options)
    }
}

impl<'a> Options<'a, Unix> {
    /// Describes the options.
    fn describe(&self, text: &mut String) -> Result<(), AllocError> {
        if let Some(archive) = self.to {
            write!(text, "to {}, ", archive.display())?;
        }
        if let Some(level) = self.level {
            write!(text, "level {}, ", level.display())?;
        }
        if let Some(name) = self.skip {
            write!(text, "without {}, ", name.display())?;
        }
        if self.verbose {
            text.push_str("telling each, ")?;
        }
        write!(text, "{} files", self.files.len())
    }
}

/// The text that describes the options, or states why nothing is packed.
pub fn report(alloc: Global, words: &[OsStr<'_, Unix>]) -> Result<String, AllocError> {
    let mut text = String::new(alloc);
    match Options::parse(alloc, &mut Arguments::new(words)) {
        Ok(options) => options.describe(&mut text)?,
        Err(rejection) => write!(text, "pack: {rejection}")?,
    }
    Ok(text)
}

/// Prints the options that arguments contain.
fn pack(rt: &HostRuntime, words: &[OsStr<'_, Unix>]) -> io::Result<()> {
    println!(rt; "{}", report(rt.alloc(), words)?.as_str())
}

/// Prints the options of some command lines.
pub fn show(rt: &HostRuntime) -> io::Result<()> {
    let (short, name) = (OsStr::new("-vt"), OsStr::new("a.zip"));
    let raw = OsStr::from_encoded_bytes_unchecked(b"\xFF.txt");
    pack(rt, &[short, name, OsStr::new("-l=9"), raw])?;
    let (skip, dashes) = (OsStr::new("--skip"), OsStr::new("--"));
    pack(rt, &[skip, OsStr::new("-s"), dashes, OsStr::new("-v")])?;
    pack(rt, &[OsStr::new("--verbose=1")])?;
    pack(rt, &[OsStr::new("-vz")])
}
