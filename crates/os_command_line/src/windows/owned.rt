//! An argument beside strings.
ghost use Rattle.std.specs.Prelude.{◌≡◌, ◌↔◌, IsTrue, IfOk};
ghost use Rattle.platform_str.specs.Strings.{bytes, string_vec_of};
ghost use Rattle.os_command_line.specs.WindowsViews.{argument_units};

use crate::windows::argument::Argument;
use platform_str::{OsStr, OsString, Platform, Windows};
use std::alloc::{AllocError, Allocator};

impl<'a> Argument<'a> {
    /// The argument as a string of its own: the one string with its units. It makes a vector of
    /// them first, so the allocator is `Copy`, as `Global` and each `&A` are.
    ///
    /// # Errors
    ///
    /// `AllocError` if an allocation fails.
    ///
    /// ```
    /// use os_command_line::windows::Arguments;
    /// use os_str_bytes::{OsStr, Windows};
    ///
    /// let mut arguments = Arguments::new(OsStr::<Windows>::new("E \"a b\""));
    /// if let Some(argument) = arguments.next() {
    ///     let owned = argument.to_owned(alloc)?;
    ///     assert!(rt; owned.as_os_str() == OsStr::new("a b"));
    /// }
    /// ```
    pub fn to_owned<A: Allocator + Copy>(self, alloc: A) -> Result<OsString<Windows, A>, AllocError>
        ensures { IfOk result (λ owned. ⟦<Windows as Platform>⟧.units (string_vec_of owned).items
            ≡ argument_units self.entry) }
    {
        let mut units = Vec::new(alloc);
        for unit in self.units() {
            units.push(unit)?;
        }
        OsString::from_wide(alloc, &units)
    }

    /// Whether the argument is a string: whether it has the same units. `==` compares values of one
    /// type only.
    ///
    /// ```
    /// use os_command_line::windows::Arguments;
    /// use os_str_bytes::{OsStr, Windows};
    ///
    /// let mut arguments = Arguments::new(OsStr::<Windows>::new("E \"--all\""));
    /// if let Some(argument) = arguments.next() {
    ///     assert!(rt; argument.equals(OsStr::new("--all")));
    ///     assert!(rt; !argument.equals(OsStr::new("--al")));
    /// }
    /// ```
    pub fn equals(self, string: OsStr<'_, Windows>) -> bool
        ensures { IsTrue result
            ↔ (argument_units self.entry ≡ ⟦<Windows as Platform>⟧.units (bytes string.entry)) }
    {
        let mut units = self.units();
        for wanted in string.encode_wide() {
            let Some(unit) = units.next() else {
                return false;
            };
            if unit != wanted {
                return false;
            }
        }
        match units.next() {
            Some(_) => false,
            None => true,
        }
    }
}
