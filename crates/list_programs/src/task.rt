//! What is done with each item of a list.
ghost use Rattle.std.specs.Prelude.{◌≡◌, ◌↔◌, ◌-◌, ◌^◌, ◌≤◌, ◌++◌, ℕ, List, length, min, IsTrue, OnOk, OnErr, IfErr};
ghost use Rattle.list_programs.specs.ListOptions.{byte_of};
ghost use Rattle.list_programs.specs.Rules.{ListRules, IsItemFault};

use crate::fault::ItemFault;
use crate::options::ItemEnd;
use std::alloc::Allocator;

/// What is done with each item of a list.
pub trait ListTask {
    /// Why an item is rejected.
    type Rejection: Copy;

    // what decides the rules
    ghost Planned: { Type 0 };

    // that of the task: whatever else the task keeps from one item to the next, this stays
    ghost plan: { Self → Planned };

    ghost rules: { Planned → ListRules Self.Rejection };

    /// The byte that ends an item.
    ///
    /// ```
    /// use names_commands::task::{OnPlatform, Settings, Task};
    /// use os_str_bytes::Unix;
    /// use list_programs::options::ItemEnd;
    /// use list_programs::task::ListTask;
    ///
    /// let settings = Settings::new(Task::Check, 255);
    /// assert!(rt; OnPlatform::<Unix>::new(settings).end() == ItemEnd::Nul);
    /// ```
    fn end(&self) -> ItemEnd
        ensures { byte_of result ≡ (rules (plan self.now)).end };

    /// Whether the last item may lack the byte that ends it.
    ///
    /// ```
    /// use names_commands::task::{OnPlatform, Settings, Task};
    /// use os_str_bytes::Unix;
    /// use list_programs::task::ListTask;
    ///
    /// let settings = Settings::new(Task::Check, 255);
    /// assert!(rt; !OnPlatform::<Unix>::new(settings).takes_unended());
    /// ```
    fn takes_unended(&self) -> bool
        ensures { IsTrue result ↔ (rules (plan self.now)).takes_unended };

    /// How many bytes a name may have.
    ///
    /// ```
    /// use names_commands::task::{OnPlatform, Settings, Task};
    /// use os_str_bytes::Unix;
    /// use list_programs::task::ListTask;
    ///
    /// let settings = Settings::new(Task::Check, 255);
    /// assert_eq!(rt; OnPlatform::<Unix>::new(settings).max(), 255);
    /// ```
    fn max(&self) -> usize
        ensures { result ≡ (rules (plan self.now)).max };

    /// How many bytes an item may have, or `usize::MAX` where that is less.
    ///
    /// ```
    /// use names_commands::task::{EmptyLine, OnPlatform, Settings, Task};
    /// use os_str_bytes::Unix;
    /// use list_programs::task::ListTask;
    ///
    /// let settings = Settings::new(Task::Join(EmptyLine::IsRejected), 255);
    /// assert_eq!(rt; OnPlatform::<Unix>::new(settings).longest_item(), 1530);
    /// ```
    fn longest_item(&self) -> usize
        ensures { result ≡ min (rules (plan self.now)).longest (2 ^ 64 - 1) };

    /// Appends what is written for an item.
    ///
    /// # Errors
    ///
    /// Why nothing is written for it; then the output is as it was.
    ///
    /// ```
    /// use names_commands::task::{OnPlatform, Settings, Task};
    /// use os_str_bytes::Unix;
    /// use list_programs::task::ListTask;
    ///
    /// let settings = Settings::new(Task::ListAll, 255);
    /// let mut output = Vec::new(alloc);
    /// let mut listing = OnPlatform::<Unix>::new(settings);
    /// assert!(rt; listing.write_item(alloc, b"a\nb", &mut output).is_ok());
    /// assert_eq!(rt; output.as_slice(), b"a\\u000Ab\n".as_slice());
    /// ```
    fn write_item<A: Allocator + Copy>(
        &mut self,
        alloc: A,
        item: &[u8],
        output: &mut Vec<u8, A>,
    ) -> Result<(), ItemFault<Self::Rejection>>
        requires short { length item.now ≤ (rules (plan self.old)).longest }
        ensures plan { plan self.new ≡ plan self.old }
        ensures ok { OnOk result ((text : List ℕ) × ((rules (plan self.old)).is_text item.now text
            × (output.new.items ≡ output.old.items ++ text))) }
        ensures fault { IfErr result (λ fault. IsItemFault (rules (plan self.old)) item.now fault) }
        ensures unchanged { OnErr result (output.new.items ≡ output.old.items) };
}
