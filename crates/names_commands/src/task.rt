//! What is done with the items of the input.
ghost use Rattle.std.specs.Prelude.{◌≡◌, ◌-◌, ◌^◌, min};
ghost use Rattle.names_commands.specs.declared.task.Settings.{Settings as SettingsOf};
ghost use Rattle.names_commands.specs.Task.{end_of, longest_item, rules_of, with_limit};

use crate::fault::Rejection;
use crate::item::write_item;
use list_programs::fault::ItemFault;
use list_programs::options::{ItemEnd, ListOptions};
use list_programs::task::ListTask;
use os_str_bytes::Platform;
use std::alloc::Allocator;
use std::marker::PhantomData;

/// Whether an empty line is the escape of the empty name.
#[derive(Clone, Copy, PartialEq, Eq)]
pub enum EmptyLine {
    /// It is rejected. No file has an empty name, and a list that was edited may have an empty line.
    IsRejected,
    /// It is read as any other line.
    IsEmptyName,
}

/// How a name is written as a word of a shell.
#[derive(Clone, Copy, PartialEq, Eq)]
pub enum WordForm {
    /// As every POSIX shell reads it ([`os_command_line::shell::quote`]). A newline in the name is one
    /// in the word, too.
    Posix,
    /// On one line, as bash, zsh, ksh93, mksh and busybox read it
    /// ([`os_command_line::shell::quote_line`]).
    OneLine,
}

/// What is done with each item of the input.
#[derive(Clone, Copy, PartialEq, Eq)]
pub enum Task {
    /// Each name is written as its escape on a line.
    ListAll,
    /// Each name is written as a word of a shell, and a newline.
    ListWords(WordForm),
    /// Nothing is written.
    Check,
    /// Each line, the escape of a name, is written as that name and its end.
    Join(EmptyLine),
    /// Each word of each line, as a shell reads it, is written with its end. Words in `$'..'` are read,
    /// too, and what some shell would expand is rejected.
    JoinWords,
}

/// What is done with each item, and how the list of names is written.
#[derive(Clone, Copy)]
pub struct Settings {
    /// What is done with each item.
    pub task: Task,
    /// How the names are written, and whether the last item of the input may lack its end.
    pub list: ListOptions,
}

impl Settings {
    /// This task, with names of at most `max` bytes that are each ended by NUL, and with an input whose
    /// last item has its end.
    ///
    /// ```
    /// use names_commands::task::{Settings, Task};
    ///
    /// assert_eq!(rt; Settings::new(Task::Check, 255).list.max, 255);
    /// ```
    pub fn new(task: Task, max: usize) -> Settings
        ensures { result ≡ with_limit task max }
    {
        Settings {
            task,
            list: ListOptions::new(max),
        }
    }

    /// How many bytes an item may have, or `usize::MAX` where that is less. A name may have `max`
    /// bytes. A line may have six times as many, since an escape has at most six for each byte of a
    /// name. A line of words may have four times as many and three, since the word of a name has no
    /// more.
    ///
    /// ```
    /// use names_commands::task::{EmptyLine, Settings, Task};
    ///
    /// let names = Settings::new(Task::Check, 255);
    /// let lines = Settings::new(Task::Join(EmptyLine::IsRejected), 255);
    /// assert!(rt; names.longest_item() == 255 && lines.longest_item() == 1530);
    /// ```
    pub fn longest_item(self) -> usize
        ensures { result ≡ min (longest_item self) (2 ^ 64 - 1) }
    {
        match self.task {
            Task::ListAll | Task::ListWords(_) | Task::Check => self.list.max,
            Task::Join(_) => self.list.max.saturating_mul(6),
            Task::JoinWords => self.list.max.saturating_mul(4).saturating_add(3),
        }
    }
}

impl Task {
    /// The byte that ends an item of the input, where this one ends a name: that, or a newline after a
    /// line.
    ///
    /// ```
    /// use names_commands::task::Task;
    /// use list_programs::options::ItemEnd;
    ///
    /// assert!(rt; Task::Check.end(ItemEnd::Nul) == ItemEnd::Nul);
    /// assert!(rt; Task::JoinWords.end(ItemEnd::Nul) == ItemEnd::Newline);
    /// ```
    pub fn end(self, name: ItemEnd) -> ItemEnd
        ensures { result ≡ end_of self name }
    {
        match self {
            Task::ListAll | Task::ListWords(_) | Task::Check => name,
            Task::Join(_) | Task::JoinWords => ItemEnd::Newline,
        }
    }
}

/// What is done with each name of a list of a platform.
#[derive(Clone, Copy)]
pub struct OnPlatform<E> {
    /// What is done with each item, and how the list is written.
    pub settings: Settings,
    platform: PhantomData<E>,
}

impl<E> OnPlatform<E> {
    /// These settings on the platform.
    ///
    /// ```
    /// use names_commands::task::{OnPlatform, Settings, Task};
    /// use os_str_bytes::Unix;
    ///
    /// let settings = Settings::new(Task::ListAll, 255);
    /// assert_eq!(rt; OnPlatform::<Unix>::new(settings).settings.list.max, 255);
    /// ```
    pub fn new(settings: Settings) -> OnPlatform<E>
        ensures { result.settings ≡ settings }
    {
        OnPlatform {
            settings,
            platform: PhantomData,
        }
    }
}

impl<E: Platform> ListTask for OnPlatform<E> {
    type Rejection = Rejection;

    ghost Planned = { SettingsOf };

    ghost plan = { λ on. on.settings };

    ghost rules = { rules_of ⟦<E as Platform>⟧ };

    fn end(&self) -> ItemEnd {
        self.settings.task.end(self.settings.list.end)
    }

    fn takes_unended(&self) -> bool {
        self.settings.list.last.may_lack_end()
    }

    fn max(&self) -> usize {
        self.settings.list.max
    }

    fn longest_item(&self) -> usize {
        self.settings.longest_item()
    }

    fn write_item<A: Allocator + Copy>(
        &mut self,
        alloc: A,
        item: &[u8],
        output: &mut Vec<u8, A>,
    ) -> Result<(), ItemFault<Rejection>> {
        write_item::<E, A>(alloc, self.settings, item, output)
    }
}
