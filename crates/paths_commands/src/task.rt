//! What the program writes for each path of the input.
ghost use Rattle.std.specs.Prelude.{◌≡◌};
ghost use Rattle.paths_commands.specs.Task.{rules_of};

use crate::extension::Extension;
use crate::fault::Rejection;
use crate::item::write_item;
use list_programs::fault::ItemFault;
use list_programs::options::{ItemEnd, ListOptions};
use list_programs::task::ListTask;
use os_path::PathStyle;
use os_str_bytes::Platform;
use path_building::Base;
use program_frame::os::Os;
use std::alloc::Allocator;
use std::marker::PhantomData;

/// What the program writes for each path of the input.
#[derive(Clone, Copy)]
pub enum Task<'a> {
    /// Its components: the escape of each on a line, and an empty line after the last.
    Components,
    /// The path itself, of which `common` writes the common base.
    Common,
    /// Its parent, ended as the path is, as all results below: without the last component.
    Parent,
    /// Its last component, where that is a name.
    Name,
    /// That name without its extension.
    Stem,
    /// The extension of that name.
    Extension,
    /// The path with this extension of that name, as std's `Path::with_extension`. A path without a
    /// name is kept.
    WithExtension(Extension<'a>),
    /// Its normal form, as std's `normalize_lexically`. A path without one is rejected.
    Normalize,
    /// Its clean form, as Go's `filepath.Clean`.
    Clean,
    /// The path as it is, if it begins with the components of this base, as std's
    /// `Path::starts_with`. Nothing is written for another.
    StartsWith(&'a str),
    /// The path after this base, as std's `Path::join`.
    Join(&'a str),
    /// The path below this base, as typed-path's `join_checked`. One that could leave the base is
    /// rejected. The flag is whether a separator at the end of the path is kept.
    JoinChecked(Base<'a>, bool),
    /// The path as it is reached from this base, as the crate pathdiff's `diff_paths`, and `.` for the
    /// base itself. One that no path leads to is rejected.
    Relative(&'a str),
    /// The path as an absolute path, as std's `path::absolute`: below this directory if it is
    /// relative. One that can't be made absolute is rejected.
    Absolute(&'a str),
    /// The path of this platform with the same components. One with a component that the platform's
    /// paths can't have is rejected.
    Convert(Os),
}

/// What the program writes for each path of a list of a platform, and how the list is written.
#[derive(Clone, Copy)]
pub struct OnPlatform<'a, E> {
    /// What the program writes for each path.
    pub task: Task<'a>,
    /// The byte that ends each path, whether the last path may lack it, and how many bytes a path may
    /// have.
    pub list: ListOptions,
    /// The byte that ends each result.
    pub end: ItemEnd,
    platform: PhantomData<E>,
}

impl<'a, E> OnPlatform<'a, E> {
    /// The task for paths of the platform, in a list that is written so, as are the results.
    ///
    /// ```
    /// use os_str_bytes::Unix;
    /// use paths_commands::task::{OnPlatform, Task};
    /// use list_programs::options::ListOptions;
    ///
    /// let list = ListOptions::new(255);
    /// assert_eq!(rt; OnPlatform::<Unix>::new(Task::Parent, list).list.max, 255);
    /// ```
    pub fn new(task: Task<'a>, list: ListOptions) -> OnPlatform<'a, E>
        ensures task { result.task ≡ task.entry }
        ensures list { result.list ≡ list }
        ensures end { result.end ≡ list.end }
    {
        OnPlatform::ended(task, list, list.end)
    }

    /// The task for paths of the platform, in a list that is written so, where this byte ends each
    /// result.
    ///
    /// ```
    /// use os_str_bytes::Unix;
    /// use paths_commands::task::{OnPlatform, Task};
    /// use list_programs::options::{ItemEnd, ListOptions};
    ///
    /// let list = ListOptions::new(255);
    /// let task = OnPlatform::<Unix>::ended(Task::Parent, list, ItemEnd::Newline);
    /// assert!(rt; task.end == ItemEnd::Newline && task.list.end == ItemEnd::Nul);
    /// ```
    pub fn ended(task: Task<'a>, list: ListOptions, end: ItemEnd) -> OnPlatform<'a, E>
        ensures task { result.task ≡ task.entry }
        ensures list { result.list ≡ list }
        ensures end { result.end ≡ end }
    {
        OnPlatform {
            task,
            list,
            end,
            platform: PhantomData,
        }
    }
}

impl<'a, E: PathStyle> ListTask for OnPlatform<'a, E> {
    type Rejection = Rejection;

    ghost Planned = { Self };

    ghost plan = { λ on. on };

    ghost rules = { λ on. rules_of ⟦<E as Platform>⟧ E.follows on.task on.list on.end };

    fn end(&self) -> ItemEnd {
        self.list.end
    }

    fn takes_unended(&self) -> bool {
        self.list.last.may_lack_end()
    }

    fn max(&self) -> usize {
        self.list.max
    }

    fn longest_item(&self) -> usize {
        self.list.max
    }

    fn write_item<A: Allocator + Copy>(
        &mut self,
        alloc: A,
        item: &[u8],
        output: &mut Vec<u8, A>,
    ) -> Result<(), ItemFault<Rejection>> {
        write_item::<E, A>(alloc, self, item, output)
    }
}
