//! The choices of a set that a path may match, list by list.
ghost use Rattle.std.specs.Prelude.{◌≡◌, ◌≤◌, ◌+◌, ◌∷◌, true, IsTrue, MatchOption};
ghost use Rattle.wildcards.specs.Components.{components};
ghost use Rattle.wildcards.specs.Extensions.{LacksExtension, IsExtension};
ghost use Rattle.wildcards.specs.Keys.{EndsIn, first_letters};
ghost use Rattle.wildcards.specs.Candidates.{IsQuery, IsNext, IsNextKey, IsHandedOut, HasEarlier, left_keys, path_keys, component_keys, name_keys, extension_keys, end_keys};

use crate::component;
use crate::component::{split_first, split_last};
use crate::filter::{Filter, Place};
use crate::key::key_separators;
use crate::letters::Bytes;
use crate::separators::Separators;
use std::alloc::Allocator;

/// Which lists are left. There are lists for keys of a kind only where there are such keys.
#[derive(Clone, Copy)]
pub(crate) enum Stage<'s, 'p> {
    /// All of them.
    Path,
    /// Those of the first of these sizes of these components, of the others of all components, and
    /// those of the last component.
    Component(&'s [usize], &'p [u8]),
    /// Those of these sizes of the last component, and of its end.
    Name(&'s [usize]),
    /// Those of these sizes of its end.
    End(&'s [usize]),
}

/// A path that is looked up in a set, and the parts of it that the set's filter needs.
#[derive(Drop)]
pub(crate) struct Query<'s, 'p, A: Allocator> {
    filter: &'s Filter<A>,
    // what separates the components that are looked up
    separators: Separators,
    path: &'p [u8],
    // the last component, if there are keys of it
    name: &'p [u8],
    // its extension, if there are patterns that need one
    extension: Option<&'p [u8]>,
}

/// How many keys of a path were looked up, the first bucket that was handed out, and a flag for twelve
/// bits of the index of each later one. Where no key before may have a bucket, keys aren't compared.
#[derive(Drop)]
pub(crate) struct Visited {
    keys: usize,
    first: Option<usize>,
    // made for the second bucket, since most paths have one at most
    flags: Option<[u64; 64]>,
}

impl Visited {
    /// No key.
    #[inline(always)]
    pub fn new() -> Self
        ensures { result.keys ≡ 0 }
    {
        Visited {
            keys: 0,
            first: None,
            flags: None,
        }
    }

    /// Notes a bucket. Returns whether it may have been noted before.
    #[inline(always)]
    fn note(&mut self, slot: usize) -> bool
        ensures { self.new.keys ≡ self.old.keys }
    {
        match self.first {
            None => {
                self.first = Some(slot);
                false
            }
            Some(first) => first == slot || set_flag(&mut self.flags, slot),
        }
    }
}

/// Sets the flag of a bucket. Returns whether it was set before.
#[inline(always)]
fn set_flag(flags: &mut Option<[u64; 64]>, slot: usize) -> bool {
    let at = slot / 64 % 64;
    let flag = 1 << (slot % 64);
    let Some(words) = flags else {
        let mut words = [0; 64];
        words[at] = flag;
        *flags = Some(words);
        return false;
    };
    let word = words[at];
    words[at] = word | flag;
    word & flag != 0
}

/// Returns the last component if the flag is set, and the path otherwise.
#[inline(always)]
fn name_if(asked: bool, separators: Separators, path: &[u8]) -> &[u8]
    ensures { asked ≡ true → EndsIn (components separators path.entry.now) result.now }
{
    if asked {
        let (_, name) = split_last::<Bytes>(separators, path);
        return name;
    }
    path
}

/// Returns the extension if the flag is set.
#[inline(always)]
fn extension_if(asked: bool, separators: Separators, path: &[u8]) -> Option<&[u8]>
    ensures { MatchOption result (asked ≡ true → LacksExtension (components separators path.now))
        (λ text. IsExtension (components separators path.now) text.now) }
{
    if asked {
        component::extension(separators, path)
    } else {
        None
    }
}

/// The first letters of a component, as many as this size; all of them for 0.
#[inline(always)]
fn first_letters(size: usize, component: &[u8]) -> &[u8]
    ensures { result.now ≡ first_letters size component.now }
{
    if size == 0 || size >= component.len() {
        return component;
    }
    let (first, _) = component.split_at(size);
    first
}

impl<'s, 'p, A: Allocator> Query<'s, 'p, A> {
    #[inline(always)]
    pub fn new(filter: &'s Filter<A>, separators: Separators, path: &'p [u8]) -> Self
        ensures { IsQuery result filter.now separators path.now }
    {
        Query {
            filter,
            separators: key_separators(separators),
            path,
            name: name_if(filter.asks_name(), separators, path),
            extension: extension_if(filter.extensions, separators, path),
        }
    }

    /// The next list of places, and the stage after it.
    #[inline(always)]
    pub fn next(
        &self,
        stage: Stage<'s, 'p>,
        visited: &mut Visited,
    ) -> Option<(&'s [Place], Stage<'s, 'p>)>
        ensures next { IsNext self.now visited.old.keys (left_keys self.now stage.entry) result }
        ensures counted { visited.new.keys ≤ visited.old.keys + 1 }
    {
        let (key, more) = self.next_key(stage)?;
        Some((self.places_of(key, visited), more))
    }

    /// The places of a key's bucket. It is handed out for the first key that has it, and for no
    /// other, so that each place is handed out once.
    #[inline(always)]
    fn places_of(&self, key: &[u8], visited: &mut Visited) -> &'s [Place]
        ensures places { IsHandedOut self.now visited.old.keys key.now result.now }
        ensures counted { visited.new.keys ≤ visited.old.keys + 1 }
    {
        let earlier = visited.keys;
        visited.keys = earlier.saturating_add(1);
        let slot = self.filter.slot(key);
        let places = self.filter.places(slot);
        if places.is_empty() {
            return places;
        }
        if visited.note(slot) && self.comes_before(slot, earlier) {
            return &[];
        }
        places
    }

    /// Whether one of the first keys, as many as this, has the bucket of this index.
    fn comes_before(&self, slot: usize, count: usize) -> bool
        ensures { IsTrue result → HasEarlier self.now count slot }
    {
        let mut stage = Stage::Path;
        let mut left = count;
        while left > 0 {
            let Some((key, more)) = self.next_key(stage) else {
                return false;
            };
            if self.filter.slot(key) == slot {
                return true;
            }
            stage = more;
            left -= 1;
        }
        false
    }

    /// The next key, and the stage after it.
    #[inline(always)]
    fn next_key(&self, stage: Stage<'s, 'p>) -> Option<(&'p [u8], Stage<'s, 'p>)>
        ensures { IsNextKey self.now (left_keys self.now stage.entry) result }
    {
        match stage {
            Stage::Path => self.next_path(),
            Stage::Component(sizes, rest) => self.next_component(sizes, rest),
            Stage::Name(sizes) => self.next_name(sizes),
            Stage::End(sizes) => self.next_end(sizes),
        }
    }

    /// The next key, from the whole path on.
    #[inline(always)]
    fn next_path(&self) -> Option<(&'p [u8], Stage<'s, 'p>)>
        ensures { IsNextKey self.now (path_keys self.now) result }
    {
        let sizes = self.filter.components.as_slice();
        if self.filter.paths {
            return Some((self.path, Stage::Component(sizes, self.path)));
        }
        self.next_component(sizes, self.path)
    }

    /// The next key of the first of these sizes of these components, or a later one.
    #[inline(always)]
    fn next_component(
        &self,
        sizes: &'s [usize],
        rest: &'p [u8],
    ) -> Option<(&'p [u8], Stage<'s, 'p>)>
        ensures { IsNextKey self.now (component_keys self.now sizes.entry.now rest.entry.now)
            result }
    {
        let Some((size, more)) = sizes.split_first() else {
            return self.next_name(self.filter.names.as_slice());
        };
        let (component, left) = split_first::<Bytes>(self.separators, rest);
        let key = first_letters(*size, component);
        match left {
            Some(rest) => Some((key, Stage::Component(sizes, rest))),
            None => Some((key, Stage::Component(more, self.path))),
        }
    }

    /// The next key of these sizes of the last component, or a later one.
    #[inline(always)]
    fn next_name(&self, sizes: &'s [usize]) -> Option<(&'p [u8], Stage<'s, 'p>)>
        ensures { IsNextKey self.now (name_keys self.now sizes.entry.now) result }
    {
        let Some((size, more)) = sizes.split_first() else {
            return self.next_extension();
        };
        Some((first_letters(*size, self.name), Stage::Name(more)))
    }

    /// The next key of the extension, and of the end.
    #[inline(always)]
    fn next_extension(&self) -> Option<(&'p [u8], Stage<'s, 'p>)>
        ensures { IsNextKey self.now (extension_keys self.now) result }
    {
        let sizes = self.filter.ends.as_slice();
        if let Some(extension) = self.extension {
            return Some((extension, Stage::End(sizes)));
        }
        self.next_end(sizes)
    }

    /// The next key of these sizes of the end of the last component.
    #[inline(always)]
    fn next_end(&self, sizes: &'s [usize]) -> Option<(&'p [u8], Stage<'s, 'p>)>
        ensures { IsNextKey self.now (end_keys self.now sizes.entry.now) result }
    {
        let (size, more) = sizes.split_first()?;
        let at = self.name.len().saturating_sub(*size);
        let (_, end) = self.name.split_at(at);
        Some((end, Stage::End(more)))
    }
}
