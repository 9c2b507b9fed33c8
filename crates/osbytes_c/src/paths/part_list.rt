//! The components of a path, by their indices, in an array that may be too short for them.
ghost use Rattle.std.specs.Prelude.{◌≡◌, ◌+◌, ◌<◌, ◌^◌, ◌∷◌, []};
ghost use Rattle.path_rules.specs.Views.{item_of};
ghost use Rattle.osbytes_c.specs.PathParts.{kind_number};
ghost use Rattle.osbytes_c.specs.PartBuffers.{PushesPart};

use path_rules::Component;

/// A component of a path: where it is.
#[repr(C)]
#[derive(Clone, Copy)]
pub struct Part {
    /// 1 a prefix, 2 the root, 3 `.`, 4 `..`, 5 a name.
    pub kind: u32,
    /// The index of its first byte.
    pub start: usize,
    /// The index after its last byte.
    pub end: usize,
}

/// The number of a component's kind.
pub(crate) fn kind_number(component: Component<&[u8]>) -> u32
    ensures { result ≡ kind_number (item_of component.entry) }
{
    match component {
        Component::Prefix(_) => 1,
        Component::RootDir => 2,
        Component::CurDir => 3,
        Component::ParentDir => 4,
        Component::Normal(_) => 5,
    }
}

/// Appends a component to an array that has `count` components, as far as there is room.
pub(crate) fn push(out: &mut [Part], count: usize, part: Part) -> usize
    requires { count + 1 < 2 ^ 64 }
    ensures pushes { PushesPart (part ∷ []) out.old count out.new result }
    ensures count { result ≡ count + 1 }
{
    if count < out.len() {
        out[count] = part;
    }
    count + 1
}
