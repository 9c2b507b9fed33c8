//! A path after a verbatim one.
ghost use Rattle.std.specs.Prelude.{◌≡◌, map, IfOk};
ghost use Rattle.path_rules.specs.declared.rules.Rules.{Rules};
ghost use Rattle.path_rules.specs.declared.rules.Style.TheVariants as whose;
ghost use Rattle.path_rules.specs.Component.{components_in};
ghost use Rattle.path_rules.specs.Prefix.{IsPrefixed};
ghost use Rattle.path_rules.specs.Views.{item_of};
ghost use Rattle.path_building.specs.Join.{IsVerbatimPath};
ghost use Rattle.path_building.specs.Resolved.{IsResolved};
ghost use Rattle.path_building.specs.Spelled.{kept_names, start_below};

use crate::cleaning::add_cleaned;
use crate::normal::all_names;
use crate::writing::written;
use path_rules::parts::{Start, head_of};
use path_rules::{Component, Style};
use std::alloc::{AllocError, Allocator};

/// A path after a verbatim base, in new memory: `.` and `..` are resolved.
pub(crate) fn resolve<A: Allocator + Clone>(
    alloc: A,
    base: &[u8],
    path: &[u8],
) -> Result<Vec<u8, A>, AllocError>
    requires verbatim { IsVerbatimPath whose.Windows base.now }
    requires bare { ¬ (IsPrefixed whose.Windows path.now) }
    ensures { IfOk result (λ joined. IsResolved base.now path.now joined.items) }
{
    let head = head_of(Style::Windows, base);
    let added = head_of(Style::Windows, path);
    let kept = kept_body(added.start, head.body);
    let mut names = all_names(alloc.clone()?, head.rules, kept)?;
    add_cleaned(&mut names, added.rules, true, added.body)?;
    let start = start_below(added.start, head.start, &names);
    let capacity = base.len() + path.len();
    written(alloc, capacity, b'\\', head.prefix, start, false, &names)
}

/// The base's body; nothing of it before a path with a root.
fn kept_body(start: Start, body: &[u8]) -> &[u8]
    ensures { (r : Rules)
        → components_in r result.now ≡ kept_names start (components_in r body.entry.now) }
{
    match start {
        Start::Root => b"".as_slice(),
        _ => body,
    }
}

/// With what the joined path starts after its prefix: with a root if it has names.
fn start_below(added: Start, start: Start, names: &[Component<&[u8]>]) -> Start
    ensures { result ≡ start_below added start (map item_of names.now) }
{
    match added {
        Start::Root => Start::Root,
        _ => match names {
            [] => start,
            _ => Start::Root,
        },
    }
}
