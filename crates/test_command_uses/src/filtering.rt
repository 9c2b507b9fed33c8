//! Names that patterns and ignore files pick: what a run over one name writes.
ghost use Rattle.std.specs.Prelude.{◌≡◌, ◌≢◌, ◌∷◌, ◌++◌, ◌⊎◌, [], ℕ, List, false, IsTrue, IfErr, IfOk, OnOk};
ghost use Rattle.std.specs.Io.KnownBytes.{Appends};
ghost use Rattle.os_ignore.specs.Walks.{files_of_walk};
ghost use Rattle.os_str_bytes.specs.Strings.{bytes};
ghost use Rattle.list_programs.specs.Items.{Lacks};
ghost use Rattle.program_frame.specs.Marked.{marked_inner, has_failed};
ghost use Rattle.list_programs.specs.declared.fault.ListFault.TheVariants.{Rejected};
ghost use Rattle.names_commands.specs.Ignoring.{IsFromTop};
ghost use Rattle.names_commands.specs.Matching.{IsMatchedBy, IsPickedBy};
ghost use Rattle.names_commands.specs.declared.fault.Rejection.TheVariants.{NotFromTop};

use list_programs::fault::ListFault;
use list_programs::options::{ItemEnd, LastItem, ListOptions};
use list_programs::run::run;
use names_commands::fault::Rejection;
use names_commands::matching::{Form, Matching, Picker};
use os_ignore::Walk;
use os_str_bytes::{OsStr, Platform};
use program_frame::marked::Marked;
use std::alloc::{AllocError, Allocator};
use std::io::Write;

/// Whether a name is picked that a pattern of names to leave out matches: it isn't, inverted or not.
pub fn picks_excluded<E: Platform, A: Allocator + Copy>(
    names: Matching<'_, E, A>,
    walk: &mut Walk<'_, A>,
    name: OsStr<'_, E>,
) -> Result<bool, AllocError>
    requires excluded { IsMatchedBy ⟦<E as Platform>⟧ names.excluded.now (bytes name) }
    ensures { IfOk result (λ picks. ¬ (IsTrue picks)) }
{
    names.picks(walk, name)
}

/// Filters one name, which is written with NUL, or not at all, whatever the form and the list that
/// `picker` has.
pub fn filtered<E: Platform, A: Allocator, B: Allocator + Copy, W: Write>(
    alloc: A,
    max: usize,
    picker: Picker<'_, E, B>,
    name: &[u8],
    writer: &mut Marked<W>,
) -> Result<bool, ListFault<Rejection>>
    requires whole { Lacks 0 name.now }
    requires some { name.now ≢ [] }
    requires unmarked { has_failed writer.old ≡ false }
    ensures { OnOk result ((text : List ℕ)
        × (((IsPickedBy ⟦<E as Platform>⟧ picker.entry.names.inverted picker.entry.names.globs
        picker.entry.names.excluded.now (files_of_walk picker.entry.walk) name.now
        × (text ≡ name.now ++ 0 ∷ []))
        ⊎ ((¬ (IsPickedBy ⟦<E as Platform>⟧ picker.entry.names.inverted picker.entry.names.globs
        picker.entry.names.excluded.now (files_of_walk picker.entry.walk)
        name.now)) × (text ≡ [])))
        × Appends (W.contents (marked_inner writer.old)) (W.contents (marked_inner writer.new))
        text)) }
{
    let mut reader = Marked::new(name);
    let mut picker = picker;
    picker.names = Matching {
        globs: picker.names.globs,
        inverted: picker.names.inverted,
        excluded: picker.names.excluded,
        form: Form::Name,
        list: ListOptions {
            end: ItemEnd::Nul,
            last: LastItem::MayLackEnd,
            max,
        },
    };
    run(alloc, &mut picker, &mut reader, writer)
}

/// Filters one name that is a path from the top of the tree, which is never rejected as one that isn't.
pub fn filtered_in_tree<E: Platform, A: Allocator, B: Allocator + Copy, W: Write>(
    alloc: A,
    max: usize,
    picker: Picker<'_, E, B>,
    name: &[u8],
    writer: &mut Marked<W>,
) -> Result<bool, ListFault<Rejection>>
    requires whole { Lacks 0 name.now }
    requires placed { IsFromTop name.now }
    requires unmarked { has_failed writer.old ≡ false }
    ensures { IfErr result (λ fault. (number : ℕ) → fault ≢ Rejected number NotFromTop) }
{
    let mut reader = Marked::new(name);
    let mut picker = picker;
    picker.names = Matching {
        globs: picker.names.globs,
        inverted: picker.names.inverted,
        excluded: picker.names.excluded,
        form: Form::Name,
        list: ListOptions {
            end: ItemEnd::Nul,
            last: LastItem::MayLackEnd,
            max,
        },
    };
    run(alloc, &mut picker, &mut reader, writer)
}
