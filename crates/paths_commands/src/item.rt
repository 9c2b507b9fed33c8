//! What is written for one path.
ghost use Rattle.std.specs.Prelude.{◌≡◌, ◌≢◌, ◌⊎◌, ◌∷◌, ◌++◌, ◌≤◌, [], ℕ, List, true, false, Some, None, OnOk, OnErr, IfOk, IfErr, drop, length, take};
ghost use Rattle.list_programs.specs.declared.fault.ItemFault.TheVariants.{Rejected, Memory};
ghost use Rattle.path_building.specs.Cleaned.{IsCleaned};
ghost use Rattle.path_building.specs.FullPath.{IsFullPath, IsAbsoluteFault};
ghost use Rattle.path_building.specs.Join.{IsJoin};
ghost use Rattle.path_building.specs.Normalized.{IsNormalized, HasNoNormalForm};
ghost use Rattle.path_building.specs.Relative.{IsRelativeFrom};
ghost use Rattle.path_building.specs.Restyled.{IsRestyled};
ghost use Rattle.path_building.specs.declared.full_paths.AbsoluteError.{AbsoluteError as DeclaredError};
ghost use Rattle.path_building.specs.declared.full_paths.AbsoluteError.TheVariants as absolute_error;
ghost use Rattle.paths_commands.specs.declared.fault.Rejection as why;
ghost use Rattle.paths_commands.specs.declared.fault.Rejection.TheVariants.{NoNormalForm, NoRelativePath, NoAbsolutePath, ResultHas};
ghost use Rattle.list_programs.specs.Items.{Lacks};
ghost use Rattle.list_programs.specs.ListOptions.{byte_of};
ghost use Rattle.list_programs.specs.Rules.{IsItemFault};
ghost use Rattle.program_frame.specs.Strings.{strings};
ghost use Rattle.paths_commands.specs.Styles.{style_of};
ghost use Rattle.paths_commands.specs.Task.{rules_of, IsText, IsPathText, IsComponentsText, IsExtendedBy, IsMade, IsLeftOut, IsRejection, IsTaken, IsUnanswered, IsUnconverted, way_text};
ghost use Rattle.platform_str.specs.Strings.{path_bytes};

use crate::answers::{parent, part};
use crate::checked::write_checked;
use crate::components::{push_components, shown_component};
use crate::extension::Extension;
use crate::fault::Rejection;
use crate::task::{OnPlatform, Task};
use list_programs::fault::ItemFault;
use list_programs::items::split_at_end;
use list_programs::options::ItemEnd;
use os_path::{AbsoluteError, ConvertError, NormalizeError, PathExt, PathStyle};
use os_str_bytes::{OsStr, Path, Platform, Unix, Wasm, Windows};
use path_building::with_extension;
use program_frame::os::Os;
use std::alloc::Allocator;

/// Appends what is written for a path.
#[tactic(auto, using(list_programs::proofs::lemmas::Items::has_end))]
pub fn write_item<E: PathStyle, A: Allocator + Copy>(
    alloc: A,
    on: &OnPlatform<'_, E>,
    item: &[u8],
    output: &mut Vec<u8, A>,
) -> Result<(), ItemFault<Rejection>>
    ensures ok { OnOk result ((text : List ℕ)
        × (IsText ⟦<E as Platform>⟧ E.follows on.now.end on.now.task item.now text
        × (output.new.items ≡ output.old.items ++ text))) }
    ensures fault { IfErr result (λ fault.
        IsItemFault (rules_of ⟦<E as Platform>⟧ E.follows on.now.task on.now.list on.now.end) item.now fault) }
    ensures unchanged { OnErr result (output.new.items ≡ output.old.items) }
{
    match OsStr::<E>::checked(item) {
        Ok(string) => match split_at_end(0, item) {
            Some(_) => Err(ItemFault::Rejected(Rejection::HasNul)),
            None => write_path::<E, A>(alloc, on.task, on.end, Path::new(string), output),
        },
        Err(error) => Err(ItemFault::Rejected(Rejection::NoString(error))),
    }
}

/// Appends what is written for a string of the platform.
#[tactic(auto, using(crate::proofs::lemmas::Ended::components_written, crate::proofs::lemmas::Ended::without_result))]
fn write_path<E: PathStyle, A: Allocator + Copy>(
    alloc: A,
    task: Task<'_>,
    end: ItemEnd,
    path: Path<'_, E>,
    output: &mut Vec<u8, A>,
) -> Result<(), ItemFault<Rejection>>
    ensures ok { OnOk result ((text : List ℕ)
        × (IsPathText ⟦<E as Platform>⟧ E.follows end task.entry (path_bytes path.entry) text
        × (output.new.items ≡ output.old.items ++ text))) }
    ensures fault { IfErr result (λ fault. (fault ≡ Memory) ⊎ ((why : why.Rejection)
        × ((fault ≡ Rejected why) × IsRejection ⟦<E as Platform>⟧ E.follows end task.entry
        (path_bytes path.entry) why))) }
    ensures unchanged { OnErr result (output.new.items ≡ output.old.items) }
{
    if is_left_out(task, path) {
        return Ok(());
    }
    let start = output.len();
    match write_result::<E, A>(alloc, task, path, output) {
        Ok(()) => match task {
            Task::Components => Ok(()),
            _ => end_result(start, end, output),
        },
        Err(fault) => Err(fault),
    }
}

/// Whether a path isn't one of those that the task picks.
fn is_left_out<E: PathStyle>(task: Task<'_>, path: Path<'_, E>) -> bool
    ensures yes { result ≡ true → IsLeftOut E.follows task.entry (path_bytes path.entry) }
    ensures no { result ≡ false → IsTaken E.follows task.entry (path_bytes path.entry) }
{
    match task {
        Task::StartsWith(base) => !path.starts_with(Path::new(OsStr::new(base))),
        _ => false,
    }
}

/// Ends what is in the output from an index on, where that lacks the byte that ends it. Otherwise
/// takes it away.
#[tactic(auto, using(list_programs::proofs::lemmas::Items::has_end))]
fn end_result<A: Allocator>(
    start: usize,
    end: ItemEnd,
    output: &mut Vec<u8, A>,
) -> Result<(), ItemFault<Rejection>>
    requires { start ≤ length output.old.items }
    ensures lacks { OnOk result (Lacks (byte_of end) (drop start output.old.items)) }
    ensures ok { OnOk result (output.new.items ≡ output.old.items ++ byte_of end ∷ []) }
    ensures fault { IfErr result (λ fault. (fault ≡ Memory) ⊎ ((fault ≡ Rejected (ResultHas end))
        × (¬ (Lacks (byte_of end) (drop start output.old.items))))) }
    ensures taken { OnErr result (output.new.items ≡ take start output.old.items) }
{
    let (_, answer) = output.as_slice().split_at(start);
    if let Some(_) = split_at_end(end.byte(), answer) {
        output.truncate(start);
        return Err(ItemFault::Rejected(Rejection::ResultHas(end)));
    }
    match output.push(end.byte()) {
        Ok(()) => Ok(()),
        Err(_) => {
            output.truncate(start);
            Err(ItemFault::Memory)
        }
    }
}

/// Appends the result for a string of the platform.
fn write_result<E: PathStyle, A: Allocator + Copy>(
    alloc: A,
    task: Task<'_>,
    path: Path<'_, E>,
    output: &mut Vec<u8, A>,
) -> Result<(), ItemFault<Rejection>>
    requires { IsTaken E.follows task (path_bytes path) }
    ensures ok { OnOk result ((made : List ℕ)
        × (IsMade ⟦<E as Platform>⟧ E.follows task.entry (path_bytes path.entry) made
        × (output.new.items ≡ output.old.items ++ made))) }
    ensures fault { IfErr result (λ fault. (fault ≡ Memory) ⊎ ((why : why.Rejection)
        × ((fault ≡ Rejected why) × IsUnanswered ⟦<E as Platform>⟧ E.follows task.entry
        (path_bytes path.entry) why))) }
    ensures unchanged { OnErr result (output.new.items ≡ output.old.items) }
{
    match task {
        Task::Components => write_components::<E, A>(alloc, path, output),
        Task::Parent => write_answer(parent(path), output),
        Task::Common => write_answer(path.as_os_str().as_encoded_bytes(), output),
        Task::Name => write_answer(part(path.file_name()), output),
        Task::Stem => write_answer(part(path.file_stem()), output),
        Task::Extension => write_answer(part(path.extension()), output),
        Task::WithExtension(extension) => write_extended::<E, A>(alloc, extension, path, output),
        Task::Normalize => write_normal::<E, A>(alloc, path, output),
        Task::Clean => write_clean::<E, A>(alloc, path, output),
        Task::StartsWith(_) => write_answer(path.as_os_str().as_encoded_bytes(), output),
        Task::Join(base) => write_joined::<E, A>(alloc, base, path, output),
        Task::JoinChecked(base, keeps) => {
            write_checked::<E, A>(alloc, base, keeps, path, output)
        }
        Task::Relative(base) => write_relative::<E, A>(alloc, base, path, output),
        Task::Absolute(directory) => write_absolute::<E, A>(alloc, directory, path, output),
        Task::Convert(to) => write_on::<E, A>(alloc, to, path, output),
    }
}

/// Appends the components of a path, one a line.
fn write_components<E: PathStyle, A: Allocator + Copy>(
    alloc: A,
    path: Path<'_, E>,
    output: &mut Vec<u8, A>,
) -> Result<(), ItemFault<Rejection>>
    ensures ok { OnOk result ((text : List ℕ)
        × (IsComponentsText ⟦<E as Platform>⟧ E.follows (path_bytes path.entry) text
        × (output.new.items ≡ output.old.items ++ text))) }
    ensures fault { IfErr result (λ fault. fault ≡ Memory) }
    ensures unchanged { OnErr result (output.new.items ≡ output.old.items) }
{
    Ok(push_components(alloc, path, output)?)
}

/// Appends a path with another extension.
fn write_extended<E: PathStyle, A: Allocator + Copy>(
    alloc: A,
    extension: Extension<'_>,
    path: Path<'_, E>,
    output: &mut Vec<u8, A>,
) -> Result<(), ItemFault<Rejection>>
    ensures ok { OnOk result ((made : List ℕ)
        × (IsExtendedBy extension.entry (path_bytes path.entry) made
        × (output.new.items ≡ output.old.items ++ made))) }
    ensures fault { IfErr result (λ fault. fault ≡ Memory) }
    ensures unchanged { OnErr result (output.new.items ≡ output.old.items) }
{
    let raw = path.as_os_str().as_encoded_bytes();
    match with_extension(alloc, extension.style, raw, extension.text.as_bytes()) {
        Ok(made) => write_answer(&made, output),
        Err(_) => Err(ItemFault::Memory),
    }
}

/// Appends the normal form of a path.
fn write_normal<E: PathStyle, A: Allocator + Copy>(
    alloc: A,
    path: Path<'_, E>,
    output: &mut Vec<u8, A>,
) -> Result<(), ItemFault<Rejection>>
    ensures ok { OnOk result ((normal : List ℕ)
        × (IsNormalized E.follows (path_bytes path.entry) normal
        × (output.new.items ≡ output.old.items ++ normal))) }
    ensures fault { IfErr result (λ fault. (fault ≡ Memory) ⊎ ((fault ≡ Rejected NoNormalForm)
        × HasNoNormalForm E.follows (path_bytes path.entry))) }
    ensures unchanged { OnErr result (output.new.items ≡ output.old.items) }
{
    match path.normalize(alloc) {
        Ok(normal) => write_answer(normal.as_os_str().as_encoded_bytes(), output),
        Err(NormalizeError::NoName) => Err(ItemFault::Rejected(Rejection::NoNormalForm)),
        Err(NormalizeError::Memory) => Err(ItemFault::Memory),
    }
}

/// Appends the clean form of a path.
fn write_clean<E: PathStyle, A: Allocator + Copy>(
    alloc: A,
    path: Path<'_, E>,
    output: &mut Vec<u8, A>,
) -> Result<(), ItemFault<Rejection>>
    ensures ok { OnOk result ((clean : List ℕ)
        × (IsCleaned E.follows (path_bytes path.entry) clean
        × (output.new.items ≡ output.old.items ++ clean))) }
    ensures fault { IfErr result (λ fault. fault ≡ Memory) }
    ensures unchanged { OnErr result (output.new.items ≡ output.old.items) }
{
    let clean = path.clean(alloc)?;
    write_answer(clean.as_os_str().as_encoded_bytes(), output)
}

/// Appends a path after a base.
fn write_joined<E: PathStyle, A: Allocator + Copy>(
    alloc: A,
    base: &str,
    path: Path<'_, E>,
    output: &mut Vec<u8, A>,
) -> Result<(), ItemFault<Rejection>>
    ensures ok { OnOk result ((joined : List ℕ)
        × (IsJoin E.follows base.now (path_bytes path.entry) joined
        × (output.new.items ≡ output.old.items ++ joined))) }
    ensures fault { IfErr result (λ fault. fault ≡ Memory) }
    ensures unchanged { OnErr result (output.new.items ≡ output.old.items) }
{
    let joined = Path::new(OsStr::new(base)).join(alloc, path)?;
    write_answer(joined.as_os_str().as_encoded_bytes(), output)
}

/// Appends a path as it is reached from a base, and `.` for the base itself.
fn write_relative<E: PathStyle, A: Allocator + Copy>(
    alloc: A,
    base: &str,
    path: Path<'_, E>,
    output: &mut Vec<u8, A>,
) -> Result<(), ItemFault<Rejection>>
    ensures ok { OnOk result ((way : List ℕ)
        × (IsRelativeFrom E.follows (path_bytes path.entry) base.now (Some way)
        × (output.new.items ≡ output.old.items ++ way_text way))) }
    ensures fault { IfErr result (λ fault. (fault ≡ Memory) ⊎ ((fault ≡ Rejected NoRelativePath)
        × IsRelativeFrom E.follows (path_bytes path.entry) base.now None)) }
    ensures unchanged { OnErr result (output.new.items ≡ output.old.items) }
{
    match path.relative_from(alloc, Path::new(OsStr::new(base))) {
        Ok(Some(way)) => write_answer(way_text(way.as_os_str().as_encoded_bytes()), output),
        Ok(None) => Err(ItemFault::Rejected(Rejection::NoRelativePath)),
        Err(_) => Err(ItemFault::Memory),
    }
}

/// How a path is reached, as it is written: `.` from itself.
pub(crate) fn way_text<'a>(way: &'a [u8]) -> &'a [u8]
    ensures { result.now ≡ way_text way.now }
{
    match way {
        [] => b".",
        _ => way,
    }
}

/// Appends a path as an absolute path, which is below the directory if the path is relative.
fn write_absolute<E: PathStyle, A: Allocator + Copy>(
    alloc: A,
    directory: &str,
    path: Path<'_, E>,
    output: &mut Vec<u8, A>,
) -> Result<(), ItemFault<Rejection>>
    ensures ok { OnOk result ((full : List ℕ)
        × (IsFullPath E.follows (path_bytes path.entry) directory.now full
        × (output.new.items ≡ output.old.items ++ full))) }
    ensures fault { IfErr result (λ fault. (fault ≡ Memory) ⊎ ((error : DeclaredError)
        × ((fault ≡ Rejected (NoAbsolutePath error)) × ((error ≢ absolute_error.Memory)
        × IsAbsoluteFault E.follows (path_bytes path.entry) directory.now error)))) }
    ensures unchanged { OnErr result (output.new.items ≡ output.old.items) }
{
    match path.absolute(alloc, Path::new(OsStr::new(directory))) {
        Ok(full) => write_answer(full.as_os_str().as_encoded_bytes(), output),
        Err(error) => Err(unplaced(error)),
    }
}

/// The fault of a path that isn't made absolute.
fn unplaced(error: AbsoluteError) -> ItemFault<Rejection>
    ensures { (result ≡ Memory)
        ⊎ ((error ≢ absolute_error.Memory) × (result ≡ Rejected (NoAbsolutePath error))) }
{
    match error {
        AbsoluteError::Memory => ItemFault::Memory,
        reason => ItemFault::Rejected(Rejection::NoAbsolutePath(reason)),
    }
}

/// Appends the path of another platform with a path's components.
fn write_on<E: PathStyle, A: Allocator + Copy>(
    alloc: A,
    to: Os,
    path: Path<'_, E>,
    output: &mut Vec<u8, A>,
) -> Result<(), ItemFault<Rejection>>
    ensures ok { OnOk result ((made : List ℕ) × (((strings to).well_formed made
        × IsRestyled E.follows (style_of to) (path_bytes path.entry) made)
        × (output.new.items ≡ output.old.items ++ made))) }
    ensures fault { IfErr result (λ fault. (fault ≡ Memory) ⊎ ((why : why.Rejection)
        × ((fault ≡ Rejected why) × IsUnconverted ⟦<E as Platform>⟧ E.follows (style_of to)
        (strings to).first_fault (path_bytes path.entry) why))) }
    ensures unchanged { OnErr result (output.new.items ≡ output.old.items) }
{
    match to {
        Os::Unix => write_converted::<E, Unix, A>(alloc, path, output),
        Os::Windows => write_converted::<E, Windows, A>(alloc, path, output),
        Os::Wasm => write_converted::<E, Wasm, A>(alloc, path, output),
    }
}

/// Appends the path of another platform, where that platform is a type.
fn write_converted<E: PathStyle, F: PathStyle, A: Allocator + Copy>(
    alloc: A,
    path: Path<'_, E>,
    output: &mut Vec<u8, A>,
) -> Result<(), ItemFault<Rejection>>
    ensures ok { OnOk result ((made : List ℕ) × ((F.well_formed made
        × IsRestyled E.follows F.follows (path_bytes path.entry) made)
        × (output.new.items ≡ output.old.items ++ made))) }
    ensures fault { IfErr result (λ fault. (fault ≡ Memory) ⊎ ((why : why.Rejection)
        × ((fault ≡ Rejected why) × IsUnconverted ⟦<E as Platform>⟧ E.follows F.follows
        F.first_fault (path_bytes path.entry) why))) }
    ensures unchanged { OnErr result (output.new.items ≡ output.old.items) }
{
    match path.with_style::<F, A>(alloc) {
        Ok(made) => write_answer(made.as_os_str().as_encoded_bytes(), output),
        Err(ConvertError::Component(index)) => {
            let text = shown_component::<E, A>(alloc, path, index)?;
            Err(ItemFault::Rejected(Rejection::NoComponent(index, text)))
        }
        Err(ConvertError::Encoding(fault)) => {
            Err(ItemFault::Rejected(Rejection::NoStringThere(fault)))
        }
        Err(ConvertError::Memory) => Err(ItemFault::Memory),
    }
}

/// Appends a result.
pub fn write_answer<A: Allocator>(
    answer: &[u8],
    output: &mut Vec<u8, A>,
) -> Result<(), ItemFault<Rejection>>
    ensures ok { OnOk result (output.new.items ≡ output.old.items ++ answer.now) }
    ensures fault { IfErr result (λ fault. fault ≡ Memory) }
    ensures unchanged { OnErr result (output.new.items ≡ output.old.items) }
{
    Ok(output.extend_from_slice(answer)?)
}
