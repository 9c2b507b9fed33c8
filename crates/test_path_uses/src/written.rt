//! The bytes of paths that are built: the main separator alone is written.
ghost use Rattle.std.specs.Prelude.{◌≡◌, ◌≢◌, ◌∷◌, [], codes, IfOk, IfSome};
ghost use Rattle.platform_str.specs.Strings.{path_bytes, path_vec_of};
ghost use Rattle.path_rules.specs.Component.{Normal};
ghost use Rattle.path_rules.specs.declared.rules.Style.TheVariants as style;
ghost use Rattle.path_rules.specs.Root.{IsAbsolute};
ghost use Rattle.path_building.specs.Beginning.{BeginsOddly};
ghost use Rattle.path_building.specs.Checked.{AreCheckedNames};
ghost use Rattle.path_building.specs.Join.{IsVerbatimPath};
ghost use Rattle.path_building.specs.Written.{BeginsAsObject};
ghost use Rattle.path_building.specs.MainSeparators.{HasMainSeparators};
ghost use Rattle.test_path_uses.specs.Slashes.{HasNoSlash};

use crate::form::Form;
use crate::normal_forms::{formed, in_form};
use os_path::{ConvertError, JoinError, NormalizeError, PathExt, PathStyle};
use path_building::laws as building;
use path_rules::laws;
use platform_str::{Path, PathBuf, Unix, Windows};
use std::alloc::{AllocError, Allocator};

/// `C:/a/../b` in each form is `C:\b`.
pub fn form_of_slashes<A: Allocator + Copy>(
    alloc: A,
    form: Form,
    path: Path<'_, Windows>,
) -> Result<PathBuf<Windows, A>, NormalizeError>
    ensures { IfOk result (λ made. path_bytes path.entry ≡ codes "C:/a/../b"
        → (path_vec_of made).items ≡ codes "C:\\b") }
{
    formed(alloc, form, path)
}

/// `//s/h/a/../x` cleaned is `\\s\h\x`.
pub fn clean_share<A: Allocator + Copy>(
    alloc: A,
    path: Path<'_, Windows>,
) -> Result<PathBuf<Windows, A>, NormalizeError>
    ensures { IfOk result (λ made. path_bytes path.entry ≡ codes "//s/h/a/../x"
        → (path_vec_of made).items ≡ codes "\\\\s\\h\\x") }
{
    laws::one_list();
    formed(alloc, Form::Clean, path)
}

/// `b/c` below `C:/a` is `C:\a\b\c`.
pub fn below_slashes<A: Allocator + Copy>(
    alloc: A,
    base: Path<'_, Windows>,
    path: Path<'_, Windows>,
) -> Result<PathBuf<Windows, A>, JoinError>
    ensures { IfOk result (λ joined. path_bytes base.entry ≡ codes "C:/a"
        → AreCheckedNames style.Windows (path_bytes path.entry)
        (Normal (codes "b") ∷ Normal (codes "c") ∷ [])
        → (path_vec_of joined).items ≡ codes "C:\\a\\b\\c") }
{
    laws::one_list();
    building::normal_forms();
    base.join_checked(alloc, path)
}

/// The Unix path `/a//b` on Windows is `\a\b`.
pub fn slashes_on_windows<A: Allocator + Copy>(
    alloc: A,
    path: Path<'_, Unix>,
) -> Result<PathBuf<Windows, A>, ConvertError>
    ensures { IfOk result (λ made. path_bytes path.entry ≡ codes "/a//b"
        → (path_vec_of made).items ≡ codes "\\a\\b") }
{
    laws::one_list();
    path.with_style::<Windows, A>(alloc)
}

/// A path in a form: the main separator alone separates in it, but in its prefix, unless the path
/// begins oddly.
pub fn separators_of_form<'a, E: PathStyle + 'a, A: Allocator + Copy>(
    alloc: A,
    form: Form,
    path: Path<'a, E>,
) -> Result<PathBuf<E, A>, NormalizeError>
    ensures { IfOk result (λ made. ¬ (BeginsOddly E.follows (path_bytes path.entry))
        → HasMainSeparators E.follows (path_vec_of made).items) }
{
    building::main_separators();
    in_form(alloc, form, path)
}

/// A Windows path in a form has no `/` after its prefix, unless that begins with `\\?\`, or the path
/// begins oddly.
pub fn form_without_slash<A: Allocator + Copy>(
    alloc: A,
    form: Form,
    path: Path<'_, Windows>,
) -> Result<PathBuf<Windows, A>, NormalizeError>
    ensures { IfOk result (λ made. ¬ (BeginsOddly style.Windows (path_bytes path.entry))
        → HasNoSlash (path_vec_of made).items) }
{
    separators_of_form(alloc, form, path)
}

/// A Windows path in a form never begins with `\??\`, which Windows reads as it reads `\\?\`.
pub fn no_object_of_form<A: Allocator + Copy>(
    alloc: A,
    form: Form,
    path: Path<'_, Windows>,
) -> Result<PathBuf<Windows, A>, NormalizeError>
    ensures { IfOk result (λ made. ¬ (BeginsAsObject (path_vec_of made).items)) }
{
    building::no_object_form();
    in_form(alloc, form, path)
}

/// A Unix path on Windows doesn't either.
pub fn no_object_on_windows<A: Allocator + Copy>(
    alloc: A,
    path: Path<'_, Unix>,
) -> Result<PathBuf<Windows, A>, ConvertError>
    ensures { IfOk result (λ made. ¬ (BeginsAsObject (path_vec_of made).items)) }
{
    building::no_object();
    path.with_style::<Windows, A>(alloc)
}

/// `\a\..\??\c:\x` in each form is `\.\??\c:\x`.
pub fn form_of_object<A: Allocator + Copy>(
    alloc: A,
    form: Form,
    path: Path<'_, Windows>,
) -> Result<PathBuf<Windows, A>, NormalizeError>
    ensures { IfOk result (λ made. path_bytes path.entry ≡ codes "\\a\\..\\??\\c:\\x"
        → (path_vec_of made).items ≡ codes "\\.\\??\\c:\\x") }
{
    formed(alloc, form, path)
}

/// The main separator alone separates in a path below a base.
pub fn separators_below<'a, E: PathStyle + 'a, A: Allocator + Copy>(
    alloc: A,
    base: Path<'a, E>,
    path: Path<'a, E>,
) -> Result<PathBuf<E, A>, JoinError>
    ensures { IfOk result (λ joined. HasMainSeparators E.follows (path_vec_of joined).items) }
{
    building::main_separators();
    base.join_checked(alloc, path)
}

/// The main separator alone separates in a path that is converted to another style.
pub fn separators_on<'a, E: PathStyle + 'a, F: PathStyle, A: Allocator + Copy>(
    alloc: A,
    path: Path<'a, E>,
) -> Result<PathBuf<F, A>, ConvertError>
    ensures { IfOk result (λ made. E.follows ≢ F.follows
        → HasMainSeparators F.follows (path_vec_of made).items) }
{
    building::main_separators();
    path.with_style::<F, A>(alloc)
}

/// The main separator alone separates in the relative path to a path that isn't verbatim, unless
/// the path is absolute and the base isn't.
pub fn separators_of_way<'a, E: PathStyle + 'a, A: Allocator + Copy>(
    alloc: A,
    path: Path<'a, E>,
    base: Path<'a, E>,
) -> Result<Option<PathBuf<E, A>>, AllocError>
    ensures { IfOk result (λ way. ¬ (IsVerbatimPath E.follows (path_bytes path.entry))
        → (IsAbsolute E.follows (path_bytes path.entry)
        → IsAbsolute E.follows (path_bytes base.entry))
        → IfSome way (λ way. HasMainSeparators E.follows (path_vec_of way).items)) }
{
    building::main_separators();
    path.relative_from(alloc, base)
}
