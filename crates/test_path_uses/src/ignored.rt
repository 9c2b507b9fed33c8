//! Ignore files: what is below a directory that is ignored, and which file decides.
ghost use Rattle.std.specs.Prelude.{◌≡◌, ◌≢◌, ◌<◌, ◌∷◌, [], length, slice_index, Bool, Option, true, false, ℕ, List, None, Some, IsTrue, IfOk, IfSome};
ghost use Rattle.os_ignore.specs.declared.file.File.{File};
ghost use Rattle.os_ignore.specs.declared.line.Line.{Line};
ghost use Rattle.os_ignore.specs.declared.reason.NoPattern.{NoPattern};
ghost use Rattle.os_ignore.specs.declared.verdict.Verdict.{Verdict};
ghost use Rattle.os_ignore.specs.declared.verdict.Verdict.TheVariants.{Neither};
ghost use Rattle.os_ignore.specs.Components.{IsPlain, IsLastComponent};
ghost use Rattle.os_ignore.specs.declared.reason.NoPattern.TheVariants.{Comment};
ghost use Rattle.os_ignore.specs.Files.{HasReason, IsTextAt, NoTextAt};
ghost use Rattle.os_ignore.specs.Ignores.{HasNoText, HasText, IsBlanked, IsFileAt, files_of};
ghost use Rattle.os_ignore.specs.Letters.{escaped};
ghost use Rattle.os_ignore.specs.Lines.{IsLine, SaysNothing};
ghost use Rattle.os_ignore.specs.Matching.{LineMatches};
ghost use Rattle.os_ignore.specs.Verdicts.{IsVerdict, is_ignored};
ghost use Rattle.os_ignore.specs.Walks.{files_of_walk};

use os_ignore::{Ignore, IgnoreOptions, NoPattern, Verdict, Walk, laws, no_pattern};
use std::alloc::{AllocError, Allocator};

/// The verdict of one file of a tree on a path: that of its lines, as they are written.
pub fn matched_by_text<A: Allocator + Copy>(
    alloc: A,
    content: &[u8],
    path: &[u8],
    is_dir: bool,
) -> Result<Verdict, AllocError>
    ensures { IfOk result (λ said. (file : File A) × (IsFileAt false 0 [] content.now file
        × IsVerdict (file ∷ []) path.now is_dir said)) }
{
    let ignore = Ignore::new(alloc, content)?;
    Ok(ignore.matched(path, is_dir))
}

/// The verdict of one file of a tree on a path: that of its lines, without regard to case.
pub fn matched_without_case<A: Allocator + Copy>(
    alloc: A,
    content: &[u8],
    path: &[u8],
    is_dir: bool,
) -> Result<Verdict, AllocError>
    ensures { IfOk result (λ said. (file : File A) × (IsFileAt true 0 [] content.now file
        × IsVerdict (file ∷ []) path.now is_dir said)) }
{
    let options = IgnoreOptions {
        case_insensitive: true,
    };
    let mut ignore = Ignore::empty(alloc);
    ignore.add_with(alloc, options, b"", content)?;
    Ok(ignore.matched(path, is_dir))
}

/// The verdict of files on a path, which is the only one.
pub fn one_verdict<A: Allocator + Copy>(ignore: &Ignore<A>, path: &[u8], is_dir: bool) -> Verdict
    ensures { (said : Verdict) → IsVerdict (files_of ignore.now) path.now is_dir said
        → result ≡ said }
{
    laws::one_verdict::<A>();
    ignore.matched(path, is_dir)
}

/// The verdicts of files on the directory above a path that ends at this slash, and on the path.
/// They are equal if the directory is ignored.
pub fn above_and_below<A: Allocator + Copy>(
    ignore: &Ignore<A>,
    path: &[u8],
    slash: usize,
    is_dir: bool,
) -> (Verdict, Verdict)
    requires within { slash < length path.now }
    requires is_slash { slice_index path.now slash ≡ 47 }
    ensures { is_ignored result.0 ≡ true → result.0 ≡ result.1 }
{
    laws::one_verdict::<A>();
    (
        ignore.matched(&path[..slash], true),
        ignore.matched(path, is_dir),
    )
}

/// Whether it is the one file of a tree that decides a path, if a line does: always.
pub fn is_decided_by_first<A: Allocator + Copy>(
    alloc: A,
    content: &[u8],
    path: &[u8],
    is_dir: bool,
) -> Result<bool, AllocError>
    ensures { IfOk result (λ first. IsTrue first) }
{
    let ignore = Ignore::new(alloc, content)?;
    Ok(match ignore.matched(path, is_dir) {
        Verdict::Neither => true,
        Verdict::Ignored { file, line: _ } => file == 0,
        Verdict::TakenIn { file, line: _ } => file == 0,
    })
}

/// The verdicts of files on a path before and after a file that couldn't be added: they are equal.
pub fn before_and_after<A: Allocator + Copy>(
    alloc: A,
    ignore: &mut Ignore<A>,
    content: &[u8],
    path: &[u8],
    is_dir: bool,
) -> Option<(Verdict, Verdict)>
    ensures { IfSome result (λ said. said.0 ≡ said.1) }
{
    laws::one_verdict::<A>();
    let before = ignore.matched(path, is_dir);
    match ignore.add(alloc, b"a", content) {
        Ok(()) => None,
        Err(AllocError) => Some((before, ignore.matched(path, is_dir))),
    }
}

/// Whether no files decide no path: always.
pub fn is_undecided<A: Allocator + Copy>(alloc: A, path: &[u8], is_dir: bool) -> bool
    ensures { IsTrue result }
{
    laws::one_verdict::<A>();
    Ignore::empty(alloc).matched(path, is_dir) == Verdict::Neither
}

/// The verdict of a walk on a path, and that of the files without a walk: they are equal.
pub fn walked<A: Allocator + Copy>(
    ignore: &Ignore<A>,
    walk: &mut Walk<'_, A>,
    path: &[u8],
    is_dir: bool,
) -> Result<(Verdict, Verdict), AllocError>
    requires { files_of_walk walk.old ≡ files_of ignore.now }
    ensures { IfOk result (λ said. said.0 ≡ said.1) }
{
    laws::walked_verdict::<A>();
    let walked = walk.matched(path, is_dir)?;
    Ok((walked, ignore.matched(path, is_dir)))
}

/// The verdicts of two files of one text on a path: they are equal.
pub fn read_twice<A: Allocator + Copy>(
    alloc: A,
    content: &[u8],
    path: &[u8],
    is_dir: bool,
) -> Result<(Verdict, Verdict), AllocError>
    ensures { IfOk result (λ said. said.0 ≡ said.1) }
{
    laws::by_text::<A>();
    let first = Ignore::new(alloc, content)?;
    let second = Ignore::new(alloc, content)?;
    Ok((first.matched(path, is_dir), second.matched(path, is_dir)))
}

/// The verdicts of a file on a path, and of the file that has an empty line in place of one that
/// says nothing: they are equal.
pub fn without_a_silent_line<A: Allocator + Copy>(
    alloc: A,
    content: &[u8],
    other: &[u8],
    path: &[u8],
    is_dir: bool,
) -> Result<(Verdict, Verdict), AllocError>
    requires { IsBlanked false A content.now other.now }
    ensures { IfOk result (λ said. said.0 ≡ said.1) }
{
    laws::silent_line::<A>();
    let first = Ignore::new(alloc, content)?;
    let second = Ignore::new(alloc, other)?;
    Ok((first.matched(path, is_dir), second.matched(path, is_dir)))
}

/// The line of an escaped name matches the paths that end with it, and no other; with a `!` before it
/// it takes them in again.
pub fn escaped_name<A: Allocator>()
    ensures { (name : List ℕ) → (line : Line A) → (again : Line A) → 0 < length name
        → IsPlain 0x2F name → IsLine false (escaped name) line
        → IsLine false (0x21 ∷ escaped name) again
        → (again.takes_in ≡ true) × ((path : List ℕ) → (is_dir : Bool)
        → IsLastComponent path name → LineMatches again path is_dir) }
{
    laws::escaped_alone::<A>();
    laws::taken_in_again::<A>();
}

/// Two lines of one text both match a path, or neither does; and their text says something. It is so
/// with regard to case and without.
pub fn lines_of_a_text<A: Allocator>()
    ensures { (folds : Bool) → (text : List ℕ) → (a : Line A) → (b : Line A)
        → IsLine folds text a → IsLine folds text b
        → ((reason : NoPattern) → SaysNothing folds A text reason → ⊥) × ((path : List ℕ)
        → (is_dir : Bool) → (LineMatches b path is_dir → ⊥) → LineMatches a path is_dir → ⊥) }
{
    laws::one_meaning::<A>();
    laws::never_both::<A>();
}

/// Whether a line is a pattern. If it isn't, it has a reason.
pub fn is_pattern<A: Allocator + Copy>(alloc: A, line: &[u8]) -> Result<bool, AllocError>
    ensures pattern { IfOk result (λ is. is ≡ true → HasReason A line.now None) }
    ensures reason { IfOk result (λ is. is ≡ false → (reason : NoPattern)
        × HasReason A line.now (Some reason)) }
{
    match no_pattern(alloc, line)? {
        Some(_) => Ok(false),
        None => Ok(true),
    }
}

/// Whether a line is a comment. If it isn't, it is a pattern or there is another reason why not.
pub fn is_comment<A: Allocator + Copy>(alloc: A, line: &[u8]) -> Result<bool, AllocError>
    ensures comment { IfOk result (λ is. is ≡ true → HasReason A line.now (Some Comment)) }
    ensures other { IfOk result (λ is. is ≡ false → (reason : Option NoPattern)
        × (HasReason A line.now reason × (reason ≢ Some Comment))) }
{
    match no_pattern(alloc, line)? {
        Some(NoPattern::Comment) => Ok(true),
        _ => Ok(false),
    }
}

/// Why a line is no pattern, twice: for one reason.
pub fn reasons_of<A: Allocator + Copy>(
    alloc: A,
    line: &[u8],
) -> Result<(Option<NoPattern>, Option<NoPattern>), AllocError>
    ensures { IfOk result (λ reasons. reasons.0 ≡ reasons.1) }
{
    laws::one_reason::<A>();
    let first = no_pattern(alloc, line)?;
    let second = no_pattern(alloc, line)?;
    Ok((first, second))
}

/// Whether a line with a text decides a path. If none does, no line decides it.
pub fn has_deciding_text<A: Allocator + Copy>(ignore: &Ignore<A>, path: &[u8], is_dir: bool) -> bool
    ensures { result ≡ false → IsVerdict (files_of ignore.now) path.now is_dir Neither }
{
    laws::known_line::<A>();
    match ignore.matched(path, is_dir) {
        Verdict::Neither => false,
        Verdict::Ignored { file, line } => ignore.line(file, line).is_some(),
        Verdict::TakenIn { file, line } => ignore.line(file, line).is_some(),
    }
}

/// Whether a file of this number has a line of this number.
pub fn has_line_in<A: Allocator + Copy>(ignore: &Ignore<A>, file: usize, line: usize) -> bool
    ensures has { result ≡ true → (text : List ℕ) × HasText (files_of ignore.now) file line text }
    ensures none { result ≡ false → HasNoText (files_of ignore.now) file line }
{
    ignore.line(file, line).is_some()
}

/// Whether the one file of a tree has a line of this number.
pub fn has_line<A: Allocator + Copy>(
    alloc: A,
    content: &[u8],
    line: usize,
) -> Result<bool, AllocError>
    ensures has { IfOk result (λ has. has ≡ true → (text : List ℕ)
        × IsTextAt content.now line text) }
    ensures none { IfOk result (λ has. has ≡ false → NoTextAt content.now line) }
{
    let ignore = Ignore::new(alloc, content)?;
    match ignore.line(0, line) {
        Some(_) => Ok(true),
        None => Ok(false),
    }
}
