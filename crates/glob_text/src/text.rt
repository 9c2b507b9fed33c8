//! The text of a pattern, compiled.
ghost use Rattle.std.specs.Prelude.{map, IfOk, MatchResult};
ghost use Rattle.glob_text.specs.Marks.{mark_of};
ghost use Rattle.glob_text.specs.Texts.{IsChoiceFault, IsSymbolsFault, IsFault, AreChoicesOf, AreOfSymbols, IsMeaning};

use crate::braces::brace_fault;
use crate::choices::compile_choices;
use crate::fault::{FaultKind, PatternFault};
use crate::fold::cased;
use crate::mark::{Mark, marks};
use crate::symbol::{Symbol, symbols};
use crate::syntax::Syntax;
use std::alloc::{AllocError, Allocator};
use wildcards::{Choice, Letters, Separators};

/// Compiles marks, or returns their fault.
fn compile_marks<A: Allocator + Copy>(
    alloc: A,
    separators: Separators,
    marks: &[Mark<A>],
) -> Result<Result<Vec<Choice<A>, A>, PatternFault>, AllocError>
    ensures { IfOk result (λ read. MatchResult read
        (λ compiled. AreChoicesOf separators (map mark_of marks.now) compiled.items)
        (λ fault. IsChoiceFault (map mark_of marks.now) fault)) }
{
    if let Some(fault) = brace_fault(marks) {
        return Ok(Err(fault));
    }
    let Some(compiled) = compile_choices(alloc, separators, marks)? else {
        return Ok(Err(PatternFault {
            kind: FaultKind::TooManyChoices,
            index: 0,
        }));
    };
    Ok(Ok(compiled))
}

/// Compiles symbols, or returns their first fault.
fn compile_symbols<A: Allocator + Copy>(
    alloc: A,
    syntax: Syntax,
    text: &[Symbol],
) -> Result<Result<Vec<Choice<A>, A>, PatternFault>, AllocError>
    ensures { IfOk result (λ read. MatchResult read
        (λ compiled. AreOfSymbols syntax text.now compiled.items)
        (λ fault. IsSymbolsFault syntax text.now fault)) }
{
    match marks(alloc, syntax, text)? {
        Ok(marks) => compile_marks(
            alloc,
            syntax.separators,
            &cased(alloc, syntax.case_insensitive, marks)?,
        ),
        Err(fault) => Ok(Err(fault)),
    }
}

/// Compiles the text of a pattern, whose bytes are read by `L`, or returns its fault. That is the
/// first fault of a backslash or a class, else that of a brace, else that of its size.
///
/// A pattern is too large if it is written out as more than 1,024 patterns. It is also too large if
/// it is written out as several, and these have more than 65,536 marks together. A mark is a
/// letter, a wildcard or a class.
///
/// If it is written out as more than 16 patterns, `{a,b}` is compiled as `[ab]`. This is so if each alternative
/// is a class, or a letter that is neither a separator nor a dot. Choices are counted as they are written.
///
/// What is written out is counted first, in time and memory in proportion to the text. So
/// compiling takes memory in proportion to the bytes of the text and at most 65,536 marks. On a
/// 64-bit processor it takes at most 7 MiB, and 400 bytes for each byte of the text (measured).
///
/// # Errors
///
/// `AllocError` if an allocation fails.
///
/// ```
/// use glob_text::{FaultKind, Syntax, compile};
/// use wildcards::{Bytes, Options, Separators, matches_choice};
///
/// let separators = Separators::Slash;
/// let syntax =
///     Syntax { separators, escapes: true, class_escapes: false, case_insensitive: false };
/// let options = Options { separators, literal_leading_dot: false };
/// match compile::<Bytes, _>(alloc, syntax, b"**/*.{c,h}")? {
///     Ok(choices) => assert!(rt; matches_choice::<Bytes, _>(options, &choices, b"a/b.h")),
///     Err(_) => assert!(rt; false),
/// }
/// match compile::<Bytes, _>(alloc, syntax, b"a[z-a]")? {
///     Ok(_) => assert!(rt; false),
///     Err(fault) => assert!(rt; fault.kind == FaultKind::ReversedRange && fault.index == 2),
/// }
/// ```
pub fn compile<L: Letters, A: Allocator + Copy>(
    alloc: A,
    syntax: Syntax,
    text: &[u8],
) -> Result<Result<Vec<Choice<A>, A>, PatternFault>, AllocError>
    requires { L.formed text.now }
    ensures { IfOk result (λ read. MatchResult read
        (λ compiled. IsMeaning L.formed L.letters syntax text.now compiled.items)
        (λ fault. IsFault L.formed L.letters syntax text.now fault)) }
{
    let symbols = symbols::<L, A>(alloc, text)?;
    compile_symbols(alloc, syntax, &symbols)
}
