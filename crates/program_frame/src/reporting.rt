//! The message of a fault.
ghost use Rattle.std.specs.Prelude.{◌≡◌, [], true, None, IfSome};
ghost use Rattle.std.specs.Fmt.InlineText.{inline_text};
ghost use Rattle.std.specs.Io.KnownBytes.{Appends};
ghost use Rattle.program_frame.specs.Ended.{message};
ghost use Rattle.program_frame.specs.Written.{AppendsBeginning};

use crate::ended::ProgramFault;
use std::fmt::{InlineText, Write as _};
use std::io::Write;

/// How many bytes a message may have: 400 for what is wrong with the arguments, and room for what
/// a program writes around it.
const ROOM: usize = 512;

/// Writes the message of a fault, and returns whether all of it was taken. Otherwise a beginning of
/// it was. A fault without a text has no message. It doesn't allocate.
pub(crate) fn report<F: ProgramFault, E: Write>(program: &str, fault: &F, errors: &mut E) -> bool
    ensures reported { result ≡ true → Appends (E.contents errors.old) (E.contents errors.new)
        (message program.now (F.text_of fault.now)) }
    ensures beginning { AppendsBeginning (E.contents errors.old) (E.contents errors.new)
        (message program.now (F.text_of fault.now)) }
    ensures silent { F.text_of fault.now ≡ [] → errors.new ≡ errors.old }
{
    match message(program, fault) {
        Some(text) => write_text(text.as_str().as_bytes(), errors),
        None => false,
    }
}

/// Writes a text, and returns whether all of it was taken. Otherwise a beginning of it was. It
/// doesn't allocate.
///
/// ```
/// use program_frame::reporting::write_text;
///
/// let mut taken: Vec<u8> = Vec::new(alloc);
/// assert!(rt; write_text(b"ab", &mut taken));
/// assert_eq!(rt; taken.as_slice(), b"ab".as_slice());
/// ```
#[tactic(auto, using(crate::proofs::lemmas::Pieces::pieces))]
pub fn write_text<E: Write>(text: &[u8], errors: &mut E) -> bool
    ensures reported { result ≡ true → Appends (E.contents errors.old) (E.contents errors.new)
        text.now }
    ensures beginning { AppendsBeginning (E.contents errors.old) (E.contents errors.new) text.now }
{
    let mut written = 0;
    while written < text.len() {
        match errors.write(&text[written..]) {
            Ok(0) | Err(_) => return false,
            Ok(count) => written += count,
        }
    }
    true
}

/// The program's name, `: `, the fault's text and a newline, where there is room for them and the
/// fault has a text.
fn message<F: ProgramFault>(program: &str, fault: &F) -> Option<InlineText<ROOM>>
    ensures message { IfSome result (λ text.
        inline_text text ≡ message program.now (F.text_of fault.now)) }
    ensures silent { F.text_of fault.now ≡ [] → result ≡ None }
{
    let mut text = InlineText::new();
    let Ok(()) = writeln!(text, "{program}: {fault}") else {
        return None;
    };
    let around = program.len() + ": \n".len();
    if text.as_str().len() > around {
        Some(text)
    } else {
        None
    }
}
