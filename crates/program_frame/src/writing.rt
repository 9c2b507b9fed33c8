//! Output, written whole.
ghost use Rattle.std.specs.Prelude.{◌≡◌, true, false, IfErr, OnOk, OnErr};
ghost use Rattle.std.specs.Io.KnownBytes.{Appends};
ghost use Rattle.program_frame.specs.Marked.{marked_inner, has_failed};
ghost use Rattle.program_frame.specs.Written.{AppendsBeginning};

use crate::fault::Failure;
use crate::marked::Marked;
use std::io::Write;

/// Writes all of the output, and flushes. The mark must be unset (test: [`Marked::failed`]). It has
/// a loop of its own, since `reporting::write_text` writes to any writer and states nothing of a mark.
///
/// # Errors
///
/// [`Failure::Write`] where a write failed or took nothing, or the flush failed. A beginning of the
/// output was written then.
///
/// ```
/// use program_frame::marked::Marked;
/// use program_frame::writing::write_out;
///
/// let mut taken = Vec::new(alloc);
/// let mut writer = Marked::new(&mut taken);
/// assert!(rt; write_out(&mut writer, b"ab") == Ok(()));
/// assert_eq!(rt; taken.as_slice(), b"ab".as_slice());
/// ```
#[tactic(auto, using(crate::proofs::lemmas::Pieces::pieces))]
pub fn write_out<W: Write>(writer: &mut Marked<W>, output: &[u8]) -> Result<(), Failure>
    requires { has_failed writer.old ≡ false }
    ensures written { OnOk result (Appends (W.contents (marked_inner writer.old))
        (W.contents (marked_inner writer.new)) output.now) }
    ensures unmarked { OnOk result (has_failed writer.new ≡ false) }
    ensures fault { IfErr result (λ failure. failure ≡ Failure.Write) }
    ensures marked { OnErr result (has_failed writer.new ≡ true) }
    ensures beginning { OnErr result (AppendsBeginning (W.contents (marked_inner writer.old))
        (W.contents (marked_inner writer.new)) output.now) }
{
    let mut written = 0;
    while written < output.len() {
        match writer.write(&output[written..]) {
            Ok(0) | Err(_) => return Err(Failure::Write),
            Ok(count) => written += count,
        }
    }
    match writer.flush() {
        Ok(()) => Ok(()),
        Err(_) => Err(Failure::Write),
    }
}
