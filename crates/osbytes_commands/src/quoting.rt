//! The commands `quote` and `unquote`: the bytes of a string to its escape, and back.
ghost use Rattle.std.specs.Prelude.{IfOk, IfErr};
ghost use Rattle.osbytes_commands.specs.Output.{IsOutputOn, IsFaultOn, RejectsNoString};
ghost use Rattle.osbytes_commands.specs.declared.command.Command.TheVariants.{Quote, Unquote};

use crate::fault::Fault;
use crate::string::string;
use crate::target::Target;
use os_quote::{QuoteError, escape, unescape};
use os_str_bytes::{Platform, Wasm};
use std::alloc::Allocator;

/// The escape of a string, or the first fault of its bytes.
///
/// A fault is found before any memory is allocated. Of 66 6F 80 FF 6F (hexadecimal) on Unix the
/// escape is `fo\x80\xFFo`.
pub fn quote<E: Target, A: Allocator>(alloc: A, input: &[u8]) -> Result<Vec<u8, A>, Fault>
    ensures output { IfOk result (λ output. IsOutputOn ⟦<E as Platform>⟧ (Quote E.os) input.now
        output.items) }
    ensures fault { IfErr result (λ fault. IsFaultOn ⟦<E as Platform>⟧ (Quote E.os) input.now
        fault) }
    ensures rejected { RejectsNoString ⟦<E as Platform>⟧ input.now result }
{
    let string = string::<E>(input)?;
    Ok(escape(alloc, string)?.into_bytes())
}

/// Returns the bytes of the string with this escape. The error is the first fault of invalid UTF-8,
/// or the reason why the text isn't the escape of a string.
///
/// Of `fo\x80\xFFo` on Unix it is 66 6F 80 FF 6F (hexadecimal), of `a\q` [`Fault::BadQuote`]
/// with the index 1.
pub fn unquote<E: Target, A: Allocator>(alloc: A, input: &[u8]) -> Result<Vec<u8, A>, Fault>
    ensures output { IfOk result (λ output. IsOutputOn ⟦<E as Platform>⟧ (Unquote E.os) input.now
        output.items) }
    ensures fault { IfErr result (λ fault. IsFaultOn ⟦<E as Platform>⟧ (Unquote E.os) input.now
        fault) }
{
    Wasm::check(input)?;
    let text = unsafe { str::from_utf8_unchecked(input) };
    match unescape::<E, A>(alloc, text) {
        Ok(string) => Ok(string.into_encoded_bytes()),
        Err(QuoteError::BadEscape(index)) => Err(Fault::BadQuote(QuoteError::BadEscape(index))),
        Err(QuoteError::NotCanonical) => Err(Fault::BadQuote(QuoteError::NotCanonical)),
        Err(QuoteError::Memory) => Err(Fault::Memory),
    }
}
