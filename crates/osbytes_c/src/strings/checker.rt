//! The check of bytes that come in pieces, for Windows.
ghost use Rattle.std.specs.Prelude.{◌≡◌, ◌≢◌, ◌<◌, ◌≤◌, ◌↔◌, ◌++◌, ◌∷◌, ℕ, List, [], MatchOption};
ghost use Rattle.wtf8_core.specs.Wtf8.{IsWtf8};
ghost use Rattle.wtf8_core.specs.Checker.{saved_progress};
ghost use Rattle.wtf8_core.specs.declared.checker.SavedChecker.{SavedChecker};
ghost use Rattle.osbytes_c.specs.Answers.{IsOneOf};
ghost use Rattle.osbytes_c.specs.Faults.{OpenDescribes, saved_open, ReportsFaulty, ReportsFirst, kind_of, value_of};
ghost use Rattle.osbytes_c.specs.Statuses.{done, faulty, no_state};

use crate::status::{DONE, FAULTY, NO_STATE};
use crate::strings::fault::{Fault, kind_of, value_of};
use wtf8_core::{Checker, EncodingError, SavedChecker};

/// What is open after the pieces so far.
#[repr(C)]
#[derive(Clone, Copy)]
pub struct Open {
    /// The number of a checker's state.
    pub state: u32,
    /// The bits that were read of what is open.
    pub bits: u32,
}

/// Starts a check: no bytes are read yet.
#[unsafe(no_mangle)]
pub extern "C" fn osb_core_start(opened: &mut Open)
    ensures describes { OpenDescribes opened.new [] }
    ensures known { opened.new.state < 16 }
{
    *opened = Open { state: 0, bits: 0 };
}

/// Reads one more piece. If the joined bytes have a fault that no later byte changes, the call
/// returns that fault and writes nothing else. A check that found a fault isn't to be fed again.
#[unsafe(no_mangle)]
pub extern "C" fn osb_core_feed(opened: &mut Open, piece: &[u8], fault: &mut Fault) -> u32
    ensures describes { result ≡ done → (fed : List ℕ) → OpenDescribes opened.old fed
        → OpenDescribes opened.new (fed ++ piece.now) }
    ensures fault { result ≡ faulty → (fed : List ℕ) → OpenDescribes opened.old fed
        → ReportsFaulty (fed ++ piece.now) fault.new }
    ensures known { result ≡ done → opened.new.state < 16 }
    ensures kept { result ≢ done → opened.new ≡ opened.old }
    ensures state { (result ≡ no_state) ↔ (16 ≤ opened.old.state) }
    ensures answers { IsOneOf (done ∷ faulty ∷ no_state ∷ []) result }
{
    let Some(mut checker) = restored(*opened) else {
        return NO_STATE;
    };
    let _ = checker.feed(piece);
    let saved = checker.save();
    match saved.fault {
        None => {
            *opened = Open {
                state: u32::from(saved.state),
                bits: saved.bits,
            };
            DONE
        }
        Some(error) => {
            *fault = reported(error);
            FAULTY
        }
    }
}

/// Whether all the bytes that were fed are WTF-8.
#[unsafe(no_mangle)]
pub extern "C" fn osb_core_finish(opened: &Open, fault: &mut Fault) -> u32
    ensures string { result ≡ done → (fed : List ℕ) → OpenDescribes opened.now fed → IsWtf8 fed }
    ensures fault { result ≡ faulty → (fed : List ℕ) → OpenDescribes opened.now fed
        → ReportsFirst fed fault.new }
    ensures state { (result ≡ no_state) ↔ (16 ≤ opened.now.state) }
    ensures answers { IsOneOf (done ∷ faulty ∷ no_state ∷ []) result }
{
    let Some(checker) = restored(*opened) else {
        return NO_STATE;
    };
    match checker.finish() {
        Ok(()) => DONE,
        Err(error) => {
            *fault = reported(error);
            FAULTY
        }
    }
}

/// The checker with what is open.
fn restored(opened: Open) -> Option<Checker>
    ensures checker { MatchOption result (16 ≤ opened.state)
        (λ checker. checker ≡ saved_progress (saved_open opened)) }
    ensures state { MatchOption result (16 ≤ opened.state) (λ checker. opened.state < 16) }
{
    if opened.state >= 16 {
        return None;
    }
    match Checker::restore(SavedChecker {
        state: opened.state as u8,
        bits: opened.bits,
        fault: None,
    }) {
        Some(checker) => Some(checker),
        None => None,
    }
}

/// A fault without its index, which a check in pieces doesn't know.
fn reported(error: EncodingError) -> Fault
    ensures kind { result.kind ≡ kind_of error }
    ensures value { result.value ≡ value_of error }
{
    Fault {
        kind: kind_of(error),
        value: value_of(error),
        index: 0,
        count: 0,
    }
}
