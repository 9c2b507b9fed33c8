//! How a program ends: with an outcome, a message and a status.
ghost use Rattle.std.specs.Prelude.{◌≡◌, [], ℕ, List, true, Some, IfErr, OnOk};
ghost use Rattle.std.specs.Io.KnownBytes.{Appends};
ghost use Rattle.program_frame.specs.Ended.{message, outcome_of, was_reported};
ghost use Rattle.program_frame.specs.Written.{AppendsBeginning};

use crate::reporting::report;
use std::fmt::Display;
use std::io::Write;
use std::process::{ExitCode, Termination};

/// Why a program fails. Its text is what `Display` writes, and its message is the program's name,
/// `: `, that text and a newline. A fault whose text is empty has no message.
pub trait ProgramFault: Display + Copy {
    ghost text_of: { Self → List ℕ };

    ghost status_of: { Self → ℕ };

    /// The status that the program ends with.
    ///
    /// ```
    /// use program_frame::ended::ProgramFault;
    /// use program_frame::fault::Failure;
    ///
    /// assert_eq!(rt; Failure::Memory.status(), 3);
    /// ```
    fn status(&self) -> u8
        ensures { result ≡ status_of self.now };

    ghost printed: { (fault : Self) → Self.output fault ≡ Some (text_of fault) };
}

/// How a program ended: the outcome of its run, and whether its message was written in full.
#[derive(Drop)]
pub struct Ended<F> {
    outcome: Result<(), F>,
    reported: bool,
}

impl<F: ProgramFault> Ended<F> {
    /// The end of a run of the program of this name with this outcome. A fault's message goes to
    /// `errors`, or a beginning of it where not all of it is taken. It doesn't allocate.
    ///
    /// ```
    /// use program_frame::ended::Ended;
    /// use program_frame::fault::Failure;
    ///
    /// let mut errors: Vec<u8> = Vec::new(alloc);
    /// let ended = Ended::reporting("cat", Err(Failure::Read), &mut errors);
    /// assert!(rt; ended.reported());
    /// assert_eq!(rt; errors.as_slice(), b"cat: read failed\n".as_slice());
    /// ```
    pub fn reporting<E: Write>(program: &str, outcome: Result<(), F>, errors: &mut E) -> Ended<F>
        ensures outcome { outcome_of result ≡ outcome }
        ensures quiet { OnOk outcome (errors.new ≡ errors.old) }
        ensures silent { IfErr outcome (λ fault. F.text_of fault ≡ []
            → errors.new ≡ errors.old) }
        ensures reported { was_reported result ≡ true → IfErr outcome (λ fault.
            Appends (E.contents errors.old) (E.contents errors.new)
            (message program.now (F.text_of fault))) }
        ensures beginning { IfErr outcome (λ fault.
            AppendsBeginning (E.contents errors.old) (E.contents errors.new)
            (message program.now (F.text_of fault))) }
    {
        let reported = match &outcome {
            Ok(()) => true,
            Err(fault) => report(program, fault, errors),
        };
        Ended { outcome, reported }
    }

    /// Makes the end of a run with this outcome, as [`Ended::reporting`] does. If the reader of the
    /// run's output is gone (`is_closed`), no message is written.
    ///
    /// ```
    /// use program_frame::ended::Ended;
    /// use program_frame::fault::Failure;
    ///
    /// let mut errors: Vec<u8> = Vec::new(alloc);
    /// let ended = Ended::reporting_unless("cat", true, Err(Failure::Write), &mut errors);
    /// assert!(rt; !ended.reported() && ended.outcome() == Err(Failure::Write));
    /// assert!(rt; errors.is_empty());
    /// ```
    pub fn reporting_unless<E: Write>(
        program: &str,
        is_closed: bool,
        outcome: Result<(), F>,
        errors: &mut E,
    ) -> Ended<F>
        ensures outcome { outcome_of result ≡ outcome }
        ensures closed { is_closed ≡ true → errors.new ≡ errors.old }
        ensures quiet { OnOk outcome (errors.new ≡ errors.old) }
        ensures silent { IfErr outcome (λ fault. F.text_of fault ≡ []
            → errors.new ≡ errors.old) }
        ensures reported { was_reported result ≡ true → IfErr outcome (λ fault.
            Appends (E.contents errors.old) (E.contents errors.new)
            (message program.now (F.text_of fault))) }
        ensures beginning { IfErr outcome (λ fault.
            AppendsBeginning (E.contents errors.old) (E.contents errors.new)
            (message program.now (F.text_of fault))) }
    {
        if is_closed {
            return Ended {
                outcome,
                reported: false,
            };
        }
        Ended::reporting(program, outcome, errors)
    }

    /// The outcome of the run.
    ///
    /// ```
    /// use program_frame::ended::Ended;
    /// use program_frame::fault::Failure;
    ///
    /// let ended = Ended::reporting("cat", Err(Failure::Memory), &mut rt.stderr());
    /// assert!(rt; ended.outcome() == Err(Failure::Memory));
    /// ```
    pub fn outcome(&self) -> Result<(), F>
        ensures { result ≡ outcome_of self.now }
    {
        self.outcome
    }

    /// Whether the whole message was taken, where there was one.
    ///
    /// ```
    /// use program_frame::ended::Ended;
    /// use program_frame::fault::Failure;
    ///
    /// let ended = Ended::<Failure>::reporting("cat", Ok(()), &mut rt.stderr());
    /// assert!(rt; ended.reported());
    /// ```
    pub fn reported(&self) -> bool
        ensures { result ≡ was_reported self.now }
    {
        self.reported
    }
}

impl<F: ProgramFault> Termination for Ended<F> {
    ghost use Rattle.std.specs.Process.{exit_status};
    ghost use Rattle.program_frame.specs.Ended.{status_after};

    /// The status: 0, or that of the fault.
    fn report<P: Eprint>(self, _rt: &P) -> ExitCode
        ensures { exit_status result ≡ status_after F.status_of (outcome_of self) }
    {
        match self.outcome {
            Ok(()) => ExitCode::SUCCESS,
            Err(fault) => ExitCode::from(fault.status()),
        }
    }
}
