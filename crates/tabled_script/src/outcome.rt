//! What comes of a script, and the status that stands for it.

ghost use Rattle.std.specs.Prelude.{◌≡◌};
ghost use Rattle.tabled_script.specs.Outcome.{status_of, status_with_notes};

use crate::json_form::EqualKeys;
use crate::picture::TooNarrow;
use std::alloc::AllocError;
use std::io;
use tabled_language::Fault;

/// The table was written.
pub(crate) const DONE: u8 = 0;

/// A file or a line is faulty, or no picture is as narrow as is asked for, or two keys are equal.
pub(crate) const FAULTY: u8 = 2;

/// Memory ran out.
pub(crate) const OUT_OF_MEMORY: u8 = 3;

/// Reading or writing failed.
pub(crate) const FAILED: u8 = 4;

/// The table was written, and something was told of what was checked.
pub(crate) const NOTED: u8 = 5;

/// What comes of a script: the table that it ends with was written, or why it wasn't.
pub(crate) type Outcome = Result<(), Unwritten>;

/// Why a table wasn't written.
#[derive(Drop)]
pub(crate) enum Unwritten {
    /// The line of a number, counted behind rows, is the first faulty one.
    Faulty(usize, Fault),
    /// No picture of it is as narrow as is asked for.
    TooNarrow(TooNarrow),
    /// Two of its keys as records are equal.
    EqualKeys(EqualKeys),
    /// Memory ran out, and nothing was written.
    OutOfMemory,
    /// A write failed.
    Failed,
}

impl Unwritten {
    pub(crate) fn status(&self) -> u8
        ensures { result ≡ status_of self.now }
    {
        match self {
            Unwritten::Faulty(_, _) | Unwritten::TooNarrow(_) | Unwritten::EqualKeys(_) => FAULTY,
            Unwritten::OutOfMemory => OUT_OF_MEMORY,
            Unwritten::Failed => FAILED,
        }
    }
}

/// The status of an answer, by whether something was told of what was checked.
pub(crate) fn status_with_notes(outcome: &Outcome, has_notes: bool) -> u8
    ensures { result ≡ status_with_notes outcome.now has_notes }
{
    match outcome {
        Ok(()) if has_notes => NOTED,
        Ok(()) => DONE,
        Err(why) => why.status(),
    }
}

impl From<AllocError> for Unwritten {
    ghost use Rattle.std.specs.Prelude.{◌≡◌};
    ghost use Rattle.tabled_script.specs.declared.outcome.Unwritten.TheVariants.{OutOfMemory};

    ghost from_gives = { λ _ e. e ≡ OutOfMemory };

    fn from(_refused: AllocError) -> Unwritten {
        Unwritten::OutOfMemory
    }
}

impl From<io::Error> for Unwritten {
    ghost use Rattle.std.specs.Prelude.{◌≡◌};
    ghost use Rattle.tabled_script.specs.declared.outcome.Unwritten.TheVariants.{Failed};

    ghost from_gives = { λ _ e. e ≡ Failed };

    fn from(_failed: io::Error) -> Unwritten {
        Unwritten::Failed
    }
}
