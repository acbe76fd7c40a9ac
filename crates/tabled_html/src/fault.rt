//! Why a table was not written.

use std::alloc::AllocError;
use std::{fmt, io};

/// Why a table was not written.
///
/// Of this project.
#[derive(Debug, Drop)]
pub enum WriteError {
    /// Memory was refused, and nothing was written.
    OutOfMemory,
    /// The writer failed.
    Failed(io::Error),
}

impl fmt::Display for WriteError {
    fn fmt<W: fmt::Write>(&self, f: &mut fmt::Formatter<W>) -> fmt::Result {
        match self {
            WriteError::OutOfMemory => write!(f, "out of memory"),
            WriteError::Failed(error) => write!(f, "{error}"),
        }
    }
}

impl From<AllocError> for WriteError {
    ghost use Rattle.std.specs.Prelude.{◌≡◌};
    ghost use Rattle.tabled_html.specs.declared.fault.WriteError.TheVariants.{OutOfMemory};

    ghost from_gives = { λ _ e. e ≡ OutOfMemory };

    fn from(_refused: AllocError) -> WriteError {
        WriteError::OutOfMemory
    }
}
