//! Why a part of bytes was not read.

use std::alloc::{AllocError, AllocFailed};

/// Why a part of bytes was not read.
///
/// Of this project.
#[derive(Clone, Copy, Debug, PartialEq, Eq)]
pub enum PartError<F> {
    /// It is faulty: what is wrong, and how many bytes are left where it shows.
    Faulty(F, usize),
    /// Memory was refused.
    OutOfMemory,
}

impl<F> From<AllocError> for PartError<F> {
    ghost use Rattle.std.specs.Prelude.{◌≡◌};
    ghost use Rattle.tabled_texts.specs.declared.part_error.PartError.TheVariants.{OutOfMemory};

    ghost from_gives = { λ _ e. e ≡ OutOfMemory };

    fn from(_refused: AllocError) -> PartError<F> {
        PartError::OutOfMemory
    }
}

impl<F, T: Drop> From<AllocFailed<T>> for PartError<F> {
    ghost use Rattle.std.specs.Prelude.{◌≡◌};
    ghost use Rattle.tabled_texts.specs.declared.part_error.PartError.TheVariants.{OutOfMemory};

    ghost from_gives = { λ _ e. e ≡ OutOfMemory };

    fn from(_refused: AllocFailed<T>) -> PartError<F> {
        PartError::OutOfMemory
    }
}
