//! Runs: a character again and again.

ghost use Rattle.std.specs.Prelude.{◌≡◌, IfOk};
ghost use Rattle.tabled_held.specs.Runs.{run_of};

use std::alloc::{AllocError, Global};

/// How often a run has its character.
pub(crate) const RUN: usize = 64;

/// A run: the bytes of a character, 64 times, from which many of it are drawn at once.
///
/// Of this project.
pub fn run_of(alloc: Global, c: char) -> Result<Vec<u8>, AllocError>
    ensures { IfOk result (λ run. run.items ≡ run_of c) }
{
    let mut bytes = [0; 4];
    let bytes = c.encode_utf8(&mut bytes).as_bytes();
    let mut run = Vec::new(alloc);
    for _ in 0..RUN {
        run.extend_from_slice(bytes)?;
    }
    Ok(run)
}
