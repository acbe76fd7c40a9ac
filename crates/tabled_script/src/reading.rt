//! A reader, read to its end.

ghost use Rattle.std.specs.Prelude.{◌≡◌, IfOk, IfSome};

use crate::watched::Watched;
use std::alloc::Global;
use std::io::{ErrorKind, Read};

/// Why bytes were not read.
///
/// Of this project.
pub enum Unread {
    /// A read failed.
    Failed(ErrorKind),
    OutOfMemory,
}

/// All bytes that a reader has.
///
/// Of this project.
pub fn read_whole<R: Read>(alloc: Global, reader: &mut R) -> Result<Vec<u8>, Unread>
    ensures { IfOk result (λ whole. IfSome (R.remaining reader.old) (λ input. whole.items ≡ input)) }
{
    let mut whole = Vec::new(alloc);
    let mut watched = Watched {
        reader,
        failure: None,
    };
    match watched.read_to_end(&mut whole) {
        Ok(_) => Ok(whole),
        Err(_) => Err(match watched.failure {
            Some(kind) => Unread::Failed(kind),
            None => Unread::OutOfMemory,
        }),
    }
}
