//! What is told beside a table that is written.

use std::alloc::AllocError;
use std::io::Write;

/// Where notes are told, and whether one was.
#[derive(Drop)]
pub(crate) struct Notes<'e, E> {
    pub(crate) errors: &'e mut E,
    pub(crate) has_notes: bool,
}

impl<'e, E: Write> Notes<'e, E> {
    pub(crate) fn new(errors: &'e mut E) -> Self {
        Notes {
            errors,
            has_notes: false,
        }
    }

    /// Tells a note. Where there was no memory for it, or it can't be written, it is one that was told.
    pub(crate) fn tell(&mut self, note: Result<String, AllocError>) {
        self.has_notes = true;
        if let Ok(lines) = note {
            // The status says it, too.
            let _ = self.errors.write_all(lines.as_bytes());
        }
    }
}
