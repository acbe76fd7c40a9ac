//! A text that is written piece by piece, and says at its end whether memory was refused.
//!
//! Loops that write it go on to their end, so nothing has to be let go in their midst.

use std::alloc::{AllocError, Global};

/// A text so far, unless memory was refused.
#[derive(Drop)]
pub struct Spelling {
    text: String,
    refused: bool,
}

impl Spelling {
    pub fn new(alloc: Global) -> Self {
        Spelling {
            text: String::new(alloc),
            refused: false,
        }
    }

    pub fn push(&mut self, text: &str) {
        if self.text.push_str(text).is_err() {
            self.refused = true;
        }
    }

    /// Writes a text in brackets.
    pub fn push_cell(&mut self, text: &str) {
        self.push("[");
        self.push(text);
        self.push("]");
    }

    pub fn end(self) -> Result<String, AllocError> {
        if self.refused {
            return Err(AllocError);
        }
        Ok(self.text)
    }
}
