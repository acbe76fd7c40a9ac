//! Words that are told, up to so many bytes.

use crate::message::push_quoted;
use std::alloc::{AllocError, Global};
use tabled_grid::records::CellText;

/// How many bytes of words are told.
const TOLD: usize = 400;

/// Words that are told, up to so many bytes.
#[derive(Drop)]
pub(crate) struct ToldWords {
    pub(crate) words: Vec<String>,
    /// How many more bytes are told.
    left: usize,
    is_cut: bool,
}

impl ToldWords {
    pub(crate) fn new(alloc: Global) -> Self {
        ToldWords {
            words: Vec::new(alloc),
            left: TOLD,
            is_cut: false,
        }
    }

    /// As many texts of a row as are told.
    pub(crate) fn of_texts<T: CellText>(alloc: Global, row: &[T]) -> Result<Self, AllocError> {
        let mut told = ToldWords::new(alloc);
        for text in row {
            told.push(alloc, text.text().as_bytes())?;
        }
        Ok(told)
    }

    /// Adds a word, or its beginning, while there is room for it.
    pub(crate) fn push(&mut self, alloc: Global, word: &[u8]) -> Result<(), AllocError> {
        if self.left == 0 {
            self.is_cut = true;
            return Ok(());
        }
        let end = word.len().min(self.left);
        self.words
            .push(String::from_utf8_lossy(alloc, &word[..end])?)?;
        // Each word has a byte between it and the next one.
        self.left = (self.left - end).saturating_sub(1);
        self.is_cut = end < word.len();
        Ok(())
    }

    /// Adds the words in quotes to what is told, and whether there are more.
    pub(crate) fn push_to(&self, told: &mut String) -> Result<(), AllocError> {
        for word in &self.words {
            told.push(' ')?;
            push_quoted(told, word.as_str())?;
        }
        if self.is_cut {
            told.push_str(" ..")?;
        }
        Ok(())
    }
}
