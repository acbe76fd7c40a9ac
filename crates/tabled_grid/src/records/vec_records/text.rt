//! A cell that is a text.

ghost use Rattle.std.specs.Prelude.{◌≡◌};

use crate::records::blank::Blank;
use crate::records::cell_text::CellText;
use crate::records::from_text::FromText;
use std::alloc::{AllocError, Global};
use std::marker::Model;

/// A cell that holds its text alone. A contract sees it as that text.
///
/// Ported from `tabled::grid::records::vec_records::Text`.
#[derive(Drop)]
pub struct Text<S> {
    text: S,
}

impl<S> Model for Text<S> {
    ghost Value = { S };

    ghost view = { λ a. a.text };

    ghost inverse = { λ text. record { text = text } };
}

impl<S> Text<S> {
    /// A cell of a text.
    ///
    /// Ported from `tabled::grid::records::vec_records::Text::new`.
    pub fn new(text: S) -> Self
        ensures { result ≡ text }
    {
        Text { text }
    }

    /// The text, taken out of its cell.
    ///
    /// Ported from `tabled::grid::records::vec_records::Text::into_inner`.
    pub fn into_inner(self) -> S
        ensures { result ≡ self }
    {
        let Text { text } = self;
        text
    }
}

impl<S: CellText> Text<S> {
    /// The text.
    pub fn as_str(&self) -> &str
        ensures { result.now ≡ S.text_of self.now }
    {
        self.text()
    }
}

impl<S: Blank> Blank for Text<S> {
    ghost is_blank = { S.is_blank };

    fn blank(alloc: Global) -> Self {
        Text {
            text: S::blank(alloc),
        }
    }
}

impl<S: CellText> CellText for Text<S> {
    ghost text_of = { S.text_of };

    ghost blank_is_empty = { S.blank_is_empty };

    fn text(&self) -> &str {
        self.text.text()
    }
}

impl FromText for Text<String> {
    fn from_string(_alloc: Global, text: String) -> Result<Self, AllocError> {
        Ok(Text { text })
    }
}
