//! Cells that have a text.

ghost use Rattle.std.specs.Prelude.{◌≡◌, ℕ, List, []};
ghost use Rattle.std.specs.String.{string_bytes};

use crate::records::blank::Blank;

/// A cell that has a text, which is empty in a blank.
pub trait CellText: Blank {
    /// The text of a cell, as its bytes.
    ghost text_of: { Self → List ℕ };

    /// The text of the cell.
    fn text(&self) -> &str
        ensures { result.now ≡ text_of self.now };

    /// A blank has no text.
    ghost blank_is_empty: { (cell : Self) → Self.is_blank cell → text_of cell ≡ [] };
}

impl CellText for String {
    ghost text_of = { λ s. string_bytes s };

    ghost blank_is_empty = { λ s h. h };

    fn text(&self) -> &str {
        self.as_str()
    }
}

impl<'a> CellText for &'a str {
    ghost text_of = { λ s. s.now };

    ghost blank_is_empty = { λ s h. h };

    fn text(&self) -> &str {
        self
    }
}
