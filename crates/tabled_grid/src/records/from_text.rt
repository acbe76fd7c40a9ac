//! Cells that can be made of a text.

ghost use Rattle.std.specs.Prelude.{◌≡◌, IfOk};
ghost use Rattle.std.specs.String.{string_bytes};

use crate::records::cell_text::CellText;
use std::alloc::{AllocError, Global};

/// A cell that can be made of a text. Both stores here write texts to such cells.
///
/// Of this project.
pub trait FromText: CellText {
    /// A cell of a text, which it may keep.
    fn from_string(alloc: Global, text: String) -> Result<Self, AllocError>
        ensures { IfOk result (λ cell. Self.text_of cell ≡ string_bytes text) };

    /// A cell of a text that is lent, of which it keeps a copy.
    fn from_text(alloc: Global, text: &str) -> Result<Self, AllocError>
        ensures { IfOk result (λ cell. Self.text_of cell ≡ text.now) }
    {
        Self::from_string(alloc, String::from_str(alloc, text)?)
    }
}
