//! Cells by their text.

ghost use Rattle.std.specs.Prelude.{◌≡◌};
ghost use Rattle.std.specs.String.{string_bytes};
ghost use Rattle.tabled_grid.specs.Grid.{map_grid};
ghost use Rattle.tabled_select.specs.Algebra.{cells_of};
ghost use Rattle.tabled_select.specs.Locators.{places_with};

use crate::location::Location;
use crate::location::search::{Cells, Places, search_text};
use crate::object::Object;
use std::alloc::{AllocError, Global};
use std::marker::Model;
use std::vec;
use tabled_grid::config::{Entity, Position};
use tabled_grid::records::{CellText, ExactRecords, PeekableRecords, Records};

/// The cells with a text, row by row. A contract sees them as the text.
///
/// Ported from `tabled::settings::location::ByContent`.
#[derive(Clone, Drop)]
pub struct ByContent {
    text: String,
}

impl Model for ByContent {
    ghost use Rattle.std.specs.Prelude.{ℕ, List};
    ghost use Rattle.std.specs.String.{string_bytes};

    ghost Value = { List ℕ };

    ghost view = { λ a. string_bytes a.text };
}

impl ByContent {
    ghost use Rattle.std.specs.Prelude.{◌≡◌};
    ghost use Rattle.std.specs.String.{string_bytes};

    /// The cells with a text.
    ///
    /// Ported from `tabled::settings::location::ByContent::new`.
    pub fn new(text: String) -> Self
        ensures { result ≡ string_bytes text }
    {
        ByContent { text }
    }
}

impl<R> Location<R> for ByContent
where
    R: Records + ExactRecords + PeekableRecords,
    R::Cell: CellText,
{
    type Coordinate = Position;

    type IntoIter = Vec<Position>;

    ghost locates = { λ text g found. found ≡ places_with text (map_grid R.Cell.text_of g) };

    fn locate(&mut self, alloc: Global, records: &R) -> Result<Vec<Position>, AllocError> {
        search_text::<Places, R>(alloc, records, Entity::Global, self.text.as_str())
    }
}

impl<R> Object<R> for ByContent
where
    R: Records + ExactRecords + PeekableRecords,
    R::Cell: CellText,
{
    type Iter = vec::IntoIter<Entity>;

    ghost lists = { λ text g entities. entities ≡ cells_of (places_with text (map_grid R.Cell.text_of g)) };

    fn cells(&self, alloc: Global, records: &R) -> Result<vec::IntoIter<Entity>, AllocError> {
        Ok(search_text::<Cells, R>(alloc, records, Entity::Global, self.text.as_str())?.into_iter())
    }
}
