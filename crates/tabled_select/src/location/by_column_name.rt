//! Columns by their text in the first row.

ghost use Rattle.std.specs.Prelude.{◌≡◌};
ghost use Rattle.std.specs.String.{string_bytes};
ghost use Rattle.tabled_grid.specs.Grid.{map_grid};
ghost use Rattle.tabled_select.specs.Selectors.{columns_of};
ghost use Rattle.tabled_select.specs.Locators.{columns_with};

use crate::location::Location;
use crate::location::search::{ColumnIndexes, WholeColumns, search_text};
use crate::object::Object;
use std::alloc::{AllocError, Global};
use std::marker::Model;
use std::vec;
use tabled_grid::config::Entity;
use tabled_grid::records::{CellText, ExactRecords, PeekableRecords, Records};

/// The columns with a text in the first row, from left to right. A contract sees them as the text.
///
/// Ported from `tabled::settings::location::ByColumnName`.
#[derive(Clone, Drop)]
pub struct ByColumnName {
    text: String,
}

impl Model for ByColumnName {
    ghost use Rattle.std.specs.Prelude.{ℕ, List};
    ghost use Rattle.std.specs.String.{string_bytes};

    ghost Value = { List ℕ };

    ghost view = { λ a. string_bytes a.text };
}

impl ByColumnName {
    ghost use Rattle.std.specs.Prelude.{◌≡◌};
    ghost use Rattle.std.specs.String.{string_bytes};

    /// The columns with a text in the first row.
    ///
    /// Ported from `tabled::settings::location::ByColumnName::new`.
    pub fn new(text: String) -> Self
        ensures { result ≡ string_bytes text }
    {
        ByColumnName { text }
    }
}

impl<R> Location<R> for ByColumnName
where
    R: Records + ExactRecords + PeekableRecords,
    R::Cell: CellText,
{
    type Coordinate = usize;

    type IntoIter = Vec<usize>;

    ghost locates = { λ text g found. found ≡ columns_with text (map_grid R.Cell.text_of g) };

    fn locate(&mut self, alloc: Global, records: &R) -> Result<Vec<usize>, AllocError> {
        search_text::<ColumnIndexes, R>(alloc, records, Entity::Row(0), self.text.as_str())
    }
}

impl<R> Object<R> for ByColumnName
where
    R: Records + ExactRecords + PeekableRecords,
    R::Cell: CellText,
{
    type Iter = vec::IntoIter<Entity>;

    ghost lists = { λ text g entities. entities ≡ columns_of (columns_with text (map_grid R.Cell.text_of g)) };

    fn cells(&self, alloc: Global, records: &R) -> Result<vec::IntoIter<Entity>, AllocError> {
        Ok(search_text::<WholeColumns, R>(
            alloc,
            records,
            Entity::Row(0),
            self.text.as_str(),
        )?.into_iter())
    }
}
