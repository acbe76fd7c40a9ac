//! Rows of texts, in vectors or in a store.

ghost use Rattle.std.specs.Prelude.{◌≡◌, ◌<◌, ℕ, List, Some, length, slice_get};
ghost use Rattle.tabled_texts.specs.Texts.{cells_by, row_at, rows_by};

use tabled_grid::config::Position;
use tabled_grid::records::{CellText, ExactRecords, PeekableRecords, Records};

/// Rows of texts, which may differ in length.
///
/// Of this project.
pub trait Rows {
    /// The texts.
    ghost texts: { Self → List (List (List ℕ)) };

    /// Its calls may be made.
    ghost is_well: { Self → Type 0 };

    /// The number of rows.
    fn count(&self) -> usize
        requires { Self.is_well self.now }
        ensures { result ≡ length (Self.texts self.now) };

    /// How many texts a row has.
    fn width(&self, i: usize) -> usize
        requires well { Self.is_well self.now }
        requires row { i < length (Self.texts self.now) }
        ensures { result ≡ length (row_at (Self.texts self.now) i) };

    /// The text at a place.
    fn text(&self, i: usize, j: usize) -> &str
        requires well { Self.is_well self.now }
        requires row { i < length (Self.texts self.now) }
        requires column { j < length (row_at (Self.texts self.now) i) }
        ensures { slice_get (row_at (Self.texts self.now) i) j ≡ Some result.now };
}

impl<'a, T: CellText> Rows for &'a [Vec<T>] {
    ghost texts = { λ rows. rows_by T.text_of rows.now };

    ghost is_well = { λ _. Unit {0} };

    fn count(&self) -> usize {
        self.len()
    }

    fn width(&self, i: usize) -> usize {
        self[i].len()
    }

    fn text(&self, i: usize, j: usize) -> &str {
        self[i][j].text()
    }
}

/// The rows of a store (`r x c`): `r` rows of `c` texts.
///
/// Of this project.
#[derive(Drop)]
pub struct Stored<'a, R> {
    pub records: &'a R,
}

impl<'a, R> Rows for Stored<'a, R>
where
    R: Records + ExactRecords + PeekableRecords,
    R::Cell: CellText,
{
    ghost texts = { λ stored. cells_by R.Cell.text_of (R.grid stored.records.now) };

    ghost is_well = { λ stored. R.is_well_formed stored.records.now };

    fn count(&self) -> usize {
        self.records.count_rows()
    }

    fn width(&self, _i: usize) -> usize {
        self.records.count_columns()
    }

    fn text(&self, i: usize, j: usize) -> &str {
        self.records.get_text(Position { row: i, col: j })
    }
}
