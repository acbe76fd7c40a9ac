//! Stores that know their columns.

ghost use Rattle.std.specs.Prelude.{◌≡◌, Some};

use crate::records::grid_store::GridStore;

/// A store that knows its number of columns.
///
/// Ported from `tabled::grid::records::Records`.
pub trait Records: GridStore {
    /// The number of columns.
    ///
    /// Ported from `tabled::grid::records::Records::count_columns`.
    fn count_columns(&self) -> usize
        requires { Self.is_well_formed self.now }
        ensures columns { result ≡ (Self.grid self.now).columns };

    /// The number of rows, which every store knows.
    ///
    /// Ported from `tabled::grid::records::Records::hint_count_rows`.
    fn hint_count_rows(&self) -> Option<usize>
        requires { Self.is_well_formed self.now }
        ensures { result ≡ Some ((Self.grid self.now).rows) };
}
