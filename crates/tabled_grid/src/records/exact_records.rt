//! Stores that know their rows.

ghost use Rattle.std.specs.Prelude.{◌≡◌};

use crate::records::grid_store::GridStore;

/// A store that knows its number of rows.
///
/// Ported from `tabled::grid::records::ExactRecords`.
pub trait ExactRecords: GridStore {
    /// The number of rows.
    ///
    /// Ported from `tabled::grid::records::ExactRecords::count_rows`.
    fn count_rows(&self) -> usize
        requires { Self.is_well_formed self.now }
        ensures rows { result ≡ (Self.grid self.now).rows };
}
