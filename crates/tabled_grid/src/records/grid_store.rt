//! What every store means.

ghost use Rattle.tabled_grid.specs.Grid.{Grid, IsEven};

/// A store of cells, whose one meaning is its grid.
///
/// Each call of the record traits asks for a well-formed store and keeps it so.
pub trait GridStore {
    /// What its cells are.
    type Cell;

    /// The shape, and the rows of cells.
    ghost grid: { Self → Grid Self.Cell };

    /// The rows are as many and as long as the shape says.
    ghost is_well_formed: { Self → Type 0 };

    /// A well-formed store is even.
    ghost even: { (s : Self) → is_well_formed s → IsEven (grid s) };
}
