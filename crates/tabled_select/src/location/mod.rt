//! Locations, which find rows, columns or cells of a table.
//!
//! A contract sees a location as the list of the coordinates that it finds in a table.

ghost use Rattle.std.specs.Prelude.{◌≡◌, List, IfOk};
ghost use Rattle.tabled_grid.specs.Grid.{Grid};
ghost use Rattle.tabled_select.specs.Located.{Finds, FindsUpTo};

mod by_column_name;
mod by_condition;
mod by_content;
mod by_value;
mod columns;
mod found;
mod locator;
mod marking;
mod rows;
mod search;

pub use by_column_name::ByColumnName;
pub use by_condition::ByCondition;
pub use by_content::ByContent;
pub use by_value::ByValue;
pub use found::coordinates;
pub use locator::Locator;
pub use marking::marks;
use std::alloc::{AllocError, Global};
use tabled_grid::records::GridStore;

/// Finds coordinates in a store: indexes of rows or of columns, or places of cells.
///
/// A location may find a coordinate more than once, and coordinates outside the table.
///
/// Ported from `tabled::settings::location::Location`.
pub trait Location<R: GridStore> {
    /// What is found: an index, or the place of a cell.
    type Coordinate: PartialOrd;

    /// What goes over the coordinates.
    type IntoIter: IntoIterator<Item = Self::Coordinate> + Drop;

    /// The coordinates that are found in a store with a grid.
    ghost locates: { Self → Grid R.Cell → List Self.Coordinate → Type 0 };

    /// The condition of use: a closure may be called on every argument of its kind. There is none, where nothing
    /// else is said.
    ghost can_locate: { Self → Type 0 } = { λ _. Unit {0} };

    /// What a location may be after it was asked: as it was, where nothing else is said.
    ghost is_left: { Self → Self → Type 0 } = { λ old new. new ≡ old };

    /// Finds the coordinates, in order. The location may be asked again.
    ///
    /// Refused where memory runs out. The store is only read.
    ///
    /// Ported from `tabled::settings::location::Location::locate`.
    fn locate(&mut self, alloc: Global, records: &R) -> Result<Self::IntoIter, AllocError>
        requires well { R.is_well_formed records.now }
        requires can { can_locate self.old }
        ensures can { can_locate self.new }
        ensures left { is_left self.old self.new }
        ensures lists { IfOk result (Finds Self.IntoIter.IntoIterator Self.IntoIter.IntoIter.Iterator (locates self.old (R.grid records.now))) };
    /// Finds the coordinates, in order, and may leave out all that aren't below a limit. `Rows` and `Columns` do,
    /// so that to go over them takes no longer than to count to the limit.
    ///
    /// Refused where memory runs out. The store is only read.
    ///
    /// Of this project.
    fn locate_below(
        &mut self,
        alloc: Global,
        records: &R,
        limit: &Self::Coordinate,
    ) -> Result<Self::IntoIter, AllocError>
        requires well { R.is_well_formed records.now }
        requires can { can_locate self.old }
        ensures can { can_locate self.new }
        ensures left { is_left self.old self.new }
        ensures lists { IfOk result (FindsUpTo Self.Coordinate.partial_cmp limit.now Self.IntoIter.IntoIterator Self.IntoIter.IntoIter.Iterator (locates self.old (R.grid records.now))) }
    {
        self.locate(alloc, records)
    }
}
