//! Stores made of the cells of others, each of which moves once.

ghost use Rattle.std.specs.Prelude.{◌≡◌, ◌<◌, IfOk, OnErr, OnOk};
ghost use Rattle.std.specs.List.{AllByRecursion};
ghost use Rattle.tabled_grid.specs.Bulk.{Exchanges};
ghost use Rattle.tabled_grid.specs.Grid.{IsInside};
ghost use Rattle.tabled_grid.specs.Places.{FillsThrough, Places, TakesOnce, Within};
ghost use Rattle.tabled_grid.specs.Resized.{AreBlanks};

use crate::config::Position;
use crate::records::blank::Blank;
use crate::records::grid_store::GridStore;
use std::alloc::{AllocError, Global};

/// A store beside which one of blanks can be made, and whose cells can be exchanged for its blanks.
pub(super) trait Exchange: GridStore + Drop
where
    Self::Cell: Blank,
{
    /// A store of blanks (r x c), which has a row.
    fn of_blanks(alloc: Global, rows: usize, columns: usize) -> Result<Self, AllocError>
        requires { 0 < rows }
        ensures well { IfOk result (λ store. Self.is_well_formed store) }
        ensures rows { IfOk result (λ store. (Self.grid store).rows ≡ rows) }
        ensures columns { IfOk result (λ store. (Self.grid store).columns ≡ columns) }
        ensures blanks { IfOk result (λ store. AllByRecursion (AreBlanks Self.Cell.is_blank columns) (Self.grid store).cells) };

    /// Exchanges a cell for one of another store.
    fn exchange(&mut self, pos: Position, other: &mut Self, at: Position)
        requires well { Self.is_well_formed self.old }
        requires here { IsInside (Self.grid self.old) pos }
        requires other_well { Self.is_well_formed other.old }
        requires there { IsInside (Self.grid other.old) at }
        ensures well { Self.is_well_formed self.new }
        ensures other_well { Self.is_well_formed other.new }
        ensures exchanged { Exchanges pos at (Self.grid self.old) (Self.grid self.new) (Self.grid other.old) (Self.grid other.new) };
}

/// Where the cells of a new shape come from.
pub(super) trait Rearrange {
    /// The new shape, and for each new place its old place or none.
    ghost places: { Self → Places };

    /// The old place of the cell at a new place, if it comes from one.
    fn old_place(&self, to: Position) -> Option<Position>
        requires { Within (places self.now) to }
        ensures { result ≡ (places self.now).old_place to };
}

/// Puts the cells of a store into a new shape (r x c, which has a row). All new rows are taken before the
/// first cell moves, so that, refused, it leaves the store as it was.
pub(super) fn gather<R, P>(
    alloc: Global,
    records: &mut R,
    places: &P,
    rows: usize,
    columns: usize,
) -> Result<(), AllocError>
where
    R: Exchange,
    R::Cell: Blank,
    P: Rearrange,
    requires well { R.is_well_formed records.old }
    requires some { 0 < rows }
    requires rows { rows ≡ (P.places places.now).size.height }
    requires columns { columns ≡ (P.places places.now).size.width }
    requires once { TakesOnce (P.places places.now) (R.grid records.old) }
    ensures well { R.is_well_formed records.new }
    ensures ok { OnOk result (FillsThrough R.Cell.is_blank (P.places places.now) (R.grid records.old) (R.grid records.new)) }
    ensures err { OnErr result (records.new ≡ records.old) }
{
    let mut gathered = R::of_blanks(alloc, rows, columns)?;
    for row in 0..rows {
        for col in 0..columns {
            let to = Position { row, col };
            if let Some(from) = places.old_place(to) {
                records.exchange(from, &mut gathered, to);
            }
        }
    }
    *records = gathered;
    Ok(())
}
