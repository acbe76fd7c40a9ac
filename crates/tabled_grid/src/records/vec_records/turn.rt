//! Rows of a store made columns, each cell moved once.

ghost use Rattle.std.specs.Prelude.{◌≡◌, ◌<◌, OnErr, OnOk};
ghost use Rattle.tabled_grid.specs.Bulk.{transposed};

use crate::config::Position;
use crate::records::blank::Blank;
use crate::records::exact_records::ExactRecords;
use crate::records::gather::{Exchange, Rearrange, gather};
use crate::records::records::Records;
use std::alloc::{AllocError, Global};

/// r rows and c columns that change places.
#[derive(Drop)]
struct Diagonal {
    rows: usize,
    columns: usize,
}

impl Rearrange for Diagonal {
    ghost use Rattle.tabled_grid.specs.Bulk.{turned_places};

    ghost places = { λ t. turned_places t.rows t.columns };

    fn old_place(&self, to: Position) -> Option<Position> {
        Some(Position {
            row: to.col,
            col: to.row,
        })
    }
}

/// Makes rows of columns, of which there are some. Refused, it leaves the store as it was.
pub(super) fn turn<R>(alloc: Global, records: &mut R) -> Result<(), AllocError>
where
    R: Exchange + Records + ExactRecords,
    R::Cell: Blank,
    requires well { R.is_well_formed records.old }
    requires some { 0 < (R.grid records.old).columns }
    ensures well { R.is_well_formed records.new }
    ensures ok { OnOk result (R.grid records.new ≡ transposed (R.grid records.old)) }
    ensures err { OnErr result (records.new ≡ records.old) }
{
    let rows = records.count_rows();
    let columns = records.count_columns();
    gather(alloc, records, &Diagonal { rows, columns }, columns, rows)?;
    Ok(())
}
