//! Row numbers.

ghost use Rattle.std.proofs.Common.{rules};
ghost use Rattle.std.specs.Fmt.{decimal};
ghost use Rattle.std.specs.Prelude.{◌≡◌, ◌<◌, OnErr, OnOk};
ghost use Rattle.tabled_grid.specs.Entity.{place};
ghost use Rattle.tabled_grid.specs.Grid.{WritesText};
ghost use Rattle.tabled_own_option.specs.RowNumbers.{NumbersRows};

use std::alloc::{AllocError, Global};
use tabled_grid::config::{Entity, Position, SpannedConfig};
use tabled_grid::records::{Axis, CellText, ExactRecords, Records, RecordsMut, Resizable};
use tabled_options::TableOption;

/// Puts in a first column of row numbers, from 1 on (r x c to r x c+1). Merged cells go one column to the
/// right.
///
/// ```text
/// +---+---+      +---+---+---+
/// | a | b |      | 1 | a | b |
/// +---+---+  ->  +---+---+---+
/// | c | d |      | 2 | c | d |
/// +---+---+      +---+---+---+
/// ```
///
/// A table without rows stays as it was. Refused for memory, so does every table.
#[derive(Debug, Clone, Copy)]
pub struct RowNumbers;

impl<R, D> TableOption<R, SpannedConfig, D> for RowNumbers
where
    R: Records + ExactRecords + Resizable + RecordsMut<String>,
    R::Cell: CellText,
{
    ghost does = { λ _. NumbersRows R.Cell.text_of };

    fn change(
        self,
        alloc: Global,
        records: &mut R,
        cfg: &mut SpannedConfig,
        _dimension: &mut D,
    ) -> Result<(), AllocError> {
        let rows = records.count_rows();
        records.insert_column(alloc, 0)?;
        for row in 0..rows {
            if let Err(error) = write_number(alloc, records, row, row + 1) {
                records.remove_column(0);
                return Err(error);
            }
        }
        cfg.shift(Axis::Columns, 0);
        Ok(())
    }

    fn hint_change(&self) -> Option<Entity> {
        Some(Entity::Global)
    }

    ghost acts_like = { Prim.search rules };
}

/// Writes a number into the first cell of a row. Refused, it leaves the store as it was.
fn write_number<R>(
    alloc: Global,
    records: &mut R,
    row: usize,
    number: usize,
) -> Result<(), AllocError>
where
    R: RecordsMut<String>,
    R::Cell: CellText,
    requires well { R.is_well_formed records.old }
    requires row { row < (R.grid records.old).rows }
    requires column { 0 < (R.grid records.old).columns }
    ensures well { R.is_well_formed records.new }
    ensures ok { OnOk result (WritesText R.Cell.text_of (R.grid records.old) (R.grid records.new) (place row 0) (decimal number)) }
    ensures err { OnErr result (R.grid records.new ≡ R.grid records.old) }
{
    let text = number.to_string(alloc)?;
    records.set(alloc, Position::new(row, 0), text)
}
