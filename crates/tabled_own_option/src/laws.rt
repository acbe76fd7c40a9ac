//! Laws of row numbers. Each is the contract of a function that does nothing.

ghost use Rattle.tabled_options.specs.Does.{OptionKeeps};

use crate::row_numbers::RowNumbers;
use tabled_carry::laws::merged_cells_fit_once_a_line_is_put_in;
use tabled_grid::config::SpannedConfig;
use tabled_grid::records::{CellText, ExactRecords, Records, RecordsMut, Resizable};
use tabled_options::{MergedCellsFit, Property, TableOption};

/// Row numbers keep merged cells inside the table and apart, also where they are refused.
pub fn row_numbers_keep_merged_cells_fitting<R, D>(_numbers: RowNumbers)
where
    R: Records + ExactRecords + Resizable + RecordsMut<String>,
    R::Cell: CellText,
    ensures { OptionKeeps ⟦<MergedCellsFit as Property<R::Cell, SpannedConfig>>⟧.holds (⟦<RowNumbers as TableOption<R, SpannedConfig, D>>⟧.does _numbers) (⟦<RowNumbers as TableOption<R, SpannedConfig, D>>⟧.leaves _numbers) }
{
    merged_cells_fit_once_a_line_is_put_in::<R::Cell>();
}
