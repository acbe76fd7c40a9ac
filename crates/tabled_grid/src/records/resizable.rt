//! Stores that can grow and shrink.

ghost use Rattle.std.specs.Prelude.{◌≡◌, ◌<◌, ◌≤◌, IsOk, OnErr, OnOk};
ghost use Rattle.tabled_grid.specs.Along.{count_along, first_along, without_line};
ghost use Rattle.tabled_grid.specs.Bulk.{AddsColumns, AddsRows, transposed};
ghost use Rattle.tabled_grid.specs.Grid.{IsEmptyWithoutRows, IsInside};
ghost use Rattle.tabled_grid.specs.AddedLines.{AddsLines, InsertsLine};
ghost use Rattle.tabled_grid.specs.Axis.{across};
ghost use Rattle.tabled_grid.specs.Pieces.{cut_places};
ghost use Rattle.tabled_grid.specs.Places.{FillsThrough};
ghost use Rattle.tabled_grid.specs.Resized.{InsertsColumn, InsertsRow, with_cells_swapped, with_columns_swapped, with_rows_swapped, without_column, without_row};
ghost use Rattle.tabled_grid.specs.declared.records.axis.Axis.TheVariants.{Columns, Rows};

use crate::config::Position;
use crate::records::axis::Axis;
use crate::records::blank::Blank;
use crate::records::exact_records::ExactRecords;
use crate::records::grid_store::GridStore;
use crate::records::piece_order::PieceOrder;
use crate::records::records::Records;
use std::alloc::{AllocError, Global};

/// A store whose rows and columns can be inserted, swapped and removed.
///
/// A call that grows may be refused for memory, and then leaves the store as it was. The others take
/// no memory and can't be refused.
///
/// A store without rows has no columns (`rowless`).
///
/// Ported from `tabled::grid::records::Resizable`.
pub trait Resizable: GridStore
where
    Self::Cell: Blank,
{
    /// Inserts a row of blanks, as many as there are columns, below the last row (r x c to r+1 x c).
    ///
    /// Ported from `tabled::grid::records::Resizable::push_row`.
    fn push_row(&mut self, alloc: Global) -> Result<(), AllocError>
        requires well { Self.is_well_formed self.old }
        ensures well { Self.is_well_formed self.new }
        ensures ok { OnOk result (InsertsRow Self.Cell.is_blank (Self.grid self.old) (Self.grid self.new) ((Self.grid self.old).rows)) }
        ensures err { OnErr result (Self.grid self.new ≡ Self.grid self.old) };

    /// Inserts a column of blanks after the last one (r x c to r x c+1). Without rows this changes nothing.
    ///
    /// Ported from `tabled::grid::records::Resizable::push_column`.
    fn push_column(&mut self, alloc: Global) -> Result<(), AllocError>
        requires well { Self.is_well_formed self.old }
        ensures well { Self.is_well_formed self.new }
        ensures ok { OnOk result (InsertsColumn Self.Cell.is_blank (Self.grid self.old) (Self.grid self.new) ((Self.grid self.old).columns)) }
        ensures err { OnErr result (Self.grid self.new ≡ Self.grid self.old) };

    /// Inserts a row of blanks, as many as there are columns, before row `i`, or last where `i` is the
    /// number of rows (r x c to r+1 x c).
    ///
    /// Ported from `tabled::grid::records::Resizable::insert_row`.
    fn insert_row(&mut self, alloc: Global, i: usize) -> Result<(), AllocError>
        requires well { Self.is_well_formed self.old }
        requires within { i ≤ (Self.grid self.old).rows }
        ensures well { Self.is_well_formed self.new }
        ensures ok { OnOk result (InsertsRow Self.Cell.is_blank (Self.grid self.old) (Self.grid self.new) i) }
        ensures err { OnErr result (Self.grid self.new ≡ Self.grid self.old) };

    /// Inserts a column of blanks before column `j`, or last where `j` is the number of columns
    /// (r x c to r x c+1). Without rows this changes nothing.
    ///
    /// Ported from `tabled::grid::records::Resizable::insert_column`.
    fn insert_column(&mut self, alloc: Global, j: usize) -> Result<(), AllocError>
        requires well { Self.is_well_formed self.old }
        requires within { j ≤ (Self.grid self.old).columns }
        ensures well { Self.is_well_formed self.new }
        ensures ok { OnOk result (InsertsColumn Self.Cell.is_blank (Self.grid self.old) (Self.grid self.new) j) }
        ensures err { OnErr result (Self.grid self.new ≡ Self.grid self.old) };

    /// Removes row `i` (r x c to r-1 x c). The last row takes all columns with it, and
    /// `0 x 0` is left.
    ///
    /// Ported from `tabled::grid::records::Resizable::remove_row`.
    fn remove_row(&mut self, i: usize)
        requires well { Self.is_well_formed self.old }
        requires within { i < (Self.grid self.old).rows }
        ensures well { Self.is_well_formed self.new }
        ensures removed { Self.grid self.new ≡ without_row (Self.grid self.old) i };

    /// Removes column `j` (r x c to r x c-1). The rows stay, also where it was the last column.
    ///
    /// Ported from `tabled::grid::records::Resizable::remove_column`.
    fn remove_column(&mut self, j: usize)
        requires well { Self.is_well_formed self.old }
        requires within { j < (Self.grid self.old).columns }
        ensures well { Self.is_well_formed self.new }
        ensures removed { Self.grid self.new ≡ without_column (Self.grid self.old) j };

    /// Swaps two cells. Equal places change nothing.
    ///
    /// Ported from `tabled::grid::records::Resizable::swap`.
    fn swap(&mut self, p: Position, q: Position)
        requires well { Self.is_well_formed self.old }
        requires p_inside { IsInside (Self.grid self.old) p }
        requires q_inside { IsInside (Self.grid self.old) q }
        ensures well { Self.is_well_formed self.new }
        ensures swapped { Self.grid self.new ≡ with_cells_swapped (Self.grid self.old) p q };

    /// Swaps two rows. Equal ones change nothing.
    ///
    /// Ported from `tabled::grid::records::Resizable::swap_row`.
    fn swap_row(&mut self, i: usize, k: usize)
        requires well { Self.is_well_formed self.old }
        requires i_within { i < (Self.grid self.old).rows }
        requires k_within { k < (Self.grid self.old).rows }
        ensures well { Self.is_well_formed self.new }
        ensures swapped { Self.grid self.new ≡ with_rows_swapped (Self.grid self.old) i k };

    /// Swaps two columns. Equal ones change nothing.
    ///
    /// Ported from `tabled::grid::records::Resizable::swap_column`.
    fn swap_column(&mut self, j: usize, k: usize)
        requires well { Self.is_well_formed self.old }
        requires j_within { j < (Self.grid self.old).columns }
        requires k_within { k < (Self.grid self.old).columns }
        ensures well { Self.is_well_formed self.new }
        ensures swapped { Self.grid self.new ≡ with_columns_swapped (Self.grid self.old) j k };

    /// Keeps the first `count` rows alone (r x c to count x c, or to 0 x 0).
    ///
    /// Of this project: `tabled` removes row by row.
    fn truncate_rows(&mut self, count: usize)
    where
        Self: Records + ExactRecords,
        requires well { Self.is_well_formed self.old }
        requires within { count ≤ (Self.grid self.old).rows }
        ensures well { Self.is_well_formed self.new }
        ensures first { Self.grid self.new ≡ first_along Rows count (Self.grid self.old) }
    {
        let mut left = self.count_rows();
        while left > count {
            left -= 1;
            self.remove_row(left);
        }
    }

    /// Keeps the first `count` columns alone (r x c to r x count).
    ///
    /// Of this project: `tabled` removes column by column.
    fn truncate_columns(&mut self, count: usize)
    where
        Self: Records + ExactRecords,
        requires well { Self.is_well_formed self.old }
        requires within { count ≤ (Self.grid self.old).columns }
        ensures well { Self.is_well_formed self.new }
        ensures first { Self.grid self.new ≡ first_along Columns count (Self.grid self.old) }
    {
        let mut left = self.count_columns();
        while left > count {
            left -= 1;
            self.remove_column(left);
        }
    }

    /// Adds `many` rows of blanks below the last row (r x c to r+many x c). Refused, it leaves the store
    /// as it was.
    ///
    /// Of this project: `tabled` adds row by row.
    fn push_rows(&mut self, alloc: Global, many: usize) -> Result<(), AllocError>
    where
        Self: Records + ExactRecords,
        requires well { Self.is_well_formed self.old }
        ensures well { Self.is_well_formed self.new }
        ensures ok { OnOk result (AddsRows Self.Cell.is_blank many (Self.grid self.old) (Self.grid self.new)) }
        ensures err { OnErr result (Self.grid self.new ≡ Self.grid self.old) }
    {
        let rows = self.count_rows();
        for _ in 0..many {
            if let Err(error) = self.push_row(alloc) {
                self.truncate_rows(rows);
                return Err(error);
            }
        }
        Ok(())
    }

    /// Adds `many` columns of blanks after the last one (r x c to r x c+many). Without rows this changes
    /// nothing. Refused, it leaves the store as it was.
    ///
    /// Of this project: `tabled` adds column by column.
    fn push_columns(&mut self, alloc: Global, many: usize) -> Result<(), AllocError>
    where
        Self: Records + ExactRecords,
        requires well { Self.is_well_formed self.old }
        ensures well { Self.is_well_formed self.new }
        ensures ok { OnOk result (AddsColumns Self.Cell.is_blank many (Self.grid self.old) (Self.grid self.new)) }
        ensures err { OnErr result (Self.grid self.new ≡ Self.grid self.old) }
    {
        let columns = self.count_columns();
        for _ in 0..many {
            if let Err(error) = self.push_column(alloc) {
                self.truncate_columns(columns);
                return Err(error);
            }
        }
        Ok(())
    }

    /// Makes rows of columns (r x c to c x r, or r x 0 to 0 x 0). Refused, it leaves the store as it was.
    /// Without columns it asks for no growth, and isn't refused.
    ///
    /// Of this project, as a call of its own. A store that says nothing better pads to a square, swaps
    /// cells across the diagonal and cuts off what is left, as `tabled::settings::Rotate` does.
    fn transpose(&mut self, alloc: Global) -> Result<(), AllocError>
    where
        Self: Records + ExactRecords,
        requires well { Self.is_well_formed self.old }
        ensures well { Self.is_well_formed self.new }
        ensures ok { OnOk result (Self.grid self.new ≡ transposed (Self.grid self.old)) }
        ensures err { OnErr result (Self.grid self.new ≡ Self.grid self.old) }
        ensures no_columns { (Self.grid self.old).columns ≡ 0 → IsOk result }
    {
        let rows = self.count_rows();
        let columns = self.count_columns();
        if columns == 0 {
            self.truncate_rows(0);
            return Ok(());
        }
        let size = rows.max(columns);
        self.push_rows(alloc, size - rows)?;
        if let Err(error) = self.push_columns(alloc, size - columns) {
            self.truncate_rows(rows);
            return Err(error);
        }
        for i in 0..size {
            for j in i + 1..size {
                self.swap(Position { row: i, col: j }, Position { row: j, col: i });
            }
        }
        self.truncate_rows(columns);
        self.truncate_columns(rows);
        Ok(())
    }

    /// Keeps the first `count` rows, or columns, alone.
    ///
    /// Of this project.
    fn truncate_lines(&mut self, axis: Axis, count: usize)
    where
        Self: Records + ExactRecords,
        requires well { Self.is_well_formed self.old }
        requires within { count ≤ count_along axis (Self.grid self.old) }
        ensures well { Self.is_well_formed self.new }
        ensures first { Self.grid self.new ≡ first_along axis count (Self.grid self.old) }
    {
        match axis {
            Axis::Rows => self.truncate_rows(count),
            Axis::Columns => self.truncate_columns(count),
        }
    }

    /// Adds `many` rows, or columns, of blanks after the last one. Refused, it leaves the store as it was.
    ///
    /// Of this project.
    fn push_lines(&mut self, alloc: Global, axis: Axis, many: usize) -> Result<(), AllocError>
    where
        Self: Records + ExactRecords,
        requires well { Self.is_well_formed self.old }
        ensures well { Self.is_well_formed self.new }
        ensures ok { OnOk result (AddsLines Self.Cell.is_blank axis many (Self.grid self.old) (Self.grid self.new)) }
        ensures err { OnErr result (Self.grid self.new ≡ Self.grid self.old) }
    {
        match axis {
            Axis::Rows => self.push_rows(alloc, many),
            Axis::Columns => self.push_columns(alloc, many),
        }
    }

    /// Inserts a row, or a column, of blanks before another, or last. Without rows there is no column, and
    /// none is inserted. Refused, it leaves the store as it was.
    ///
    /// Of this project.
    fn insert_line(&mut self, alloc: Global, axis: Axis, line: usize) -> Result<(), AllocError>
        requires well { Self.is_well_formed self.old }
        requires within { line ≤ count_along axis (Self.grid self.old) }
        ensures well { Self.is_well_formed self.new }
        ensures ok { OnOk result (InsertsLine Self.Cell.is_blank axis (Self.grid self.old) (Self.grid self.new) line) }
        ensures err { OnErr result (Self.grid self.new ≡ Self.grid self.old) }
    {
        match axis {
            Axis::Rows => self.insert_row(alloc, line),
            Axis::Columns => self.insert_column(alloc, line),
        }
    }

    /// Removes a row, or a column. The last row takes all columns with it.
    ///
    /// Of this project.
    fn remove_line(&mut self, axis: Axis, line: usize)
        requires well { Self.is_well_formed self.old }
        requires within { line < count_along axis (Self.grid self.old) }
        ensures well { Self.is_well_formed self.new }
        ensures removed { Self.grid self.new ≡ without_line axis line (Self.grid self.old) }
    {
        match axis {
            Axis::Rows => self.remove_row(line),
            Axis::Columns => self.remove_column(line),
        }
    }

    /// Cuts rows, or columns, that are longer than `index` into pieces of n cells, which become the
    /// new rows, or columns. Blanks fill up the last piece of each. Refused, it leaves the store as it was.
    /// More than `usize::MAX` pieces, which no store could count, are refused without a growth.
    ///
    /// For `n` rows in `k` pieces each this is r x c to n*k x index, for columns r x c to index x n*k.
    ///
    /// Of this project, as a call of its own. A store that says nothing better grows to all new lines,
    /// swaps the cells to their places and cuts off what is left, as `tabled::settings::split` does. So it
    /// also refuses lines that can't grow to whole pieces of a width up to `usize::MAX`.
    fn cut(
        &mut self,
        alloc: Global,
        lines: Axis,
        order: PieceOrder,
        index: usize,
    ) -> Result<(), AllocError>
    where
        Self: Records + ExactRecords,
        requires well { Self.is_well_formed self.old }
        requires some { 0 < count_along lines (Self.grid self.old) }
        requires index { 0 < index }
        requires narrow { index < count_along (across lines) (Self.grid self.old) }
        ensures well { Self.is_well_formed self.new }
        ensures ok { OnOk result (FillsThrough Self.Cell.is_blank (cut_places lines order index (count_along lines (Self.grid self.old)) (count_along (across lines) (Self.grid self.old))) (Self.grid self.old) (Self.grid self.new)) }
        ensures err { OnErr result (Self.grid self.new ≡ Self.grid self.old) }
    {
        let across = lines.across();
        let count = lines.count(self);
        let width = across.count(self);
        let pieces = width.div_ceil(index);
        let Some(all) = count.checked_mul(pieces) else {
            return Err(AllocError);
        };
        let Some(wide) = pieces.checked_mul(index) else {
            return Err(AllocError);
        };
        self.push_lines(alloc, across, wide - width)?;
        if let Err(error) = self.push_lines(alloc, lines, all - count) {
            self.truncate_lines(across, width);
            return Err(error);
        }
        // A piece comes from no later line than it goes to, so from the last one on no cell is in the way.
        let mut target = all;
        while target > 0 {
            target -= 1;
            let (line, number) = order.nth_piece(count, pieces, target);
            for cell in 0..index {
                self.swap(
                    lines.place(line, number * index + cell),
                    lines.place(target, cell),
                );
            }
        }
        self.truncate_lines(across, index);
        Ok(())
    }

    /// A store without rows has no columns.
    ghost rowless: { (s : Self) → Self.is_well_formed s → IsEmptyWithoutRows (Self.grid s) };
}
