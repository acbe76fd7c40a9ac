//! A store that refuses one growth and one write.

ghost use Rattle.std.specs.Prelude.{◌≡◌, ◌-◌, ◌<◌, ◌≤◌, IsErr, OnErr, OnOk};
ghost use Rattle.tabled_grid.specs.Along.{count_along, first_along};
ghost use Rattle.tabled_grid.specs.Grid.{IsInside, WritesText, map_grid, with_cell};
ghost use Rattle.tabled_grid.specs.Resized.{InsertsColumn, InsertsRow, with_cells_swapped, with_columns_swapped, with_rows_swapped, without_column, without_row};
ghost use Rattle.tabled_grid.specs.declared.records.axis.Axis.TheVariants.{Columns, Rows};

use crate::config::Position;
use crate::records::axis::Axis;
use crate::records::blank::Blank;
use crate::records::cell_text::CellText;
use crate::records::exact_records::ExactRecords;
use crate::records::grid_store::GridStore;
use crate::records::peekable_records::PeekableRecords;
use crate::records::records::Records;
use crate::records::records_mut::RecordsMut;
use crate::records::resizable::Resizable;
use std::alloc::{AllocError, Global};

/// A store around a store, which answers one growth and one write as if memory was refused.
///
/// It shows in a test what an option, or a caller's own code, leaves where memory ends in the
/// midst of it, without a machine that is out of memory: each growth and each write in turn.
///
/// A growth is a call of `push_row`, `push_column`, `insert_row` or `insert_column`, and a write a call of
/// `set`. The calls that remove, swap or cut off (`remove_row`, `remove_column`, `swap`, `swap_row`,
/// `swap_column`, `truncate_rows`, `truncate_columns`, `truncate_lines`) count as neither, and leave both
/// numbers as they are. The other calls for many lines (`push_rows`, `push_columns`, `push_lines`, `transpose`,
/// `cut`) are left to the default bodies of `Resizable`, also where the store around which it stands has its own,
/// so that each line is a growth of its own.
/// What is not refused goes to that store, whose grid is the meaning of both.
///
/// Of this project.
#[derive(Clone, Debug, Drop)]
pub struct Refusing<S> {
    /// The store around which it stands.
    pub store: S,
    /// Which growth from now on is refused, counted from 1, or 0 where none is.
    pub growth: usize,
    /// Which write from now on is refused, counted from 1, or 0 where none is.
    pub set: usize,
}

/// Counts one call, and refuses it where it is the one that was named.
fn count_down(left: &mut usize) -> Result<(), AllocError>
    ensures counted { left.new ≡ left.old - 1 }
    ensures refused { left.old ≡ 1 → IsErr result }
    ensures alone { IsErr result → left.old ≡ 1 }
{
    let is_named = *left == 1;
    *left = left.saturating_sub(1);
    if is_named {
        return Err(AllocError);
    }
    Ok(())
}

impl<S> Refusing<S> {
    /// Stands around a store, and refuses its growth of the number `growth` and its write of the number
    /// `set`, both counted from 1, and no other. The number 0 refuses none.
    pub fn new(store: S, growth: usize, set: usize) -> Self
        ensures store { result.store ≡ store }
        ensures growth { result.growth ≡ growth }
        ensures set { result.set ≡ set }
    {
        Refusing { store, growth, set }
    }
}

impl<S: Drop> Refusing<S> {
    /// Takes the store out.
    pub fn into_inner(self) -> S
        ensures { result ≡ self.store }
    {
        self.store
    }
}

impl<S: GridStore> GridStore for Refusing<S> {
    type Cell = S::Cell;

    ghost grid = { λ s. S.grid s.store };

    ghost is_well_formed = { λ s. S.is_well_formed s.store };

    ghost even = { λ s. S.even s.store };
}

impl<S: Records> Records for Refusing<S> {
    fn count_columns(&self) -> usize {
        self.store.count_columns()
    }

    fn hint_count_rows(&self) -> Option<usize> {
        self.store.hint_count_rows()
    }
}

impl<S: ExactRecords> ExactRecords for Refusing<S> {
    fn count_rows(&self) -> usize {
        self.store.count_rows()
    }
}

impl<S: PeekableRecords> PeekableRecords for Refusing<S>
where
    S::Cell: CellText,
{
    fn get_text(&self, pos: Position) -> &str {
        self.store.get_text(pos)
    }
}

impl<T: CellText, S: RecordsMut<T>> RecordsMut<T> for Refusing<S>
where
    S::Cell: CellText,
{
    /// Writes the text of a cell. Counted as a write, and refused where it is the one that was named.
    fn set(&mut self, alloc: Global, pos: Position, text: T) -> Result<(), AllocError>
        requires well { S.is_well_formed self.old.store }
        requires inside { IsInside (S.grid self.old.store) pos }
        ensures well { S.is_well_formed self.new.store }
        ensures ok { OnOk result (WritesText S.Cell.text_of (S.grid self.old.store) (S.grid self.new.store) pos (T.text_of text)) }
        ensures err { OnErr result (S.grid self.new.store ≡ S.grid self.old.store) }
        ensures texts { OnOk result (map_grid S.Cell.text_of (S.grid self.new.store) ≡ with_cell (map_grid S.Cell.text_of (S.grid self.old.store)) pos (T.text_of text)) }
        ensures rows { (S.grid self.new.store).rows ≡ (S.grid self.old.store).rows }
        ensures columns { (S.grid self.new.store).columns ≡ (S.grid self.old.store).columns }
        ensures counted { self.new.set ≡ self.old.set - 1 }
        ensures growth { self.new.growth ≡ self.old.growth }
        ensures refused { self.old.set ≡ 1 → IsErr result }
    {
        count_down(&mut self.set)?;
        self.store.set(alloc, pos, text)
    }
}

impl<S: Resizable> Resizable for Refusing<S>
where
    S::Cell: Blank,
{
    /// Inserts a row of blanks below the last row. Counted as a growth, and refused where it is the one that was named.
    fn push_row(&mut self, alloc: Global) -> Result<(), AllocError>
        requires well { S.is_well_formed self.old.store }
        ensures well { S.is_well_formed self.new.store }
        ensures ok { OnOk result (InsertsRow S.Cell.is_blank (S.grid self.old.store) (S.grid self.new.store) ((S.grid self.old.store).rows)) }
        ensures err { OnErr result (S.grid self.new.store ≡ S.grid self.old.store) }
        ensures counted { self.new.growth ≡ self.old.growth - 1 }
        ensures set { self.new.set ≡ self.old.set }
        ensures refused { self.old.growth ≡ 1 → IsErr result }
    {
        count_down(&mut self.growth)?;
        self.store.push_row(alloc)
    }

    /// Inserts a column of blanks after the last one. Counted as a growth, and refused where it is the one that was named.
    fn push_column(&mut self, alloc: Global) -> Result<(), AllocError>
        requires well { S.is_well_formed self.old.store }
        ensures well { S.is_well_formed self.new.store }
        ensures ok { OnOk result (InsertsColumn S.Cell.is_blank (S.grid self.old.store) (S.grid self.new.store) ((S.grid self.old.store).columns)) }
        ensures err { OnErr result (S.grid self.new.store ≡ S.grid self.old.store) }
        ensures counted { self.new.growth ≡ self.old.growth - 1 }
        ensures set { self.new.set ≡ self.old.set }
        ensures refused { self.old.growth ≡ 1 → IsErr result }
    {
        count_down(&mut self.growth)?;
        self.store.push_column(alloc)
    }

    /// Inserts a row of blanks. Counted as a growth, and refused where it is the one that was named.
    fn insert_row(&mut self, alloc: Global, i: usize) -> Result<(), AllocError>
        requires well { S.is_well_formed self.old.store }
        requires within { i ≤ (S.grid self.old.store).rows }
        ensures well { S.is_well_formed self.new.store }
        ensures ok { OnOk result (InsertsRow S.Cell.is_blank (S.grid self.old.store) (S.grid self.new.store) i) }
        ensures err { OnErr result (S.grid self.new.store ≡ S.grid self.old.store) }
        ensures counted { self.new.growth ≡ self.old.growth - 1 }
        ensures set { self.new.set ≡ self.old.set }
        ensures refused { self.old.growth ≡ 1 → IsErr result }
    {
        count_down(&mut self.growth)?;
        self.store.insert_row(alloc, i)
    }

    /// Inserts a column of blanks. Counted as a growth, and refused where it is the one that was named.
    fn insert_column(&mut self, alloc: Global, j: usize) -> Result<(), AllocError>
        requires well { S.is_well_formed self.old.store }
        requires within { j ≤ (S.grid self.old.store).columns }
        ensures well { S.is_well_formed self.new.store }
        ensures ok { OnOk result (InsertsColumn S.Cell.is_blank (S.grid self.old.store) (S.grid self.new.store) j) }
        ensures err { OnErr result (S.grid self.new.store ≡ S.grid self.old.store) }
        ensures counted { self.new.growth ≡ self.old.growth - 1 }
        ensures set { self.new.set ≡ self.old.set }
        ensures refused { self.old.growth ≡ 1 → IsErr result }
    {
        count_down(&mut self.growth)?;
        self.store.insert_column(alloc, j)
    }

    /// Removes a row. Counted as nothing.
    fn remove_row(&mut self, i: usize)
        requires well { S.is_well_formed self.old.store }
        requires within { i < (S.grid self.old.store).rows }
        ensures well { S.is_well_formed self.new.store }
        ensures removed { S.grid self.new.store ≡ without_row (S.grid self.old.store) i }
        ensures growth { self.new.growth ≡ self.old.growth }
        ensures set { self.new.set ≡ self.old.set }
    {
        self.store.remove_row(i);
    }

    /// Removes a column. Counted as nothing.
    fn remove_column(&mut self, j: usize)
        requires well { S.is_well_formed self.old.store }
        requires within { j < (S.grid self.old.store).columns }
        ensures well { S.is_well_formed self.new.store }
        ensures removed { S.grid self.new.store ≡ without_column (S.grid self.old.store) j }
        ensures growth { self.new.growth ≡ self.old.growth }
        ensures set { self.new.set ≡ self.old.set }
    {
        self.store.remove_column(j);
    }

    /// Swaps two cells. Counted as nothing.
    fn swap(&mut self, p: Position, q: Position)
        requires well { S.is_well_formed self.old.store }
        requires p_inside { IsInside (S.grid self.old.store) p }
        requires q_inside { IsInside (S.grid self.old.store) q }
        ensures well { S.is_well_formed self.new.store }
        ensures swapped { S.grid self.new.store ≡ with_cells_swapped (S.grid self.old.store) p q }
        ensures growth { self.new.growth ≡ self.old.growth }
        ensures set { self.new.set ≡ self.old.set }
    {
        self.store.swap(p, q);
    }

    /// Swaps two rows. Counted as nothing.
    fn swap_row(&mut self, i: usize, k: usize)
        requires well { S.is_well_formed self.old.store }
        requires i_within { i < (S.grid self.old.store).rows }
        requires k_within { k < (S.grid self.old.store).rows }
        ensures well { S.is_well_formed self.new.store }
        ensures swapped { S.grid self.new.store ≡ with_rows_swapped (S.grid self.old.store) i k }
        ensures growth { self.new.growth ≡ self.old.growth }
        ensures set { self.new.set ≡ self.old.set }
    {
        self.store.swap_row(i, k);
    }

    /// Swaps two columns. Counted as nothing.
    fn swap_column(&mut self, j: usize, k: usize)
        requires well { S.is_well_formed self.old.store }
        requires j_within { j < (S.grid self.old.store).columns }
        requires k_within { k < (S.grid self.old.store).columns }
        ensures well { S.is_well_formed self.new.store }
        ensures swapped { S.grid self.new.store ≡ with_columns_swapped (S.grid self.old.store) j k }
        ensures growth { self.new.growth ≡ self.old.growth }
        ensures set { self.new.set ≡ self.old.set }
    {
        self.store.swap_column(j, k);
    }

    /// Keeps the first `count` rows alone. Counted as nothing.
    fn truncate_rows(&mut self, count: usize)
    where
        Self: Records + ExactRecords + GridStore<Cell = S::Cell>,
        requires well { S.is_well_formed self.old.store }
        requires within { count ≤ (S.grid self.old.store).rows }
        ensures well { S.is_well_formed self.new.store }
        ensures first { S.grid self.new.store ≡ first_along Rows count (S.grid self.old.store) }
        ensures growth { self.new.growth ≡ self.old.growth }
        ensures set { self.new.set ≡ self.old.set }
    {
        let mut left = self.count_rows();
        while left > count {
            left -= 1;
            self.remove_row(left);
        }
    }

    /// Keeps the first `count` columns alone. Counted as nothing.
    fn truncate_columns(&mut self, count: usize)
    where
        Self: Records + ExactRecords + GridStore<Cell = S::Cell>,
        requires well { S.is_well_formed self.old.store }
        requires within { count ≤ (S.grid self.old.store).columns }
        ensures well { S.is_well_formed self.new.store }
        ensures first { S.grid self.new.store ≡ first_along Columns count (S.grid self.old.store) }
        ensures growth { self.new.growth ≡ self.old.growth }
        ensures set { self.new.set ≡ self.old.set }
    {
        let mut left = self.count_columns();
        while left > count {
            left -= 1;
            self.remove_column(left);
        }
    }

    /// Keeps the first `count` rows, or columns, alone. Counted as nothing.
    fn truncate_lines(&mut self, axis: Axis, count: usize)
    where
        Self: Records + ExactRecords + GridStore<Cell = S::Cell>,
        requires well { S.is_well_formed self.old.store }
        requires within { count ≤ count_along axis (S.grid self.old.store) }
        ensures well { S.is_well_formed self.new.store }
        ensures first { S.grid self.new.store ≡ first_along axis count (S.grid self.old.store) }
        ensures growth { self.new.growth ≡ self.old.growth }
        ensures set { self.new.set ≡ self.old.set }
    {
        match axis {
            Axis::Rows => self.truncate_rows(count),
            Axis::Columns => self.truncate_columns(count),
        }
    }

    ghost rowless = { λ s. S.rowless s.store };
}
