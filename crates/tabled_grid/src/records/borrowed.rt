//! Stores that are lent: a `&mut` of a store is a store.

ghost use Rattle.std.specs.Prelude.{◌≡◌};

use crate::config::Position;
use crate::records::blank::Blank;
use crate::records::cell_text::CellText;
use crate::records::grid_store::GridStore;
use crate::records::records_mut::RecordsMut;
use crate::records::resizable::Resizable;
use std::alloc::{AllocError, Global};

impl<S: GridStore> GridStore for &mut S {
    type Cell = S::Cell;

    ghost grid = { λ store. S.grid store.now };

    ghost is_well_formed = { λ store. S.is_well_formed store.now };

    ghost even = { λ store. S.even store.now };
}

impl<S, T> RecordsMut<T> for &mut S
where
    S: RecordsMut<T>,
    S::Cell: CellText,
    T: CellText,
{
    fn set(&mut self, alloc: Global, pos: Position, text: T) -> Result<(), AllocError> {
        (**self).set(alloc, pos, text)
    }
}

impl<S> Resizable for &mut S
where
    S: Resizable,
    S::Cell: Blank,
{
    fn push_row(&mut self, alloc: Global) -> Result<(), AllocError> {
        (**self).push_row(alloc)
    }

    fn push_column(&mut self, alloc: Global) -> Result<(), AllocError> {
        (**self).push_column(alloc)
    }

    fn insert_row(&mut self, alloc: Global, i: usize) -> Result<(), AllocError> {
        (**self).insert_row(alloc, i)
    }

    fn insert_column(&mut self, alloc: Global, j: usize) -> Result<(), AllocError> {
        (**self).insert_column(alloc, j)
    }

    fn remove_row(&mut self, i: usize) {
        (**self).remove_row(i);
    }

    fn remove_column(&mut self, j: usize) {
        (**self).remove_column(j);
    }

    fn swap(&mut self, p: Position, q: Position) {
        (**self).swap(p, q);
    }

    fn swap_row(&mut self, i: usize, k: usize) {
        (**self).swap_row(i, k);
    }

    fn swap_column(&mut self, j: usize, k: usize) {
        (**self).swap_column(j, k);
    }

    ghost rowless = { λ store. S.rowless store.now };
}
