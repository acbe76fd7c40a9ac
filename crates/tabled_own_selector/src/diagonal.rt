//! The diagonal of a table.

ghost use Rattle.std.specs.Iterator.{YieldsFirst, item_count};
ghost use Rattle.std.specs.Prelude.{◌≡◌, min};
ghost use Rattle.tabled_own_selector.specs.Diagonal.{diagonal};

use std::alloc::{AllocError, Global};
use std::marker::Model;
use tabled_grid::config::Entity;
use tabled_grid::records::{ExactRecords, Records};
use tabled_select::object::Object;

/// The cells whose row and column have one index, from the first one on.
///
/// ```text
/// x . . .
/// . x . .
/// . . x .
/// ```
#[derive(Debug, Clone, Copy)]
pub struct Diagonal;

impl<R: Records + ExactRecords> Object<R> for Diagonal {
    type Iter = DiagonalIter;

    ghost lists = { λ _ g entities. entities ≡ diagonal 0 (min g.rows g.columns) };

    fn cells(&self, _alloc: Global, records: &R) -> Result<DiagonalIter, AllocError> {
        Ok(DiagonalIter {
            next: 0,
            end: records.count_rows().min(records.count_columns()),
        })
    }
}

/// Goes over the cells of a diagonal. A contract sees it as the index of the next cell, and the index where
/// it ends.
#[derive(Drop)]
pub struct DiagonalIter {
    next: usize,
    end: usize,
}

impl Model for DiagonalIter {
    ghost use Rattle.std.specs.Prelude.{ℕ};

    ghost Value = { ℕ × ℕ };

    ghost view = { λ a. (a.next, a.end) };

    ghost inverse = { λ v. record { next = v.0; end = v.1 } };
}

impl Iterator for DiagonalIter {
    type Item = Entity;

    ghost next_gives = { YieldsFirst (λ s. diagonal s.0 s.1) };

    ghost remaining = { item_count (λ s. diagonal s.0 s.1) };

    fn next(&mut self) -> Option<Entity> {
        if self.next >= self.end {
            return None;
        }
        let index = self.next;
        self.next += 1;
        Some(Entity::Cell(index, index))
    }
}
