//! Laws of what objects list. Each is the contract of a function that does nothing.

ghost use Rattle.std.specs.Prelude.{◌≡◌, ◌<◌, ℕ};
ghost use Rattle.std.specs.declared.cmp.Ordering.TheVariants.{Less};
ghost use Rattle.tabled_grid.specs.Spans.{position_cmp};
ghost use Rattle.tabled_select.specs.Selectors.{before_last, past_last};
ghost use Rattle.tabled_select.specs.Algebra.{ListAlike, named_by_both, named_without, others};

use crate::object::{
    Cell, DiffCombination, IntersectionCombination, InversionCombination, LastColumnOffset, Object,
};
use tabled_grid::config::Entity;
use tabled_grid::records::{ExactRecords, Records};

/// What `a.intersect(b.inverse())` is.
type IntersectionWithInverse<A, B, R> = IntersectionCombination<A, InversionCombination<B, R>, R>;

/// What entities name without others is what they name of the others' inversion, in the same
/// order.
pub fn difference_is_intersection_with_inversion(
    _entities: &[Entity],
    _others: &[Entity],
    _rows: usize,
    _columns: usize,
)
    ensures { named_without _entities.now _others.now _rows _columns ≡ named_by_both _entities.now (others _others.now _rows _columns) _rows _columns }
{}

/// `a.not(b)` lists what `a.intersect(b.inverse())` lists, in the same order, in each store.
pub fn not_is_intersect_with_inverse<A, B, R>(_a: &A, _b: &B, _records: &R)
where
    A: Object<R>,
    B: Object<R>,
    R: Records + ExactRecords,
    ensures { ListAlike ⟦<DiffCombination<A, B, R> as Object<R>>⟧.lists ⟦<IntersectionWithInverse<A, B, R> as Object<R>>⟧.lists (_a.now, _b.now) (R.grid _records.now) }
{}

/// Cells are ordered row by row.
pub fn cells_are_ordered_row_by_row(_cell: Cell, _other: Cell)
    ensures { ⟦<Cell as Ord>⟧.cmp _cell _other ≡ position_cmp _cell _other }
{}

/// Columns counted from the last are ordered by how far they are from it, and then those before it
/// come first.
pub fn columns_from_the_last_are_ordered_by_offset(
    _column: LastColumnOffset,
    _other: LastColumnOffset,
)
    ensures offset { _column.offset < _other.offset → ⟦<LastColumnOffset as Ord>⟧.cmp _column _other ≡ Less }
    ensures side { (n : ℕ) → ⟦<LastColumnOffset as Ord>⟧.cmp (before_last n) (past_last n) ≡ Less }
{}
