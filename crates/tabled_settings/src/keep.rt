//! Rows or columns that are located, and no others.

ghost use Rattle.std.specs.Prelude.{◌≡◌, ◌<◌, ◌≤◌, ◌⊎◌, ℕ, IfOk, IsFalse, IsTrue, List, OnErr, OnOk, false, get_or, length, slice_set, true};
ghost use Rattle.tabled_grid.specs.declared.records.axis.Axis.{Axis};
ghost use Rattle.tabled_grid.specs.declared.records.axis.Axis.TheVariants.{Columns, Rows};
ghost use Rattle.tabled_settings.specs.Kept.{Keeps, taken_in_order};
ghost use Rattle.std.proofs.Common.{rules};

use crate::arranged::arrange;
use std::alloc::{AllocError, Global};
use std::marker::{Model, PhantomData};
use tabled_grid::config::{Entity, SpannedConfig};
use tabled_grid::records::{
    Axis, Blank, ExactRecords, GridStore, Records, Resizable, Target, TargetColumn, TargetRow,
};
use tabled_options::TableOption;
use tabled_select::location::Location;

/// Keeps the rows, or the columns, that a location finds, in the order in which it finds them, each once. A
/// contract sees it as the location.
///
/// What is found outside the table is passed over. Refused for memory, it leaves the table as it was.
/// `Keep::rows(Rows::new(1..3))` makes
///
/// ```text
/// a b      c d
/// c d  of  e f
/// e f
/// g h
/// ```
///
/// Without rows no columns are left; without columns the rows stay.
///
/// Merged cells go along if they fit the table and their cells form a rectangle again; others come apart.
///
/// Of this project: the counterpart of `Remove`.
#[derive(Drop)]
pub struct Keep<L, Target> {
    locator: L,
    target: PhantomData<Target>,
}

impl<L, Target> Model for Keep<L, Target> {
    ghost Value = { L };

    ghost view = { λ a. a.locator };
}

impl<L> Keep<L, TargetRow> {
    /// The rows that a location finds.
    ///
    /// Of this project.
    pub fn rows(locator: L) -> Self
        ensures { result ≡ locator }
    {
        Keep {
            locator,
            target: PhantomData,
        }
    }
}

impl<L> Keep<L, TargetColumn> {
    /// The columns that a location finds.
    ///
    /// Of this project.
    pub fn columns(locator: L) -> Self
        ensures { result ≡ locator }
    {
        Keep {
            locator,
            target: PhantomData,
        }
    }
}

impl<L, T, R, D> TableOption<R, SpannedConfig, D> for Keep<L, T>
where
    T: Target,
    L: Location<R, Coordinate = usize> + Drop,
    <L::IntoIter as IntoIterator>::IntoIter: Drop,
    R: Records + ExactRecords + Resizable,
    R::Cell: Blank,
{
    ghost does = { λ s. Keeps T.lines (L.locates s) };

    ghost can_change = { λ s. L.can_locate s };

    fn change(
        mut self,
        alloc: Global,
        records: &mut R,
        cfg: &mut SpannedConfig,
        _dimension: &mut D,
    ) -> Result<(), AllocError> {
        keep_located(alloc, records, cfg, &mut self.locator, T::axis())
    }

    fn hint_change(&self) -> Option<Entity> {
        Some(Entity::Global)
    }

    ghost acts_like = { Prim.search rules };
}

/// Keeps the rows or the columns that a location finds.
fn keep_located<R, L>(
    alloc: Global,
    records: &mut R,
    cfg: &mut SpannedConfig,
    locator: &mut L,
    axis: Axis,
) -> Result<(), AllocError>
where
    L: Location<R, Coordinate = usize>,
    <L::IntoIter as IntoIterator>::IntoIter: Drop,
    R: Records + ExactRecords + Resizable,
    R::Cell: Blank,
    requires well { R.is_well_formed records.old }
    requires can { L.can_locate locator.old }
    ensures well { R.is_well_formed records.new }
    ensures ok { OnOk result (Keeps axis (L.locates locator.old) (R.grid records.old) cfg.old (R.grid records.new) cfg.new) }
    ensures err { OnErr result (R.grid records.new ≡ R.grid records.old) }
    ensures same { OnErr result (cfg.new ≡ cfg.old) }
{
    let count = axis.count(records);
    let indexes = taken_in_order(alloc, records, locator, count)?;
    arrange(alloc, axis, records, cfg, indexes)?;
    Ok(())
}

/// The indexes below a count that a location finds, each once, in order. To mark these takes a byte for each
/// line of the table, and each takes a number.
fn taken_in_order<R, L>(
    alloc: Global,
    records: &R,
    locator: &mut L,
    count: usize,
) -> Result<Vec<usize>, AllocError>
where
    R: GridStore,
    L: Location<R, Coordinate = usize>,
    <L::IntoIter as IntoIterator>::IntoIter: Drop,
    requires well { R.is_well_formed records.now }
    requires can { L.can_locate locator.old }
    ensures { IfOk result (λ indexes. (found : List ℕ) × L.locates locator.old (R.grid records.now) found × (indexes.items ≡ taken_in_order found count)) }
{
    let found = locator.locate_below(alloc, records, &count)?;
    let mut taken = vec![in alloc; false; count]?;
    let mut indexes = Vec::new(alloc);
    for index in found {
        if mark_first(&mut taken, index) {
            indexes.push(index)?;
        }
    }
    Ok(indexes)
}

/// Marks an index, and says whether there is room for a mark and there was none.
fn mark_first(marks: &mut [bool], index: usize) -> bool
    ensures first { IsTrue result → (index < length marks.old) × (get_or marks.old index false ≡ false) × (marks.new ≡ slice_set marks.old index true) }
    ensures later { IsFalse result → ((length marks.old ≤ index) ⊎ (get_or marks.old index false ≡ true)) × (marks.new ≡ marks.old) }
{
    if index >= marks.len() || marks[index] {
        return false;
    }
    marks[index] = true;
    true
}
