//! Rows or columns that are located, taken away.

ghost use Rattle.std.specs.Prelude.{◌≡◌, OnErr, OnOk};
ghost use Rattle.tabled_grid.specs.declared.records.axis.Axis.{Axis};
ghost use Rattle.tabled_grid.specs.declared.records.axis.Axis.TheVariants.{Columns, Rows};
ghost use Rattle.tabled_settings.specs.Rearranged.{Removes};
ghost use Rattle.std.proofs.Common.{rules};

use crate::kept_lines::KeptLines;
use crate::lines;
use std::alloc::{AllocError, Global};
use std::marker::{Model, PhantomData};
use tabled_carry::FittingSpans;
use tabled_grid::config::{Entity, SpannedConfig};
use tabled_grid::records::{Axis, Blank, ExactRecords, Records, Resizable, shape_of};
pub use tabled_grid::records::{Target, TargetColumn, TargetRow};
use tabled_options::TableOption;
use tabled_select::location::{Location, marks};

/// Takes away the rows, or the columns, that a location finds. A contract sees it as the location.
///
/// They are all located before the first is removed, so they may be found in any order, more than once and
/// outside the table. Refused for memory, it leaves the table as it was. `Remove::row(Rows::new(1..3))` makes
///
/// ```text
/// a b      a b
/// c d  of  g h
/// e f
/// g h
/// ```
///
/// Without rows no columns are left; without columns the rows stay.
///
/// Merged cells go along if they fit the table and lose no row or column: here `g` and `h` stay one cell if
/// they were one, and `e` and `g` are apart again.
///
/// Ported from `tabled::settings::Remove`, which goes wrong where indexes are found unordered or repeated.
#[derive(Drop)]
pub struct Remove<L, Target> {
    locator: L,
    target: PhantomData<Target>,
}

impl<L, Target> Model for Remove<L, Target> {
    ghost Value = { L };

    ghost view = { λ a. a.locator };
}

impl<L> Remove<L, TargetRow> {
    /// The rows that a location finds.
    ///
    /// Ported from `tabled::settings::Remove::row`.
    pub fn row(locator: L) -> Self
        ensures { result ≡ locator }
    {
        Remove {
            locator,
            target: PhantomData,
        }
    }
}

impl<L> Remove<L, TargetColumn> {
    /// The columns that a location finds.
    ///
    /// Ported from `tabled::settings::Remove::column`.
    pub fn column(locator: L) -> Self
        ensures { result ≡ locator }
    {
        Remove {
            locator,
            target: PhantomData,
        }
    }
}

impl<L, T, R, D> TableOption<R, SpannedConfig, D> for Remove<L, T>
where
    T: Target,
    L: Location<R, Coordinate = usize> + Drop,
    <L::IntoIter as IntoIterator>::IntoIter: Drop,
    R: Records + ExactRecords + Resizable,
    R::Cell: Blank,
{
    ghost does = { λ s. Removes T.lines (L.locates s) };

    ghost can_change = { λ s. L.can_locate s };

    fn change(
        mut self,
        alloc: Global,
        records: &mut R,
        cfg: &mut SpannedConfig,
        _dimension: &mut D,
    ) -> Result<(), AllocError> {
        remove_located(alloc, records, cfg, &mut self.locator, T::axis())
    }

    fn hint_change(&self) -> Option<Entity> {
        Some(Entity::Global)
    }

    ghost acts_like = { Prim.search rules };
}

/// Removes the rows or the columns that a location finds. To mark these takes a byte for each line of the
/// table; merged cells take more.
fn remove_located<R, L>(
    alloc: Global,
    records: &mut R,
    cfg: &mut SpannedConfig,
    locator: &mut L,
    axis: Axis,
) -> Result<(), AllocError>
where
    L: Location<R, Coordinate = usize>,
    <L::IntoIter as IntoIterator>::IntoIter: Drop,
    R: Records + ExactRecords + Resizable,
    R::Cell: Blank,
    requires well { R.is_well_formed records.old }
    requires can { L.can_locate locator.old }
    ensures well { R.is_well_formed records.new }
    ensures ok { OnOk result (Removes axis (L.locates locator.old) (R.grid records.old) cfg.old (R.grid records.new) cfg.new) }
    ensures err { OnErr result (R.grid records.new ≡ R.grid records.old) }
    ensures same { OnErr result (cfg.new ≡ cfg.old) }
{
    let gone = marks(alloc, locator, records, axis.count(records))?;
    let table = shape_of(records);
    // Without merged cells no list of the lines that are left is made.
    if cfg.rectangles().is_empty() {
        lines::remove(axis, records, &gone);
        return Ok(());
    }
    let left = KeptLines::unmarked(alloc, axis, &gone, table)?;
    let fitting = FittingSpans::of(alloc, cfg, table)?;
    lines::remove(axis, records, &gone);
    fitting.carry_along(alloc, &left, cfg);
    Ok(())
}
