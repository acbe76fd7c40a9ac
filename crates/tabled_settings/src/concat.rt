//! Two tables joined to one.

ghost use Rattle.std.specs.Prelude.{◌≡◌, ◌≤◌, [], OnErr, OnOk};
ghost use Rattle.std.specs.String.{string_bytes};
ghost use Rattle.tabled_grid.specs.Grid.{map_grid};
ghost use Rattle.tabled_grid.specs.declared.records.axis.Axis.TheVariants.{Columns, Rows};
ghost use Rattle.tabled_settings.specs.Joined.{GrowsTo, JoinsTables, corner_of};
ghost use Rattle.std.proofs.Common.{rules};

use std::alloc::{AllocError, Global};
use std::marker::Model;
use tabled_carry::FittingSpans;
use tabled_grid::config::{Entity, Position, Size, SpannedConfig};
use tabled_grid::records::{
    Axis, CellText, ExactRecords, PeekableRecords, Records, RecordsMut, Resizable, Text,
    VecRecords, shape_of,
};
use tabled_table::{Table, TableOption};

/// Joins a second table to a table, below it or right of it. A contract sees it as where the second table
/// goes, its texts and the text for cells that the first table lacks.
///
/// `a` with `Concat::vertical` of `x y z` and the default cell `-`, and `a / b` with `Concat::horizontal`
/// of `x`, become
///
/// ```text
/// a - -      a x
/// x y z      b
/// ```
///
/// Cells that the second table lacks, as the one beside `b`, are blank. Refused for memory, it leaves the table
/// as it was.
///
/// Merged cells of the first table stay as they are if they fit it, as an `a` two columns wide above `x y z`.
/// Those of the second table are left out, as in the original.
///
/// Ported from `tabled::settings::Concat`.
#[derive(Drop)]
pub struct Concat {
    axis: Axis,
    second: Table,
    default: String,
}

impl Model for Concat {
    ghost use Rattle.std.specs.Prelude.{ℕ, List};
    ghost use Rattle.std.specs.String.{string_bytes};
    ghost use Rattle.tabled_grid.specs.Grid.{Grid, map_grid};
    ghost use Rattle.tabled_grid.specs.declared.records.axis.Axis.{Axis};

    ghost Value = { Axis × Grid (List ℕ) × List ℕ };

    ghost view = { λ a. (a.axis, map_grid string_bytes a.second.cells, string_bytes a.default) };
}

impl Concat {
    /// The second table below the first (r x c and r2 x c2 to r+r2 x max(c, c2)).
    ///
    /// Ported from `tabled::settings::Concat::vertical`.
    pub fn vertical(alloc: Global, second: Table) -> Self
        ensures { result ≡ (Rows, map_grid string_bytes second.cells, []) }
    {
        Concat {
            axis: Axis::Rows,
            second,
            default: String::new(alloc),
        }
    }

    /// The second table right of the first (r x c and r2 x c2 to max(r, r2) x c+c2).
    ///
    /// Ported from `tabled::settings::Concat::horizontal`.
    pub fn horizontal(alloc: Global, second: Table) -> Self
        ensures { result ≡ (Columns, map_grid string_bytes second.cells, []) }
    {
        Concat {
            axis: Axis::Columns,
            second,
            default: String::new(alloc),
        }
    }

    /// The text for cells that the first table lacks.
    ///
    /// Ported from `tabled::settings::Concat::default_cell`.
    pub fn default_cell(self, default: String) -> Self
        ensures { result ≡ (self.0, self.1, string_bytes default) }
    {
        let Concat { axis, second, .. } = self;
        Concat {
            axis,
            second,
            default,
        }
    }
}

impl<R, D> TableOption<R, SpannedConfig, D> for Concat
where
    R: Records + ExactRecords + Resizable + RecordsMut<String>,
    R::Cell: CellText,
{
    ghost does = { λ s. JoinsTables R.Cell.is_blank R.Cell.text_of s.0 s.1 s.2 };

    fn change(
        self,
        alloc: Global,
        records: &mut R,
        cfg: &mut SpannedConfig,
        _dimension: &mut D,
    ) -> Result<(), AllocError> {
        let table = shape_of(records);
        let second = self.second.get_records();
        let joint = Joint::of(self.axis, table, second, self.default.as_str())?;
        let fitting = FittingSpans::of(alloc, cfg, table)?;
        joint.join(alloc, records)?;
        fitting.stay(cfg);
        Ok(())
    }

    fn hint_change(&self) -> Option<Entity> {
        Some(Entity::Global)
    }

    ghost acts_like = { Prim.search rules };
}

/// Where a second table begins: below a first one of a shape, or right of it.
fn corner_of(axis: Axis, size: Size) -> Position
    ensures place { result ≡ corner_of axis size.height size.width }
    ensures row { result.row ≤ size.height }
    ensures col { result.col ≤ size.width }
{
    match axis {
        Axis::Rows => Position::new(size.height, 0),
        Axis::Columns => Position::new(0, size.width),
    }
}

/// A second table that is joined to a first one. A contract sees it as the first one's shape, where
/// the second table begins, its texts and the text for cells that the first table lacks.
#[derive(Drop)]
struct Joint<'a> {
    size: Size,
    corner: Position,
    second: &'a VecRecords<Text<String>>,
    default: &'a str,
    /// The shape of both together.
    new_size: Size,
}

impl<'a> Model for Joint<'a> {
    ghost use Rattle.tabled_settings.specs.Joined.{HasRoom, Joint, as_texts};

    ghost Value = { Joint };

    ghost view = { λ j. record { size = j.size; corner = j.corner; second = as_texts j.second.now.grid; default = j.default.now } };

    ghost invariant = { λ j. HasRoom j.size j.corner j.second.now.grid j.new_size };
}

impl<'a> Joint<'a> {
    ghost use Rattle.std.specs.Prelude.{◌≡◌, ◌≤◌, IfOk, OnErr, OnOk};
    ghost use Rattle.std.specs.Option.{option_copied};
    ghost use Rattle.tabled_settings.specs.Joined.{Fills, FillsTo, Joins, as_texts, joint, text_of_joint};

    /// A second table below the first, or right of it. Refused where both together have more rows or columns
    /// than there are indexes.
    fn of(
        axis: Axis,
        size: Size,
        second: &'a VecRecords<Text<String>>,
        default: &'a str,
    ) -> Result<Self, AllocError>
        ensures { IfOk result (λ j. j ≡ joint axis size (as_texts second.now.grid) default.now) }
    {
        let corner = corner_of(axis, size);
        let bottom = corner
            .row
            .checked_add(second.count_rows())
            .ok_or(AllocError)?;
        let right = corner
            .col
            .checked_add(second.count_columns())
            .ok_or(AllocError)?;
        Ok(Joint {
            size,
            corner,
            second,
            default,
            new_size: Size {
                height: size.height.max(bottom),
                width: size.width.max(right),
            },
        })
    }

    /// Joins it. Refused, it leaves the store as it was.
    fn join<R>(&self, alloc: Global, records: &mut R) -> Result<(), AllocError>
    where
        R: Records + ExactRecords + Resizable + RecordsMut<String>,
        R::Cell: CellText,
        requires well { R.is_well_formed records.old }
        requires rows { self.now.size.height ≡ (R.grid records.old).rows }
        requires columns { self.now.size.width ≡ (R.grid records.old).columns }
        ensures well { R.is_well_formed records.new }
        ensures ok { OnOk result (Joins R.Cell.is_blank R.Cell.text_of self.now (R.grid records.old) (R.grid records.new)) }
        ensures err { OnErr result (R.grid records.new ≡ R.grid records.old) }
    {
        grow(alloc, records, self.new_size)?;
        if let Err(error) = self.fill(alloc, records) {
            records.truncate_columns(self.size.width);
            records.truncate_rows(self.size.height);
            return Err(error);
        }
        Ok(())
    }

    /// Writes the texts that it puts outside of the first table. Refused, it leaves the first cells as they were.
    fn fill<R>(&self, alloc: Global, records: &mut R) -> Result<(), AllocError>
    where
        R: Records + ExactRecords + RecordsMut<String>,
        R::Cell: CellText,
        requires well { R.is_well_formed records.old }
        requires wide { self.now.size.width ≤ (R.grid records.old).columns }
        ensures well { R.is_well_formed records.new }
        ensures kept { let j = self.now in FillsTo R.Cell.text_of (text_of_joint j) j.size.height j.size.width 0 0 (R.grid records.old) (R.grid records.new) }
        ensures ok { OnOk result (Fills R.Cell.text_of self.now (R.grid records.old) (R.grid records.new)) }
    {
        let count = records.count_columns();
        for i in 0..records.count_rows() {
            let start = if i < self.size.height {
                self.size.width
            } else {
                0
            };
            for j in start..count {
                if let Some(text) = self.text_at(i, j) {
                    records.set(
                        alloc,
                        Position { row: i, col: j },
                        String::from_str(alloc, text)?,
                    )?;
                }
            }
        }
        Ok(())
    }

    /// The text that it puts at a place outside of the first table; none where the second one lacks the cell.
    fn text_at(&self, row: usize, col: usize) -> Option<&'a str>
        ensures { option_copied result ≡ text_of_joint self.now row col }
    {
        if row < self.corner.row || col < self.corner.col {
            return Some(self.default);
        }
        let pos = Position {
            row: row - self.corner.row,
            col: col - self.corner.col,
        };
        if pos.row >= self.second.count_rows() || pos.col >= self.second.count_columns() {
            return None;
        }
        Some(self.second.get_text(pos))
    }
}

/// Grows a store to a shape that is no smaller. Refused, it leaves the store as it was.
fn grow<R>(alloc: Global, records: &mut R, size: Size) -> Result<(), AllocError>
where
    R: Records + ExactRecords + Resizable,
    R::Cell: CellText,
    requires well { R.is_well_formed records.old }
    requires taller { (R.grid records.old).rows ≤ size.height }
    requires wider { (R.grid records.old).columns ≤ size.width }
    requires rowless { size.height ≡ 0 → size.width ≡ 0 }
    ensures well { R.is_well_formed records.new }
    ensures ok { OnOk result (GrowsTo R.Cell.is_blank size (R.grid records.old) (R.grid records.new)) }
    ensures err { OnErr result (R.grid records.new ≡ R.grid records.old) }
{
    let old = shape_of(records);
    records.push_rows(alloc, size.height - old.height)?;
    if let Err(error) = records.push_columns(alloc, size.width - old.width) {
        records.truncate_rows(old.height);
        return Err(error);
    }
    Ok(())
}
