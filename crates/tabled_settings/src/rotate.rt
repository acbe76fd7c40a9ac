//! Tables turned by a quarter, or upside down.

ghost use Rattle.std.specs.Prelude.{◌≡◌, ◌⊎◌, IsOk, OnErr, OnOk};
ghost use Rattle.tabled_settings.specs.declared.rotate.Rotate.TheVariants.{Bottom, Top};
ghost use Rattle.tabled_grid.specs.Fitting.{Fits};
ghost use Rattle.tabled_settings.specs.Rearranged.{IsRotated, Rearranges, quarter_of, rotated};
ghost use Rattle.std.proofs.Common.{rules};

use crate::lines;
use std::alloc::{AllocError, Global};
use tabled_carry::{FittingSpans, Moves, MovesRectangles};
use tabled_grid::config::{Entity, Position, Rectangle, Size, SpannedConfig};
use tabled_grid::records::{Axis, Blank, ExactRecords, Records, Resizable, shape_of};
use tabled_options::TableOption;

/// Turns a table, and its merged cells with it. Refused for memory, it leaves the table as it was; `Top` and
/// `Bottom` take none where all merged cells fit the table.
///
/// ```text
/// a b c    Left: c f    Right: d a    Top: d e f
/// d e f          b e           e b         a b c
///                a d           f c
/// ```
///
/// By a quarter, rows without cells become no rows; upside down they stay.
///
/// Ported from `tabled::settings::Rotate`.
#[derive(Debug, Drop)]
pub enum Rotate {
    /// By a quarter to the left (r x c to c x r): the last column becomes the first row.
    Left,
    /// By a quarter to the right (r x c to c x r): the first column becomes the first row.
    Right,
    /// Upside down (r x c): the last row becomes the first.
    Top,
    /// Upside down (r x c), as `Top`.
    Bottom,
}

impl<R, D> TableOption<R, SpannedConfig, D> for Rotate
where
    R: Records + ExactRecords + Resizable,
    R::Cell: Blank,
{
    ghost does = { λ s old. Rearranges (rotated s old.rows old.columns) old };

    ghost never_refused = { λ s g c. ((s ≡ Top) ⊎ (s ≡ Bottom)) × Fits c g.rows g.columns };

    fn change(
        self,
        alloc: Global,
        records: &mut R,
        cfg: &mut SpannedConfig,
        _dimension: &mut D,
    ) -> Result<(), AllocError> {
        let table = shape_of(records);
        let rotation = Rotation {
            rotate: self,
            table,
        };
        let fitting = FittingSpans::of(alloc, cfg, table)?;
        rotate_cells(alloc, &rotation.rotate, records)?;
        fitting.carry_along(alloc, &rotation, cfg);
        Ok(())
    }

    fn hint_change(&self) -> Option<Entity> {
        Some(Entity::Global)
    }

    ghost acts_like = { Prim.search rules };
}

/// A turn of a table of a shape.
#[derive(Drop)]
struct Rotation {
    rotate: Rotate,
    table: Size,
}

impl Moves for Rotation {
    ghost places = { λ t. rotated t.rotate t.table.height t.table.width };
}

impl MovesRectangles for Rotation {
    fn new_rectangle(&self, of: Rectangle) -> Option<Rectangle> {
        let Rectangle {
            first,
            size: Size { height, width },
        } = of;
        let bottom = first.row + height;
        let right = first.col + width;
        if bottom > self.table.height || right > self.table.width {
            return None;
        }
        let turned = Size {
            height: width,
            width: height,
        };
        Some(match self.rotate {
            Rotate::Left => Rectangle {
                first: Position::new(self.table.width - right, first.row),
                size: turned,
            },
            Rotate::Right => Rectangle {
                first: Position::new(first.col, self.table.height - bottom),
                size: turned,
            },
            Rotate::Top | Rotate::Bottom => Rectangle {
                first: Position::new(self.table.height - bottom, first.col),
                size: of.size,
            },
        })
    }
}

/// Turns the cells of a table.
fn rotate_cells<R>(alloc: Global, rotate: &Rotate, records: &mut R) -> Result<(), AllocError>
where
    R: Records + ExactRecords + Resizable,
    R::Cell: Blank,
    requires well { R.is_well_formed records.old }
    ensures well { R.is_well_formed records.new }
    ensures ok { OnOk result (IsRotated rotate.now (R.grid records.old) (R.grid records.new)) }
    ensures err { OnErr result (R.grid records.new ≡ R.grid records.old) }
    ensures promised { (rotate.now ≡ Top) ⊎ (rotate.now ≡ Bottom) → IsOk result }
{
    match rotate {
        Rotate::Left => quarter(alloc, records, Axis::Rows),
        Rotate::Right => quarter(alloc, records, Axis::Columns),
        Rotate::Top | Rotate::Bottom => {
            let rows = records.count_rows();
            lines::reverse(Axis::Rows, records, 0, rows);
            Ok(())
        }
    }
}

/// Exchanges rows and columns, and then reverses the rows, for a turn to the left, or the columns.
fn quarter<R>(alloc: Global, records: &mut R, reversed: Axis) -> Result<(), AllocError>
where
    R: Records + ExactRecords + Resizable,
    R::Cell: Blank,
    requires well { R.is_well_formed records.old }
    ensures well { R.is_well_formed records.new }
    ensures ok { OnOk result (IsRotated (quarter_of reversed) (R.grid records.old) (R.grid records.new)) }
    ensures err { OnErr result (R.grid records.new ≡ R.grid records.old) }
{
    records.transpose(alloc)?;
    let count = reversed.count(records);
    lines::reverse(reversed, records, 0, count);
    Ok(())
}
