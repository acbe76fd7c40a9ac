//! Merged cells that are carried along: callers that rely on it, done or refused.

ghost use Rattle.std.specs.Prelude.{◌≡◌, IfOk, IsOk, OnErr, OnOk, Some};
ghost use Rattle.std.specs.Option.{IfSome};
ghost use Rattle.tabled_grid.specs.Entity.{place};
ghost use Rattle.tabled_grid.specs.Fitting.{Fits, keep_fitting};
ghost use Rattle.tabled_grid.specs.Spans.{rectangle, rectangles, sized};
ghost use Rattle.tabled_grid.specs.declared.config.rectangle.Rectangle.{Rectangle};
ghost use Rattle.tabled_carry.specs.Images.{Carries, carried};
ghost use Rattle.tabled_grid.specs.Rectangles.{HasArea};

use crate::geometry::changes;
use std::alloc::{AllocError, Global};
use tabled_carry::laws::{
    carried_rectangles_are_the_images, carried_rectangles_fit, carried_there_and_back_is_as_it_was,
    fitting_rectangles_are_the_free_ones, merged_cells_stay_with_their_cells, there_is_one_image,
};
use tabled_carry::{FittingSpans, MovesRectangles};
use tabled_grid::config::{Position, Rectangle, Size, SpannedConfig};
use tabled_grid::records::{
    Blank, CellText, ExactRecords, PeekableRecords, Records, RecordsMut, Resizable,
};
use tabled_options::TableOption;
use tabled_select::object::{Column, Rows};
use tabled_settings::concat::Concat;
use tabled_settings::disable::{Remove, TargetColumn, TargetRow};
use tabled_settings::extract::Extract;
use tabled_settings::laws::{
    extracts_keep_merged_cells_fitting, joins_keep_merged_cells_fitting,
    merged_cells_reversed_twice_are_as_they_were,
    merged_cells_turned_left_then_right_are_as_they_were, removals_keep_merged_cells_fitting,
    reversals_keep_merged_cells_fitting, rotations_keep_merged_cells_fitting,
    splits_keep_merged_cells_fitting,
};
use tabled_settings::reverse::Reverse;
use tabled_settings::rotate::Rotate;
use tabled_settings::split::Split;
use tabled_table::Table;

/// Turns a table, reverses its rows and cuts them.
pub fn moves_cells<R>(
    alloc: Global,
    records: &mut R,
    cfg: &mut SpannedConfig,
) -> Result<(), AllocError>
where
    R: Records + ExactRecords + PeekableRecords + RecordsMut<String> + Resizable,
    R::Cell: CellText,
    requires well { R.is_well_formed records.old }
    requires fits { Fits cfg.old ((R.grid records.old).rows) ((R.grid records.old).columns) }
    ensures well { R.is_well_formed records.new }
    ensures fits { Fits cfg.new ((R.grid records.new).rows) ((R.grid records.new).columns) }
{
    let turn = Rotate::Left;
    rotations_keep_merged_cells_fitting::<R, ()>(&turn);
    changes(alloc, records, cfg, &mut (), turn)?;
    let reverse = Reverse::rows(1);
    reversals_keep_merged_cells_fitting::<R, ()>(reverse);
    changes(alloc, records, cfg, &mut (), reverse)?;
    let split = Split::column(2);
    splits_keep_merged_cells_fitting::<R, ()>(split);
    changes(alloc, records, cfg, &mut (), split)
}

/// Keeps some rows, takes a row and a column away, and joins a second table.
pub fn takes_parts<R>(
    alloc: Global,
    records: &mut R,
    cfg: &mut SpannedConfig,
    second: Table,
) -> Result<(), AllocError>
where
    R: Records + ExactRecords + PeekableRecords + RecordsMut<String> + Resizable,
    R::Cell: CellText,
    requires well { R.is_well_formed records.old }
    requires fits { Fits cfg.old ((R.grid records.old).rows) ((R.grid records.old).columns) }
    ensures well { R.is_well_formed records.new }
    ensures fits { Fits cfg.new ((R.grid records.new).rows) ((R.grid records.new).columns) }
{
    let rows = Extract::rows(1..9);
    extracts_keep_merged_cells_fitting::<R, (), _, _>(&rows);
    changes(alloc, records, cfg, &mut (), rows)?;
    let row = Remove::row(Rows::new(0..1));
    removals_keep_merged_cells_fitting::<R, (), _, TargetRow>(&row);
    changes(alloc, records, cfg, &mut (), row)?;
    let column = Remove::column(Column::from(1));
    removals_keep_merged_cells_fitting::<R, (), _, TargetColumn>(&column);
    changes(alloc, records, cfg, &mut (), column)?;
    let join = Concat::vertical(alloc, second);
    joins_keep_merged_cells_fitting::<R, ()>(&join);
    changes(alloc, records, cfg, &mut (), join)
}

/// Takes the merged cells away that do not fit a table (`rows x columns`).
pub fn keeps_what_fits(
    alloc: Global,
    cfg: &mut SpannedConfig,
    rows: usize,
    columns: usize,
) -> Result<(), AllocError>
    ensures { OnOk result (cfg.new ≡ keep_fitting rows columns cfg.old) }
{
    let table = Size {
        height: rows,
        width: columns,
    };
    FittingSpans::of(alloc, cfg, table)?.stay(cfg);
    Ok(())
}

/// The merged cells that fit a table (`rows x columns`), beside all of them.
pub fn what_fits(
    alloc: Global,
    cfg: &SpannedConfig,
    rows: usize,
    columns: usize,
) -> Result<SpannedConfig, AllocError>
    ensures { IfOk result (λ fitting. fitting ≡ keep_fitting rows columns cfg.now) }
{
    cfg.fitting(alloc, rows, columns)
}

/// Carries merged cells along where a caller's own code moves the cells of a table (`rows x columns`).
pub fn carries_along<M: MovesRectangles>(
    alloc: Global,
    moves: &M,
    cfg: &mut SpannedConfig,
    rows: usize,
    columns: usize,
) -> Result<(), AllocError>
    ensures ok { OnOk result (cfg.new ≡ carried (M.places moves.now) rows columns cfg.old) }
    ensures err { OnErr result (cfg.new ≡ cfg.old) }
    ensures promised { Fits cfg.old rows columns → IsOk result }
{
    let table = Size {
        height: rows,
        width: columns,
    };
    FittingSpans::of(alloc, cfg, table)?.carry_along(alloc, moves, cfg);
    Ok(())
}

/// Where the merged cells go that are anchored at the first place, two rows and three columns of them.
pub fn first_goes<M: MovesRectangles>(moves: &M) -> Option<Rectangle>
    ensures carries { IfSome result (λ f. Carries (M.places moves.now) (rectangle (place 0 0) (sized 2 3)) f) }
    ensures finds { (f : Rectangle) → Carries (M.places moves.now) (rectangle (place 0 0) (sized 2 3)) f → HasArea f → result ≡ Some f }
{
    let size = Size {
        height: 2,
        width: 3,
    };
    moves.new_rectangle(Rectangle {
        first: Position::new(0, 0),
        size,
    })
}

/// Turns a table upside down whose merged cells fit it, which no want of memory stops.
pub fn turns_what_fits<R>(
    alloc: Global,
    records: &mut R,
    cfg: &mut SpannedConfig,
) -> Result<(), AllocError>
where
    R: Records + ExactRecords + Resizable,
    R::Cell: Blank,
    requires well { R.is_well_formed records.old }
    requires fits { Fits cfg.old ((R.grid records.old).rows) ((R.grid records.old).columns) }
    ensures well { R.is_well_formed records.new }
    ensures promised { IsOk result }
{
    Rotate::Top.change(alloc, records, cfg, &mut ())
}

/// Gives the list of a map's rectangles away.
pub fn lists_rectangles(cfg: SpannedConfig) -> Vec<Rectangle>
    ensures { result.items ≡ rectangles cfg }
{
    cfg.into_rectangles()
}

/// Calls the laws of what is carried along.
pub fn knows_what_is_carried() {
    fitting_rectangles_are_the_free_ones();
    carried_rectangles_are_the_images();
    there_is_one_image();
    carried_rectangles_fit();
    carried_there_and_back_is_as_it_was();
    merged_cells_stay_with_their_cells();
    merged_cells_turned_left_then_right_are_as_they_were();
    merged_cells_reversed_twice_are_as_they_were();
}
