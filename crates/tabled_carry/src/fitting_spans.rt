//! Maps of merged cells, carried along when the cells of a table move.

ghost use Rattle.std.specs.Prelude.{◌≡◌, IfOk, IsOk};
ghost use Rattle.tabled_grid.specs.Fitting.{Fits, keep_fitting};
ghost use Rattle.tabled_grid.specs.Spans.{AreAnchors, map_of};
ghost use Rattle.tabled_carry.specs.Found.{IsFoundOf};
ghost use Rattle.tabled_carry.specs.Images.{carried, image};

use crate::images::MovesRectangles;
use crate::sort::sort;
use std::alloc::{AllocError, Global};
use std::marker::Model;
use std::mem;
use tabled_grid::config::{Rectangle, Size, SpannedConfig};

/// The merged cells of a table (`rows x columns`) that fit it, found before its cells move. A contract sees it
/// as what was found: that shape, and those that fit, or none where all do.
///
/// Of this project.
#[derive(Drop)]
pub struct FittingSpans {
    table: Size,
    /// None where all fit.
    fitting: Option<SpannedConfig>,
}

impl Model for FittingSpans {
    ghost use Rattle.tabled_carry.specs.Found.{Found, found_code};

    ghost Value = { Found };

    ghost coded = { found_code };

    ghost view = { λ a. record { table = a.table; fitting = a.fitting } };
}

impl FittingSpans {
    /// Those of the merged cells of a table, of which the shape is given. It takes memory only where one doesn't fit.
    pub fn of(alloc: Global, cfg: &SpannedConfig, table: Size) -> Result<Self, AllocError>
        ensures found { IfOk result (IsFoundOf cfg.now) }
        ensures table { IfOk result (λ found. found.table ≡ table) }
        ensures promised { Fits cfg.now table.height table.width → IsOk result }
    {
        let fitting = if cfg.fits(table.height, table.width) {
            None
        } else {
            Some(cfg.fitting(alloc, table.height, table.width)?)
        };
        Ok(FittingSpans { table, fitting })
    }

    /// Takes the others away from the merged cells that these were found of, where cells kept their places.
    pub fn stay(self, cfg: &mut SpannedConfig)
        requires { IsFoundOf cfg.old self }
        ensures { cfg.new ≡ keep_fitting self.table.height self.table.width cfg.old }
    {
        if let Some(fitting) = self.fitting {
            *cfg = fitting;
        }
    }

    /// Carries the merged cells that these were found of along, where cells have moved: those that did not fit
    /// the table go, and each of the others goes to where the new places of its cells form a rectangle, or else
    /// comes apart. It takes no memory.
    pub fn carry_along<M: MovesRectangles>(self, alloc: Global, moves: &M, cfg: &mut SpannedConfig)
        requires { IsFoundOf cfg.old self }
        ensures carried { cfg.new ≡ carried (M.places moves.now) self.table.height self.table.width cfg.old }
    {
        let FittingSpans { table, fitting } = self;
        let fitting = match fitting {
            Some(fitting) => fitting,
            // No merged cells stand in meanwhile, which takes no memory.
            None => mem::replace(cfg, SpannedConfig::new(alloc)),
        };
        *cfg = carried_fitting(moves, fitting, table);
    }
}

/// What becomes of merged cells that fit a table.
fn carried_fitting<M: MovesRectangles>(moves: &M, cfg: SpannedConfig, table: Size) -> SpannedConfig
    requires { Fits cfg table.height table.width }
    ensures image { result ≡ image (M.places moves.now) cfg }
{
    let mut anchors = cfg.into_rectangles();
    carry(moves, &mut anchors, table);
    SpannedConfig::from_rectangles(anchors)
}

/// Puts the rectangles that those of a list are carried to in their stead, row by row.
fn carry<M: MovesRectangles>(moves: &M, anchors: &mut Vec<Rectangle>, table: Size)
    requires anchors { AreAnchors anchors.old.items }
    requires fits { Fits (map_of anchors.old.items) table.height table.width }
    ensures anchors { AreAnchors anchors.new.items }
    ensures image { map_of anchors.new.items ≡ image (M.places moves.now) (map_of anchors.old.items) }
{
    let mut count = 0;
    for index in 0..anchors.len() {
        if let Some(image) = moves.new_rectangle(anchors[index]) {
            anchors[count] = image;
            count += 1;
        }
    }
    anchors.truncate(count);
    sort(anchors);
}
