//! Calls of merged cells.

ghost use Rattle.std.specs.Prelude.{◌≤◌};

use crate::watch::Watch;
use std::alloc::{AllocError, Global};
use tabled_grid::config::{CoverMap, Position, SpannedConfig};

/// The height of staggered rectangles, and the number of rows that they begin in.
const HEIGHT: usize = 100;

/// How cells are merged.
#[derive(Clone, Copy)]
pub(crate) enum Merged {
    /// `size` rectangles of 1 x 2 side by side in one row.
    Flat,
    /// `size` rectangles of 2 x 1 side by side in one row.
    Tall,
    /// `size` rectangles of 100 x 1 side by side, each a row below the last one, and every hundredth in
    /// the first row again.
    Staggered,
    /// `size` rectangles of 1 x 2 below one that covers all.
    Covered,
    /// A rectangle of 1 x 2 at each tenth place of `size x size`.
    Tenths,
    /// `Flat`, of which every hundredth is 1 x 3, and shares a cell with the next one.
    FlatSharing,
    /// `Tall`, of which every hundredth is 2 x 2, and shares cells with the next one.
    TallSharing,
    /// `Staggered`, of which every thousandth is 100 x 2, and shares cells with the next one.
    StaggeredSharing,
}

/// What is done with them.
#[derive(Clone, Copy)]
pub(crate) enum Call {
    Fits,
    DropHidden,
    /// What doesn't fit is taken away.
    KeepFitting,
    /// A cover map is made.
    Cover,
}

/// Merges cells, does a call, and counts something of what it says or leaves.
pub(crate) fn run(
    alloc: Global,
    size: usize,
    merged: Merged,
    call: Call,
    watch: &mut Watch,
) -> Result<usize, AllocError> {
    let mut spans = make(alloc, size, merged)?;
    let first = Position::new(0, 0);
    match call {
        Call::Fits => {
            watch.start();
            let fits = spans.fits(usize::MAX, usize::MAX);
            watch.stop();
            return Ok(usize::from(fits));
        }
        Call::DropHidden => {
            watch.start();
            spans.drop_hidden();
            watch.stop();
        }
        Call::KeepFitting => {
            watch.start();
            spans.keep_fitting(alloc, usize::MAX, usize::MAX)?;
            watch.stop();
        }
        Call::Cover => {
            watch.start();
            let cover = CoverMap::new(alloc, &spans, size, size)?;
            watch.stop();
            return Ok(if size > 0 && cover.is_hidden(first) {
                1
            } else {
                0
            });
        }
    }
    Ok(spans.get_column_span(first).unwrap_or(1))
}

pub(crate) fn make(
    alloc: Global,
    size: usize,
    merged: Merged,
) -> Result<SpannedConfig, AllocError> {
    let mut spans = SpannedConfig::new(alloc);
    match merged {
        Merged::Flat => in_row(alloc, &mut spans, 0, size)?,
        Merged::Tall => tall(alloc, &mut spans, size)?,
        Merged::Staggered => staggered(alloc, &mut spans, size)?,
        Merged::Covered => {
            let first = Position::new(0, 0);
            spans.set_row_span(alloc, first, 2)?;
            spans.set_column_span(alloc, first, usize::MAX)?;
            in_row(alloc, &mut spans, 1, size)?;
        }
        Merged::Tenths => {
            for i in 0..size {
                for j in (0..size).step_by(10) {
                    spans.set_column_span(alloc, Position::new(i, j), 2)?;
                }
            }
        }
        Merged::FlatSharing => {
            in_row(alloc, &mut spans, 0, size)?;
            widen(alloc, &mut spans, size.saturating_mul(2), 200, 3)?;
        }
        Merged::TallSharing => {
            tall(alloc, &mut spans, size)?;
            widen(alloc, &mut spans, size, 100, 2)?;
        }
        Merged::StaggeredSharing => {
            staggered(alloc, &mut spans, size)?;
            widen(alloc, &mut spans, size, 1_000, 2)?;
        }
    }
    Ok(spans)
}

/// Merges two cells, n times in one row.
fn in_row(
    alloc: Global,
    cfg: &mut SpannedConfig,
    row: usize,
    many: usize,
) -> Result<(), AllocError> {
    for k in 0..many {
        cfg.set_column_span(alloc, Position::new(row, k.saturating_mul(2)), 2)?;
    }
    Ok(())
}

/// Merges two cells of a column, at n columns side by side.
fn tall(alloc: Global, cfg: &mut SpannedConfig, many: usize) -> Result<(), AllocError> {
    for j in 0..many {
        cfg.set_row_span(alloc, Position::new(0, j), 2)?;
    }
    Ok(())
}

/// Merges a hundred cells of a column, at n columns, each a row below the last one.
fn staggered(alloc: Global, cfg: &mut SpannedConfig, many: usize) -> Result<(), AllocError> {
    for i in 0..HEIGHT {
        for j in (i..many).step_by(HEIGHT) {
            cfg.set_row_span(alloc, Position::new(i, j), HEIGHT)?;
        }
    }
    Ok(())
}

/// Sets a width in the first row, at each column of a range that is a multiple of a step.
fn widen(
    alloc: Global,
    cfg: &mut SpannedConfig,
    columns: usize,
    step: usize,
    width: usize,
) -> Result<(), AllocError>
    requires { 1 ≤ step }
{
    for j in (0..columns).step_by(step) {
        cfg.set_column_span(alloc, Position::new(0, j), width)?;
    }
    Ok(())
}
