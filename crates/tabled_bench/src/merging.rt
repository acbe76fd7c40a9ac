//! Options that merge cells of a table.

use crate::tables::Store;
use std::alloc::{AllocError, Global};
use tabled_grid::config::{Position, SpannedConfig};
use tabled_grid::records::{ExactRecords, Records};
use tabled_options::{Modify, TableOption};
use tabled_select::object::{Frame, Segment};
use tabled_spans::merge::Merge;
use tabled_spans::panel::Panel;
use tabled_spans::span::{ColumnSpan, Span};

/// What merges cells.
#[derive(Clone, Copy)]
pub(crate) enum Merging {
    /// A span of two columns on each cell.
    ColumnSpans,
    /// A span of one row back on each cell.
    RowSpansBack,
    /// A span of two columns on each cell at the edges.
    FrameSpans,
    /// A span of all columns on each cell, where the last column is one cell.
    WidestSpans,
    /// A header, n times.
    Headers,
    /// A row of one text in the middle, n times.
    Panels,
    /// Equal neighbours in columns.
    Runs,
}

impl Merging {
    pub(crate) fn of_name(name: &str) -> Option<Merging> {
        match name {
            "columnspans" => Some(Merging::ColumnSpans),
            "rowspansback" => Some(Merging::RowSpansBack),
            "framespans" => Some(Merging::FrameSpans),
            "widestspans" => Some(Merging::WidestSpans),
            "headers" => Some(Merging::Headers),
            "panels" => Some(Merging::Panels),
            "runs" => Some(Merging::Runs),
            _ => None,
        }
    }
}

/// Merges cells of a table. The size says how often a panel is put in.
pub(crate) fn run(
    alloc: Global,
    store: &mut Store,
    cfg: &mut SpannedConfig,
    size: usize,
    merging: Merging,
) -> Result<(), AllocError> {
    match merging {
        Merging::ColumnSpans => {
            let option = Modify::list(Segment::all(), Span::column(2));
            option.change(alloc, store, cfg, &mut ())
        }
        Merging::RowSpansBack => {
            let option = Modify::list(Segment::all(), Span::row(-1));
            option.change(alloc, store, cfg, &mut ())
        }
        Merging::FrameSpans => {
            let option = Modify::list(Frame, Span::column(2));
            option.change(alloc, store, cfg, &mut ())
        }
        Merging::WidestSpans => {
            let last = Position::new(0, store.count_columns().saturating_sub(1));
            cfg.set_row_span(alloc, last, store.count_rows())?;
            let option = Modify::list(Segment::all(), ColumnSpan::max());
            option.change(alloc, store, cfg, &mut ())
        }
        Merging::Headers => put_headers(alloc, store, cfg, size),
        Merging::Panels => put_panels(alloc, store, cfg, size),
        Merging::Runs => Merge::vertical().change(alloc, store, cfg, &mut ()),
    }
}

fn put_headers(
    alloc: Global,
    store: &mut Store,
    cfg: &mut SpannedConfig,
    many: usize,
) -> Result<(), AllocError> {
    for _ in 0..many {
        let text = String::from_str(alloc, "x")?;
        Panel::header(text).change(alloc, store, cfg, &mut ())?;
    }
    Ok(())
}

fn put_panels(
    alloc: Global,
    store: &mut Store,
    cfg: &mut SpannedConfig,
    many: usize,
) -> Result<(), AllocError> {
    for _ in 0..many {
        let text = String::from_str(alloc, "x")?;
        let middle = store.count_rows() / 2;
        Panel::horizontal(middle, text).change(alloc, store, cfg, &mut ())?;
    }
    Ok(())
}
