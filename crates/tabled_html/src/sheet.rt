//! Tables that are written as HTML.

use crate::page::Page;
use std::marker::Model;
use tabled_grid::config::SpannedConfig;
use tabled_grid::records::{CellText, ExactRecords, PeekableRecords, Records};

/// A table that is written as HTML: its cells, merged cells that all fit it, and how it looks.
#[derive(Drop)]
pub(crate) struct Sheet<'a, R>
where
    R: Records + ExactRecords + PeekableRecords,
    R::Cell: CellText,
{
    pub(crate) records: &'a R,
    pub(crate) spans: SpannedConfig,
    pub(crate) page: &'a Page<'a>,
}

impl<'a, R> Model for Sheet<'a, R>
where
    R: Records + ExactRecords + PeekableRecords,
    R::Cell: CellText,
{
    ghost use Rattle.std.specs.Coded.{codes};
    ghost use Rattle.tabled_grid.specs.Grid.{map_grid};
    ghost use Rattle.tabled_grid.specs.Spans.{span_code};
    ghost use Rattle.tabled_html.specs.Written.{IsSound, Written, written_as};

    ghost Value = { Written };

    ghost coded = { Prim.hlevel (codes, span_code) };

    ghost view = { λ a. written_as (map_grid R.Cell.text_of (R.grid a.records.now)) a.spans a.page.now };

    ghost invariant = { λ a. R.is_well_formed a.records.now × IsSound (written_as (map_grid R.Cell.text_of (R.grid a.records.now)) a.spans a.page.now) };
}
