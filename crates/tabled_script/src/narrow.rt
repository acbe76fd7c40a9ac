//! Tables that are drawn in at most so many columns.

ghost use Rattle.std.specs.Prelude.{◌≡◌, IfOk};
ghost use Rattle.tabled_script.specs.InMemory.{grid_of_texts};
ghost use Rattle.tabled_grid.specs.Grid.{IsEven, grid_of, map_grid, map_items};
ghost use Rattle.tabled_script.specs.Narrow.{at_widest_pieces, at_widest_word, cut_to, limits_of, wrapped_by};
ghost use Rattle.tabled_draw.specs.Width.{column_widths};

use crate::limits::limits;
use crate::text_rooms::{Columns, TextRoom, wrapped_texts};
use std::alloc::{AllocError, Global};
use tabled_draw::{Style, column_widths};
use tabled_grid::config::SpannedConfig;
use tabled_grid::records::{CellText, ExactRecords, PeekableRecords, Records};

/// The texts of a table, each cut to its widest piece.
pub(crate) fn at_widest_pieces<R>(
    alloc: Global,
    records: &R,
) -> Result<Vec<Vec<String>>, AllocError>
where
    R: Records + ExactRecords + PeekableRecords,
    R::Cell: CellText,
    requires { R.is_well_formed records.now }
    ensures texts { IfOk result (λ texts. grid_of_texts (map_items texts.items) ≡ at_widest_pieces (map_grid R.Cell.text_of (R.grid records.now))) }
    ensures even { IfOk result (λ texts. IsEven (grid_of (map_items texts.items))) }
{
    wrapped_texts(alloc, records, &TextRoom::WidestPiece)
}

/// The texts of a table, cut to the widths of its columns for a picture of a width. `pieces` are those texts,
/// each cut to its widest piece.
pub(crate) fn cut_to<R>(
    alloc: Global,
    records: &R,
    pieces: &Vec<Vec<String>>,
    cfg: &SpannedConfig,
    style: &Style,
    width: usize,
) -> Result<Vec<Vec<String>>, AllocError>
where
    R: Records + ExactRecords + PeekableRecords,
    R::Cell: CellText,
    requires well { R.is_well_formed records.now }
    requires even { IsEven (grid_of (map_items pieces.now.items)) }
    requires pieces { grid_of_texts (map_items pieces.now.items) ≡ at_widest_pieces (map_grid R.Cell.text_of (R.grid records.now)) }
    ensures texts { IfOk result (λ texts. grid_of_texts (map_items texts.items) ≡ cut_to width style.now cfg.now (map_grid R.Cell.text_of (R.grid records.now))) }
    ensures even { IfOk result (λ texts. IsEven (grid_of (map_items texts.items))) }
{
    let of_lines = column_widths(alloc, records, cfg, style)?;
    let of_words = word_widths(alloc, records, cfg, style)?;
    let of_pieces = column_widths(alloc, pieces, cfg, style)?;
    let widths = limits(
        alloc,
        width,
        style.columns,
        &of_lines,
        &of_words,
        &of_pieces,
    )?;
    let kept = cfg.fitting(alloc, records.count_rows(), records.count_columns())?;
    let columns = Columns {
        widths: &widths,
        lines: style.columns,
        spans: &kept,
    };
    wrapped_texts(alloc, records, &TextRoom::Cell(columns))
}

/// The widths of the columns of a table whose texts are each cut to its widest word.
fn word_widths<R>(
    alloc: Global,
    records: &R,
    cfg: &SpannedConfig,
    style: &Style,
) -> Result<Vec<usize>, AllocError>
where
    R: Records + ExactRecords + PeekableRecords,
    R::Cell: CellText,
    requires { R.is_well_formed records.now }
    ensures { IfOk result (λ widths. widths.items ≡ column_widths style.now (wrapped_by at_widest_word (map_grid R.Cell.text_of (R.grid records.now))) cfg.now) }
{
    let words = wrapped_texts(alloc, records, &TextRoom::WidestWord)?;
    column_widths(alloc, &words, cfg, style)
}
