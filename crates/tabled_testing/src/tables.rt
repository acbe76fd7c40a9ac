//! Tables as words.
//!
//! A table is spelled by its words with a slash after each row, as in `a b / c _ /`, where `_` stands for
//! an empty text. After the last row stands each merged cell, as `1.0:2x3` for 2 rows and 3 columns from
//! row 1 and column 0 on.

ghost use Rattle.std.specs.Prelude.{IfOk};

use std::alloc::{AllocError, Global};
use tabled_grid::config::{Entity, Position, Rectangle, SpannedConfig};
use tabled_grid::records::{
    CellText, ExactRecords, GridStore, PeekableRecords, Records, RecordsMut, Resizable, Text,
    VecRecords,
};
use tabled_options::CellOption;

/// A store of one vector of cells.
pub type Flat = VecRecords<Text<String>>;

/// A store of a vector for each row.
pub type Nested = Vec<Vec<Text<String>>>;

/// The shape of a table that is spelled.
fn shape_of(table: &str) -> (usize, usize) {
    let mut rows: usize = 0;
    let mut columns: usize = 0;
    let mut words: usize = 0;
    for word in table.split_whitespace() {
        if word == "/" {
            rows = rows.saturating_add(1);
            columns = words;
            words = 0;
        } else {
            words = words.saturating_add(1);
        }
    }
    (rows, columns)
}

/// Grows an empty store to a table that is spelled.
fn filled<R>(alloc: Global, mut records: R, table: &str) -> Result<R, AllocError>
where
    R: Records + ExactRecords + RecordsMut<String> + Resizable + Drop,
    R::Cell: CellText,
    requires { R.is_well_formed records }
    ensures { IfOk result (λ records. R.is_well_formed records) }
{
    let (rows, columns) = shape_of(table);
    records.push_rows(alloc, rows)?;
    records.push_columns(alloc, columns)?;
    let mut words = table.split_whitespace();
    for pos in Entity::Global.iter(rows, columns) {
        let word = match words.next() {
            Some("/") => words.next(),
            word => word,
        };
        let word = word.unwrap_or("");
        let text = String::from_str(alloc, if word == "_" { "" } else { word })?;
        text.change(alloc, &mut records, &mut (), Entity::Cell(pos.row, pos.col))?;
    }
    Ok(records)
}

/// A table that is spelled, in one vector of cells.
pub fn flat(alloc: Global, table: &str) -> Result<Flat, AllocError> {
    filled(alloc, VecRecords::new(alloc, Vec::new(alloc))?, table)
}

/// A table that is spelled, in a vector for each row.
pub fn nested(alloc: Global, table: &str) -> Result<Nested, AllocError>
    ensures { IfOk result (λ records. ⟦<Nested as GridStore>⟧.is_well_formed records) }
{
    let empty: Nested = Vec::new(alloc);
    filled(alloc, empty, table)
}

/// Writes a word after others. Refused, it leaves the words as they were, or with a blank after them.
pub fn push_word(words: &mut String, word: &str) -> Result<(), AllocError> {
    if !words.is_empty() {
        words.push(' ')?;
    }
    words.push_str(word)
}

/// Spells a table. Columns of a table without rows, which no store has, would be spelled by their number.
pub fn spelled<R>(alloc: Global, records: &R) -> Result<String, AllocError>
where
    R: Records + ExactRecords + PeekableRecords,
    R::Cell: CellText,
    requires { R.is_well_formed records.now }
{
    let rows = records.count_rows();
    let columns = records.count_columns();
    let mut words = String::new(alloc);
    for row in 0..rows {
        for col in 0..columns {
            let text = records.get_text(Position { row, col });
            push_word(&mut words, if text.is_empty() { "_" } else { text })?;
        }
        push_word(&mut words, "/")?;
    }
    if rows == 0 && columns > 0 {
        words = format!(in alloc; "0x{columns}")?;
    }
    Ok(words)
}

/// Whether these are the words.
pub fn is_word(made: Result<String, AllocError>, want: &str) -> bool {
    match made {
        Ok(words) => words.as_str() == want,
        Err(_) => false,
    }
}

/// Whether a table is spelled so.
pub fn spells<R>(alloc: Global, records: &R, want: &str) -> bool
where
    R: Records + ExactRecords + PeekableRecords,
    R::Cell: CellText,
    requires { R.is_well_formed records.now }
{
    is_word(spelled(alloc, records), want)
}

/// A place and two sizes of a word such as `1.0:2x3`.
fn rectangle(word: &str) -> Option<(Position, usize, usize)> {
    let (place, sizes) = word.split_once(':')?;
    let (row, col) = place.split_once('.')?;
    let (height, width) = sizes.split_once('x')?;
    let pos = Position {
        row: row.parse().ok()?,
        col: col.parse().ok()?,
    };
    Some((pos, height.parse().ok()?, width.parse().ok()?))
}

/// The merged cells that are spelled after a table, or alone.
pub fn merged(alloc: Global, table: &str) -> Result<SpannedConfig, AllocError> {
    let mut cfg = SpannedConfig::new(alloc);
    let rectangles = match table.rsplit_once('/') {
        Some((_, after)) => after,
        None => table,
    };
    for word in rectangles.split_whitespace() {
        if let Some((pos, height, width)) = rectangle(word) {
            cfg.set_row_span(alloc, pos, height)?;
            cfg.set_column_span(alloc, pos, width)?;
        }
    }
    Ok(cfg)
}

/// Writes merged cells after words.
pub fn push_merged(
    alloc: Global,
    words: &mut String,
    cfg: &SpannedConfig,
) -> Result<(), AllocError> {
    for Rectangle { first, size } in cfg.rectangles().iter() {
        let (row, col) = (first.row, first.col);
        let (height, width) = (size.height, size.width);
        let rectangle = format!(in alloc; "{row}.{col}:{height}x{width}")?;
        push_word(words, rectangle.as_str())?;
    }
    Ok(())
}

/// Spells a table with its merged cells.
pub fn spelled_merged<R>(
    alloc: Global,
    records: &R,
    cfg: &SpannedConfig,
) -> Result<String, AllocError>
where
    R: Records + ExactRecords + PeekableRecords,
    R::Cell: CellText,
    requires { R.is_well_formed records.now }
{
    let mut words = spelled(alloc, records)?;
    push_merged(alloc, &mut words, cfg)?;
    Ok(words)
}
