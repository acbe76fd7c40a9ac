//! What stands for texts in Markdown.

ghost use Rattle.std.specs.Prelude.{◌≡◌, ◌++◌, ◌<◌, IfOk, OnOk, chars, encode_utf8_all, codes, length, map};
ghost use Rattle.std.specs.Fmt.{decimal};
ghost use Rattle.std.specs.String.{string_bytes};
ghost use Rattle.tabled_draw.specs.Markdown.{AreRaised, AreRowsApart, IsCellApart, IsOver, IsRowApart, characters, escape, escaped, goes_on, is_mark, is_markup, is_numbered, markdown_widths, rows_of_characters, texts_apart};
ghost use Rattle.tabled_grid.specs.Evenness.{AreWide};
ghost use Rattle.tabled_grid.specs.Grid.{IsInside, map_grid, map_items};

use std::alloc::{AllocError, Global};
use tabled_grid::config::{CoverMap, Position, SpannedConfig};
use tabled_grid::records::{CellText, ExactRecords, PeekableRecords, Records};
use tabled_width::columns_of;

/// The fewest columns that a column takes.
const LEAST_WIDTH: usize = 3;

/// What stands for the texts of a table (`r x c`): nothing where a merged cell that fits hides them. It may be refused
/// for memory; the table is only read.
pub(crate) fn texts_apart<R>(
    alloc: Global,
    records: &R,
    cfg: &SpannedConfig,
) -> Result<Vec<Vec<String>>, AllocError>
where
    R: Records + ExactRecords + PeekableRecords,
    R::Cell: CellText,
    requires well { R.is_well_formed records.now }
    ensures texts { IfOk result (λ rows. rows_of_characters rows.items ≡ texts_apart (map_grid R.Cell.text_of (R.grid records.now)) cfg.now) }
    ensures wide { IfOk result (λ rows. AreWide (R.grid records.now).columns (map_items rows.items)) }
{
    let rows = records.count_rows();
    let columns = records.count_columns();
    let spans = cfg.fitting(alloc, rows, columns)?;
    let cover = CoverMap::new(alloc, &spans, rows, columns)?;
    all_texts(alloc, records, &cover)
}

/// What stands for the texts of all rows.
fn all_texts<R>(
    alloc: Global,
    records: &R,
    cover: &CoverMap,
) -> Result<Vec<Vec<String>>, AllocError>
where
    R: Records + ExactRecords + PeekableRecords,
    R::Cell: CellText,
    requires well { R.is_well_formed records.now }
    requires over { IsOver (R.grid records.now) cover.now }
    ensures wide { IfOk result (λ texts. AreWide (R.grid records.now).columns (map_items texts.items)) }
    ensures texts { IfOk result (λ texts. AreRowsApart (map_grid R.Cell.text_of (R.grid records.now)) cover.now texts.items) }
{
    let mut texts = Vec::new(alloc);
    for i in 0..records.count_rows() {
        texts.push(row_texts(alloc, records, cover, i)?)?;
    }
    Ok(texts)
}

/// What stands for the texts of a row.
fn row_texts<R>(
    alloc: Global,
    records: &R,
    cover: &CoverMap,
    i: usize,
) -> Result<Vec<String>, AllocError>
where
    R: Records + ExactRecords + PeekableRecords,
    R::Cell: CellText,
    requires well { R.is_well_formed records.now }
    requires row { i < (R.grid records.now).rows }
    requires over { IsOver (R.grid records.now) cover.now }
    ensures long { IfOk result (λ row. length row.items ≡ (R.grid records.now).columns) }
    ensures texts { IfOk result (λ row. IsRowApart (map_grid R.Cell.text_of (R.grid records.now)) cover.now i row.items) }
{
    let mut row = Vec::new(alloc);
    for j in 0..records.count_columns() {
        row.push(text_at(alloc, records, cover, Position { row: i, col: j })?)?;
    }
    Ok(row)
}

/// What stands for the text of a place.
fn text_at<R>(
    alloc: Global,
    records: &R,
    cover: &CoverMap,
    pos: Position,
) -> Result<String, AllocError>
where
    R: Records + ExactRecords + PeekableRecords,
    R::Cell: CellText,
    requires well { R.is_well_formed records.now }
    requires inside { IsInside (R.grid records.now) pos }
    requires over { IsOver (R.grid records.now) cover.now }
    ensures { IfOk result (λ text. IsCellApart (map_grid R.Cell.text_of (R.grid records.now)) cover.now pos text) }
{
    if cover.is_hidden(pos) {
        return Ok(String::new(alloc));
    }
    escaped(alloc, records.get_text(pos))
}

/// What stands for a text.
fn escaped(alloc: Global, text: &str) -> Result<String, AllocError>
    ensures { IfOk result (λ new. characters new ≡ escaped text.now) }
{
    let mut out = String::with_capacity(alloc, text.len())?;
    push_text(alloc, &mut out, text)?;
    Ok(out)
}

/// Appends what stands for a text.
fn push_text(alloc: Global, out: &mut String, text: &str) -> Result<(), AllocError>
    ensures { OnOk result (string_bytes out.new ≡ string_bytes out.old ++ encode_utf8_all (escaped text.now)) }
{
    let mut chars = text.chars();
    let mut before = '\n';
    let Some(mut here) = chars.next() else {
        return Ok(());
    };
    for after in chars {
        push_escaped(alloc, out, before, here, after)?;
        before = here;
        here = after;
    }
    push_escaped(alloc, out, before, here, '\n')
}

/// Appends what stands for a character between two others.
fn push_escaped(
    alloc: Global,
    out: &mut String,
    before: char,
    c: char,
    after: char,
) -> Result<(), AllocError>
    ensures { OnOk result (string_bytes out.new ≡ string_bytes out.old ++ encode_utf8_all (escape before c after)) }
{
    if c == '\n' {
        out.push_str("<br>")
    } else if c == '&' {
        out.push_str("&amp;")
    } else if c == '<' {
        out.push_str("&lt;")
    } else if is_numbered(before, c, after) {
        push_number(alloc, out, c)
    } else if is_markup(before, c, after) {
        out.push('\\')?;
        out.push(c)
    } else {
        out.push(c)
    }
}

/// Appends the number of a character, as Markdown has it.
fn push_number(alloc: Global, out: &mut String, c: char) -> Result<(), AllocError>
    ensures { OnOk result (string_bytes out.new ≡ string_bytes out.old ++ (codes "&#" ++ (decimal c ++ codes ";"))) }
{
    let number = format!(in alloc; "&#{};", u32::from(c))?;
    out.push_str(number.as_str())
}

/// Says whether a character stands as its number between two others.
#[tactic(auto, unfolding(crate::specs::Markdown::is_numbered))]
fn is_numbered(before: char, c: char, after: char) -> bool
    ensures { result ≡ is_numbered before c after }
{
    c.is_control() || c.is_whitespace() && (before.is_whitespace() || after == '\n')
}

/// Says whether a character means something to a reader of Markdown, between two others.
#[tactic(auto, unfolding(crate::specs::Markdown::is_markup))]
fn is_markup(before: char, c: char, after: char) -> bool
    ensures { result ≡ is_markup before c after }
{
    is_mark(c) || c == ':' && goes_on(after) || c == '.' && matches!(before, 'w' | 'W')
}

/// Says whether a character is a mark of Markdown.
#[tactic(auto, unfolding(crate::specs::Markdown::is_mark))]
fn is_mark(c: char) -> bool
    ensures { result ≡ is_mark c }
{
    matches!(c, '\\' | '`' | '*' | '_' | '[' | ']' | '~' | '|')
}

/// Says whether a character goes on behind the colon of a link or of a picture's name.
#[tactic(auto, unfolding(crate::specs::Markdown::goes_on))]
fn goes_on(c: char) -> bool
    ensures { result ≡ goes_on c }
{
    c.is_ascii_alphanumeric() || matches!(c, '/' | '+' | '-')
}

/// The widths of columns, each that of the widest of its texts.
pub(crate) fn markdown_widths(
    alloc: Global,
    rows: &[Vec<String>],
    columns: usize,
) -> Result<Vec<usize>, AllocError>
    requires { AreWide columns (map_items rows.now) }
    ensures { IfOk result (λ widths. widths.items ≡ markdown_widths columns (rows_of_characters rows.now)) }
{
    let mut widths = vec![in alloc; LEAST_WIDTH; columns]?;
    for row in rows {
        raise(&mut widths, row);
    }
    Ok(widths)
}

/// Raises each width to that of the text in its column.
fn raise(widths: &mut Vec<usize>, row: &[String])
    requires { length row.now ≡ length widths.old.items }
    ensures long { length widths.new.items ≡ length widths.old.items }
    ensures raised { AreRaised (map characters row.now) widths.old.items widths.new.items }
{
    for j in 0..row.len() {
        widths[j] = widths[j].max(columns_of(&row[j]));
    }
}
