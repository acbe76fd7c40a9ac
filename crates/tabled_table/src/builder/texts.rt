//! Rows of strings as rows of cells, and back, with no text copied.

ghost use Rattle.std.specs.Prelude.{◌≡◌, IfOk};
ghost use Rattle.tabled_table.specs.Builder.{row_texts};

use std::alloc::{AllocError, Global};
use tabled_grid::records::Text;

/// The cells of a row of strings.
fn cells(alloc: Global, row: Vec<String>) -> Result<Vec<Text<String>>, AllocError>
    ensures { IfOk result (λ cells. cells.items ≡ row.items) }
{
    row.into_iter().map(Text::new).collect(alloc)
}

/// The strings of a row of cells.
fn strings(alloc: Global, row: Vec<Text<String>>) -> Result<Vec<String>, AllocError>
    ensures { IfOk result (λ strings. strings.items ≡ row.items) }
{
    row.into_iter().map(Text::into_inner).collect(alloc)
}

/// The cells of rows of strings.
pub(super) fn cell_rows(
    alloc: Global,
    rows: Vec<Vec<String>>,
) -> Result<Vec<Vec<Text<String>>>, AllocError>
    ensures { IfOk result (λ all. row_texts all.items ≡ row_texts rows.items) }
{
    let mut all = Vec::with_capacity(alloc, rows.len())?;
    for row in rows {
        all.push(cells(alloc, row)?)?;
    }
    Ok(all)
}

/// The strings of rows of cells.
pub(super) fn string_rows(
    alloc: Global,
    rows: Vec<Vec<Text<String>>>,
) -> Result<Vec<Vec<String>>, AllocError>
    ensures { IfOk result (λ all. row_texts all.items ≡ row_texts rows.items) }
{
    let mut all = Vec::with_capacity(alloc, rows.len())?;
    for row in rows {
        all.push(strings(alloc, row)?)?;
    }
    Ok(all)
}
