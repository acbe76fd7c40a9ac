//! Rows of texts as records, which lend them.

ghost use Rattle.std.specs.Prelude.{◌≡◌, IfOk, map};
ghost use Rattle.tabled_texts.specs.Texts.{rows_of, text_of};
ghost use Rattle.tabled_language.specs.Lent.{texts_in_records, texts_in_row};

use std::alloc::{AllocError, Global};
use tabled_language::LentText;

/// Rows of texts as records. Each row is let go before the next one becomes a record.
pub(crate) fn lent_rows<'a>(
    alloc: Global,
    rows: Vec<Vec<&'a str>>,
) -> Result<Vec<Vec<LentText<'a>>>, AllocError>
    ensures { IfOk result (λ records. texts_in_records records.items ≡ rows_of rows.entry.items) }
{
    let mut records = Vec::with_capacity(alloc, rows.len())?;
    for row in rows {
        records.push(lent_row(alloc, &row)?)?;
    }
    Ok(records)
}

/// A row of texts as a record.
fn lent_row<'a>(alloc: Global, row: &[&'a str]) -> Result<Vec<LentText<'a>>, AllocError>
    ensures { IfOk result (λ lent. texts_in_row lent ≡ map text_of row.now) }
{
    let mut lent = Vec::with_capacity(alloc, row.len())?;
    for text in row {
        lent.push(LentText::from(*text))?;
    }
    Ok(lent)
}
