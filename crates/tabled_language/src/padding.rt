//! Records padded to one length.

ghost use Rattle.std.specs.Prelude.{◌≡◌, [], IfOk, OnOk, map};
ghost use Rattle.tabled_grid.specs.Grid.{IsEven, grid_of, map_grid, map_items};
ghost use Rattle.tabled_table.specs.Builder.{longest as longest_of, padded_to};
ghost use Rattle.tabled_language.specs.Lent.{bytes_of, texts_in_records, texts_in_row};
ghost use Rattle.tabled_language.specs.Line.{table_from};

use crate::lent::LentText;
use crate::plain::PlainText;
use std::alloc::AllocError;

/// The cells that a script begins with: its records, each padded with empty texts to the longest (r x c).
///
/// Refused where memory runs out, it drops them.
///
/// Of this project.
pub fn padded<'a>(mut records: Vec<Vec<LentText<'a>>>) -> Result<Vec<Vec<LentText<'a>>>, AllocError>
    ensures even { IfOk result (λ cells. IsEven (grid_of (map_items cells.items))) }
    ensures cells { IfOk result (λ cells. map_grid bytes_of (grid_of (map_items cells.items)) ≡ table_from (texts_in_records records.entry.items)) }
{
    let columns = longest(&records);
    pad_each(&mut records, columns)?;
    Ok(records)
}

/// The length of the longest record.
pub(crate) fn longest(records: &Vec<Vec<LentText>>) -> usize
    ensures { result ≡ longest_of (map_items records.now.items) }
{
    let mut longest = 0;
    for record in records {
        longest = longest.max(record.len());
    }
    longest
}

/// Puts empty texts last in each record, up to a length.
fn pad_each(records: &mut [Vec<LentText>], columns: usize) -> Result<(), AllocError>
    ensures { OnOk result (map texts_in_row records.new ≡ map (padded_to columns []) (map texts_in_row records.old)) }
{
    for record in records.iter_mut() {
        pad(record, columns)?;
    }
    Ok(())
}

/// Puts empty texts last in a record, up to a length.
fn pad(row: &mut Vec<LentText>, columns: usize) -> Result<(), AllocError>
    ensures { OnOk result (texts_in_row row.new ≡ padded_to columns [] (texts_in_row row.old)) }
{
    row.reserve_exact(columns.saturating_sub(row.len()))?;
    while row.len() < columns {
        row.push(LentText::Lent(PlainText::new("")))?;
    }
    Ok(())
}
