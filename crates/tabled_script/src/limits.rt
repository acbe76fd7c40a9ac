//! How wide the columns of a table may be, so that its picture has at most so many columns.

ghost use Rattle.std.specs.Prelude.{◌≡◌, IfOk};
ghost use Rattle.tabled_script.specs.Limits.{larger_of, level, limits, raised_to};

use std::alloc::{AllocError, Global};
use tabled_draw::{Lines, width_of_columns};

/// The widths of columns, by those that whole lines, whole words and whole pieces ask: the widest columns are cut first,
/// and words only where not each has room. Where the pieces have room, this comes to at most `width`.
pub(crate) fn limits(
    alloc: Global,
    width: usize,
    lines: Lines,
    of_lines: &[usize],
    of_words: &[usize],
    of_pieces: &[usize],
) -> Result<Vec<usize>, AllocError>
    ensures { IfOk result (λ widths. widths.items ≡ limits width lines of_lines.now of_words.now of_pieces.now) }
{
    let words = larger_of(alloc, of_words, of_pieces)?;
    let columns = width_of_columns(lines, &words)?;
    if columns <= width {
        let level = level(alloc, width, lines, &words, of_lines)?;
        raised_to(alloc, level, &words, of_lines)
    } else {
        let level = level(alloc, width, lines, of_pieces, &words)?;
        raised_to(alloc, level, of_pieces, &words)
    }
}

/// The highest level at which columns come to at most a width.
fn level(
    alloc: Global,
    width: usize,
    lines: Lines,
    least: &[usize],
    most: &[usize],
) -> Result<usize, AllocError>
    ensures { IfOk result (λ found. found ≡ level width lines least.now most.now) }
{
    let mut low = 0;
    let mut high = width;
    while low < high {
        let middle = high - (high - low) / 2;
        let raised = raised_to(alloc, middle, least, most)?;
        let columns = width_of_columns(lines, &raised)?;
        if columns <= width {
            low = middle;
        } else {
            high = middle - 1;
        }
    }
    Ok(low)
}

/// Columns raised to a level: each is at least its least, and above that at most its most.
fn raised_to(
    alloc: Global,
    level: usize,
    least: &[usize],
    most: &[usize],
) -> Result<Vec<usize>, AllocError>
    ensures { IfOk result (λ raised. raised.items ≡ raised_to level least.now most.now) }
{
    least
        .iter()
        .zip(most)
        .map(|(least, most)| (*least).max((*most).min(level)))
        .collect(alloc)
}

/// The larger one of both widths of each column.
fn larger_of(alloc: Global, xs: &[usize], ys: &[usize]) -> Result<Vec<usize>, AllocError>
    ensures { IfOk result (λ larger. larger.items ≡ larger_of xs.now ys.now) }
{
    xs.iter().zip(ys).map(|(x, y)| (*x).max(*y)).collect(alloc)
}
