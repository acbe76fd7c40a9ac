//! Whether rectangles lie inside a table and apart, told by one walk over their anchors, row by row.

ghost use Rattle.std.specs.Prelude.{◌≡◌, ◌+◌, ◌^◌, ◌<◌, IfOk, MatchBool, MatchOption, nat_le};
ghost use Rattle.tabled_language.specs.Placed.{AreSpans};
ghost use Rattle.tabled_language.specs.Walk.{AreBeside, AreKeyed, DropsEnded, IsClear, IsLastBefore, IsMet, NoneBefore, RowsRise};
ghost use Rattle.tabled_grid.specs.Fitting.{all_fit};

use std::alloc::{AllocError, Global};
use std::collections::BTreeMap;
use tabled_grid::config::Rectangle;

/// Says whether all rectangles lie inside a table and no two share a cell.
///
/// From row to row those are noted that may reach it, by their columns. Of these the last that begins before
/// a rectangle's end is the only one that has to be tested. One that ends above goes when it is met, so
/// that each comes and goes once.
pub(crate) fn have_places(
    alloc: Global,
    anchors: &[Rectangle],
    rows: usize,
    columns: usize,
) -> Result<bool, AllocError>
    requires rising { RowsRise anchors.now }
    requires sizes { AreSpans anchors.now }
    ensures { IfOk result (λ well. well ≡ all_fit rows columns anchors.now) }
{
    let mut reaching = BTreeMap::new(alloc);
    for anchor in anchors {
        if !anchor.is_inside(rows, columns) || !is_clear(&mut reaching, *anchor) {
            return Ok(false);
        }
        reaching.insert(anchor.first.col, *anchor)?;
    }
    Ok(true)
}

/// Says whether no rectangle that reaches the row of an anchor shares a column with it. Takes some away that
/// end above.
fn is_clear(reaching: &mut BTreeMap<usize, Rectangle>, anchor: Rectangle) -> bool
    requires fits { anchor.first.col + anchor.size.width < 2 ^ 64 }
    requires keyed { AreKeyed reaching.old }
    requires beside { AreBeside anchor.first.row reaching.old }
    ensures drops { DropsEnded anchor.first.row reaching.old reaching.new }
    ensures clear { MatchBool result (IsClear reaching.old anchor) (IsMet reaching.old anchor) }
{
    let end = anchor.first.col + anchor.size.width;
    while let Some(near) = last_before(reaching, end) {
        if !ends_by(near.first.row, near.size.height, anchor.first.row) {
            return ends_by(near.first.col, near.size.width, anchor.first.col);
        }
        reaching.remove(&near.first.col);
    }
    true
}

/// The last rectangle that begins before a column.
fn last_before(reaching: &BTreeMap<usize, Rectangle>, column: usize) -> Option<Rectangle>
    ensures { MatchOption result (NoneBefore reaching.now column) (IsLastBefore reaching.now column) }
{
    match reaching.range(..column).next_back() {
        Some((_, anchor)) => Some(*anchor),
        None => None,
    }
}

/// Says whether n indexes from one on end at an index or before it.
fn ends_by(first: usize, many: usize, index: usize) -> bool
    ensures { result ≡ nat_le (first + many) index }
{
    many <= index && first <= index - many
}
