//! Rectangles, put in order row by row.

ghost use Rattle.std.specs.Prelude.{◌≡◌, length};
ghost use Rattle.std.specs.List.Sorted.{IsPermutation, IsSortedByKey};
ghost use Rattle.tabled_grid.specs.Spans.{position_cmp};
ghost use Rattle.tabled_grid.specs.declared.config.rectangle.Rectangle.{Rectangle};

use tabled_grid::config::Rectangle;

/// Puts rectangles in order.
///
/// Those that fall all the way, and those that fall in each row, as turned and reversed ones do, are reversed
/// first, which costs less than a sort.
pub(crate) fn sort(rectangles: &mut [Rectangle])
    ensures permutation { IsPermutation rectangles.old rectangles.new }
    ensures len { length rectangles.new ≡ length rectangles.old }
    ensures sorted { IsSortedByKey (λ (f : Rectangle). f.first) position_cmp rectangles.new }
{
    reverse_descending(rectangles);
    reverse_descending_rows(rectangles);
    rectangles.sort_unstable_by_key(|rectangle| rectangle.first);
}

/// Puts rectangles into the opposite order whose first one stands after the last one.
fn reverse_descending(rectangles: &mut [Rectangle])
    ensures permutation { IsPermutation rectangles.old rectangles.new }
    ensures len { length rectangles.new ≡ length rectangles.old }
{
    if let (Some(first), Some(last)) = (rectangles.first(), rectangles.last()) {
        if first.first > last.first {
            rectangles.reverse();
        }
    }
}

/// Puts those of each row into the opposite order whose first one stands after the last one.
fn reverse_descending_rows(rectangles: &mut [Rectangle])
    ensures permutation { IsPermutation rectangles.old rectangles.new }
    ensures len { length rectangles.new ≡ length rectangles.old }
{
    let mut start = 0;
    for end in 1..rectangles.len() {
        if rectangles[end].first.row != rectangles[start].first.row {
            reverse_descending(&mut rectangles[start..end]);
            start = end;
        }
    }
    reverse_descending(&mut rectangles[start..]);
}
