//! Work on the numbers of anchors that hide each cell of a block, row by row.

ghost use Rattle.std.specs.Prelude.{◌≡◌, ◌+◌, ◌*◌, ◌-◌, ◌^◌, ◌<◌, ◌≤◌, length, map, max, min, replicate};
ghost use Rattle.tabled_grid.specs.Covers.{IsNumbered, Steps, area, beyond, hider_counts, hides, in_run};
ghost use Rattle.tabled_grid.specs.Spans.{AreSorted, SpanMap, rectangles, size_at, with_size};

use crate::config::count::Count;
use crate::config::position::Position;
use crate::config::rectangle::Rectangle;
use crate::config::size::Size;

/// Counts for each cell of a block, from none on, the anchors that hide it.
pub(super) fn count_each<N: Count>(hiders: &mut [N], anchors: &[Rectangle], block: Rectangle)
    requires none { map N.value hiders.old ≡ replicate (area block.size) 0 }
    requires sorted { AreSorted anchors.now }
    requires fits { IsNumbered N.limit block }
    ensures size { length hiders.new ≡ area block.size }
    ensures counted { map N.value hiders.new ≡ hider_counts anchors.now block }
{
    for k in 0..anchors.len() {
        step_each(hiders, block, anchors[k], N::one());
    }
}

/// Follows a map whose size at a place becomes another.
pub(super) fn follow<N: Count>(
    hiders: &mut [N],
    block: Rectangle,
    pos: Position,
    old: Size,
    new: Size,
)
    requires size { length hiders.old ≡ area block.size }
    requires fits { IsNumbered N.limit block }
    ensures size { length hiders.new ≡ area block.size }
    ensures map { (m : SpanMap) → size_at m pos ≡ old → map N.value hiders.old ≡ hider_counts (rectangles m) block → map N.value hiders.new ≡ hider_counts (rectangles (with_size m pos new)) block }
{
    let was = Rectangle {
        first: pos,
        size: old,
    };
    let is = Rectangle {
        first: pos,
        size: new,
    };
    step_each(hiders, block, was, N::greatest());
    step_each(hiders, block, is, N::one());
}

/// Steps the number of each cell of a block that an anchor hides, round the limit.
pub(super) fn step_each<N: Count>(hiders: &mut [N], block: Rectangle, anchor: Rectangle, step: N)
    requires size { length hiders.old ≡ area block.size }
    requires fits { IsNumbered N.limit block }
    ensures size { length hiders.new ≡ area block.size }
    ensures steps { Steps (map N.value hiders.old) (map N.value hiders.new) (λ p. hides (beyond block.first p) anchor) (N.value step) N.limit block.size }
{
    let Rectangle { first, size } = block;
    let at = anchor.first;
    let top = at.row.saturating_sub(first.row);
    let bottom = at
        .row
        .saturating_add(anchor.size.height)
        .saturating_sub(first.row);
    let right = at
        .col
        .saturating_add(anchor.size.width)
        .saturating_sub(first.col);
    for i in top..bottom.min(size.height) {
        let left = if first.row + i == at.row {
            at.col.saturating_add(1)
        } else {
            at.col
        };
        let run = (left.saturating_sub(first.col), right.min(size.width));
        step_run(hiders, size, i, run, step);
    }
}

/// Steps the numbers of one row, from a column on and up to another.
fn step_run<N: Count>(hiders: &mut [N], size: Size, i: usize, run: (usize, usize), step: N)
    requires size { length hiders.old ≡ area size }
    requires row { i < size.height }
    requires end { run.1 ≤ size.width }
    ensures size { length hiders.new ≡ area size }
    ensures steps { Steps (map N.value hiders.old) (map N.value hiders.new) (in_run i run) (N.value step) N.limit size }
{
    for j in run.0..run.1 {
        let k = i * size.width + j;
        let hider = &mut hiders[k];
        *hider = hider.plus(step);
    }
}
