//! Work on the rows or on the columns of a store.

ghost use Rattle.std.specs.Prelude.{◌≡◌, ◌<◌, ◌≤◌, ◌-◌, ℕ, List, length, min, slice_index};
ghost use Rattle.std.specs.List.Sorted.{IsStrictlyIncreasing};
ghost use Rattle.tabled_grid.specs.Along.{count_along};
ghost use Rattle.tabled_settings.specs.Arranged.{KeepsFront, SwapForward, SwapsLines};
ghost use Rattle.tabled_settings.specs.Lines.{BringsLines, KeepsLines, ReversesLines, indexes_in, is_marked, unmarked};

use std::ops::Range;
use tabled_grid::config::Position;
use tabled_grid::records::{Axis, Blank, ExactRecords, Records, Resizable};

/// Puts the lines from `start` up to `end` into the opposite order, by swaps from both ends: columns row by
/// row, since a walk down a column leaves the caches.
pub(crate) fn reverse<R>(axis: Axis, records: &mut R, start: usize, end: usize)
where
    R: ExactRecords + Resizable,
    R::Cell: Blank,
    requires well { R.is_well_formed records.old }
    requires order { start ≤ end }
    requires within { end ≤ count_along axis (R.grid records.old) }
    ensures well { R.is_well_formed records.new }
    ensures reversed { ReversesLines axis start end (R.grid records.old) (R.grid records.new) }
{
    let swaps = (end - start) / 2;
    match axis {
        Axis::Rows => {
            for k in 0..swaps {
                records.swap_row(start + k, end - 1 - k);
            }
        }
        Axis::Columns => {
            for row in 0..records.count_rows() {
                for j in 0..swaps {
                    records.swap(
                        Position::new(row, start + j),
                        Position::new(row, end - 1 - j),
                    );
                }
            }
        }
    }
}

/// Keeps the lines of a range alone: brings them to the front and cuts off the rest.
pub(crate) fn keep<R>(axis: Axis, records: &mut R, range: Range<usize>)
where
    R: Records + ExactRecords + Resizable,
    R::Cell: Blank,
    requires well { R.is_well_formed records.old }
    ensures well { R.is_well_formed records.new }
    ensures kept { KeepsLines axis (indexes_in range.start range.end (count_along axis (R.grid records.old))) (R.grid records.old) (R.grid records.new) }
{
    let kept = count_in(&range, axis.count(records));
    // Lines at the front stay where they are.
    let moved = if range.start > 0 { kept } else { 0 };
    for k in 0..moved {
        axis.swap(records, k, range.start + k);
    }
    records.truncate_lines(axis, kept);
}

/// Keeps the lines of some indexes alone, which rise. They come to the front, each by one swap, and the rest is
/// cut off.
pub(crate) fn keep_some<R>(axis: Axis, records: &mut R, kept: &[usize])
where
    R: Records + ExactRecords + Resizable,
    R::Cell: Blank,
    requires well { R.is_well_formed records.old }
    requires rising { IsStrictlyIncreasing kept.now }
    requires within { (k : ℕ) → k < length kept.now → slice_index kept.now k < count_along axis (R.grid records.old) }
    ensures well { R.is_well_formed records.new }
    ensures kept { KeepsLines axis kept.now (R.grid records.old) (R.grid records.new) }
{
    for (k, &line) in kept.iter().enumerate() {
        axis.swap(records, k, line);
    }
    records.truncate_lines(axis, kept.len());
}

/// Brings lines to the front, each by one swap, and cuts off the rest: each of the first lines in turn changes
/// places with another one that isn't before it.
pub(crate) fn bring<R>(axis: Axis, records: &mut R, swaps: &[usize])
where
    R: Records + ExactRecords + Resizable,
    R::Cell: Blank,
    requires well { R.is_well_formed records.old }
    requires forward { SwapForward swaps.now (count_along axis (R.grid records.old)) }
    ensures well { R.is_well_formed records.new }
    ensures brought { KeepsFront axis swaps.now (R.grid records.old) (R.grid records.new) }
{
    swap_forward(axis, records, swaps);
    records.truncate_lines(axis, swaps.len());
}

/// Swaps each of the first lines in turn with another one: columns row by row, since a walk down a column
/// leaves the caches.
fn swap_forward<R>(axis: Axis, records: &mut R, swaps: &[usize])
where
    R: ExactRecords + Resizable,
    R::Cell: Blank,
    requires well { R.is_well_formed records.old }
    requires forward { SwapForward swaps.now (count_along axis (R.grid records.old)) }
    ensures well { R.is_well_formed records.new }
    ensures swapped { SwapsLines axis swaps.now (length swaps.now) (R.grid records.old) (R.grid records.new) }
{
    match axis {
        Axis::Rows => {
            for (k, &other) in swaps.iter().enumerate() {
                records.swap_row(k, other);
            }
        }
        Axis::Columns => {
            for row in 0..records.count_rows() {
                for (j, &other) in swaps.iter().enumerate() {
                    records.swap(Position::new(row, j), Position::new(row, other));
                }
            }
        }
    }
}

/// How many of n lines are in a range.
pub(crate) fn count_in(range: &Range<usize>, count: usize) -> usize
    ensures { result ≡ min range.now.end count - range.now.start }
{
    range.end.min(count).saturating_sub(range.start)
}

/// Removes the lines that are marked. Those that stay come to the front, in order, each by one swap, and the
/// rest is cut off.
pub(crate) fn remove<R>(axis: Axis, records: &mut R, gone: &[bool])
where
    R: Records + ExactRecords + Resizable,
    R::Cell: Blank,
    requires well { R.is_well_formed records.old }
    requires many { length gone.now ≡ count_along axis (R.grid records.old) }
    ensures well { R.is_well_formed records.new }
    ensures kept { KeepsLines axis (unmarked gone.now) (R.grid records.old) (R.grid records.new) }
{
    let kept = thin(axis, records, gone);
    records.truncate_lines(axis, kept);
}

/// Brings the lines without a mark to the front, and counts them: columns row by row, since a walk down a
/// column leaves the caches.
fn thin<R>(axis: Axis, records: &mut R, gone: &[bool]) -> usize
where
    R: ExactRecords + Resizable,
    R::Cell: Blank,
    requires well { R.is_well_formed records.old }
    requires many { length gone.now ≡ count_along axis (R.grid records.old) }
    ensures well { R.is_well_formed records.new }
    ensures brings { BringsLines axis (unmarked gone.now) result (R.grid records.old) (R.grid records.new) }
    ensures many { result ≡ length (unmarked gone.now) }
{
    match axis {
        Axis::Rows => {
            let mut kept = 0;
            for i in 0..gone.len() {
                if !is_marked(gone, i) {
                    records.swap_row(kept, i);
                    kept += 1;
                }
            }
            kept
        }
        Axis::Columns => {
            for row in 0..records.count_rows() {
                let mut kept = 0;
                for j in 0..gone.len() {
                    if !is_marked(gone, j) {
                        records.swap(Position::new(row, kept), Position::new(row, j));
                        kept += 1;
                    }
                }
            }
            count_kept(gone)
        }
    }
}

/// How many lines have no mark.
fn count_kept(gone: &[bool]) -> usize
    ensures { result ≡ length (unmarked gone.now) }
{
    let mut kept = 0;
    for i in 0..gone.len() {
        if !is_marked(gone, i) {
            kept += 1;
        }
    }
    kept
}

/// Whether a line has a mark.
fn is_marked(marks: &[bool], index: usize) -> bool
    requires { index < length marks.now }
    ensures { result ≡ is_marked marks.now index }
{
    marks[index]
}
