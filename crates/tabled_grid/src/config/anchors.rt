//! Sorted lists of anchors: which are hidden, and whether their rectangles fit.

ghost use Rattle.std.specs.Prelude.{false, true, ◌≡◌, ◌≤◌, ◌∷◌, ◌++◌, IfOk, OnOk, drop, length, map, nat_lt, not, take};
ghost use Rattle.std.specs.List.{AllWithin, filter, list_all, list_any};
ghost use Rattle.std.specs.declared.cmp.Ordering.TheVariants.{Less};
ghost use Rattle.std.specs.List.Sorted.{IsBinarySearchResult, IsSearchInRange};
ghost use Rattle.tabled_grid.specs.Anchors.{dropped, is_hidden_in, is_past, marked, unless_held, anchor_of, with_sizes_in, without_first_at};
ghost use Rattle.tabled_grid.specs.Fitting.{AreApart, all_fit};
ghost use Rattle.tabled_grid.specs.Rectangles.{heights_in, holds, meets, reaches_across, reaches_down, widths_in};
ghost use Rattle.tabled_grid.specs.Spans.{AreAnchors, AreSorted, position_cmp, rectangle};
ghost use Rattle.tabled_grid.specs.declared.config.rectangle.Rectangle.{Rectangle};

use crate::config::position::Position;
use crate::config::rectangle::{Rectangle, begins_before};
use crate::config::size::Size;
use std::alloc::{AllocError, Global};

/// The index of the anchor at a place, or else that where it would stand.
#[doc(hidden)]
pub fn search(anchors: &[Rectangle], pos: Position) -> Result<usize, usize>
    ensures within { IsSearchInRange result (length anchors.now) }
    ensures found { IsBinarySearchResult (λ (anchor : Rectangle). position_cmp anchor.first pos) anchors.now result }
{
    anchors.binary_search_by_key(&pos, |anchor| anchor.first)
}

/// Says whether the rectangle of an anchor at another place holds a place.
pub(super) fn is_hidden(anchors: &[Rectangle], pos: Position) -> bool
    ensures { result ≡ is_hidden_in anchors.now pos }
{
    anchors
        .iter()
        .any(|anchor| anchor.holds(pos) && anchor.first != pos)
}

/// Says whether the rectangle of an anchor to the left in a place's row reaches it across.
pub(super) fn is_covered_across(anchors: &[Rectangle], pos: Position) -> bool
    ensures { result ≡ list_any (λ (e : Rectangle). reaches_across e pos) anchors.now }
{
    anchors.iter().any(|anchor| {
        let Rectangle { first, size } = *anchor;
        first.row == pos.row && first.col < pos.col && pos.col - first.col < size.width
    })
}

/// Says whether the rectangle of an anchor above in a place's column reaches it down.
pub(super) fn is_covered_down(anchors: &[Rectangle], pos: Position) -> bool
    ensures { result ≡ list_any (λ (e : Rectangle). reaches_down e pos) anchors.now }
{
    anchors.iter().any(|anchor| {
        let Rectangle { first, size } = *anchor;
        first.col == pos.col && first.row < pos.row && pos.row - first.row < size.height
    })
}

/// The anchors whose rectangles are wider than one column, and their widths.
pub(super) fn widths(
    alloc: Global,
    anchors: &[Rectangle],
) -> Result<Vec<(Position, usize)>, AllocError>
    ensures { IfOk result (λ widths. widths.items ≡ widths_in anchors.now) }
{
    anchors
        .iter()
        .filter_map(|anchor| {
            let Rectangle { first, size } = *anchor;
            (size.width > 1).then_some((first, size.width))
        })
        .collect(alloc)
}

/// The anchors whose rectangles are higher than one row, and their heights.
pub(super) fn heights(
    alloc: Global,
    anchors: &[Rectangle],
) -> Result<Vec<(Position, usize)>, AllocError>
    ensures { IfOk result (λ heights. heights.items ≡ heights_in anchors.now) }
{
    anchors
        .iter()
        .filter_map(|anchor| {
            let Rectangle { first, size } = *anchor;
            (size.height > 1).then_some((first, size.height))
        })
        .collect(alloc)
}

/// Says whether a place comes after all cells of an anchor's rectangle, row by row.
pub(super) fn is_past(anchor: Rectangle, pos: Position) -> bool
    ensures { result ≡ is_past anchor pos }
{
    let Rectangle { first, size } = anchor;
    if pos.row < first.row {
        return false;
    }
    let down = pos.row - first.row;
    down >= size.height
        || (down + 1 == size.height && pos.col >= first.col && pos.col - first.col >= size.width)
}

/// Marks the anchors from an index on that an anchor before them holds, by an empty size.
fn hide(anchors: &mut [Rectangle], first: usize, by: Rectangle)
    requires within { first ≤ length anchors.old }
    requires sorted { AreSorted (by ∷ drop first anchors.old) }
    ensures { anchors.new ≡ take first anchors.old ++ map (unless_held by) (drop first anchors.old) }
{
    let mut k = first;
    while k < anchors.len() {
        let pos = anchors[k].first;
        if is_past(by, pos) {
            return;
        }
        if by.holds(pos) {
            let empty = Size {
                height: 0,
                width: 0,
            };
            anchors[k] = Rectangle {
                first: pos,
                size: empty,
            };
            k += 1;
        } else {
            k += 1 + beside(&anchors[k + 1..], by, pos);
        }
    }
}

/// How many of the anchors after a place outside of a rectangle stand there before the row that the
/// rectangle next reaches, and before the rectangle in that row.
fn beside(anchors: &[Rectangle], by: Rectangle, pos: Position) -> usize
    requires sorted { AreSorted (rectangle pos by.size ∷ anchors.now) }
    requires out { holds by pos ≡ false }
    ensures within { result ≤ length anchors.now }
    ensures free { map (unless_held by) (take result anchors.now) ≡ take result anchors.now }
{
    let left = by.first.col;
    let row = if pos.col < left {
        pos.row
    } else {
        pos.row.saturating_add(1)
    };
    match search(anchors, Position::new(row, left)) {
        Ok(i) | Err(i) => i,
    }
}

/// Marks the anchors that another holds, by an empty size.
#[tactic(auto, using(crate::proofs::MarkedAnchors::sorted_next))]
fn mark_hidden(anchors: &mut [Rectangle])
    requires { AreSorted anchors.old }
    ensures { anchors.new ≡ marked anchors.old }
{
    for i in (0..anchors.len()).rev() {
        let by = anchors[i];
        hide(anchors, i + 1, by);
    }
}

/// Removes the anchors that are hidden.
pub(super) fn drop_hidden(anchors: &mut Vec<Rectangle>)
    requires { AreAnchors anchors.old.items }
    ensures { anchors.new.items ≡ dropped anchors.old.items }
{
    mark_hidden(anchors);
    drop_empty(anchors);
}

/// Removes the anchors of an empty size.
fn drop_empty(anchors: &mut Vec<Rectangle>)
    ensures { anchors.new.items ≡ filter (λ (e : Rectangle). nat_lt 0 e.size.height) anchors.old.items }
{
    anchors.retain(|anchor| anchor.size.height > 0);
}

/// Says whether no rectangle after an anchor's meets it, where those lie apart from one another.
///
/// In each row that the rectangle reaches, few anchors are tested: the first one, the nearest on the
/// left, and the one after it. A rectangle further left meets the nearest, or ends before it.
fn is_apart(anchors: &[Rectangle], first: usize, from: Rectangle) -> bool
    requires within { first ≤ length anchors.now }
    requires anchors { AreAnchors (from ∷ drop first anchors.now) }
    requires apart { AreApart (drop first anchors.now) }
    ensures { result ≡ list_all (λ (e : Rectangle). not (meets from e)) (drop first anchors.now) }
{
    let mut k = first;
    while k < anchors.len() {
        let anchor = anchors[k];
        if is_past(from, anchor.first) {
            return true;
        }
        if from.meets(anchor) {
            return false;
        }
        k += 1 + beyond(&anchors[k + 1..], from, anchor.first);
    }
    true
}

/// How many of the anchors after a place need no test: those in its row, where it is right of a
/// rectangle, and those left of the rectangle but the nearest, where it is left of it.
fn beyond(anchors: &[Rectangle], from: Rectangle, pos: Position) -> usize
    requires anchors { AreAnchors (rectangle pos from.size ∷ anchors.now) }
    requires apart { AreApart anchors.now }
    ensures within { result ≤ length anchors.now }
    ensures apart { list_all (λ (e : Rectangle). not (meets from e)) (take result anchors.now) ≡ true }
{
    let left = from.first.col;
    if pos.col < left {
        return count_before(anchors, Position::new(pos.row, left)).saturating_sub(1);
    }
    rest_of_row(anchors, from, pos)
}

/// How many of the anchors after a place stand in its row, where it is right of a rectangle.
pub(super) fn rest_of_row(anchors: &[Rectangle], from: Rectangle, pos: Position) -> usize
    requires { AreSorted (rectangle pos from.size ∷ anchors.now) }
    ensures within { result ≤ length anchors.now }
    ensures apart { list_all (λ (e : Rectangle). not (meets from e)) (take result anchors.now) ≡ true }
{
    let Rectangle { first, size } = from;
    if begins_before(pos.col, first.col, size.width) {
        return 0;
    }
    count_before(anchors, Position::new(pos.row.saturating_add(1), 0))
}

/// How many anchors stand before a place.
fn count_before(anchors: &[Rectangle], pos: Position) -> usize
    requires { AreSorted anchors.now }
    ensures within { result ≤ length anchors.now }
    ensures before { AllWithin (λ (e : Rectangle). position_cmp e.first pos ≡ Less) anchors.now 0 result }
{
    match search(anchors, pos) {
        Ok(i) | Err(i) => i,
    }
}

/// Says whether all rectangles lie inside a table and no two of them share a cell.
pub(super) fn fit(anchors: &[Rectangle], rows: usize, columns: usize) -> bool
    requires { AreAnchors anchors.now }
    ensures { result ≡ all_fit rows columns anchors.now }
{
    for first in (0..anchors.len()).rev() {
        let anchor = anchors[first];
        if !anchor.is_inside(rows, columns) || !is_apart(anchors, first + 1, anchor) {
            return false;
        }
    }
    true
}

/// The anchors of a sorted list with the sizes that another one sets. Both are gone through once.
pub(super) fn merge(
    alloc: Global,
    anchors: &[Rectangle],
    sizes: &[Rectangle],
) -> Result<Vec<Rectangle>, AllocError>
    requires anchors { AreSorted anchors.now }
    requires sizes { AreSorted sizes.now }
    ensures { IfOk result (λ merged. merged.items ≡ with_sizes_in anchors.now sizes.now) }
{
    let Some(count) = anchors.len().checked_add(sizes.len()) else {
        return Err(AllocError);
    };
    let mut merged = Vec::with_capacity(alloc, count)?;
    let mut next = 0;
    for k in 0..sizes.len() {
        let size = sizes[k];
        let pos = size.first;
        while next < anchors.len() && anchors[next].first.cmp(&pos).is_lt() {
            merged.push(anchors[next])?;
            next += 1;
        }
        next = after(anchors, next, pos);
        push_anchor(&mut merged, size)?;
    }
    merged.extend_from_slice(&anchors[next..])?;
    Ok(merged)
}

/// The index of the next anchor, or the one after it if it is at a place.
fn after(anchors: &[Rectangle], next: usize, pos: Position) -> usize
    requires { next ≤ length anchors.now }
    ensures within { result ≤ length anchors.now }
    ensures after { drop result anchors.now ≡ without_first_at pos (drop next anchors.now) }
{
    if next < anchors.len() && anchors[next].first.cmp(&pos).is_eq() {
        next + 1
    } else {
        next
    }
}

/// Puts a rectangle last, unless it is one cell.
fn push_anchor(anchors: &mut Vec<Rectangle>, anchor: Rectangle) -> Result<(), AllocError>
    ensures { OnOk result (anchors.new.items ≡ anchors.old.items ++ anchor_of anchor) }
{
    if anchor.size.is_cell() {
        return Ok(());
    }
    anchors.push(anchor)?;
    Ok(())
}
