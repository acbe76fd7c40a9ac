//! Laws of what options do. Each is the contract of a function that does nothing.

ghost use Rattle.std.specs.Prelude.{◌≡◌, ◌<◌, ◌≤◌, ◌∷◌, [], ℕ, Bool, List, chars, true};
ghost use Rattle.std.specs.List.{AllByRecursion, range_with_len};
ghost use Rattle.std.specs.Cmp.{IsTotalOrder};
ghost use Rattle.std.specs.List.Sorted.{IsPermutation};
ghost use Rattle.std.specs.Str.{IsUtf8};
ghost use Rattle.std.specs.declared.cmp.Ordering.{Ordering};
ghost use Rattle.tabled_grid.specs.Grid.{Grid, IsEven};
ghost use Rattle.tabled_grid.specs.declared.records.axis.Axis.{Axis};
ghost use Rattle.tabled_options.specs.Kept.{KeepsFitting, KeepsFittingOnEach};
ghost use Rattle.tabled_settings.specs.declared.rotate.Rotate.TheVariants.{Bottom, Left, Right, Top};
ghost use Rattle.tabled_settings.specs.declared.split.Display.TheVariants.{Retain};
ghost use Rattle.tabled_carry.specs.Images.{CarriesAll};
ghost use Rattle.tabled_grid.specs.Along.{count_along};
ghost use Rattle.tabled_grid.specs.Axis.{count_of};
ghost use Rattle.tabled_settings.specs.Arranged.{AreDistinct};
ghost use Rattle.tabled_settings.specs.Kept.{AreInverse, IsKept, spans_kept, taken_in_order};
ghost use Rattle.tabled_settings.specs.Charsets.{IsCleanByte, clean_text, with_tabs};
ghost use Rattle.tabled_settings.specs.Orders.{charset_cmp, reverse_cmp, wrap_cmp};
ghost use Rattle.tabled_settings.specs.PiecePlaces.{IsGluedBack, all_pieces, count_texts, split_places, texts_along};
ghost use Rattle.tabled_settings.specs.Pieces.{split};
ghost use Rattle.tabled_grid.specs.Fitting.{Fits};
ghost use Rattle.tabled_grid.specs.Spans.{SpanMap};
ghost use Rattle.tabled_settings.specs.InOrder.{AreSorted, sorted_from};
ghost use Rattle.tabled_settings.specs.Sorted.{text_order};
ghost use Rattle.tabled_settings.specs.declared.sort.SortKeys.{SortKeys};
ghost use Rattle.tabled_settings.specs.Rearranged.{IsHalfRotated, IsReversed, IsRotated, WithCells, kept_lines, reversed, rotated, spans_reversed, spans_rotated};
ghost use Rattle.tabled_settings.specs.Replaced.{replaced_text};
ghost use Rattle.tabled_settings.specs.TakenOnce.{TakesEachOnce};
ghost use Rattle.tabled_settings.specs.Truncates.{AddsColumns, IsBeginning, beginning, columns, truncated_line};
ghost use Rattle.tabled_width.specs.Laws.{IsLine};
ghost use Rattle.tabled_width.specs.Plain.{ArePlain};

use crate::concat::Concat;
use crate::disable::{Remove, Target};
use crate::duplicate::Dup;
use crate::extract::Extract;
use crate::format::{FormatContent, FormatContentPositioned};
use crate::formatting::Charset;
use crate::keep::Keep;
use crate::replace::Replace;
use crate::reverse::Reverse;
use crate::rotate::Rotate;
use crate::sort::Sort;
use crate::split::Split;
use crate::width::{Truncate, Wrap};
use std::alloc::{AllocError, Global};
use tabled_grid::config::{Position, SpannedConfig, ToBounds};
use tabled_grid::records::{
    Blank, CellText, ExactRecords, PeekableRecords, Records, RecordsMut, Resizable,
};
use tabled_options::{CellOption, TableOption};
use tabled_select::location::Location;
use tabled_select::object::Object;
pub use tabled_spans::laws::{
    exactly_the_runs_are_merged, footers_keep_merged_cells_fitting,
    headers_keep_merged_cells_fitting, horizontal_panels_keep_merged_cells_fitting,
    merged_twice_is_merged_once, merges_keep_merged_cells_fitting, spans_along_lines_fit,
    spans_fit_midway, spans_of_size_1_or_more_fit, vertical_panels_keep_merged_cells_fitting,
};

/// A table with a row and a column that is turned to the left and then to the right is as it was.
pub fn left_then_right_is_as_it_was<A>()
    ensures same { (old between new : Grid A) → IsEven old → WithCells old (IsRotated Left old between → IsRotated Right between new → new ≡ old) }
{}

/// Merged cells that fit a table with a row and a column, turned to the left and then to the right, are as
/// they were.
pub fn merged_cells_turned_left_then_right_are_as_they_were()
    ensures same { (m : SpanMap) (r c : ℕ) → 0 < r → 0 < c → Fits m r c → spans_rotated Right c r (spans_rotated Left r c m) ≡ m }
{}

/// Merged cells that fit, turned upside down twice or in lines that are all reversed twice, are as they were.
pub fn merged_cells_reversed_twice_are_as_they_were()
    ensures top { (m : SpanMap) (r c : ℕ) → Fits m r c → spans_rotated Top r c (spans_rotated Top r c m) ≡ m }
    ensures lines { (axis : Axis) (m : SpanMap) (r c : ℕ) → Fits m r c → spans_reversed axis r c (spans_reversed axis r c m) ≡ m }
{}

/// A table with a row and a column that is turned to the left twice has its rows and its columns in the
/// opposite order.
pub fn left_twice_is_a_half_turn<A>()
    ensures half { (old between new : Grid A) → WithCells old (IsRotated Left old between → IsRotated Left between new → IsHalfRotated old new) }
{}

/// To the top and to the bottom are one turn.
pub fn top_is_bottom()
    ensures same { (rows columns : ℕ) → rotated Top rows columns ≡ rotated Bottom rows columns }
{}

/// A table that is turned upside down twice is as it was.
pub fn top_twice_is_as_it_was<A>()
    ensures same { (old between new : Grid A) → IsEven old → IsRotated Top old between → IsRotated Top between new → new ≡ old }
{}

/// A table whose rows or columns are reversed twice, from the same start up to the same limit, is as it was.
pub fn reversed_twice_is_as_it_was<A>(_reverse: Reverse)
    ensures same { (old between new : Grid A) → IsEven old → IsReversed _reverse old between → IsReversed _reverse between new → new ≡ old }
{}

/// Reversals are ordered by their axis, rows first, then by their start, and then by their limit.
pub fn reversals_in_order(_a: Reverse, _b: Reverse)
    ensures order { ⟦<Reverse as Ord>⟧.cmp _a _b ≡ reverse_cmp _a _b }
{}

/// Charsets are ordered by whether they clean, those that don't first, and then by their tab size, unset
/// first.
pub fn charsets_in_order(_a: Charset, _b: Charset)
    ensures order { ⟦<Charset as Ord>⟧.cmp _a _b ≡ charset_cmp _a _b }
{}

/// A turn takes each old cell to exactly one new place.
pub fn rotate_takes_each_cell_once(_rotate: &Rotate)
    ensures once { (rows columns : ℕ) → TakesEachOnce (rotated _rotate.now rows columns) rows columns }
{}

/// A reversal takes each old cell to exactly one new place.
pub fn reverse_takes_each_cell_once(_reverse: Reverse)
    ensures once { (rows columns : ℕ) → TakesEachOnce (reversed _reverse.axis _reverse.start _reverse.limit rows columns) rows columns }
{}

/// Rows or columns of a table with a row and a column that are kept in an order, and then in the one that undoes
/// it, make the table again. Merged cells that fit and are all carried along are as they were, too.
pub fn kept_in_an_order_and_back_is_as_it_was<A>()
    ensures cells { (axis : Axis) (there back : List ℕ) (old between new : Grid A) → IsEven old → AreInverse there back (count_along axis old) → WithCells old (IsKept axis there old between → IsKept axis back between new → new ≡ old) }
    ensures merged { (axis : Axis) (there back : List ℕ) (m : SpanMap) (r c : ℕ) → 0 < r → AreInverse there back (count_of axis r c) → Fits m r c → CarriesAll (kept_lines axis there r c) m → spans_kept axis back r c (spans_kept axis there r c m) ≡ m }
{}

/// Indexes below a count that differ are all taken, in their order.
pub fn distinct_indexes_are_all_taken()
    ensures { (found : List ℕ) (n : ℕ) → AreDistinct found n → taken_in_order found n ≡ found }
{}

/// What is taken of any indexes are indexes below the count, each once.
pub fn taken_indexes_are_distinct()
    ensures { (found : List ℕ) (n : ℕ) → AreDistinct (taken_in_order found n) n }
{}

/// A split that keeps all pieces takes each old cell to exactly one new place.
pub fn split_takes_each_cell_once(_split: Split)
    ensures once { (g : Grid (List ℕ)) → _split.display ≡ Retain → TakesEachOnce (split_places _split g) g.rows g.columns }
{}

/// The pieces of a table with a row and a column, all kept, are the table again where they are glued
/// together and cut at its old shape.
pub fn split_is_undone_by_gluing(_split: Split)
    ensures undone { (old : Grid (List ℕ)) → IsEven old → IsGluedBack _split old (split _split old) }
{}

/// A split loses no text: those that aren't empty stand in the new rows, or columns, as often as in all
/// the pieces, and in their order.
pub fn split_loses_no_text(_split: Split)
    ensures kept { (g : Grid (List ℕ)) → IsEven g → texts_along _split.lines (split _split g) ≡ texts_along _split.lines (all_pieces _split g) }
{}

/// A split keeps each text as often as it stood in the table: of the texts that aren't empty, as many pass
/// a test after it as before it, whatever the test, the order of the pieces and which of them stay.
pub fn split_keeps_each_text_as_often(_split: Split)
    ensures kept { (g : Grid (List ℕ)) (p : List ℕ → Bool) → IsEven g → count_texts p _split.lines (split _split g) ≡ count_texts p _split.lines g }
{}

/// A clean text has no control character but the newline.
pub fn clean_leaves_no_control_character()
    ensures clean { (text : List ℕ) (tab_size : ℕ) → AllByRecursion IsCleanByte (clean_text tab_size text) }
{}

/// A second clean changes nothing, whatever the tab sizes.
pub fn clean_twice_is_once()
    ensures same { (text : List ℕ) (tab_size second : ℕ) → clean_text second (clean_text tab_size text) ≡ clean_text tab_size text }
{}

/// Cleaning replaces the tabs, and then cleans.
pub fn clean_is_clean_after_tabs()
    ensures same { (text : List ℕ) (tab_size : ℕ) → clean_text tab_size text ≡ clean_text 0 (with_tabs tab_size text) }
{}

/// A charset keeps merged cells inside the table and apart, on each entity and on the table, also where it
/// is refused.
pub fn charsets_keep_merged_cells_fitting<R, D>(_charset: &Charset)
where
    R: Records + ExactRecords + PeekableRecords + RecordsMut<String>,
    R::Cell: CellText,
    ensures cells { KeepsFittingOnEach ⟦<Charset as CellOption<R, SpannedConfig>>⟧ _charset.now }
    ensures table { KeepsFitting ⟦<Charset as TableOption<R, SpannedConfig, D>>⟧ _charset.now }
{}

/// A format keeps merged cells inside the table and apart, on each entity and on the table, also where it
/// is refused.
pub fn formats_keep_merged_cells_fitting<R, D, F>(_format: &FormatContent<F>)
where
    R: Records + ExactRecords + PeekableRecords + RecordsMut<String>,
    R::Cell: CellText,
    F: FnMut(Global, &str) -> Result<String, AllocError> + Clone + Drop,
    ensures cells { KeepsFittingOnEach ⟦<FormatContent<F> as CellOption<R, SpannedConfig>>⟧ _format.now }
    ensures table { KeepsFitting ⟦<FormatContent<F> as TableOption<R, SpannedConfig, D>>⟧ _format.now }
{}

/// So does a format that is asked for places, too.
pub fn positioned_formats_keep_merged_cells_fitting<R, D, F>(_format: &FormatContentPositioned<F>)
where
    R: Records + ExactRecords + PeekableRecords + RecordsMut<String>,
    R::Cell: CellText,
    F: FnMut(Global, &str, Position) -> Result<String, AllocError> + Drop,
    ensures cells { KeepsFittingOnEach ⟦<FormatContentPositioned<F> as CellOption<R, SpannedConfig>>⟧ _format.now }
    ensures table { KeepsFitting ⟦<FormatContentPositioned<F> as TableOption<R, SpannedConfig, D>>⟧ _format.now }
{}

/// Texts that are written to other cells keep merged cells inside the table and apart, also where that is
/// refused.
pub fn duplicates_keep_merged_cells_fitting<R, D, Dst, Src>(_dup: &Dup<Dst, Src>)
where
    R: Records + ExactRecords + PeekableRecords + RecordsMut<String>,
    R::Cell: CellText,
    Dst: Object<R> + Drop,
    Src: Object<R> + Drop,
    ensures table { KeepsFitting ⟦<Dup<Dst, Src> as TableOption<R, SpannedConfig, D>>⟧ _dup.now }
{}

/// A turn keeps merged cells inside the table and apart, also where it is refused.
pub fn rotations_keep_merged_cells_fitting<R, D>(_rotate: &Rotate)
where
    R: Records + ExactRecords + Resizable,
    R::Cell: Blank,
    ensures table { KeepsFitting ⟦<Rotate as TableOption<R, SpannedConfig, D>>⟧ _rotate.now }
{}

/// So does a reversal.
pub fn reversals_keep_merged_cells_fitting<R, D>(_reverse: Reverse)
where
    R: Records + ExactRecords + Resizable,
    R::Cell: Blank,
    ensures table { KeepsFitting ⟦<Reverse as TableOption<R, SpannedConfig, D>>⟧ _reverse }
{}

/// So does a split.
pub fn splits_keep_merged_cells_fitting<R, D>(_split: Split)
where
    R: Records + ExactRecords + PeekableRecords + Resizable,
    R::Cell: CellText,
    ensures table { KeepsFitting ⟦<Split as TableOption<R, SpannedConfig, D>>⟧ _split }
{}

/// So does a part of a table.
pub fn extracts_keep_merged_cells_fitting<R, D, A, B>(_extract: &Extract<A, B>)
where
    R: Records + ExactRecords + Resizable,
    R::Cell: Blank,
    A: ToBounds + Drop,
    B: ToBounds + Drop,
    ensures table { KeepsFitting ⟦<Extract<A, B> as TableOption<R, SpannedConfig, D>>⟧ _extract.now }
{}

/// So do rows or columns that are taken away.
pub fn removals_keep_merged_cells_fitting<R, D, L, T>(_remove: &Remove<L, T>)
where
    R: Records + ExactRecords + Resizable,
    R::Cell: Blank,
    L: Location<R, Coordinate = usize> + Drop,
    <L::IntoIter as IntoIterator>::IntoIter: Drop,
    T: Target,
    ensures table { KeepsFitting ⟦<Remove<L, T> as TableOption<R, SpannedConfig, D>>⟧ _remove.now }
{}

/// So do rows or columns that are kept.
pub fn keeps_keep_merged_cells_fitting<R, D, L, T>(_keep: &Keep<L, T>)
where
    R: Records + ExactRecords + Resizable,
    R::Cell: Blank,
    L: Location<R, Coordinate = usize> + Drop,
    <L::IntoIter as IntoIterator>::IntoIter: Drop,
    T: Target,
    ensures table { KeepsFitting ⟦<Keep<L, T> as TableOption<R, SpannedConfig, D>>⟧ _keep.now }
{}

/// So do rows that are sorted.
pub fn sorts_keep_merged_cells_fitting<R, D>(_sort: &Sort)
where
    R: Records + ExactRecords + PeekableRecords + Resizable,
    R::Cell: CellText,
    ensures table { KeepsFitting ⟦<Sort as TableOption<R, SpannedConfig, D>>⟧ _sort.now }
{}

/// Rows that are sorted are the old ones, each once.
pub fn sorted_rows_are_the_old_ones()
    ensures { (from n : ℕ) (cmp : ℕ → ℕ → Ordering) → IsPermutation (range_with_len 0 n) (sorted_from from cmp n) }
{}

/// They are in order, whatever that is, but for the first ones, which stay; and equal ones keep their order.
pub fn sorted_rows_are_in_order()
    ensures { (from n : ℕ) (cmp : ℕ → ℕ → Ordering) → IsTotalOrder cmp → AreSorted from cmp n (sorted_from from cmp n) }
{}

/// What is sorted stays as it is.
pub fn sorted_rows_stay()
    ensures { (from n : ℕ) (cmp : ℕ → ℕ → Ordering) → IsTotalOrder cmp → AreSorted from cmp n (range_with_len 0 n) → sorted_from from cmp n ≡ range_with_len 0 n }
{}

/// Texts are in one order, also as numbers, and also the largest first.
pub fn texts_are_in_one_order()
    ensures { (keys : SortKeys) (descending : Bool) → IsTotalOrder (text_order keys descending) }
{}

/// So does a second table that is joined.
pub fn joins_keep_merged_cells_fitting<R, D>(_concat: &Concat)
where
    R: Records + ExactRecords + Resizable + RecordsMut<String>,
    R::Cell: CellText,
    ensures table { KeepsFitting ⟦<Concat as TableOption<R, SpannedConfig, D>>⟧ _concat.now }
{}

/// Wraps are ordered by their width, and then by whether they keep words, those that don't first.
pub fn wraps_in_order(_a: Wrap, _b: Wrap)
    ensures order { ⟦<Wrap as Ord>⟧.cmp _a _b ≡ wrap_cmp _a _b }
{}

/// A wrap keeps merged cells inside the table and apart, on each entity and on the table, also where it is
/// refused.
pub fn wraps_keep_merged_cells_fitting<R, D>(_wrap: &Wrap)
where
    R: Records + ExactRecords + PeekableRecords + RecordsMut<String>,
    R::Cell: CellText,
    ensures cells { KeepsFittingOnEach ⟦<Wrap as CellOption<R, SpannedConfig>>⟧ _wrap.now }
    ensures table { KeepsFitting ⟦<Wrap as TableOption<R, SpannedConfig, D>>⟧ _wrap.now }
{}

/// Lines that are cut keep merged cells inside the table and apart, on each entity and on the table, also where that
/// is refused.
pub fn truncates_keep_merged_cells_fitting<'a, R, D>(_truncate: Truncate<'a>)
where
    R: Records + ExactRecords + PeekableRecords + RecordsMut<String>,
    R::Cell: CellText,
    ensures cells { KeepsFittingOnEach ⟦<Truncate<'a> as CellOption<R, SpannedConfig>>⟧ _truncate.entry }
    ensures table { KeepsFitting ⟦<Truncate<'a> as TableOption<R, SpannedConfig, D>>⟧ _truncate.entry }
{}

/// So do replacements.
pub fn replacements_keep_merged_cells_fitting<'a, R, D>(_replace: Replace<'a>)
where
    R: Records + ExactRecords + PeekableRecords + RecordsMut<String>,
    R::Cell: CellText,
    ensures cells { KeepsFittingOnEach ⟦<Replace<'a> as CellOption<R, SpannedConfig>>⟧ _replace.entry }
    ensures table { KeepsFitting ⟦<Replace<'a> as TableOption<R, SpannedConfig, D>>⟧ _replace.entry }
{}

/// A line that is cut has at most n columns, where the suffix, of one line, takes as many behind any characters as by
/// itself. So do suffixes of blanks and visible ASCII, and the ellipsis.
pub fn truncated_lines_are_narrow()
    ensures narrow { (width : ℕ) (suffix line : List ℕ) → IsUtf8 suffix → IsUtf8 line → IsLine (chars suffix) → IsLine (chars line) → AddsColumns suffix → columns (truncated_line width suffix line) ≤ width }
    ensures plain { (suffix : List ℕ) → ArePlain suffix → AddsColumns suffix }
    ensures ellipsis { AddsColumns (0xE2 ∷ 0x80 ∷ 0xA6 ∷ []) }
{}

/// What stays of a line is its beginning, cut between pieces: the longest that fits.
pub fn truncated_lines_keep_their_beginning()
    ensures { (width : ℕ) (line : List ℕ) → IsUtf8 line → IsLine (chars line) → IsBeginning width line (beginning width line) }
{}

/// A part that is replaced by itself leaves the text as it was: the parts between its occurrences are all that there is.
pub fn replaced_by_itself_is_as_it_was()
    ensures { (part text : List ℕ) → replaced_text part part text ≡ text }
{}
