//! What the stores of rows hold after the same changes, and after those that are refused.

ghost use Rattle.std.specs.Prelude.{◌<◌};

use std::alloc::{AllocError, Global};
use std::test::Fail;
use tabled_grid::config::Position;
use tabled_grid::records::{
    Axis, Blank, CellText, ExactRecords, PeekableRecords, PieceOrder, Records, RecordsMut,
    Resizable, Text, VecRecords,
};
use tabled_testing::{flat, nested, spelled, spells};
use tabled_uses::stores::Change::{self, *};
use tabled_uses::stores::{
    cell, change_lent, fruits, insert_and_remove_line, make_change, make_lent_change,
    push_and_remove_row, read, shape,
};

const TWO_ROWS: &str = "a b / c d /";

/// What a store is after each change, spelled. Lent, it is changed through its `&mut` where the change is of one
/// row, column or cell.
fn states<R>(
    alloc: Global,
    mut records: R,
    changes: &[Change],
    is_lent: bool,
) -> Result<Vec<String>, AllocError>
where
    R: Resizable + Records + ExactRecords + PeekableRecords + RecordsMut<String> + Drop,
    R::Cell: CellText,
    requires { R.is_well_formed records }
{
    let mut lent = &mut records;
    let mut states = Vec::new(alloc);
    for change in changes {
        match change {
            PushRows(_) | PushColumns(_) | Transpose | CutRows(_) => {
                make_change(alloc, lent, *change)?;
            }
            _ if is_lent => make_lent_change(alloc, &mut lent, *change)?,
            _ => make_change(alloc, lent, *change)?,
        }
        states.push(spelled(alloc, &*lent)?)?;
    }
    Ok(states)
}

/// What changes make of a table in a vector for each row.
fn nested_states(
    alloc: Global,
    old: &str,
    changes: &[Change],
    is_lent: bool,
) -> Result<Vec<String>, AllocError> {
    states(alloc, nested(alloc, old)?, changes, is_lent)
}

/// What they make of it in one vector of cells.
fn flat_states(
    alloc: Global,
    old: &str,
    changes: &[Change],
    is_lent: bool,
) -> Result<Vec<String>, AllocError> {
    states(alloc, flat(alloc, old)?, changes, is_lent)
}

/// The states after changes, if they are the same in each kind of store, lent or not.
fn agreed(alloc: Global, old: &str, changes: &[Change]) -> Result<Option<Vec<String>>, AllocError> {
    let made = flat_states(alloc, old, changes, false)?;
    let same = flat_states(alloc, old, changes, true)? == made
        && nested_states(alloc, old, changes, false)? == made
        && nested_states(alloc, old, changes, true)? == made;
    Ok(if same { Some(made) } else { None })
}

/// Whether changes make this of a table in each kind of store.
fn make(alloc: Global, old: &str, changes: &[Change], want: &str) -> Result<bool, AllocError> {
    match agreed(alloc, old, changes)? {
        Some(states) => Ok(states.last().is_some_and(|last| last.as_str() == want)),
        None => Ok(false),
    }
}

/// A table, changes, and what they make of it.
const CHANGES: &[(&str, &[Change], &str)] = &[
    (
        TWO_ROWS,
        &[RemoveColumn(0), RemoveRow(0), PushColumn],
        "d _ /",
    ),
    (TWO_ROWS, &[RemoveRow(1), RemoveRow(0)], ""),
    // Without rows there are no columns.
    (
        TWO_ROWS,
        &[RemoveRow(1), RemoveRow(0), PushColumn, PushRow],
        "/",
    ),
    (TWO_ROWS, &[RemoveRow(0), RemoveRow(0), PushRow], "/"),
    (
        TWO_ROWS,
        &[RemoveColumn(1), RemoveColumn(0), PushRow],
        "/ / /",
    ),
    (
        TWO_ROWS,
        &[RemoveColumn(1), RemoveColumn(0), PushColumn],
        "_ / _ /",
    ),
    (
        TWO_ROWS,
        &[RemoveColumn(1), RemoveColumn(0), PushRow, PushColumn],
        "_ / _ / _ /",
    ),
    ("a b c /", &[RemoveRow(0), PushRow], "/"),
    (
        TWO_ROWS,
        &[PushRow, InsertRow(1), PushColumn],
        "a b _ / _ _ _ / c d _ / _ _ _ /",
    ),
    (
        TWO_ROWS,
        &[PushColumns(2), Set(0, 0), Transpose],
        "00 c / b d / _ _ / _ _ /",
    ),
    (
        TWO_ROWS,
        &[
            CutRows(PieceOrder::Concat),
            PushColumn,
            CutRows(PieceOrder::Zip),
        ],
        "a / _ / c / _ / b / _ / d / _ /",
    ),
    (
        TWO_ROWS,
        &[SwapRow(1, 1), SwapColumn(0, 0), Swap((1, 0), (1, 0))],
        "a b / c d /",
    ),
    ("a / b /", &[SwapRow(1, 1)], "a / b /"),
    (
        TWO_ROWS,
        &[SwapRow(0, 1), SwapColumn(1, 0), Set(1, 1)],
        "d c / b 11 /",
    ),
    (
        TWO_ROWS,
        &[Swap((0, 1), (1, 0)), Swap((1, 1), (1, 0)), PushRow],
        "a c / d b / _ _ /",
    ),
    (
        TWO_ROWS,
        &[InsertColumn(1), InsertRow(0), SwapColumn(0, 2)],
        "_ _ _ / b _ a / d _ c /",
    ),
];

#[test]
fn changes_rows_columns_and_cells(rt: HostRuntime) -> Result<(), Fail> {
    for (old, changes, want) in CHANGES.iter() {
        assert!(rt; make(rt.alloc(), *old, *changes, *want)?, "{want:?}");
    }
    Ok(())
}

/// The next number of a fixed sequence, below a bound.
fn next_below(seed: &mut u64, bound: u64) -> usize
    requires { 0 < bound }
{
    *seed = seed
        .wrapping_mul(6364136223846793005)
        .wrapping_add(1442695040888963407);
    (*seed >> 33) as usize % bound as usize
}

/// The next change of a fixed sequence.
fn next_change(seed: &mut u64) -> Change {
    let kind = next_below(seed, 12);
    let (i, j) = (next_below(seed, 8), next_below(seed, 8));
    let (k, l) = (next_below(seed, 8), next_below(seed, 8));
    match kind {
        0 => PushRow,
        1 => PushColumn,
        2 => InsertRow(i),
        3 => InsertColumn(j),
        4 => RemoveRow(i),
        5 => RemoveColumn(j),
        6 => SwapRow(i, k),
        7 => SwapColumn(j, l),
        8 => Swap((i, j), (k, l)),
        _ => Set(i, j),
    }
}

#[test]
fn agrees_after_random_changes(rt: HostRuntime) -> Result<(), Fail> {
    let mut changes = Vec::new(rt.alloc());
    let mut seed = 1;
    for _ in 0..600 {
        changes.push(next_change(&mut seed))?;
    }
    assert!(rt; agreed(rt.alloc(), TWO_ROWS, changes.as_slice())?.is_some());
    Ok(())
}

/// Whether a store makes a change, and is then as it was.
#[derive(Clone, Copy)]
struct Outcome {
    made: bool,
    same: bool,
}

/// Attempts a change.
fn attempt<R>(alloc: Global, mut records: R, change: Change) -> Result<Outcome, AllocError>
where
    R: Resizable + Records + ExactRecords + PeekableRecords + RecordsMut<String> + Drop,
    R::Cell: CellText,
    requires { R.is_well_formed records }
{
    let before = spelled(alloc, &records)?;
    let made = make_change(alloc, &mut records, change).is_ok();
    let same = spelled(alloc, &records)? == before;
    Ok(Outcome { made, same })
}

/// Attempts a change of one row, column or cell through the store's `&mut`.
fn lent_attempt<R>(alloc: Global, mut records: R, change: Change) -> Result<Outcome, AllocError>
where
    R: Resizable + Records + ExactRecords + PeekableRecords + RecordsMut<String> + Drop,
    R::Cell: CellText,
    requires { R.is_well_formed records }
{
    let before = spelled(alloc, &records)?;
    let mut lent = &mut records;
    let made = make_lent_change(alloc, &mut lent, change).is_ok();
    let same = spelled(alloc, &*lent)? == before;
    Ok(Outcome { made, same })
}

/// The outcomes of a change of each kind of store, of which the flat one may be lent.
fn outcomes(
    alloc: Global,
    change: Change,
    is_lent: bool,
) -> Result<(Outcome, Outcome), AllocError> {
    let records = flat(alloc, TWO_ROWS)?;
    let in_one = if is_lent {
        lent_attempt(alloc, records, change)?
    } else {
        attempt(alloc, records, change)?
    };
    let in_rows = attempt(alloc, nested(alloc, TWO_ROWS)?, change)?;
    Ok((in_one, in_rows))
}

/// Says whether each kind of store is as it was if it refuses a change.
fn keep(alloc: Global, change: Change, lent: bool) -> bool {
    match outcomes(alloc, change, lent) {
        Ok((flat, nested)) => (flat.made || flat.same) && (nested.made || nested.same),
        // Where a store itself is refused, there is nothing to compare.
        Err(_) => true,
    }
}

// With ample memory nothing is refused. `.ci/test_refusals` runs this and refuses each allocation in turn.
#[test]
fn keeps_the_stores_at_a_refusal(rt: HostRuntime) {
    for &(change, lent) in &[
        (PushRow, true),
        (PushColumn, true),
        (PushRows(2), false),
        (PushColumns(2), false),
        (Transpose, false),
        (CutRows(PieceOrder::Concat), false),
        (CutRows(PieceOrder::Zip), false),
        (InsertRow(1), true),
        (InsertColumn(1), true),
        (Set(0, 1), false),
    ] {
        assert!(rt; keep(rt.alloc(), change, lent));
    }
}

fn refuse(alloc: Global, change: Change) -> Result<bool, AllocError> {
    let (flat, nested) = outcomes(alloc, change, false)?;
    Ok(!flat.made && flat.same && !nested.made && nested.same)
}

#[test]
fn refuses_cells_past_the_largest_number(rt: HostRuntime) -> Result<(), Fail> {
    for &change in &[
        PushRows(usize::MAX),
        PushRows(usize::MAX - 2),
        PushColumns(usize::MAX),
        PushColumns(usize::MAX - 2),
    ] {
        assert!(rt; refuse(rt.alloc(), change)?);
    }
    Ok(())
}

#[test]
fn refuses_rows_past_the_largest_number(rt: HostRuntime) -> Result<(), Fail> {
    let alloc = rt.alloc();
    let mut records: VecRecords<Text<String>> = VecRecords::new(alloc, Vec::new(alloc))?;
    records.push_rows(alloc, usize::MAX)?;
    assert!(rt; records.push_row(alloc).is_err());
    assert!(rt; records.push_column(alloc).is_err());
    assert!(rt; shape(&mut records) == (usize::MAX, 0));
    Ok(())
}

/// How many cells the row at a place has, if the cell there is a text.
fn length_at(records: &VecRecords<Text<String>>, pos: Position, text: &str) -> Option<usize> {
    match read(records, pos) {
        Some((row, cell)) if cell.as_str() == text => Some(row.len()),
        _ => None,
    }
}

#[test]
fn reads_and_writes(rt: HostRuntime) -> Result<(), Fail> {
    let table = fruits(rt.alloc())?;
    assert!(rt; spells(rt.alloc(), &table, "Fruit Count / Apple 3 / Pear 5 /"));
    assert!(rt; length_at(&table, Position::new(1, 0), "Apple") == Some(2));
    assert!(rt; read(&table, Position::new(3, 0)).is_none());
    Ok(())
}

/// Whether a store becomes rows of as many cells each.
fn is_even(alloc: Global, records: VecRecords<Text<String>>, many: usize) -> bool {
    match records.into_rows(alloc) {
        Ok(rows) => rows.iter().all(|row| row.len() == many),
        Err(_) => false,
    }
}

#[test]
fn grows_and_becomes_rows(rt: HostRuntime) -> Result<(), Fail> {
    let alloc = rt.alloc();
    let mut table = fruits(alloc)?;
    push_and_remove_row(alloc, &mut table)?;
    insert_and_remove_line(alloc, &mut table, Axis::Rows)?;
    insert_and_remove_line(alloc, &mut table, Axis::Columns)?;
    change_lent(alloc, &mut table)?;
    assert!(rt; shape(&mut table) == (4, 2));
    assert!(rt; is_even(alloc, table, 2));
    let mut none: VecRecords<Text<String>> = VecRecords::new(alloc, Vec::new(alloc))?;
    push_and_remove_row(alloc, &mut none)?;
    insert_and_remove_line(alloc, &mut none, Axis::Columns)?;
    assert!(rt; shape(&mut none) == (0, 0));
    Ok(())
}

fn is_empty<C: CellText>(alloc: Global) -> bool {
    C::blank(alloc).text().is_empty()
}

#[test]
fn has_blanks(rt: HostRuntime) -> Result<(), Fail> {
    let alloc = rt.alloc();
    assert!(rt; is_empty::<String>(alloc));
    assert!(rt; is_empty::<&str>(alloc));
    assert!(rt; is_empty::<Text<String>>(alloc));
    assert!(rt; usize::blank(alloc) == 0);
    assert!(rt; Text::new("a").into_inner() == "a");
    assert!(rt; cell(alloc, "b")?.as_str() == "b");
    Ok(())
}

#[test]
fn holds_numbers(rt: HostRuntime) -> Result<(), Fail> {
    let alloc = rt.alloc();
    let numbers = vec![in alloc; vec![in alloc; 1_usize, 2, 3]?, vec![in alloc; 4, 5, 6]?]?;
    let store = VecRecords::new(alloc, numbers)?;
    assert!(rt; *store.get(Position::new(1, 2)) == 6);
    assert!(rt; store.row(0) == [1, 2, 3].as_slice());
    Ok(())
}
