//! Options on whole tables of one-letter texts.

use crate::merging::Merging;
use crate::spans::Merged;
use crate::watch::Watch;
use crate::{merging, spans};
use std::alloc::{AllocError, Global};
use std::mem;
use std::ops::Range;
use tabled_grid::config::{Position, SpannedConfig};
use tabled_grid::records::{ExactRecords, Records, Resizable, Text, VecRecords};
use tabled_options::TableOption;
use tabled_select::object::{Columns, Rows};
use tabled_settings::concat::Concat;
use tabled_settings::disable::Remove;
use tabled_settings::duplicate::Dup;
use tabled_settings::extract::Extract;
use tabled_settings::format::Format;
use tabled_settings::formatting::Charset;
use tabled_settings::reverse::Reverse;
use tabled_settings::rotate::Rotate;
use tabled_settings::split::Split;
use tabled_table::Table;

pub(crate) type Store = VecRecords<Text<String>>;

/// The shape of a table of a size.
#[derive(Clone, Copy)]
pub(crate) enum Shape {
    /// As many columns as rows.
    Square,
    /// A hundred rows to a column.
    Tall,
    /// One row.
    Row,
    /// One column.
    Column,
    /// As many columns as rows. Two rows of one letter follow two of another one.
    Paired,
    /// A hundred rows and columns, whatever the size.
    Hundred,
    /// As many columns as rows, with a rectangle of 1 x 2 at each tenth place.
    Tenths,
}

impl Shape {
    pub(crate) fn of_name(name: &str) -> Option<Shape> {
        match name {
            "square" => Some(Shape::Square),
            "tall" => Some(Shape::Tall),
            "row" => Some(Shape::Row),
            "column" => Some(Shape::Column),
            "paired" => Some(Shape::Paired),
            "hundred" => Some(Shape::Hundred),
            "tenths" => Some(Shape::Tenths),
            _ => None,
        }
    }

    /// The numbers of rows and columns.
    fn counts(self, size: usize) -> (usize, usize) {
        match self {
            Shape::Square | Shape::Paired | Shape::Tenths => (size, size),
            Shape::Tall => (size, size / 100),
            Shape::Row => (1, size),
            Shape::Column => (size, 1),
            Shape::Hundred => (100, 100),
        }
    }

    fn merged_cells(self, alloc: Global, size: usize) -> Result<SpannedConfig, AllocError> {
        match self {
            Shape::Tenths => spans::make(alloc, size, Merged::Tenths),
            _ => Ok(SpannedConfig::new(alloc)),
        }
    }
}

/// What is done to a table.
#[derive(Clone, Copy)]
pub(crate) enum Change {
    Left,
    Right,
    Top,
    Reverse,
    Extract,
    RemoveRows,
    RemoveColumns,
    Concat,
    Content,
    Lines,
    Clean,
    Dup,
    Split(Split),
    /// A split that leaves one cell over in each row.
    SplitLast(Split),
    /// Cells are merged.
    Merging(Merging),
}

impl Change {
    pub(crate) fn of_name(name: &str) -> Option<Change> {
        match name {
            "left" => Some(Change::Left),
            "right" => Some(Change::Right),
            "top" => Some(Change::Top),
            "reverse" => Some(Change::Reverse),
            "extract" => Some(Change::Extract),
            "removerows" => Some(Change::RemoveRows),
            "removecolumns" => Some(Change::RemoveColumns),
            "concat" => Some(Change::Concat),
            "content" => Some(Change::Content),
            "lines" => Some(Change::Lines),
            "clean" => Some(Change::Clean),
            "dup" => Some(Change::Dup),
            _ => {
                let merging = Merging::of_name(name);
                merging.map(Change::Merging).or(Change::of_split(name))
            }
        }
    }

    /// A split by the order of its pieces, what it drops and their length, as `zip-clean-10`.
    fn of_split(name: &str) -> Option<Change> {
        let (order, rest) = name.split_once('-')?;
        let (display, index) = rest.split_once('-')?;
        let split = match order {
            "zip" => Split::column(0).zip(),
            "concat" => Split::column(0).concat(),
            _ => return None,
        };
        let split = match display {
            "clean" => split.clean(),
            "retain" => split.retain(),
            _ => return None,
        };
        if index == "last" {
            return Some(Change::SplitLast(split));
        }
        let index = index.parse::<usize>().ok()?;
        Some(Change::Split(Split { index, ..split }))
    }
}

/// A store and its merged cells.
#[derive(Drop)]
struct Subject {
    store: Store,
    cfg: SpannedConfig,
}

/// Changes a table of a size, and counts its rows.
pub(crate) fn run(
    alloc: Global,
    size: usize,
    shape: Shape,
    change: Change,
    watch: &mut Watch,
) -> Result<usize, AllocError> {
    let (rows, columns) = shape.counts(size);
    let mut table = Subject {
        store: made(alloc, rows, columns)?,
        cfg: shape.merged_cells(alloc, size)?,
    };
    if let Shape::Paired = shape {
        let letters = Format::positioned(a_letter_in_pairs);
        letters.change(alloc, &mut table.store, &mut table.cfg, &mut ())?;
    }
    change_once(alloc, &mut table, size, change, watch)?;
    let rows = table.store.count_rows();
    mem::forget(table);
    Ok(rows)
}

/// A table whose texts are all `x`.
fn made(alloc: Global, rows: usize, columns: usize) -> Result<Store, AllocError> {
    let mut store = VecRecords::new(alloc, Vec::new(alloc))?;
    store.push_rows(alloc, rows)?;
    store.push_columns(alloc, columns)?;
    let letters = Format::content(a_letter);
    letters.change(alloc, &mut store, &mut SpannedConfig::new(alloc), &mut ())?;
    Ok(store)
}

fn a_letter(alloc: Global, _: &str) -> Result<String, AllocError> {
    String::from_str(alloc, "x")
}

fn a_letter_in_pairs(alloc: Global, _: &str, pos: Position) -> Result<String, AllocError> {
    String::from_str(alloc, if pos.row % 4 < 2 { "x" } else { "y" })
}

/// The middle half of n lines.
fn middle(count: usize) -> Range<usize> {
    count / 4..count - count / 4
}

/// The second quarter of n lines.
fn second_quarter(count: usize) -> Range<usize> {
    count / 4..count / 2
}

/// Applies an option to a table.
fn apply<O>(
    alloc: Global,
    option: O,
    table: &mut Subject,
    watch: &mut Watch,
) -> Result<(), AllocError>
where
    O: TableOption<Store, SpannedConfig, ()>,
    requires can { O.can_change option }
{
    watch.start();
    option.change(alloc, &mut table.store, &mut table.cfg, &mut ())?;
    watch.stop();
    Ok(())
}

fn change_once(
    alloc: Global,
    table: &mut Subject,
    size: usize,
    change: Change,
    watch: &mut Watch,
) -> Result<(), AllocError> {
    let rows = table.store.count_rows();
    let columns = table.store.count_columns();
    match change {
        Change::Left => apply(alloc, Rotate::Left, table, watch),
        Change::Right => apply(alloc, Rotate::Right, table, watch),
        Change::Top => apply(alloc, Rotate::Top, table, watch),
        Change::Reverse => apply(alloc, Reverse::columns(0), table, watch),
        Change::Extract => {
            let part = Extract::segment(middle(rows), middle(columns));
            apply(alloc, part, table, watch)
        }
        Change::RemoveRows => {
            let part = Rows::new(second_quarter(rows));
            apply(alloc, Remove::row(part), table, watch)
        }
        Change::RemoveColumns => {
            let part = Columns::new(second_quarter(columns));
            apply(alloc, Remove::column(part), table, watch)
        }
        Change::Concat => {
            // A second table as large as the first, so that the time is not too short to tell.
            let second = Table::from_records(alloc, made(alloc, rows, columns)?);
            apply(alloc, Concat::vertical(alloc, second), table, watch)
        }
        Change::Content => apply(alloc, Format::content(a_letter), table, watch),
        Change::Lines => apply(alloc, Format::content(a_letter).multiline(), table, watch),
        Change::Clean => apply(alloc, Charset::new().clean(), table, watch),
        Change::Dup => {
            let others = Dup::new(Rows::new(1..), Rows::first());
            apply(alloc, others, table, watch)
        }
        Change::Split(split) => apply(alloc, split, table, watch),
        Change::SplitLast(split) => {
            let index = columns.saturating_sub(1);
            apply(alloc, Split { index, ..split }, table, watch)
        }
        Change::Merging(merging) => {
            watch.start();
            merging::run(alloc, &mut table.store, &mut table.cfg, size, merging)?;
            watch.stop();
            Ok(())
        }
    }
}
