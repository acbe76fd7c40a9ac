//! Rows in the order of a column.

ghost use Rattle.std.specs.Prelude.{◌≡◌, false, true};
ghost use Rattle.tabled_settings.specs.Sorted.{SortsTable, sorts_alike};
ghost use Rattle.tabled_settings.specs.declared.sort.SortColumn.TheVariants as column;
ghost use Rattle.tabled_settings.specs.declared.sort.SortKeys.TheVariants as keys;

mod by_key;
mod ranks;
mod rows;

use crate::arranged::arrange;
use rows::{column_index, sorted_rows};
use std::alloc::{AllocError, Global};
use tabled_grid::config::{Entity, SpannedConfig};
use tabled_grid::records::{Axis, CellText, ExactRecords, PeekableRecords, Records, Resizable};
use tabled_options::TableOption;

/// Puts the rows from an index on in the order of a column, and merged cells with them. Rows whose texts there are equal
/// keep their order, whichever way. Refused for memory, it leaves the table as it was.
/// `Sort::rows(1).index(1).numbers()` makes
///
/// ```text
/// a   n       a   n
/// x   10      y   9
/// y   9   of  x   10
/// z   ?       z   ?
/// ```
///
/// Merged cells go along if they fit the table and their cells form a rectangle again; others come apart.
///
/// Of this project.
#[derive(Drop)]
pub struct Sort {
    /// The rows above this one stay.
    pub from: usize,
    pub column: SortColumn,
    pub keys: SortKeys,
    pub descending: bool,
}

/// A column. One that isn't there leaves the rows in their order.
///
/// Of this project.
#[derive(Drop)]
pub enum SortColumn {
    Index(usize),
    /// The first column with this text in the first row.
    Name(String),
}

/// What texts are compared as.
///
/// Of this project.
#[derive(Clone, Copy, Debug, PartialEq, Eq)]
pub enum SortKeys {
    /// As their bytes.
    Texts,
    /// As the decimal numbers that they write. Texts that are none come behind, in their order, whichever way.
    Numbers,
}

impl Sort {
    /// The rows from an index on, by the texts of the first column.
    ///
    /// Of this project.
    pub fn rows(from: usize) -> Self
        ensures { result ≡ record { from = from; column = column.Index 0; keys = keys.Texts; descending = false } }
    {
        Sort {
            from,
            column: SortColumn::Index(0),
            keys: SortKeys::Texts,
            descending: false,
        }
    }

    /// By the texts of a column.
    ///
    /// Of this project.
    pub fn index(self, index: usize) -> Self
        ensures { result ≡ record self { column = column.Index index } }
    {
        Sort {
            column: SortColumn::Index(index),
            ..self
        }
    }

    /// By the texts of the first column with a text in the first row.
    ///
    /// Of this project.
    pub fn name(self, name: String) -> Self
        ensures { result ≡ record self { column = column.Name name } }
    {
        Sort {
            column: SortColumn::Name(name),
            ..self
        }
    }

    /// As the numbers that texts write.
    ///
    /// Of this project.
    pub fn numbers(self) -> Self
        ensures { result ≡ record self { keys = keys.Numbers } }
    {
        Sort {
            keys: SortKeys::Numbers,
            ..self
        }
    }

    /// The largest first.
    ///
    /// Of this project.
    pub fn descending(self) -> Self
        ensures { result ≡ record self { descending = true } }
    {
        Sort {
            descending: true,
            ..self
        }
    }
}

impl<R, D> TableOption<R, SpannedConfig, D> for Sort
where
    R: Records + ExactRecords + PeekableRecords + Resizable,
    R::Cell: CellText,
{
    ghost does = { SortsTable R.Cell.text_of };

    fn change(
        self,
        alloc: Global,
        records: &mut R,
        cfg: &mut SpannedConfig,
        _dimension: &mut D,
    ) -> Result<(), AllocError> {
        let Sort {
            from,
            column,
            keys,
            descending,
        } = self;
        let column = column_index(records, &column);
        let rows = sorted_rows(alloc, records, from, column, keys, descending)?;
        arrange(alloc, Axis::Rows, records, cfg, rows)
    }

    fn hint_change(&self) -> Option<Entity> {
        Some(Entity::Global)
    }

    ghost acts_like = { sorts_alike R.Cell.text_of };
}
