//! A table that gets an index.

use crate::builder::Builder;
use crate::builder::indexed::Indexed;
use crate::table::Table;
use std::alloc::{AllocError, Global};
use std::marker::Model;
use tabled_grid::records::Text;

/// Records below a header and beside an index, which becomes the first column.
///
/// The header is the first record. The index is the numbers of the other records from 0 on, until a
/// column is taken for it. A contract sees the header, the index, the body, the name of the index,
/// and whether the index is shown and the table transposed; or nothing, where there were no records.
///
/// Of the records `h1 h2`, `a b`, `c d` it builds, with `.` for an empty text,
///
/// ```text
/// . h1 h2
/// 0 a  b
/// 1 c  d
/// ```
///
/// Ported from `tabled::builder::IndexBuilder`.
#[derive(Drop)]
pub struct IndexBuilder {
    indexed: Option<Indexed>,
}

impl Model for IndexBuilder {
    ghost use Rattle.std.specs.Prelude.{Option};
    ghost use Rattle.tabled_table.specs.Index.{Indexed};

    ghost Value = { Option Indexed };

    ghost view = { λ a. a.indexed };
}

impl IndexBuilder {
    ghost use Rattle.tabled_grid.specs.Spans as spans;
    ghost use Rattle.std.specs.Prelude.{◌≡◌, ◌≤◌, [], IfOk, IfSome, IsOk, None, true, false, length, option_map};
    ghost use Rattle.std.specs.String.{string_bytes};
    ghost use Rattle.tabled_grid.specs.Grid.{map_grid, width_of};
    ghost use Rattle.tabled_grid.specs.Evenness.{AreWide};
    ghost use Rattle.tabled_table.specs.Builder.{row_texts, table_of};
    ghost use Rattle.tabled_table.specs.Index.{Indexed as Parts, IsIndexed, builder_of, indexed_rows, is_bare, transposed_index, with_column_as_index_if_there};

    /// The records of a builder, of which the first is the header, with their numbers as the index.
    ///
    /// Refused where memory runs out.
    ///
    /// Ported from `impl From<Builder> for tabled::builder::IndexBuilder`.
    pub fn from_builder(alloc: Global, builder: Builder) -> Result<Self, AllocError>
        ensures ok { IfOk result (λ x. x ≡ indexed_rows builder.rows) }
        ensures promised { builder.rows ≡ [] → IsOk result }
    {
        builder.index(alloc)
    }

    /// Rows of one length, of which the first is the header.
    pub(super) fn of_rows(
        alloc: Global,
        mut rows: Vec<Vec<Text<String>>>,
    ) -> Result<Self, AllocError>
        requires { AreWide (width_of (row_texts rows.items)) (row_texts rows.items) }
        ensures ok { IfOk result (λ x. x ≡ indexed_rows (row_texts rows.items)) }
        ensures promised { row_texts rows.items ≡ [] → IsOk result }
    {
        if rows.is_empty() {
            return Ok(IndexBuilder { indexed: None });
        }
        let header = rows.remove(0);
        Ok(IndexBuilder {
            indexed: Some(Indexed::new(alloc, header, rows)?),
        })
    }

    /// Leaves the index out of the table that is built (r x c, not r x c+1). A name still makes a row.
    ///
    /// Ported from `tabled::builder::IndexBuilder::hide`.
    pub fn hide(mut self) -> Self
        ensures { result ≡ option_map (λ (x : Parts). record x { shown = false }) self }
    {
        if let Some(indexed) = &mut self.indexed {
            indexed.hide();
        }
        self
    }

    /// Gives the index a name, or none. The name stands first in a row of its own below the header,
    /// or in the first cell of a table that is transposed and shows its index. `name(Some("n"))` makes it
    ///
    /// ```text
    /// . h1 h2
    /// n .  .
    /// 0 a  b
    /// 1 c  d
    /// ```
    ///
    /// Ported from `tabled::builder::IndexBuilder::name`.
    pub fn name(mut self, name: Option<String>) -> Self
        ensures { result ≡ option_map (λ (x : Parts). record x { name = option_map string_bytes name }) self }
    {
        if let Some(indexed) = &mut self.indexed {
            indexed.set_name(name);
        }
        self
    }

    /// Makes a column the index, and its header as the name. The index before is lost. Past
    /// the last column this changes nothing. `column(0)` makes it
    ///
    /// ```text
    /// .  h2
    /// h1 .
    /// a  b
    /// c  d
    /// ```
    ///
    /// Refused for memory, the builder is dropped.
    ///
    /// Ported from `tabled::builder::IndexBuilder::column`.
    pub fn column(self, alloc: Global, column: usize) -> Result<Self, AllocError>
        ensures ok { IfOk result (λ x. x ≡ option_map (with_column_as_index_if_there column) self) }
        ensures promised { IfSome self (λ x. length x.header ≤ column) → IsOk result }
    {
        let indexed = match self.indexed {
            Some(indexed) if column < indexed.count_columns() => {
                Some(indexed.take_column(alloc, column)?)
            }
            indexed => indexed,
        };
        Ok(IndexBuilder { indexed })
    }

    /// Swaps the header and the index, and transposes the body. Of the table above this is
    ///
    /// ```text
    /// .  0 1
    /// h1 a c
    /// h2 b d
    /// ```
    ///
    /// Refused for memory, the builder is dropped. Without columns it takes none.
    ///
    /// Ported from `tabled::builder::IndexBuilder::transpose`.
    pub fn transpose(self, alloc: Global) -> Result<Self, AllocError>
        ensures ok { IfOk result (λ x. x ≡ option_map transposed_index self) }
        ensures promised { IfSome self (λ x. x.header ≡ []) → IsOk result }
    {
        match self.indexed {
            None => Ok(IndexBuilder { indexed: None }),
            Some(indexed) => Ok(IndexBuilder {
                indexed: Some(indexed.transpose(alloc)?),
            }),
        }
    }

    /// The builder of the header, the index, its name and the body. Its empty text is `""`.
    ///
    /// Refused where memory runs out.
    ///
    /// Ported from `impl From<IndexBuilder> for tabled::builder::Builder`.
    pub fn into_builder(self, alloc: Global) -> Result<Builder, AllocError>
        ensures ok { IfOk result (λ b. b ≡ builder_of self) }
        ensures promised { IfSome self (λ x. is_bare x ≡ true) → IsOk result }
    {
        match self.indexed {
            Some(indexed) if !indexed.is_bare() => {
                Ok(Builder::from_vec(alloc, indexed.into_rows(alloc)?))
            }
            _ => Ok(Builder::new(alloc)),
        }
    }

    /// The table of the header, the index, its name and the body, with no merged cells.
    ///
    /// Refused where memory runs out.
    ///
    /// Ported from `tabled::builder::IndexBuilder::build`.
    pub fn build(self, alloc: Global) -> Result<Table, AllocError>
        ensures cells { IfOk result (λ table. map_grid string_bytes table.cells ≡ table_of (builder_of self)) }
        ensures spans { IfOk result (λ table. table.spans ≡ spans.empty) }
    {
        self.into_builder(alloc)?.build(alloc)
    }

    /// What every such builder keeps.
    pub(crate) fn keeps_its_shape(&self)
        ensures { IfSome self.now IsIndexed }
    {
        if let Some(indexed) = &self.indexed {
            indexed.keeps_its_shape();
        }
    }
}
