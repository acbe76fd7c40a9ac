//! A table's parts where it has an index.

ghost use Rattle.std.specs.Prelude.{◌≡◌, [], ◌∷◌, IfOk, IsOk, map, vec_len};
ghost use Rattle.std.specs.String.{string_bytes};
ghost use Rattle.tabled_table.specs.Builder.{row_texts, with_items};
ghost use Rattle.tabled_table.specs.Index.{numbers, with_index_name};

use crate::builder::{columns, rows};
use std::alloc::{AllocError, Global};
use std::marker::Model;
use std::mem;
use tabled_grid::records::nested_rows::{turn_rows, width};
use tabled_grid::records::{Blank, Text};

/// A header above a body, and an index beside it.
#[derive(Drop)]
pub(super) struct Indexed {
    header: Vec<Text<String>>,
    index: Vec<Text<String>>,
    body: Vec<Vec<Text<String>>>,
    name: Option<Text<String>>,
    is_shown: bool,
    is_transposed: bool,
}

impl Model for Indexed {
    ghost use Rattle.tabled_table.specs.Index.{Indexed, IsIndexed, parts_of};

    ghost Value = { Indexed };

    ghost view = { λ a. parts_of a.header.items a.index.items a.body.items a.name a.is_shown a.is_transposed };

    ghost invariant = { λ a. IsIndexed (parts_of a.header.items a.index.items a.body.items a.name a.is_shown a.is_transposed) };
}

impl Indexed {
    ghost use Rattle.std.specs.Prelude.{◌≡◌, ◌<◌, IfOk, false, length, map, option_map, vec_len};
    ghost use Rattle.std.specs.String.{string_bytes};
    ghost use Rattle.tabled_grid.specs.Grid.{width_of};
    ghost use Rattle.tabled_grid.specs.Evenness.{AreWide};
    ghost use Rattle.tabled_table.specs.Builder.{row_texts};
    ghost use Rattle.tabled_table.specs.Index.{IsIndexed, built_rows, is_bare as has_nothing, numbered, transposed_index, with_column_as_index};

    /// A header and a body with the numbers of its rows as the index.
    pub(super) fn new(
        alloc: Global,
        header: Vec<Text<String>>,
        body: Vec<Vec<Text<String>>>,
    ) -> Result<Self, AllocError>
        requires { AreWide (vec_len header) (row_texts body.items) }
        ensures { IfOk result (λ x. x ≡ numbered (vec_len body) (map string_bytes header.items) (row_texts body.items)) }
    {
        let index = numbers_below(alloc, body.len())?;
        Ok(Indexed {
            header,
            index,
            body,
            name: None,
            is_shown: true,
            is_transposed: false,
        })
    }

    pub(super) fn hide(&mut self)
        ensures { self.new ≡ record self.old { shown = false } }
    {
        self.is_shown = false;
    }

    pub(super) fn set_name(&mut self, name: Option<String>)
        ensures { self.new ≡ record self.old { name = option_map string_bytes name } }
    {
        self.name = name.map(Text::new);
    }

    pub(super) fn count_columns(&self) -> usize
        ensures { result ≡ length self.now.header }
    {
        self.header.len()
    }

    /// Makes a column the index and its header the name.
    pub(super) fn take_column(mut self, alloc: Global, column: usize) -> Result<Self, AllocError>
        requires { column < length self.header }
        ensures { IfOk result (λ x. x ≡ with_column_as_index column self) }
    {
        self.index = columns::take_column(alloc, &mut self.body, column)?;
        self.name = Some(self.header.remove(column));
        Ok(self)
    }

    /// Swaps header and index, and transposes the body.
    pub(super) fn transpose(mut self, alloc: Global) -> Result<Self, AllocError>
        ensures ok { IfOk result (λ x. x ≡ transposed_index self) }
        ensures promised { self.header ≡ [] → IsOk result }
    {
        turn_rows(alloc, &mut self.body, self.header.len())?;
        mem::swap(&mut self.header, &mut self.index);
        self.is_transposed = !self.is_transposed;
        Ok(self)
    }

    /// Says whether there is no header, no index and no name.
    pub(super) fn is_bare(&self) -> bool
        ensures { result ≡ has_nothing self.now }
    {
        self.header.is_empty() && self.index.is_empty() && self.name.is_none()
    }

    /// The rows of the table: the header and the body, with the index and its name.
    pub(super) fn into_rows(self, alloc: Global) -> Result<Vec<Vec<Text<String>>>, AllocError>
        ensures rows { IfOk result (λ rows. row_texts rows.items ≡ built_rows self) }
        ensures even { IfOk result (λ rows. AreWide (width_of (row_texts rows.items)) (row_texts rows.items)) }
    {
        let Indexed {
            header,
            index,
            body,
            name,
            is_shown,
            is_transposed,
        } = self;
        let rows = if is_shown {
            rows_with_index(alloc, header, index, body)?
        } else {
            rows_with_header(header, body)?
        };
        match name {
            None => Ok(rows),
            Some(name) => rows_with_name(alloc, rows, name, is_shown && is_transposed),
        }
    }

    /// What every such table keeps.
    pub(super) fn keeps_its_shape(&self)
        ensures { IsIndexed self.now }
    {
        let _ = &self.header;
    }
}

/// The header, and the body below it.
fn rows_with_header(
    header: Vec<Text<String>>,
    body: Vec<Vec<Text<String>>>,
) -> Result<Vec<Vec<Text<String>>>, AllocError>
    ensures { IfOk result (λ rows. row_texts rows.items ≡ map string_bytes header.items ∷ row_texts body.items) }
{
    let mut rows = body;
    rows.insert(0, header)?;
    Ok(rows)
}

/// The header, and the body below it, with a text of the index first in each row of the body.
fn rows_with_index(
    alloc: Global,
    header: Vec<Text<String>>,
    index: Vec<Text<String>>,
    body: Vec<Vec<Text<String>>>,
) -> Result<Vec<Vec<Text<String>>>, AllocError>
    requires { vec_len index ≡ vec_len body }
    ensures { IfOk result (λ rows. row_texts rows.items ≡ with_items 0 (map string_bytes header.items ∷ row_texts body.items) ([] ∷ map string_bytes index.items)) }
{
    let mut rows = rows_with_header(header, body)?;
    let mut first = index;
    first.insert(0, Text::blank(alloc))?;
    columns::insert_items(&mut rows, 0, first)?;
    Ok(rows)
}

/// The rows with a name in the first cell of the header, or first in a row of its own below it.
/// Without cells the name is left out.
fn rows_with_name(
    alloc: Global,
    rows: Vec<Vec<Text<String>>>,
    name: Text<String>,
    in_header: bool,
) -> Result<Vec<Vec<Text<String>>>, AllocError>
    ensures { IfOk result (λ named. row_texts named.items ≡ with_index_name in_header (string_bytes name) (row_texts rows.items)) }
{
    let mut rows = rows;
    let columns = width(&rows);
    if columns == 0 {
        return Ok(rows);
    }
    if in_header {
        rows[0][0] = name;
        return Ok(rows);
    }
    let mut row = Vec::with_capacity(alloc, columns)?;
    row.push(name)?;
    rows::pad(alloc, &mut row, columns, "")?;
    rows.insert(1, row)?;
    Ok(rows)
}

/// The numbers from 0 on, below one, as texts.
fn numbers_below(alloc: Global, count: usize) -> Result<Vec<Text<String>>, AllocError>
    ensures { IfOk result (λ texts. map string_bytes texts.items ≡ numbers count) }
{
    let mut texts = Vec::with_capacity(alloc, count)?;
    for i in 0..count {
        texts.push(Text::new(i.to_string(alloc)?))?;
    }
    Ok(texts)
}
