//! Tables.

use std::alloc::{AllocError, Global};
use std::marker::Model;
use tabled_grid::config::SpannedConfig;
use tabled_grid::records::{ExactRecords, Records, Text, VecRecords};
use tabled_options::{CellOption, Modify, TableOption};
use tabled_select::object::Object;

/// A table of texts and its merged cells. A contract sees its grid of cells and its map of spans.
///
/// Ported from `tabled::Table`.
#[derive(Drop)]
pub struct Table {
    records: VecRecords<Text<String>>,
    config: SpannedConfig,
}

impl Model for Table {
    ghost use Rattle.std.specs.Coded.{codes};
    ghost use Rattle.tabled_grid.specs.Spans.{span_code};
    ghost use Rattle.tabled_table.specs.Table.{Table};

    ghost Value = { Table };

    ghost coded = { Prim.hlevel (codes, span_code) };

    ghost view = { λ a. record { cells = a.records.grid; spans = a.config } };
}

impl Table {
    ghost use Rattle.std.specs.Prelude.{◌≡◌, OnOk, OnErr, IsOk};
    ghost use Rattle.tabled_grid.specs.Spans as spans;
    ghost use Rattle.tabled_options.specs.Does.{CopiesAlike, EachListed, EachListedLeaves};

    /// A table of the cells of a store, with no merged cells.
    pub fn from_records(alloc: Global, records: VecRecords<Text<String>>) -> Self
        ensures cells { result.cells ≡ records.grid }
        ensures spans { result.spans ≡ spans.empty }
    {
        Table {
            records,
            config: SpannedConfig::new(alloc),
        }
    }

    /// Changes the table by an option. Refused for memory, it keeps what the option leaves.
    ///
    /// Ported from `tabled::Table::with`.
    pub fn with<O>(&mut self, alloc: Global, option: O) -> Result<(), AllocError>
    where
        O: TableOption<VecRecords<Text<String>>, SpannedConfig, ()>,
        requires can { O.can_change option }
        ensures ok { OnOk result (O.does option self.old.cells self.old.spans self.new.cells self.new.spans) }
        ensures err { OnErr result (O.leaves option self.old.cells self.old.spans self.new.cells self.new.spans) }
        ensures promised { O.never_refused option self.old.cells self.old.spans → IsOk result }
    {
        option.change(alloc, &mut self.records, &mut self.config, &mut ())
    }

    /// Changes each entity that an object lists by a copy of an option on cells, one after another.
    ///
    /// Refused for memory, it keeps what the changes before did, and what the refused one leaves.
    ///
    /// Ported from `tabled::Table::modify`.
    pub fn modify<O, M>(&mut self, alloc: Global, object: O, option: M) -> Result<(), AllocError>
    where
        O: Object<VecRecords<Text<String>>> + Drop,
        M: CellOption<VecRecords<Text<String>>, SpannedConfig> + Clone + Drop,
        requires list { O.can_list object }
        requires can { M.can_change option }
        requires copies { CopiesAlike M.is_clone M.is_like option }
        ensures ok { OnOk result (EachListed (O.lists object) (M.does option) self.old.cells self.old.spans self.new.cells self.new.spans) }
        ensures err { OnErr result (EachListedLeaves (O.lists object) (M.does option) (M.leaves option) self.old.cells self.old.spans self.new.cells self.new.spans) }
    {
        self.with(alloc, Modify::list(object, option))
    }

    /// The number of rows and the number of columns.
    ///
    /// Ported from `tabled::Table::shape`.
    pub fn shape(&self) -> (usize, usize)
        ensures { result ≡ (self.now.cells.rows, self.now.cells.columns) }
    {
        (self.count_rows(), self.count_columns())
    }

    /// The number of rows.
    ///
    /// Ported from `tabled::Table::count_rows`.
    pub fn count_rows(&self) -> usize
        ensures { result ≡ self.now.cells.rows }
    {
        self.records.count_rows()
    }

    /// The number of columns.
    ///
    /// Ported from `tabled::Table::count_columns`.
    pub fn count_columns(&self) -> usize
        ensures { result ≡ self.now.cells.columns }
    {
        self.records.count_columns()
    }

    /// The store of the cells.
    ///
    /// Ported from `tabled::Table::get_records`.
    pub fn get_records(&self) -> &VecRecords<Text<String>>
        ensures { result.now.grid ≡ self.now.cells }
    {
        &self.records
    }

    /// The merged cells.
    ///
    /// Ported from `tabled::Table::get_config`.
    pub fn get_config(&self) -> &SpannedConfig
        ensures { result.now ≡ self.now.spans }
    {
        &self.config
    }
}
