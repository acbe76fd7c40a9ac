//! Records gathered one after another, all of one length.

use crate::builder::{IndexBuilder, columns, rows, texts};
use crate::table::Table;
use std::alloc::{AllocError, Global};
use std::marker::Model;
use tabled_grid::records::nested_rows::{remove_each, truncate_each, width};
use tabled_grid::records::{Text, VecRecords};

/// Records of texts, all as long as there are declared columns.
///
/// Ported from `tabled::builder::Builder`.
#[derive(Drop)]
pub struct Builder {
    rows: Vec<Vec<Text<String>>>,
    count_columns: usize,
    empty_text: String,
}

impl Model for Builder {
    ghost use Rattle.std.specs.String.{string_bytes};
    ghost use Rattle.tabled_grid.specs.Evenness.{AreWide};
    ghost use Rattle.tabled_table.specs.Builder.{Builder, row_texts};

    ghost Value = { Builder };

    ghost view = { λ a. record { columns = a.count_columns; rows = row_texts a.rows.items; empty = string_bytes a.empty_text } };

    ghost invariant = { λ a. AreWide a.count_columns (row_texts a.rows.items) };
}

impl Builder {
    ghost use Rattle.tabled_grid.specs.Spans as spans;
    ghost use Rattle.std.specs.Prelude.{◌≡◌, ◌<◌, ◌≤◌, [], IfOk, IsOk, OnOk, OnErr, length};
    ghost use Rattle.std.specs.String.{string_bytes};
    ghost use Rattle.tabled_grid.specs.Evenness.{AreWide};
    ghost use Rattle.tabled_table.specs.Builder.{builder_with_column, builder_without_column, cleaned, cleared, from_uneven, row_texts, table_of, with_last_column, with_last_record, with_record, without_record};
    ghost use Rattle.tabled_grid.specs.Grid.{map_grid, width_of};
    ghost use Rattle.tabled_table.specs.Index.{indexed_rows};
    ghost use Rattle.tabled_table.specs.Given.{EachGaveTexts, EachMayBeAsked, GaveTexts, MayBeAsked};

    /// A builder with no columns and no records (0 x 0), whose empty text is `""`.
    ///
    /// Ported from `tabled::builder::Builder::new`.
    pub fn new(alloc: Global) -> Self
        ensures { result ≡ record { columns = 0; rows = []; empty = [] } }
    {
        Builder {
            rows: Vec::new(alloc),
            count_columns: 0,
            empty_text: String::new(alloc),
        }
    }

    /// A builder with declared columns and no records (0 x c), which has room for n records.
    ///
    /// Refused where memory runs out.
    ///
    /// Ported from `tabled::builder::Builder::with_capacity`.
    pub fn with_capacity(
        alloc: Global,
        count_records: usize,
        count_columns: usize,
    ) -> Result<Self, AllocError>
        ensures { IfOk result (λ b. b ≡ record { columns = count_columns; rows = []; empty = [] }) }
    {
        Ok(Builder {
            rows: Vec::with_capacity(alloc, count_records)?,
            count_columns,
            empty_text: String::new(alloc),
        })
    }

    /// A builder of rows (r x c), which have to be equally long.
    ///
    /// Ported from `tabled::builder::Builder::from_vec`.
    pub fn from_vec(alloc: Global, rows: Vec<Vec<Text<String>>>) -> Self
        requires even { AreWide (width_of (row_texts rows.items)) (row_texts rows.items) }
        ensures rows { result ≡ record { columns = width_of (row_texts rows.items); rows = row_texts rows.items; empty = [] } }
    {
        let count_columns = width(&rows);
        Builder {
            rows,
            count_columns,
            empty_text: String::new(alloc),
        }
    }

    /// A builder of rows of any lengths, which are padded with `""` to the longest (r x c).
    ///
    /// Refused where memory runs out.
    ///
    /// Ported from `impl From<Vec<Vec<Text<String>>>> for tabled::builder::Builder`.
    pub fn from_cells(alloc: Global, mut rows: Vec<Vec<Text<String>>>) -> Result<Self, AllocError>
        ensures { IfOk result (λ b. b ≡ from_uneven (row_texts rows.items)) }
    {
        let count_columns = rows::longest(&rows);
        rows::try_pad_each(alloc, &mut rows, count_columns, "")?;
        Ok(Builder {
            rows,
            count_columns,
            empty_text: String::new(alloc),
        })
    }

    /// A builder of rows of any lengths, which are padded with `""` to the longest (r x c).
    ///
    /// Refused where memory runs out.
    ///
    /// Ported from `impl From<Vec<Vec<String>>> for tabled::builder::Builder`.
    pub fn from_strings(alloc: Global, rows: Vec<Vec<String>>) -> Result<Self, AllocError>
        ensures { IfOk result (λ b. b ≡ from_uneven (row_texts rows.items)) }
    {
        Builder::from_cells(alloc, texts::cell_rows(alloc, rows)?)
    }

    /// A builder of rows that are as long as there are columns.
    pub(super) fn of_rows(
        alloc: Global,
        count_columns: usize,
        rows: Vec<Vec<String>>,
    ) -> Result<Self, AllocError>
        requires { AreWide count_columns (row_texts rows.items) }
        ensures { IfOk result (λ b. b ≡ record { columns = count_columns; rows = row_texts rows.items; empty = [] }) }
    {
        Ok(Builder {
            rows: texts::cell_rows(alloc, rows)?,
            count_columns,
            empty_text: String::new(alloc),
        })
    }

    /// A builder of records, one handed in after another, which are padded with `""` to the longest
    /// (r x c).
    ///
    /// Refused where memory runs out.
    ///
    /// Ported from `impl FromIterator for tabled::builder::Builder`.
    pub fn from_rows<I, R>(alloc: Global, records: I) -> Result<Self, AllocError>
    where
        I: IntoIterator<Item = R>,
        R: IntoIterator<Item = String>,
        requires asked { EachMayBeAsked I.IntoIterator I.IntoIter.Iterator R.IntoIterator R.IntoIter.Iterator records }
        ensures ok { IfOk result (λ b. EachGaveTexts I.IntoIterator I.IntoIter.Iterator R.IntoIterator R.IntoIter.Iterator records (λ rows. b ≡ from_uneven rows)) }
    {
        let mut builder = Builder::new(alloc);
        for row in records {
            builder.push_record(alloc, row)?;
        }
        Ok(builder)
    }

    /// The rows, all equally long.
    ///
    /// Ported from `impl From<tabled::builder::Builder> for Vec<Vec<Text<String>>>`.
    pub fn into_cells(self) -> Vec<Vec<Text<String>>>
        ensures rows { row_texts result.items ≡ self.rows }
        ensures even { AreWide (width_of (row_texts result.items)) (row_texts result.items) }
        ensures wide { AreWide self.columns self.rows }
    {
        let Builder {
            rows,
            count_columns: _,
            empty_text: _,
        } = self;
        rows
    }

    /// The rows, as strings.
    ///
    /// Refused where memory runs out.
    ///
    /// Ported from `impl From<tabled::builder::Builder> for Vec<Vec<String>>`.
    pub fn into_strings(self, alloc: Global) -> Result<Vec<Vec<String>>, AllocError>
        ensures { IfOk result (λ rows. row_texts rows.items ≡ self.rows) }
    {
        texts::string_rows(alloc, self.into_cells())
    }

    /// The table of the rows (r x c, or 0 x 0 without rows), with no merged cells.
    ///
    /// Refused where memory runs out.
    ///
    /// Ported from `tabled::builder::Builder::build`.
    pub fn build(self, alloc: Global) -> Result<Table, AllocError>
        ensures cells { IfOk result (λ table. map_grid string_bytes table.cells ≡ table_of self) }
        ensures spans { IfOk result (λ table. table.spans ≡ spans.empty) }
    {
        let records = VecRecords::new(alloc, self.into_cells())?;
        Ok(Table::from_records(alloc, records))
    }

    /// The records with an index: the first record is the header, and the numbers of the others are
    /// the index.
    ///
    /// Refused where memory runs out.
    ///
    /// Ported from `tabled::builder::Builder::index`.
    pub fn index(self, alloc: Global) -> Result<IndexBuilder, AllocError>
        ensures ok { IfOk result (λ x. x ≡ indexed_rows self.rows) }
        ensures promised { self.rows ≡ [] → IsOk result }
    {
        IndexBuilder::of_rows(alloc, self.into_cells())
    }

    /// The number of declared columns, which is the length of each record.
    ///
    /// Ported from `tabled::builder::Builder::count_columns`.
    pub fn count_columns(&self) -> usize
        ensures count { result ≡ self.now.columns }
        ensures even { AreWide self.now.columns self.now.rows }
    {
        self.count_columns
    }

    /// The number of records.
    ///
    /// Ported from `tabled::builder::Builder::count_records`.
    pub fn count_records(&self) -> usize
        ensures { result ≡ length self.now.rows }
    {
        self.rows.len()
    }

    /// Sets the text that pads from now on. What was padded before stays.
    ///
    /// Ported from `tabled::builder::Builder::set_empty`.
    pub fn set_empty(&mut self, text: String)
        ensures { self.new ≡ record self.old { empty = string_bytes text } }
    {
        self.empty_text = text;
    }

    /// Adds a record after the others (r x c to r+1 x max(c, n) for n texts). A shorter one is padded
    /// with the empty text; for a longer one all others are. A record `c d e` after `a b`
    /// makes, with `.` for the empty text,
    ///
    /// ```text
    /// a b .
    /// c d e
    /// ```
    ///
    /// Refused for memory, it leaves the builder as it was.
    ///
    /// Ported from `tabled::builder::Builder::push_record`.
    pub fn push_record<R>(&mut self, alloc: Global, texts: R) -> Result<(), AllocError>
    where
        R: IntoIterator<Item = String>,
        requires asked { MayBeAsked R.IntoIterator R.IntoIter.Iterator texts }
        ensures ok { OnOk result (GaveTexts R.IntoIterator R.IntoIter.Iterator texts (λ given. self.new ≡ with_last_record self.old given)) }
        ensures err { OnErr result (self.new ≡ self.old) }
    {
        let end = self.rows.len();
        self.insert_record(alloc, end, texts)
    }

    /// Adds a record after the others, as `push_record` does.
    ///
    /// Refused for memory, it leaves the builder as it was.
    ///
    /// Ported from `impl Extend for tabled::builder::Builder`.
    pub fn extend_record<R>(&mut self, alloc: Global, texts: R) -> Result<(), AllocError>
    where
        R: IntoIterator<Item = String>,
        requires asked { MayBeAsked R.IntoIterator R.IntoIter.Iterator texts }
        ensures ok { OnOk result (GaveTexts R.IntoIterator R.IntoIter.Iterator texts (λ given. self.new ≡ with_last_record self.old given)) }
        ensures err { OnErr result (self.new ≡ self.old) }
    {
        self.push_record(alloc, texts)
    }

    /// Inserts a record before record `i`, which is at most the number of records (r x c to
    /// r+1 x max(c, n) for n texts). A shorter one is padded with the empty text; for a longer one all
    /// others are.
    ///
    /// Refused for memory, it leaves the builder as it was.
    ///
    /// Ported from `tabled::builder::Builder::insert_record`.
    pub fn insert_record<R>(&mut self, alloc: Global, i: usize, texts: R) -> Result<(), AllocError>
    where
        R: IntoIterator<Item = String>,
        requires within { i ≤ length self.old.rows }
        requires asked { MayBeAsked R.IntoIterator R.IntoIter.Iterator texts }
        ensures ok { OnOk result (GaveTexts R.IntoIterator R.IntoIter.Iterator texts (λ given. self.new ≡ with_record self.old i given)) }
        ensures err { OnErr result (self.new ≡ self.old) }
    {
        let mut row = rows::collect(alloc, self.count_columns, texts)?;
        let columns = self.count_columns;
        let empty = self.empty_text.as_str();
        rows::pad(alloc, &mut row, columns, empty)?;
        let longest = row.len();
        rows::insert_row(alloc, &mut self.rows, columns, i, row, empty)?;
        self.count_columns = longest;
        Ok(())
    }

    /// Adds a column after the others (r x c to max(r, n) x c+1 for n texts). A row without a text
    /// takes the empty text, and each surplus text makes a new last row of empty texts with the text
    /// last. A column `x y` after `a b` makes
    ///
    /// ```text
    /// a b x
    /// . . y
    /// ```
    ///
    /// Refused for memory, or past `usize::MAX` columns, it leaves the builder as it was.
    ///
    /// Ported from `tabled::builder::Builder::push_column`.
    pub fn push_column<R>(&mut self, alloc: Global, texts: R) -> Result<(), AllocError>
    where
        R: IntoIterator<Item = String>,
        requires asked { MayBeAsked R.IntoIterator R.IntoIter.Iterator texts }
        ensures ok { OnOk result (GaveTexts R.IntoIterator R.IntoIter.Iterator texts (λ given. self.new ≡ with_last_column self.old given)) }
        ensures err { OnErr result (self.new ≡ self.old) }
    {
        let count = self.rows.len();
        let mut items = rows::collect(alloc, count, texts)?;
        let columns = self.count_columns;
        let wider = columns.checked_add(1).ok_or(AllocError)?;
        let empty = self.empty_text.as_str();
        rows::pad(alloc, &mut items, count, empty)?;
        rows::push_items(alloc, &mut self.rows, columns, items, empty)?;
        self.count_columns = wider;
        Ok(())
    }

    /// Inserts a column before column `j`, which is at most the number of columns (r x c to r x c+1).
    /// A row without a text takes the empty text, and surplus texts are dropped.
    ///
    /// Refused for memory, or past `usize::MAX` columns, it leaves the builder as it was.
    ///
    /// Ported from `tabled::builder::Builder::insert_column`.
    pub fn insert_column<R>(&mut self, alloc: Global, j: usize, texts: R) -> Result<(), AllocError>
    where
        R: IntoIterator<Item = String>,
        requires within { j ≤ self.old.columns }
        requires asked { MayBeAsked R.IntoIterator R.IntoIter.Iterator texts }
        ensures ok { OnOk result (GaveTexts R.IntoIterator R.IntoIter.Iterator texts (λ given. self.new ≡ builder_with_column self.old j given)) }
        ensures err { OnErr result (self.new ≡ self.old) }
    {
        let count = self.rows.len();
        let mut items = rows::collect(alloc, count, texts)?;
        let wider = self.count_columns.checked_add(1).ok_or(AllocError)?;
        items.truncate(count);
        rows::pad(alloc, &mut items, count, self.empty_text.as_str())?;
        columns::insert_items(&mut self.rows, j, items)?;
        self.count_columns = wider;
        Ok(())
    }

    /// Removes record `i`, which is below the number of records (r x c to r-1 x c). The declared
    /// columns stay. It takes no memory.
    ///
    /// Ported from `tabled::builder::Builder::remove_record`.
    pub fn remove_record(&mut self, i: usize)
        requires within { i < length self.old.rows }
        ensures removed { self.new ≡ without_record self.old i }
    {
        let _record = self.rows.remove(i);
    }

    /// Removes column `j`, which is below the number of columns (r x c to r x c-1). It takes no
    /// memory.
    ///
    /// Ported from `tabled::builder::Builder::remove_column`.
    pub fn remove_column(&mut self, j: usize)
        requires within { j < self.old.columns }
        ensures removed { self.new ≡ builder_without_column self.old j }
    {
        remove_each(&mut self.rows, j);
        self.count_columns -= 1;
    }

    /// Removes all records and columns (to 0 x 0). The empty text stays. It takes no memory.
    ///
    /// Ported from `tabled::builder::Builder::clear`.
    pub fn clear(&mut self)
        ensures { self.new ≡ cleared self.old }
    {
        self.rows.clear();
        self.count_columns = 0;
    }

    /// Removes the columns whose cells are all `""`, and then the rows whose cells are all `""`.
    /// Without rows no columns are left. It takes no memory. With `.` for `""`,
    /// `a . b / . . . / c . .` is then
    ///
    /// ```text
    /// a b
    /// c .
    /// ```
    ///
    /// Ported from `tabled::builder::Builder::clean`.
    pub fn clean(&mut self)
        ensures { self.new ≡ cleaned self.old }
    {
        let kept = columns::gather(&mut self.rows, self.count_columns);
        truncate_each(&mut self.rows, kept);
        rows::retain_texts(&mut self.rows);
        self.count_columns = kept;
    }
}
