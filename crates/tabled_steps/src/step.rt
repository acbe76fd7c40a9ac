//! Steps as data.

ghost use Rattle.std.specs.Prelude.{◌≡◌, IsOk, OnErr, OnOk};
ghost use Rattle.tabled_steps.specs.Steps.{Does, Leaves, TakesNoMemory};
ghost use Rattle.std.proofs.Common.{rules};

use crate::representatives::{Representatives, change_each};
use crate::select::Select;
use std::alloc::{AllocError, Global};
use tabled_grid::config::{Entity, SpannedConfig};
use tabled_grid::records::{
    Axis, CellText, ExactRecords, PeekableRecords, Records, RecordsMut, Resizable,
};
use tabled_options::TableOption;
use tabled_select::location::ByColumnName;
use tabled_select::object::{Columns, Rows};
use tabled_settings::concat::Concat;
use tabled_settings::disable::Remove;
use tabled_settings::duplicate::Dup;
use tabled_settings::extract::Extract;
use tabled_settings::formatting::Charset;
use tabled_settings::keep::Keep;
use tabled_settings::line_names::{ColumnNames, RowNames};
use tabled_settings::replace::Replace;
use tabled_settings::reverse::Reverse;
use tabled_settings::rotate::Rotate;
use tabled_settings::sort::Sort;
use tabled_settings::split::Split;
use tabled_settings::width::{Truncate, Wrap};
use tabled_spans::merge::{Merge, MergeDuplicatesHorizontal, MergeDuplicatesVertical};
use tabled_spans::panel::{Footer, Header, HorizontalPanel, VerticalPanel};
use tabled_spans::span::Span;

/// An option that is data: it does to a table what the option of its name does.
///
/// One with a selector does it on each entity that the selector names in the table as it is before the
/// step, one after another.
///
/// Of this project.
#[derive(Drop)]
pub enum Step {
    /// Writes a text to cells.
    Set(Select, String),
    /// Writes to the first cells the texts of the second ones.
    Dup(Select, Select),
    /// Replaces tabs in the texts of cells, or takes control characters out, as the charset says.
    Charset(Charset, Select),
    /// Cuts the lines of texts to a width, as the wrap says.
    Wrap(Wrap, Select),
    /// Cuts the lines of texts at a width, as the truncation says.
    Truncate(Truncate<'static>, Select),
    /// Replaces the first text by the second, wherever it occurs in texts.
    Replace(String, String, Select),
    /// Merges cells along rows, by a span's size.
    ColumnSpan(isize, Select),
    /// Merges cells along columns, by a span's size.
    RowSpan(isize, Select),
    HorizontalPanel(HorizontalPanel),
    VerticalPanel(VerticalPanel),
    Header(Header),
    Footer(Footer),
    /// Merges equal neighbours in columns.
    MergeVertical(MergeDuplicatesVertical),
    /// Merges equal neighbours in rows.
    MergeHorizontal(MergeDuplicatesHorizontal),
    /// Merges equal neighbours among the cells of each entity: in its columns, along its rows, or the other way round.
    Merge(Axis, Select),
    Rotate(Rotate),
    Reverse(Reverse),
    Split(Split),
    Concat(Concat),
    /// Keeps a range of rows and a range of columns, each by its start and its end.
    Extract(usize, usize, usize, usize),
    /// Takes away the rows of a range.
    RemoveRows(usize, usize),
    RemoveColumns(usize, usize),
    /// Takes away the columns with a text in the first row.
    RemoveNamed(String),
    /// Keeps the rows that are named, in the order in which they are named, each once.
    KeepRows(RowNames),
    KeepColumns(ColumnNames),
    /// Puts rows in the order of a column.
    Sort(Sort),
    /// One step, and then another.
    Both(Box<Step>, Box<Step>),
}

impl Step {
    /// Does the step on a table.
    fn apply<R, D>(
        self,
        alloc: Global,
        records: &mut R,
        cfg: &mut SpannedConfig,
        dimension: &mut D,
    ) -> Result<(), AllocError>
    where
        R: Records + ExactRecords + PeekableRecords + RecordsMut<String> + Resizable,
        R::Cell: CellText,
        requires well { R.is_well_formed records.old }
        ensures well { R.is_well_formed records.new }
        ensures ok { OnOk result (Does R.Cell.is_blank R.Cell.text_of self (R.grid records.old) cfg.old (R.grid records.new) cfg.new) }
        ensures err { OnErr result (Leaves R.Cell.is_blank R.Cell.text_of self (R.grid records.old) cfg.old (R.grid records.new) cfg.new) }
        ensures promised { TakesNoMemory R.Cell.is_blank R.Cell.text_of self (R.grid records.old) cfg.old → IsOk result }
    {
        match self {
            Step::Set(select, text) => change_each(alloc, records, cfg, select, text),
            Step::Dup(destination, source) => {
                Dup::new(Representatives(destination), Representatives(source)).change(
                    alloc, records, cfg, dimension,
                )
            }
            Step::Charset(charset, select) => change_each(alloc, records, cfg, select, charset),
            Step::Wrap(wrap, select) => change_each(alloc, records, cfg, select, wrap),
            Step::Truncate(truncate, select) => change_each(alloc, records, cfg, select, truncate),
            Step::Replace(from, to, select) => {
                let replace = Replace::new(from.as_str(), to.as_str());
                change_each(alloc, records, cfg, select, replace)
            }
            Step::ColumnSpan(size, select) => {
                change_each(alloc, records, cfg, select, Span::column(size))
            }
            Step::RowSpan(size, select) => {
                change_each(alloc, records, cfg, select, Span::row(size))
            }
            Step::HorizontalPanel(panel) => panel.change(alloc, records, cfg, dimension),
            Step::VerticalPanel(panel) => panel.change(alloc, records, cfg, dimension),
            Step::Header(header) => header.change(alloc, records, cfg, dimension),
            Step::Footer(footer) => footer.change(alloc, records, cfg, dimension),
            Step::MergeVertical(merge) => merge.change(alloc, records, cfg, dimension),
            Step::MergeHorizontal(merge) => merge.change(alloc, records, cfg, dimension),
            Step::Merge(axis, select) => match axis {
                Axis::Rows => change_each(alloc, records, cfg, select, Merge::vertical()),
                Axis::Columns => change_each(alloc, records, cfg, select, Merge::horizontal()),
            },
            Step::Rotate(rotate) => rotate.change(alloc, records, cfg, dimension),
            Step::Reverse(reverse) => reverse.change(alloc, records, cfg, dimension),
            Step::Split(split) => split.change(alloc, records, cfg, dimension),
            Step::Concat(concat) => concat.change(alloc, records, cfg, dimension),
            Step::Extract(a, b, c, d) => {
                Extract::segment(a..b, c..d).change(alloc, records, cfg, dimension)
            }
            Step::RemoveRows(a, b) => {
                Remove::row(Rows::new(a..b)).change(alloc, records, cfg, dimension)
            }
            Step::RemoveColumns(a, b) => {
                Remove::column(Columns::new(a..b)).change(alloc, records, cfg, dimension)
            }
            Step::RemoveNamed(name) => {
                Remove::column(ByColumnName::new(name)).change(alloc, records, cfg, dimension)
            }
            Step::KeepRows(names) => Keep::rows(names).change(alloc, records, cfg, dimension),
            Step::KeepColumns(names) => {
                Keep::columns(names).change(alloc, records, cfg, dimension)
            }
            Step::Sort(sort) => sort.change(alloc, records, cfg, dimension),
            Step::Both(first, second) => {
                Box::into_inner(first).apply(alloc, records, cfg, dimension)?;
                Box::into_inner(second).apply(alloc, records, cfg, dimension)
            }
        }
    }
}

/// Does the step. Refused, it leaves what the option of its name leaves.
impl<R, D> TableOption<R, SpannedConfig, D> for Step
where
    R: Records + ExactRecords + PeekableRecords + RecordsMut<String> + Resizable,
    R::Cell: CellText,
{
    ghost does = { λ s. Does R.Cell.is_blank R.Cell.text_of s };

    ghost leaves = { λ s. Leaves R.Cell.is_blank R.Cell.text_of s };

    ghost never_refused = { λ s. TakesNoMemory R.Cell.is_blank R.Cell.text_of s };

    fn change(
        self,
        alloc: Global,
        records: &mut R,
        cfg: &mut SpannedConfig,
        dimension: &mut D,
    ) -> Result<(), AllocError> {
        self.apply(alloc, records, cfg, dimension)
    }

    fn hint_change(&self) -> Option<Entity> {
        Some(Entity::Global)
    }

    ghost acts_like = { Prim.search rules };
}
