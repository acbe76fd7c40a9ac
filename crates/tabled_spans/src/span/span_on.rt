//! A span of columns or of rows.

ghost use Rattle.std.specs.Prelude.{◌≡◌, ◌<ℤ◌, ◌^◌, ℤ, negsuc, pos};
ghost use Rattle.tabled_spans.specs.Spanned.{SpanTakesNoMemory, Spans, SpansFirst};
ghost use Rattle.std.proofs.Common.{rules};

use crate::span::along::back_of;
use crate::span::grow::grow;
use crate::span::pull::pull_each;
use std::alloc::{AllocError, Global};
use std::fmt;
use std::marker::{Model, PhantomData};
use tabled_grid::config::{Entity, SpannedConfig};
use tabled_grid::records::{
    Axis, CellText, ExactRecords, PeekableRecords, Records, RecordsMut, Target, TargetColumn,
    TargetRow,
};
use tabled_options::CellOption;

/// A span of columns. A contract sees it as its size.
///
/// Ported from `tabled::settings::span::ColumnSpan`.
pub type ColumnSpan = SpanOn<TargetColumn>;

/// A span of rows. A contract sees it as its size.
///
/// Ported from `tabled::settings::span::RowSpan`.
pub type RowSpan = SpanOn<TargetRow>;

/// A span of columns or of rows, as `T` says. A contract sees it as its size.
#[derive(Clone, Copy, PartialEq, Eq, PartialOrd, Ord)]
pub struct SpanOn<T> {
    size: isize,
    target: PhantomData<T>,
}

impl<T> Model for SpanOn<T> {
    ghost Value = { ℤ };

    ghost view = { λ a. a.size };

    ghost inverse = { λ size. record { size = size; target = record {} } };
}

impl<T> SpanOn<T> {
    ghost use Rattle.std.specs.Prelude.{◌≡◌, ◌-◌, ◌^◌, negsuc, pos};

    /// A span of a size: 1 or more columns (or rows) from the place on, below 0 back from it, or 0 for all.
    ///
    /// Ported from `tabled::settings::span::ColumnSpan::new` and `tabled::settings::span::RowSpan::new`.
    pub fn new(size: isize) -> Self
        ensures { result ≡ size }
    {
        SpanOn {
            size,
            target: PhantomData,
        }
    }

    /// The greatest size.
    ///
    /// Ported from `tabled::settings::span::ColumnSpan::max` and `tabled::settings::span::RowSpan::max`.
    pub fn max() -> Self
        ensures { result ≡ pos (2 ^ 63 - 1) }
    {
        SpanOn::new(isize::MAX)
    }

    /// The least size.
    ///
    /// Ported from `tabled::settings::span::ColumnSpan::min` and `tabled::settings::span::RowSpan::min`.
    pub fn min() -> Self
        ensures { result ≡ negsuc (2 ^ 63 - 1) }
    {
        SpanOn::new(isize::MIN)
    }

    /// All columns (or rows).
    ///
    /// Ported from `tabled::settings::span::ColumnSpan::spread` and `tabled::settings::span::RowSpan::spread`.
    pub fn spread() -> Self
        ensures { result ≡ pos 0 }
    {
        SpanOn::new(0)
    }
}

impl<T: Target> fmt::Debug for SpanOn<T> {
    fn fmt<W: fmt::Write>(&self, f: &mut fmt::Formatter<W>) -> fmt::Result {
        let name = match T::axis() {
            Axis::Rows => "RowSpan",
            Axis::Columns => "ColumnSpan",
        };
        f.debug_struct(name).field("size", &self.size).finish()
    }
}

/// Merges cells at each place of the table that the entity names, one after another, and drops what is
/// hidden then, all at once.
///
/// On no cell of the table, and where a size of 1 takes the span of one cell away, it takes no memory. Refused
/// for memory, a size of 1 or more changes nothing, and one of 0 or below leaves nothing changed, or the writes
/// before one of its own, with the merged cells as they were.
impl<T, R> CellOption<R, SpannedConfig> for SpanOn<T>
where
    T: Target,
    R: Records + ExactRecords + PeekableRecords + RecordsMut<String>,
    R::Cell: CellText,
{
    ghost does = { λ size. Spans R.Cell.text_of T.lines size };

    ghost leaves = { λ size. SpansFirst R.Cell.text_of T.lines size };

    ghost never_refused = { λ size e g _. SpanTakesNoMemory size e g.rows g.columns };

    fn change(
        self,
        alloc: Global,
        records: &mut R,
        cfg: &mut SpannedConfig,
        entity: Entity,
    ) -> Result<(), AllocError> {
        let axis = T::axis();
        if self.size > 0 {
            let rows = records.count_rows();
            let columns = records.count_columns();
            let size = self.size.unsigned_abs();
            return grow(alloc, cfg, axis, size, entity, rows, columns);
        }
        pull_each(alloc, records, cfg, axis, back_of(self.size), entity)
    }

    fn hint_change(&self) -> Option<Entity> {
        Some(Entity::Global)
    }

    ghost acts_like = { Prim.search rules };
}
