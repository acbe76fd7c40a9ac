//! A row or a column of one text.

ghost use Rattle.std.specs.Prelude.{◌≡◌, ◌≤◌, false, IfOk};
ghost use Rattle.std.specs.String.{string_bytes};
ghost use Rattle.tabled_spans.specs.Panels.{Panels, has_room};
ghost use Rattle.tabled_spans.specs.Widths.{IsCutText, cut};
ghost use Rattle.std.proofs.Common.{rules};

use crate::panel::width::cut_text;
use std::alloc::{AllocError, Global};
use std::marker::{Model, PhantomData};
use tabled_grid::config::{Entity, SpannedConfig};
use tabled_grid::records::{
    CellText, ExactRecords, Records, RecordsMut, Resizable, Target, TargetColumn, TargetRow,
};
use tabled_options::TableOption;

/// Puts a row in before row `row`, or after the last one: a text in its first cell, which is as wide as the
/// table (r x c to r+1 x c). Merged cells from that row on go one row down.
///
/// With `HorizontalPanel::new(1, "P")`,
///
/// ```text
///                +---+---+
/// +---+---+      | a | b |
/// | a | b |      +---+---+
/// +---+---+  ->  | P     |
/// | c | d |      +---+---+
/// +---+---+      | c | d |
///                +---+---+
/// ```
///
/// It changes nothing where there is no such row, where the table has no columns, and where merged cells
/// begin above the row and hold a cell of it. That takes no memory. Refused for memory, it leaves the
/// table as it was.
///
/// Ported from `tabled::settings::panel::HorizontalPanel`.
pub type HorizontalPanel = PanelOn<TargetRow>;

/// Puts a column in before column `col`, or after the last one: a text in its first cell, which is as high
/// as the table (r x c to r x c+1). Merged cells from that column on go one column to the right.
///
/// With `VerticalPanel::new(1, "P")`,
///
/// ```text
/// +---+---+      +---+---+---+
/// | a | b |      | a | P | b |
/// +---+---+  ->  +---+   +---+
/// | c | d |      | c |   | d |
/// +---+---+      +---+---+---+
/// ```
///
/// It changes nothing where there is no such column, where the table has no rows, and where merged cells
/// begin left of the column and hold a cell of it. That takes no memory. Refused for memory, it leaves the
/// table as it was.
///
/// Ported from `tabled::settings::panel::VerticalPanel`.
pub type VerticalPanel = PanelOn<TargetColumn>;

/// Puts a line in, a row or a column as `T` says: a text in its first cell, which is as long as the line.
#[derive(Drop)]
pub struct PanelOn<T> {
    line: usize,
    text: String,
    target: PhantomData<T>,
}

impl<T> Model for PanelOn<T> {
    ghost use Rattle.std.specs.Prelude.{ℕ, List};
    ghost use Rattle.std.specs.String.{string_bytes};

    ghost Value = { ℕ × List ℕ };

    ghost view = { λ a. (a.line, string_bytes a.text) };
}

impl<T> PanelOn<T> {
    /// A row (or a column) with a text, put in before another.
    ///
    /// Ported from `tabled::settings::panel::HorizontalPanel::new` and
    /// `tabled::settings::panel::VerticalPanel::new`.
    pub fn new(line: usize, text: String) -> Self
        ensures { result ≡ (line, string_bytes text) }
    {
        PanelOn {
            line,
            text,
            target: PhantomData,
        }
    }
}

impl VerticalPanel {
    /// The panel with each line of its text cut into pieces of at most `width` columns. A character that
    /// doesn't fit becomes U+FFFD, and characters without columns stay with the one before them. A width of
    /// 0 leaves no text.
    ///
    /// Ported from `tabled::settings::panel::VerticalPanel::width`.
    pub fn width(self, alloc: Global, width: usize) -> Result<VerticalPanel, AllocError>
        ensures cut { IfOk result (λ panel. panel ≡ (self.0, cut width self.1)) }
        ensures parted { 1 ≤ width → IfOk result (λ panel. IsCutText width self.1 panel.1) }
    {
        let text = if width == 0 {
            String::new(alloc)
        } else {
            cut_text(alloc, self.text.as_str(), width)?
        };
        Ok(VerticalPanel::new(self.line, text))
    }
}

impl<T, R, D> TableOption<R, SpannedConfig, D> for PanelOn<T>
where
    T: Target,
    R: Records + ExactRecords + Resizable + RecordsMut<String>,
    R::Cell: CellText,
{
    ghost does = { λ s. Panels R.Cell.is_blank R.Cell.text_of T.lines s.0 s.1 };

    ghost never_refused = { λ s g c. has_room T.lines s.0 g c ≡ false };

    fn change(
        self,
        alloc: Global,
        records: &mut R,
        cfg: &mut SpannedConfig,
        _dimension: &mut D,
    ) -> Result<(), AllocError> {
        let axis = T::axis();
        let line = self.line;
        let many = axis.across().count(records);
        if line > axis.count(records) || many == 0 || cfg.crosses(axis, line) {
            return Ok(());
        }
        let mut merged = cfg.copy(alloc)?;
        merged.shift(axis, line);
        merged.set_span(alloc, axis.across(), axis.place(line, 0), many)?;

        // The map is made first: where it is refused, no line was put in.
        records.insert_line(alloc, axis, line)?;
        if let Err(error) = records.set(alloc, axis.place(line, 0), self.text) {
            records.remove_line(axis, line);
            return Err(error);
        }
        *cfg = merged;
        Ok(())
    }

    fn hint_change(&self) -> Option<Entity> {
        Some(Entity::Global)
    }

    ghost acts_like = { Prim.search rules };
}
