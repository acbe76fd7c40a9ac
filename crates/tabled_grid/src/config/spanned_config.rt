//! Which cells are merged.

ghost use Rattle.std.specs.Prelude.{◌≡◌, ◌<◌, ◌≤◌, ◌↔◌, ◌⊎◌, IfOk, IsOk, IsSome, IsTrue, OnErr, OnOk, SomeIff};
ghost use Rattle.std.specs.List.{AllByRecursion};
ghost use Rattle.tabled_grid.specs.Axis.{with_span};
ghost use Rattle.tabled_grid.specs.Rectangles.{HasArea, column_spans, is_covered_across, is_covered_down, row_spans};
ghost use Rattle.tabled_grid.specs.Hidden.{drop_hidden, is_visible};
ghost use Rattle.tabled_grid.specs.Shifts.{is_crossed, shifted};
ghost use Rattle.tabled_grid.specs.Spans.{AreAnchors, AreSorted, IsSpan, empty, get, insert, map_of, rectangles, remove, size_at, sized, with_column_span, with_row_span, with_size, with_sizes};

use crate::config::position::Position;
use crate::config::rectangle::Rectangle;
use crate::config::size::Size;
use crate::config::{anchors, shifts};
use crate::records::Axis;
use std::alloc::{AllocError, Global};
use std::marker::Model;

/// Which cells are merged: rectangles of cells, each of which goes right and down from its anchor.
///
/// A contract sees it as a finite map from anchors to sizes, with the proof that each has a height and a width of
/// at least 1 and not both 1. Rectangles need not lie inside a table, and may share cells.
///
/// Ported from the spans of `tabled::grid::config::SpannedConfig`.
#[derive(Drop)]
pub struct SpannedConfig {
    /// All rectangles, row by row.
    anchors: Vec<Rectangle>,
}

impl Model for SpannedConfig {
    ghost use Rattle.tabled_grid.specs.Spans.{AreAnchors, SpanMap, map_of, span_code};

    ghost Value = { SpanMap };

    ghost coded = { span_code };

    ghost view = { λ a. map_of a.anchors.items };

    ghost invariant = { λ a. AreAnchors a.anchors.items };
}

impl SpannedConfig {
    /// No merged cells.
    pub fn new(alloc: Global) -> Self
        ensures empty { result ≡ empty }
    {
        SpannedConfig {
            anchors: Vec::new(alloc),
        }
    }

    /// The rectangles of a list, of more than one cell each, which stand row by row, one at each anchor.
    ///
    /// Of this project.
    #[doc(hidden)]
    pub fn from_rectangles(anchors: Vec<Rectangle>) -> Self
        requires { AreAnchors anchors.items }
        ensures rectangles { result ≡ map_of anchors.items }
    {
        SpannedConfig { anchors }
    }

    /// The size of the rectangle that is anchored at a place, that of one cell where there is none.
    ///
    /// Of this project: the original has a call for the height and one for the width.
    pub fn size(&self, pos: Position) -> Size
        ensures value { result ≡ size_at self.now pos }
        ensures height { 1 ≤ result.height }
        ensures width { 1 ≤ result.width }
    {
        match anchors::search(&self.anchors, pos) {
            Ok(i) => self.anchors[i].size,
            Err(_) => Size::CELL,
        }
    }

    /// The width of the rectangle that is anchored at a place, if that is above 1.
    ///
    /// Ported from `tabled::grid::config::SpannedConfig::get_column_span`.
    pub fn get_column_span(&self, pos: Position) -> Option<usize>
        ensures span { SomeIff result (1 < (size_at self.now pos).width) (size_at self.now pos).width }
    {
        let width = self.size(pos).width;
        (width > 1).then_some(width)
    }

    /// The height of the rectangle that is anchored at a place, if that is above 1.
    ///
    /// Ported from `tabled::grid::config::SpannedConfig::get_row_span`.
    pub fn get_row_span(&self, pos: Position) -> Option<usize>
        ensures span { SomeIff result (1 < (size_at self.now pos).height) (size_at self.now pos).height }
    {
        let height = self.size(pos).height;
        (height > 1).then_some(height)
    }

    /// Sets how many rows, or columns, the rectangle takes that is anchored at a place, and leaves its other
    /// side. A number of 0 changes nothing. A rectangle of one cell is none.
    ///
    /// Memory is taken only for a new anchor. Refused, it changes nothing.
    ///
    /// Of this project: the original has `set_row_span` and `set_column_span`.
    pub fn set_span(
        &mut self,
        _alloc: Global,
        axis: Axis,
        pos: Position,
        many: usize,
    ) -> Result<(), AllocError>
        ensures ok { OnOk result (self.new ≡ with_span axis self.old pos many) }
        ensures err { OnErr result (self.new ≡ self.old) }
        ensures promised { (many ≤ 1) ⊎ IsSome (get self.old pos) → IsOk result }
    {
        if many == 0 {
            return Ok(());
        }
        let size = axis.resized(self.size(pos), many);
        self.set_size(pos, size)
    }

    /// Sets the width of the rectangle that is anchored at a place, as `set_span` does.
    ///
    /// Ported from `tabled::grid::config::SpannedConfig::set_column_span`.
    pub fn set_column_span(
        &mut self,
        alloc: Global,
        pos: Position,
        width: usize,
    ) -> Result<(), AllocError>
        ensures ok { OnOk result (self.new ≡ with_column_span self.old pos width) }
        ensures err { OnErr result (self.new ≡ self.old) }
        ensures promised { (width ≤ 1) ⊎ IsSome (get self.old pos) → IsOk result }
    {
        self.set_span(alloc, Axis::Columns, pos, width)
    }

    /// Sets the height of the rectangle that is anchored at a place, as `set_span` does.
    ///
    /// Ported from `tabled::grid::config::SpannedConfig::set_row_span`.
    pub fn set_row_span(
        &mut self,
        alloc: Global,
        pos: Position,
        height: usize,
    ) -> Result<(), AllocError>
        ensures ok { OnOk result (self.new ≡ with_row_span self.old pos height) }
        ensures err { OnErr result (self.new ≡ self.old) }
        ensures promised { (height ≤ 1) ⊎ IsSome (get self.old pos) → IsOk result }
    {
        self.set_span(alloc, Axis::Rows, pos, height)
    }

    /// Sets the sizes of many rectangles at once, where that of one cell stands for no anchor. The places
    /// are given row by row, each once.
    ///
    /// It costs the anchors and the sizes, where one call each would cost their product. Refused for
    /// memory, it changes nothing.
    ///
    /// Of this project.
    pub fn set_sizes(&mut self, alloc: Global, sizes: &[Rectangle]) -> Result<(), AllocError>
        requires sorted { AreSorted sizes.now }
        requires each { AllByRecursion HasArea sizes.now }
        ensures ok { OnOk result (self.new ≡ with_sizes self.old sizes.now) }
        ensures err { OnErr result (self.new ≡ self.old) }
    {
        match anchors::merge(alloc, &self.anchors, sizes) {
            Ok(merged) => {
                self.anchors = merged;
                Ok(())
            }
            Err(error) => Err(error),
        }
    }

    /// All rectangles, row by row.
    ///
    /// Of this project.
    pub fn rectangles(&self) -> &[Rectangle]
        ensures rectangles { result.now ≡ rectangles self.now }
    {
        &self.anchors
    }

    /// All rectangles, row by row, in a list to write into.
    ///
    /// Of this project.
    #[doc(hidden)]
    pub fn into_rectangles(self) -> Vec<Rectangle>
        ensures rectangles { result.items ≡ rectangles self }
    {
        let SpannedConfig { anchors } = self;
        anchors
    }

    /// The anchors of rectangles wider than one column, and their widths, row by row.
    ///
    /// Ported from `tabled::grid::config::SpannedConfig::get_column_spans`.
    pub fn get_column_spans(&self, alloc: Global) -> Result<Vec<(Position, usize)>, AllocError>
        ensures spans { IfOk result (λ spans. spans.items ≡ column_spans self.now) }
    {
        anchors::widths(alloc, &self.anchors)
    }

    /// The anchors of rectangles higher than one row, and their heights, row by row.
    ///
    /// Ported from `tabled::grid::config::SpannedConfig::get_row_spans`.
    pub fn get_row_spans(&self, alloc: Global) -> Result<Vec<(Position, usize)>, AllocError>
        ensures spans { IfOk result (λ spans. spans.items ≡ row_spans self.now) }
    {
        anchors::heights(alloc, &self.anchors)
    }

    /// Says whether no other anchor's rectangle holds a cell.
    ///
    /// Ported from `tabled::grid::config::SpannedConfig::is_cell_visible`.
    pub fn is_cell_visible(&self, pos: Position) -> bool
        ensures visible { result ≡ is_visible self.now pos }
    {
        !anchors::is_hidden(&self.anchors, pos)
    }

    /// Says whether an anchor in a cell's row, left of it, has a width that reaches it.
    ///
    /// Ported from `tabled::grid::config::SpannedConfig::is_cell_covered_by_column_span`.
    pub fn is_cell_covered_by_column_span(&self, pos: Position) -> bool
        ensures covered { result ≡ is_covered_across self.now pos }
    {
        anchors::is_covered_across(&self.anchors, pos)
    }

    /// Says whether an anchor in a cell's column, above it, has a height that reaches it.
    ///
    /// Ported from `tabled::grid::config::SpannedConfig::is_cell_covered_by_row_span`.
    pub fn is_cell_covered_by_row_span(&self, pos: Position) -> bool
        ensures covered { result ≡ is_covered_down self.now pos }
    {
        anchors::is_covered_down(&self.anchors, pos)
    }

    /// Removes, at once, all anchors that another anchor's rectangle holds. It takes no memory.
    pub fn drop_hidden(&mut self)
        ensures dropped { self.new ≡ drop_hidden self.old }
    {
        anchors::drop_hidden(&mut self.anchors);
    }

    /// Moves all anchors whose row (or column) is at least `from` one row (or column) further, at once.
    /// One at `usize::MAX` goes away. It takes no memory.
    ///
    /// Of this project: `tabled::settings::Panel` moves them one after another.
    #[doc(hidden)]
    pub fn shift(&mut self, axis: Axis, from: usize)
        ensures shifted { self.new ≡ shifted axis from self.old }
    {
        shifts::shift(&mut self.anchors, axis, from);
    }

    /// Says whether a rectangle begins before a row (or column) and holds a cell of it, inside a table or
    /// not.
    ///
    /// Of this project: `tabled::settings::Panel` asks each cell of the table's row (or column).
    #[doc(hidden)]
    pub fn crosses(&self, axis: Axis, line: usize) -> bool
        ensures crosses { result ≡ is_crossed axis line self.now }
    {
        shifts::cross(&self.anchors, axis, line)
    }

    /// A copy.
    pub fn copy(&self, _alloc: Global) -> Result<SpannedConfig, AllocError>
        ensures copy { IfOk result (λ copy. copy ≡ self.now) }
    {
        Ok(SpannedConfig {
            anchors: self.anchors.clone()?,
        })
    }

    /// Sets the size at a place. Refused for memory, it changes nothing.
    fn set_size(&mut self, pos: Position, size: Size) -> Result<(), AllocError>
        requires height { 1 ≤ size.height }
        requires width { 1 ≤ size.width }
        ensures ok { OnOk result (self.new ≡ with_size self.old pos size) }
        ensures err { OnErr result (self.new ≡ self.old) }
        ensures promised { (size ≡ sized 1 1) ⊎ IsSome (get self.old pos) → IsOk result }
    {
        if size.is_cell() {
            self.remove(pos);
            Ok(())
        } else {
            self.insert(pos, size)
        }
    }

    /// Puts an anchor of a size at a place. Memory is taken only for a new one. Refused, it changes nothing.
    fn insert(&mut self, pos: Position, size: Size) -> Result<(), AllocError>
        requires { IsSpan size }
        ensures ok { OnOk result (self.new ≡ insert self.old pos size) }
        ensures err { OnErr result (self.new ≡ self.old) }
        ensures promised { IsSome (get self.old pos) → IsOk result }
    {
        match anchors::search(&self.anchors, pos) {
            Ok(i) => {
                self.anchors[i] = Rectangle { first: pos, size };
                Ok(())
            }
            Err(i) => {
                self.anchors.insert(i, Rectangle { first: pos, size })?;
                Ok(())
            }
        }
    }

    /// Removes the anchor at a place, if there is one.
    fn remove(&mut self, pos: Position)
        ensures { self.new ≡ remove self.old pos }
    {
        match anchors::search(&self.anchors, pos) {
            Ok(i) => {
                let _anchor = self.anchors.remove(i);
            }
            Err(_) => {}
        }
    }
}
