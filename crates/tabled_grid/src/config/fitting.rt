//! Merged cells that fit a table.

ghost use Rattle.std.specs.Prelude.{◌≡◌, ◌∷◌, ◌↔◌, IfOk, IsOk, IsTrue, OnErr, OnOk, length, not};
ghost use Rattle.std.specs.List.{list_all};
ghost use Rattle.tabled_grid.specs.Rectangles.{meets};
ghost use Rattle.tabled_grid.specs.Fitting.{Fits, fitting, keep_fitting, with_met};
ghost use Rattle.tabled_grid.specs.Spans.{AreSorted};
ghost use Rattle.tabled_grid.specs.declared.config.rectangle.Rectangle.{Rectangle};

use crate::config::anchors::{self, is_past, rest_of_row};
use crate::config::rectangle::Rectangle;
use crate::config::spanned_config::SpannedConfig;
use std::alloc::{AllocError, Global};

impl SpannedConfig {
    /// Says whether all rectangles lie inside a table (`rows x columns`) and no two share a cell.
    pub fn fits(&self, rows: usize, columns: usize) -> bool
        ensures fits { IsTrue result ↔ Fits self.now rows columns }
    {
        anchors::fit(self.rectangles(), rows, columns)
    }

    /// A map of those rectangles alone that lie inside a table (`rows x columns`) and share no cell with
    /// another one. It takes memory; refused, this map is as it was.
    ///
    /// Of this project.
    pub fn fitting(
        &self,
        alloc: Global,
        rows: usize,
        columns: usize,
    ) -> Result<SpannedConfig, AllocError>
        ensures fitting { IfOk result (λ fitting. fitting ≡ keep_fitting rows columns self.now) }
    {
        let kept = fitting(alloc, self.rectangles(), rows, columns)?;
        Ok(SpannedConfig::from_rectangles(kept))
    }

    /// Takes away, at once, all rectangles that don't lie inside a table (`rows x columns`) or share a cell
    /// with another one. Memory is taken only where there is one. Refused, it changes nothing.
    ///
    /// Of this project.
    pub fn keep_fitting(
        &mut self,
        alloc: Global,
        rows: usize,
        columns: usize,
    ) -> Result<(), AllocError>
        ensures ok { OnOk result (self.new ≡ keep_fitting rows columns self.old) }
        ensures err { OnErr result (self.new ≡ self.old) }
        ensures promised { Fits self.old rows columns → IsOk result }
    {
        if !self.fits(rows, columns) {
            *self = self.fitting(alloc, rows, columns)?;
        }
        Ok(())
    }
}

/// The rectangles of a list that lie inside a table and share no cell with another one.
///
/// From each rectangle those after it are marked that it meets, whether it stays or not.
fn fitting(
    alloc: Global,
    anchors: &[Rectangle],
    rows: usize,
    columns: usize,
) -> Result<Vec<Rectangle>, AllocError>
    requires { AreSorted anchors.now }
    ensures { IfOk result (λ kept. kept.items ≡ fitting rows columns anchors.now) }
{
    let mut marks = vec![in alloc; false; anchors.len()]?;
    let mut kept = Vec::new(alloc);
    for i in 0..anchors.len() {
        let from = anchors[i];
        let is_met = marks[i];
        let alone = mark_met(&anchors[i + 1..], &mut marks[i + 1..], from);
        if alone && !is_met && from.is_inside(rows, columns) {
            kept.push(from)?;
        }
    }
    Ok(kept)
}

/// Marks the anchors after one that its rectangle meets, and says whether there are none.
fn mark_met(anchors: &[Rectangle], marks: &mut [bool], from: Rectangle) -> bool
    requires marks { length marks.old ≡ length anchors.now }
    requires sorted { AreSorted (from ∷ anchors.now) }
    ensures alone { result ≡ list_all (λ (e : Rectangle). not (meets from e)) anchors.now }
    ensures marked { marks.new ≡ with_met from anchors.now marks.old }
{
    let mut alone = true;
    let mut k = 0;
    while k < anchors.len() {
        let anchor = anchors[k];
        if is_past(from, anchor.first) {
            return alone;
        }
        if from.meets(anchor) {
            alone = false;
            marks[k] = true;
            k += 1;
        } else {
            k += 1 + rest_of_row(&anchors[k + 1..], from, anchor.first);
        }
    }
    alone
}
