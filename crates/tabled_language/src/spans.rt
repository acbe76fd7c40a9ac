//! What `span` lines say, and the merged cells that their anchors make.

ghost use Rattle.std.specs.Prelude.{false, true, ◌≡◌, IfOk};
ghost use Rattle.tabled_grid.specs.Fitting.{all_fit};
ghost use Rattle.tabled_grid.specs.Spans.{AreAnchors, from_rectangles, map_of};
ghost use Rattle.tabled_language.specs.Placed.{AreSpans, IsFirstMisfit};

use crate::fault::{Fault, ParseError};
use crate::walk::have_places;
use std::alloc::{AllocError, Global};
use std::marker::Model;
use tabled_grid::config::{Rectangle, SpannedConfig};

/// What `span` lines say, in their order: anchors, and the numbers of the lines.
#[derive(Drop)]
pub(crate) struct SpanLines {
    anchors: Vec<Rectangle>,
    /// One more where memory for an anchor was refused.
    numbers: Vec<usize>,
}

impl Model for SpanLines {
    ghost use Rattle.tabled_language.specs.Placed.{AreSpanLines, NumberedAnchors};

    ghost Value = { NumberedAnchors };

    ghost view = { λ a. record { anchors = a.anchors.items; numbers = a.numbers.items } };

    ghost invariant = { λ a. AreSpanLines (record { anchors = a.anchors.items; numbers = a.numbers.items }) };
}

impl SpanLines {
    ghost use Rattle.std.specs.Prelude.{[], ◌≡◌, ◌∷◌, ◌++◌, IfOk, MatchResult};
    ghost use Rattle.tabled_grid.specs.Spans.{IsSpan};
    ghost use Rattle.tabled_language.specs.Drafts.{is_nil};
    ghost use Rattle.tabled_language.specs.Placed.{EndsMerge, IsMerged};
    ghost use Rattle.tabled_grid.specs.Fitting.{all_fit};

    pub(crate) fn new(alloc: Global) -> Self
        ensures { result ≡ record { anchors = []; numbers = [] } }
    {
        SpanLines {
            anchors: Vec::new(alloc),
            numbers: Vec::new(alloc),
        }
    }

    pub(crate) fn is_empty(&self) -> bool
        ensures { result ≡ is_nil self.now.anchors }
    {
        self.anchors.is_empty()
    }

    /// Adds the anchor that the line of a number says.
    pub(crate) fn push(&mut self, number: usize, anchor: Rectangle) -> Result<(), AllocError>
        requires { IsSpan anchor.size }
        ensures anchors { IfOk result (λ _. self.new.anchors ≡ self.old.anchors ++ anchor ∷ []) }
        ensures numbers { IfOk result (λ _. self.new.numbers ≡ self.old.numbers ++ number ∷ []) }
    {
        self.numbers.push(number)?;
        self.anchors.push(anchor)?;
        Ok(())
    }

    /// The merged cells of the anchors, or the first line whose rectangle leaves the table or shares a cell with that of
    /// one before it. It takes no memory where there are no anchors.
    ///
    /// One sort and one walk decide whether all fit. Where not, the first misfit is searched from the end, by
    /// steps that double, and then by halves: what fits still fits with fewer anchors.
    pub(crate) fn merged(
        &self,
        alloc: Global,
        rows: usize,
        columns: usize,
    ) -> Result<SpannedConfig, ParseError>
        ensures { MatchResult result (IsMerged rows columns self.now) (EndsMerge rows columns self.now) }
    {
        let anchors = self.anchors.as_slice();
        if anchors.is_empty() {
            return Ok(SpannedConfig::new(alloc));
        }
        let mut sorted = Vec::with_capacity(alloc, anchors.len())?;
        if fit(alloc, &mut sorted, anchors, rows, columns)? {
            return Ok(SpannedConfig::from_rectangles(sorted));
        }
        let misfit = first_misfit(alloc, sorted, anchors, rows, columns)?;
        Err(ParseError::Faulty {
            line: self.numbers[misfit],
            fault: Fault::SpanMisfits,
        })
    }
}

/// Puts anchors in order into a vector, whose old ones go, and says whether all have places. Then the
/// vector has their map.
fn fit(
    alloc: Global,
    sorted: &mut Vec<Rectangle>,
    anchors: &[Rectangle],
    rows: usize,
    columns: usize,
) -> Result<bool, AllocError>
    requires { AreSpans anchors.now }
    ensures fit { IfOk result (λ fit. fit ≡ all_fit rows columns anchors.now) }
    ensures made { IfOk result (λ fit. fit ≡ true → AreAnchors sorted.new.items × (map_of sorted.new.items ≡ from_rectangles anchors.now)) }
{
    sorted.clear();
    sorted.extend_from_slice(anchors)?;
    sorted.sort_unstable_by_key(|anchor| anchor.first);
    have_places(alloc, sorted, rows, columns)
}

/// The index of the first anchor that has no place after those before it.
fn first_misfit(
    alloc: Global,
    mut sorted: Vec<Rectangle>,
    anchors: &[Rectangle],
    rows: usize,
    columns: usize,
) -> Result<usize, AllocError>
    requires sizes { AreSpans anchors.now }
    requires misfits { all_fit rows columns anchors.now ≡ false }
    ensures { IfOk result (λ misfit. IsFirstMisfit rows columns anchors.now misfit) }
{
    // The first `fitting` anchors fit, and the first `failing` do not.
    let mut fitting = 0;
    let mut failing = anchors.len();
    let mut step: usize = 1;
    while failing - fitting > 1 {
        let middle = failing - step.min((failing - fitting) / 2);
        if fit(alloc, &mut sorted, &anchors[..middle], rows, columns)? {
            fitting = middle;
        } else {
            failing = middle;
            step = step.saturating_mul(2);
        }
    }
    Ok(fitting)
}
