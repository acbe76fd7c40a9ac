//! What a closure answers to the text of a cell.

ghost use Rattle.std.specs.Prelude.{◌≡◌, true, [], IfOk};
ghost use Rattle.std.specs.String.{string_bytes};
ghost use Rattle.tabled_grid.specs.Entity.{inside};
ghost use Rattle.tabled_grid.specs.declared.config.entity.Entity.TheVariants.{Global};
ghost use Rattle.tabled_settings.specs.Contents.{AnswersContent, Asked, AskedByLine, CopiesAre};
ghost use Rattle.tabled_settings.specs.Rewrites.{Rewrites, RewritesBefore};
ghost use Rattle.std.proofs.Common.{rules};

use crate::rewrite::{Answers, rewrite};
use std::alloc::{AllocError, Global};
use std::marker::Model;
use tabled_grid::config::{Entity, Position};
use tabled_grid::records::{CellText, ExactRecords, PeekableRecords, Records, RecordsMut};
use tabled_options::{CellOption, TableOption};

/// Writes to each cell what a closure answers to its text, row by row. A contract sees it as the closure,
/// and whether it is asked line by line.
///
/// The closure keeps its state from cell to cell. Refused for memory, or by the closure, it leaves the
/// cells that it wrote.
///
/// Ported from `tabled::settings::format::FormatContent`.
#[derive(Clone, Drop)]
pub struct FormatContent<F> {
    f: F,
    multiline: bool,
}

impl<F> Model for FormatContent<F> {
    ghost use Rattle.std.specs.Prelude.{Bool};

    ghost Value = { F × Bool };

    ghost view = { λ a. (a.f, a.multiline) };

    ghost inverse = { λ s. record { f = s.0; multiline = s.1 } };
}

impl<F> FormatContent<F> {
    ghost use Rattle.std.specs.Prelude.{◌≡◌, false, true};

    pub(super) fn new(f: F) -> Self
        ensures { result ≡ (f, false) }
    {
        FormatContent {
            f,
            multiline: false,
        }
    }

    /// What is asked for one line of a text after another.
    ///
    /// A line ends at a newline, or at a carriage return and a newline. A last newline begins no line, and
    /// the empty text has none. The answers are written with a newline between each two. Each cell
    /// takes a copy of the closure, so each begins with the same state.
    ///
    /// Ported from `tabled::settings::format::FormatContent::multiline`.
    pub fn multiline(self) -> Self
        ensures { result ≡ (self.0, true) }
    {
        FormatContent {
            f: self.f,
            multiline: true,
        }
    }
}

impl<F> Answers for FormatContent<F>
where
    F: FnMut(Global, &str) -> Result<String, AllocError> + Clone + Drop,
{
    ghost asks = { AnswersContent (Asked F.step) };

    ghost can_answer = { λ s. F.IsAlwaysCallable s.0 × (s.1 ≡ true → CopiesAre F.is_clone s.0) };

    fn answer(&mut self, alloc: Global, _pos: Position, text: &str) -> Result<String, AllocError> {
        if self.multiline {
            let mut copy = self.f.clone()?;
            by_line(alloc, &mut copy, text)
        } else {
            (self.f)(alloc, text)
        }
    }
}

/// The answers of a closure to the lines of a text, joined.
fn by_line<F>(alloc: Global, f: &mut F, text: &str) -> Result<String, AllocError>
where
    F: FnMut(Global, &str) -> Result<String, AllocError>,
    requires can { F.IsAlwaysCallable f.old }
    ensures { IfOk result (λ new. AskedByLine (Asked F.step) f.old text.now (string_bytes new)) }
{
    let mut lines = text.lines();
    let Some(first) = lines.next() else {
        return Ok(String::new(alloc));
    };
    let mut joined = f(alloc, first)?;
    for line in lines {
        let answer = f(alloc, line)?;
        joined.push('\n')?;
        joined.push_str(answer.as_str())?;
    }
    Ok(joined)
}

impl<F, R, C> CellOption<R, C> for FormatContent<F>
where
    F: FnMut(Global, &str) -> Result<String, AllocError> + Clone + Drop,
    R: Records + ExactRecords + PeekableRecords + RecordsMut<String>,
    R::Cell: CellText,
{
    ghost does = { λ s. Rewrites R.Cell.text_of (AnswersContent (Asked F.step)) s };

    ghost leaves = { λ s. RewritesBefore R.Cell.text_of (AnswersContent (Asked F.step)) s };

    ghost can_change = { λ s. F.IsAlwaysCallable s.0 × (s.1 ≡ true → CopiesAre F.is_clone s.0) };

    ghost never_refused = { λ _ e g _. inside e g.rows g.columns ≡ [] };

    fn change(
        self,
        alloc: Global,
        records: &mut R,
        _cfg: &mut C,
        entity: Entity,
    ) -> Result<(), AllocError> {
        rewrite(alloc, records, entity, self)
    }

    fn hint_change(&self) -> Option<Entity> {
        Some(Entity::Global)
    }

    ghost acts_like = { Prim.search rules };
}

/// Asks for all cells of the table.
impl<F, R, C, D> TableOption<R, C, D> for FormatContent<F>
where
    F: FnMut(Global, &str) -> Result<String, AllocError> + Clone + Drop,
    R: Records + ExactRecords + PeekableRecords + RecordsMut<String>,
    R::Cell: CellText,
{
    ghost does = { λ s. Rewrites R.Cell.text_of (AnswersContent (Asked F.step)) s Global };

    ghost leaves = { λ s. RewritesBefore R.Cell.text_of (AnswersContent (Asked F.step)) s Global };

    ghost can_change = { λ s. F.IsAlwaysCallable s.0 × (s.1 ≡ true → CopiesAre F.is_clone s.0) };

    ghost never_refused = { λ _ g _. inside Global g.rows g.columns ≡ [] };

    fn change(
        self,
        alloc: Global,
        records: &mut R,
        _cfg: &mut C,
        _dimension: &mut D,
    ) -> Result<(), AllocError> {
        rewrite(alloc, records, Entity::Global, self)
    }

    fn hint_change(&self) -> Option<Entity> {
        Some(Entity::Global)
    }

    ghost acts_like = { Prim.search rules };
}
