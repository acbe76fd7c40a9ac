//! What a closure answers to the text and the place of a cell.

ghost use Rattle.std.specs.Prelude.{◌≡◌, []};
ghost use Rattle.tabled_grid.specs.Entity.{inside};
ghost use Rattle.tabled_grid.specs.declared.config.entity.Entity.TheVariants.{Global};
ghost use Rattle.tabled_settings.specs.Contents.{AskedAt};
ghost use Rattle.tabled_settings.specs.Rewrites.{Rewrites, RewritesBefore};
ghost use Rattle.std.proofs.Common.{rules};

use crate::rewrite::{Answers, rewrite};
use std::alloc::{AllocError, Global};
use std::marker::Model;
use tabled_grid::config::{Entity, Position};
use tabled_grid::records::{CellText, ExactRecords, PeekableRecords, Records, RecordsMut};
use tabled_options::{CellOption, TableOption};

/// Writes to each cell what a closure answers to its text and its place, row by row. A contract sees it as
/// the closure.
///
/// The closure keeps its state from cell to cell. Refused for memory, or by the closure, it leaves the
/// cells that it wrote.
///
/// Ported from `tabled::settings::format::FormatContentPositioned`.
#[derive(Clone, Drop)]
pub struct FormatContentPositioned<F> {
    f: F,
}

impl<F> Model for FormatContentPositioned<F> {
    ghost Value = { F };

    ghost view = { λ a. a.f };

    ghost inverse = { λ f. record { f = f } };
}

impl<F> FormatContentPositioned<F> {
    pub(super) fn new(f: F) -> Self
        ensures { result ≡ f }
    {
        FormatContentPositioned { f }
    }
}

impl<F> Answers for FormatContentPositioned<F>
where
    F: FnMut(Global, &str, Position) -> Result<String, AllocError> + Drop,
{
    ghost asks = { AskedAt F.step };

    ghost can_answer = { λ f. F.IsAlwaysCallable f };

    fn answer(&mut self, alloc: Global, pos: Position, text: &str) -> Result<String, AllocError> {
        (self.f)(alloc, text, pos)
    }
}

impl<F, R, C> CellOption<R, C> for FormatContentPositioned<F>
where
    F: FnMut(Global, &str, Position) -> Result<String, AllocError> + Drop,
    R: Records + ExactRecords + PeekableRecords + RecordsMut<String>,
    R::Cell: CellText,
{
    ghost does = { λ f. Rewrites R.Cell.text_of (AskedAt F.step) f };

    ghost leaves = { λ f. RewritesBefore R.Cell.text_of (AskedAt F.step) f };

    ghost can_change = { λ f. F.IsAlwaysCallable f };

    ghost never_refused = { λ _ e g _. inside e g.rows g.columns ≡ [] };

    fn change(
        self,
        alloc: Global,
        records: &mut R,
        _cfg: &mut C,
        entity: Entity,
    ) -> Result<(), AllocError> {
        rewrite(alloc, records, entity, self)
    }

    fn hint_change(&self) -> Option<Entity> {
        Some(Entity::Global)
    }

    ghost acts_like = { Prim.search rules };
}

/// Asks for all cells of the table.
impl<F, R, C, D> TableOption<R, C, D> for FormatContentPositioned<F>
where
    F: FnMut(Global, &str, Position) -> Result<String, AllocError> + Drop,
    R: Records + ExactRecords + PeekableRecords + RecordsMut<String>,
    R::Cell: CellText,
{
    ghost does = { λ f. Rewrites R.Cell.text_of (AskedAt F.step) f Global };

    ghost leaves = { λ f. RewritesBefore R.Cell.text_of (AskedAt F.step) f Global };

    ghost can_change = { λ f. F.IsAlwaysCallable f };

    ghost never_refused = { λ _ g _. inside Global g.rows g.columns ≡ [] };

    fn change(
        self,
        alloc: Global,
        records: &mut R,
        _cfg: &mut C,
        _dimension: &mut D,
    ) -> Result<(), AllocError> {
        rewrite(alloc, records, Entity::Global, self)
    }

    fn hint_change(&self) -> Option<Entity> {
        Some(Entity::Global)
    }

    ghost acts_like = { Prim.search rules };
}
