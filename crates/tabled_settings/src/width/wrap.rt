//! Lines cut into lines of at most n columns.

ghost use Rattle.std.specs.Prelude.{◌≡◌, ℕ, Bool, [], IsOk, OnErr, OnOk};
ghost use Rattle.tabled_grid.specs.Entity.{inside};
ghost use Rattle.tabled_grid.specs.declared.config.entity.Entity.TheVariants.{Global};
ghost use Rattle.tabled_options.specs.Writes.{DoesFirstWrites, DoesWrites, FirstWritten, Written};
ghost use Rattle.tabled_settings.specs.Wraps.{wrap_writes};
ghost use Rattle.tabled_width.specs.Wraps.{wrapped};
ghost use Rattle.std.proofs.Common.{rules};

use crate::rewrite::{Answers, rewrite};
use std::alloc::{AllocError, Global};
use std::marker::Model;
use tabled_grid::config::{Entity, Position};
use tabled_grid::records::{CellText, ExactRecords, PeekableRecords, Records, RecordsMut};
use tabled_options::{CellOption, TableOption};
use tabled_width::{lines_fit, wrap};

/// Cuts each line of the texts of cells into lines of at most n columns, anywhere or between words. A contract
/// sees it as its width, and whether it keeps words.
///
/// Columns are those of a picture: characters that take other columns together than apart, as those of an emoji do, are a
/// piece, which is never cut.
///
/// With a width of 5, and words kept,
///
/// ```text
/// +----------+      +-------+
/// | aa bb cc |      | aa bb |
/// +----------+  ->  | cc    |
/// | abcdefg  |      +-------+
/// +----------+      | abcde |
///                   | fg    |
///                   +-------+
/// ```
///
/// A piece of more columns than the width stands alone in a line. Nothing is lost but blanks at cuts between words; but
/// a width of 0 leaves no text. The text of lines that fit stays, without memory. Refused for memory, it leaves the
/// cells that it wrote.
///
/// Ported from `tabled::settings::width::Wrap`.
#[derive(Debug, Clone, Copy, PartialEq, Eq, PartialOrd, Ord)]
pub struct Wrap {
    width: usize,
    keep_words: bool,
}

impl Model for Wrap {
    ghost use Rattle.std.specs.Prelude.{ℕ, Bool};

    ghost Value = { ℕ × Bool };

    ghost view = { λ a. (a.width, a.keep_words) };

    ghost inverse = { λ s. record { width = s.0; keep_words = s.1 } };
}

impl Wrap {
    ghost use Rattle.std.specs.Prelude.{◌≡◌, false};

    /// Lines of at most n columns, cut anywhere.
    ///
    /// Ported from `tabled::settings::width::Wrap::new`.
    pub fn new(width: usize) -> Self
        ensures { result ≡ (width, false) }
    {
        Wrap {
            width,
            keep_words: false,
        }
    }

    /// Whether lines are cut between words, parted by blanks, or between any pieces. A word that is wider than a line begins
    /// one, and is cut. A blank at a cut goes.
    ///
    /// Ported from `tabled::settings::width::Wrap::keep_words`.
    pub fn keep_words(self, on: bool) -> Self
        ensures { result ≡ (self.0, on) }
    {
        Wrap {
            width: self.width,
            keep_words: on,
        }
    }
}

impl<R, C> CellOption<R, C> for Wrap
where
    R: Records + ExactRecords + PeekableRecords + RecordsMut<String>,
    R::Cell: CellText,
{
    ghost does = { λ s e. DoesWrites R.Cell.text_of (wrap_writes s e) };

    ghost leaves = { λ s e. DoesFirstWrites R.Cell.text_of (wrap_writes s e) };

    ghost never_refused = { λ _ e g _. inside e g.rows g.columns ≡ [] };

    fn change(
        self,
        alloc: Global,
        records: &mut R,
        _cfg: &mut C,
        entity: Entity,
    ) -> Result<(), AllocError> {
        wrap_cells(alloc, records, entity, self)
    }

    fn hint_change(&self) -> Option<Entity> {
        Some(Entity::Global)
    }

    ghost acts_like = { Prim.search rules };
}

/// Wraps the texts of all cells of the table.
impl<R, C, D> TableOption<R, C, D> for Wrap
where
    R: Records + ExactRecords + PeekableRecords + RecordsMut<String>,
    R::Cell: CellText,
{
    ghost does = { λ s. DoesWrites R.Cell.text_of (wrap_writes s Global) };

    ghost leaves = { λ s. DoesFirstWrites R.Cell.text_of (wrap_writes s Global) };

    ghost never_refused = { λ _ g _. inside Global g.rows g.columns ≡ [] };

    fn change(
        self,
        alloc: Global,
        records: &mut R,
        _cfg: &mut C,
        _dimension: &mut D,
    ) -> Result<(), AllocError> {
        wrap_cells(alloc, records, Entity::Global, self)
    }

    fn hint_change(&self) -> Option<Entity> {
        Some(Entity::Global)
    }

    ghost acts_like = { Prim.search rules };
}

/// Writes to each cell inside that an entity names its text, wrapped.
fn wrap_cells<R>(
    alloc: Global,
    records: &mut R,
    entity: Entity,
    wrap: Wrap,
) -> Result<(), AllocError>
where
    R: Records + ExactRecords + PeekableRecords + RecordsMut<String>,
    R::Cell: CellText,
    requires well { R.is_well_formed records.old }
    ensures well { R.is_well_formed records.new }
    ensures ok { OnOk result (Written R.Cell.text_of (wrap_writes wrap entity) (R.grid records.old) (R.grid records.new)) }
    ensures err { OnErr result (FirstWritten R.Cell.text_of (wrap_writes wrap entity) (R.grid records.old) (R.grid records.new)) }
    ensures promised { inside entity (R.grid records.old).rows (R.grid records.old).columns ≡ [] → IsOk result }
{
    rewrite(alloc, records, entity, wrap)
}

impl Answers for Wrap {
    ghost asks = { λ s p old new t. (t ≡ s) × (new ≡ wrapped s old) };

    ghost can_answer = { λ _. Unit {0} };

    fn keeps(&self, _pos: Position, text: &str) -> bool {
        if self.width == 0 {
            return text.is_empty();
        }
        lines_fit(text, self.width)
    }

    fn answer(&mut self, alloc: Global, _pos: Position, text: &str) -> Result<String, AllocError> {
        wrap(alloc, text, self.width, self.keep_words)
    }
}
