//! Parts of texts replaced.

ghost use Rattle.std.specs.Prelude.{◌≡◌, [], ℕ, List, IfOk, IsOk, IsTrue, OnErr, OnOk};
ghost use Rattle.std.specs.String.{string_bytes};
ghost use Rattle.tabled_grid.specs.Entity.{inside};
ghost use Rattle.tabled_grid.specs.declared.config.entity.Entity.TheVariants.{Global};
ghost use Rattle.tabled_options.specs.Writes.{DoesFirstWrites, DoesWrites, FirstWritten, Written};
ghost use Rattle.tabled_settings.specs.Replaced.{replaced_text, replacing};
ghost use Rattle.std.proofs.Common.{rules};

use crate::rewrite::{Answers, rewrite};
use std::alloc::{AllocError, Global};
use tabled_grid::config::{Entity, Position};
use tabled_grid::records::{CellText, ExactRecords, PeekableRecords, Records, RecordsMut};
use tabled_options::{CellOption, TableOption};

/// Replaces a part of the texts of cells, wherever it occurs, by another text.
///
/// Occurrences are found from the left, and don't overlap: `aa` replaced by `b` in `aaa` is `ba`. An empty part occurs
/// nowhere. A text without an occurrence stays, without memory. Refused for memory, it leaves the cells that it wrote.
///
/// Of this project.
#[derive(Debug, Clone, Copy)]
pub struct Replace<'a> {
    pub from: &'a str,
    pub to: &'a str,
}

impl<'a> Replace<'a> {
    /// The first text is replaced by the second.
    ///
    /// Of this project.
    pub fn new(from: &'a str, to: &'a str) -> Self
        ensures from { result.from.now ≡ from.now }
        ensures to { result.to.now ≡ to.now }
    {
        Replace { from, to }
    }
}

impl<'a, R, C> CellOption<R, C> for Replace<'a>
where
    R: Records + ExactRecords + PeekableRecords + RecordsMut<String>,
    R::Cell: CellText,
{
    ghost does = { λ s e. DoesWrites R.Cell.text_of (replacing s e) };

    ghost leaves = { λ s e. DoesFirstWrites R.Cell.text_of (replacing s e) };

    ghost never_refused = { λ _ e g _. inside e g.rows g.columns ≡ [] };

    fn change(
        self,
        alloc: Global,
        records: &mut R,
        _cfg: &mut C,
        entity: Entity,
    ) -> Result<(), AllocError> {
        replace_in_cells(alloc, records, entity, self)
    }

    fn hint_change(&self) -> Option<Entity> {
        Some(Entity::Global)
    }

    ghost acts_like = { Prim.search rules };
}

/// Replaces the part in the texts of all cells of the table.
impl<'a, R, C, D> TableOption<R, C, D> for Replace<'a>
where
    R: Records + ExactRecords + PeekableRecords + RecordsMut<String>,
    R::Cell: CellText,
{
    ghost does = { λ s. DoesWrites R.Cell.text_of (replacing s Global) };

    ghost leaves = { λ s. DoesFirstWrites R.Cell.text_of (replacing s Global) };

    ghost never_refused = { λ _ g _. inside Global g.rows g.columns ≡ [] };

    fn change(
        self,
        alloc: Global,
        records: &mut R,
        _cfg: &mut C,
        _dimension: &mut D,
    ) -> Result<(), AllocError> {
        replace_in_cells(alloc, records, Entity::Global, self)
    }

    fn hint_change(&self) -> Option<Entity> {
        Some(Entity::Global)
    }

    ghost acts_like = { Prim.search rules };
}

/// Writes to each cell inside that an entity names its text, with the part replaced.
fn replace_in_cells<R>(
    alloc: Global,
    records: &mut R,
    entity: Entity,
    replace: Replace<'_>,
) -> Result<(), AllocError>
where
    R: Records + ExactRecords + PeekableRecords + RecordsMut<String>,
    R::Cell: CellText,
    requires well { R.is_well_formed records.old }
    ensures well { R.is_well_formed records.new }
    ensures ok { OnOk result (Written R.Cell.text_of (replacing replace.entry entity) (R.grid records.old) (R.grid records.new)) }
    ensures err { OnErr result (FirstWritten R.Cell.text_of (replacing replace.entry entity) (R.grid records.old) (R.grid records.new)) }
    ensures promised { inside entity (R.grid records.old).rows (R.grid records.old).columns ≡ [] → IsOk result }
{
    rewrite(alloc, records, entity, replace)
}

impl<'a> Answers for Replace<'a> {
    ghost asks = { λ s p old new t. (t ≡ s) × (new ≡ replaced_text s.from.now s.to.now old) };

    ghost can_answer = { λ _. Unit {0} };

    fn keeps(&self, _pos: Position, text: &str) -> bool {
        lacks(text, self.from)
    }

    fn answer(&mut self, alloc: Global, _pos: Position, text: &str) -> Result<String, AllocError> {
        replaced(alloc, text, self.from, self.to)
    }
}

/// Says whether a part occurs nowhere in a text.
fn lacks(text: &str, part: &str) -> bool
    ensures { IsTrue result → (to : List ℕ) → text.now ≡ replaced_text part.now to text.now }
{
    if part.is_empty() {
        return true;
    }
    !text.contains(part)
}

/// The text with the part replaced.
fn replaced(alloc: Global, text: &str, from: &str, to: &str) -> Result<String, AllocError>
    ensures { IfOk result (λ new. string_bytes new ≡ replaced_text from.now to.now text.now) }
{
    if from.is_empty() {
        return String::from_str(alloc, text);
    }
    let mut out = String::new(alloc);
    let mut rest = text;
    while let Some((before, others)) = rest.split_once(from) {
        out.push_str(before)?;
        out.push_str(to)?;
        rest = others;
    }
    out.push_str(rest)?;
    Ok(out)
}
