//! Lines cut at a number of columns.

ghost use Rattle.std.specs.Prelude.{◌≡◌, ◌++◌, [], ℕ, List, IfOk, IsOk, IsTrue, OnErr, OnOk};
ghost use Rattle.std.specs.String.{string_bytes};
ghost use Rattle.tabled_grid.specs.Entity.{inside};
ghost use Rattle.tabled_grid.specs.declared.config.entity.Entity.TheVariants.{Global};
ghost use Rattle.tabled_options.specs.Writes.{DoesFirstWrites, DoesWrites, FirstWritten, Written};
ghost use Rattle.tabled_settings.specs.Truncates.{beginning, truncated, truncated_line, truncating};
ghost use Rattle.std.proofs.Common.{rules};

use crate::rewrite::{Answers, rewrite};
use std::alloc::{AllocError, Global};
use tabled_grid::config::{Entity, Position};
use tabled_grid::records::{CellText, ExactRecords, PeekableRecords, Records, RecordsMut};
use tabled_options::{CellOption, TableOption};
use tabled_width::{Pieces, columns_of};

/// Cuts each line of the texts of cells that has more than n columns, and puts a suffix behind what stays.
///
/// With a width of 5 and the suffix `..`,
///
/// ```text
/// +---------+      +-------+
/// | aa bb c |      | aa .. |
/// +---------+  ->  +-------+
/// | abcde   |      | abcde |
/// +---------+      +-------+
/// ```
///
/// Columns are those of a picture, and a line is cut between pieces: characters that take other columns together than
/// apart, as those of an emoji do, are one piece. What stays takes no more columns than the suffix leaves; of a suffix that
/// is wider than n, its beginning stands there alone. The text of lines that fit stays, without memory. Refused for memory,
/// it leaves the cells that it wrote.
///
/// Ported from `tabled::settings::width::Truncate`.
#[derive(Debug, Clone, Copy)]
pub struct Truncate<'a> {
    pub width: usize,
    pub suffix: &'a str,
}

impl<'a> Truncate<'a> {
    /// Lines of at most n columns, with nothing behind what stays.
    ///
    /// Ported from `tabled::settings::width::Truncate::new`.
    pub fn new(width: usize) -> Self
        ensures width { result.width ≡ width }
        ensures suffix { result.suffix.now ≡ [] }
    {
        Truncate { width, suffix: "" }
    }

    /// With this text behind what stays of a line that is cut.
    ///
    /// Ported from `tabled::settings::width::Truncate::suffix`.
    pub fn suffix(self, suffix: &'a str) -> Self
        ensures width { result.width ≡ self.entry.width }
        ensures suffix { result.suffix.now ≡ suffix.now }
    {
        Truncate {
            width: self.width,
            suffix,
        }
    }
}

impl<'a, R, C> CellOption<R, C> for Truncate<'a>
where
    R: Records + ExactRecords + PeekableRecords + RecordsMut<String>,
    R::Cell: CellText,
{
    ghost does = { λ s e. DoesWrites R.Cell.text_of (truncating s e) };

    ghost leaves = { λ s e. DoesFirstWrites R.Cell.text_of (truncating s e) };

    ghost never_refused = { λ _ e g _. inside e g.rows g.columns ≡ [] };

    fn change(
        self,
        alloc: Global,
        records: &mut R,
        _cfg: &mut C,
        entity: Entity,
    ) -> Result<(), AllocError> {
        truncate_cells(alloc, records, entity, self)
    }

    fn hint_change(&self) -> Option<Entity> {
        Some(Entity::Global)
    }

    ghost acts_like = { Prim.search rules };
}

/// Cuts the lines of the texts of all cells of the table.
impl<'a, R, C, D> TableOption<R, C, D> for Truncate<'a>
where
    R: Records + ExactRecords + PeekableRecords + RecordsMut<String>,
    R::Cell: CellText,
{
    ghost does = { λ s. DoesWrites R.Cell.text_of (truncating s Global) };

    ghost leaves = { λ s. DoesFirstWrites R.Cell.text_of (truncating s Global) };

    ghost never_refused = { λ _ g _. inside Global g.rows g.columns ≡ [] };

    fn change(
        self,
        alloc: Global,
        records: &mut R,
        _cfg: &mut C,
        _dimension: &mut D,
    ) -> Result<(), AllocError> {
        truncate_cells(alloc, records, Entity::Global, self)
    }

    fn hint_change(&self) -> Option<Entity> {
        Some(Entity::Global)
    }

    ghost acts_like = { Prim.search rules };
}

/// Writes to each cell inside that an entity names its text, with its lines cut.
fn truncate_cells<R>(
    alloc: Global,
    records: &mut R,
    entity: Entity,
    truncate: Truncate<'_>,
) -> Result<(), AllocError>
where
    R: Records + ExactRecords + PeekableRecords + RecordsMut<String>,
    R::Cell: CellText,
    requires well { R.is_well_formed records.old }
    ensures well { R.is_well_formed records.new }
    ensures ok { OnOk result (Written R.Cell.text_of (truncating truncate.entry entity) (R.grid records.old) (R.grid records.new)) }
    ensures err { OnErr result (FirstWritten R.Cell.text_of (truncating truncate.entry entity) (R.grid records.old) (R.grid records.new)) }
    ensures promised { inside entity (R.grid records.old).rows (R.grid records.old).columns ≡ [] → IsOk result }
{
    rewrite(alloc, records, entity, truncate)
}

impl<'a> Answers for Truncate<'a> {
    ghost asks = { λ s p old new t. (t ≡ s) × (new ≡ truncated s.width s.suffix.now old) };

    ghost can_answer = { λ _. Unit {0} };

    fn keeps(&self, _pos: Position, text: &str) -> bool {
        fits(text, self.width)
    }

    fn answer(&mut self, alloc: Global, _pos: Position, text: &str) -> Result<String, AllocError> {
        truncated(alloc, text, self.width, self.suffix)
    }
}

/// Says whether each line of a text has at most n columns.
fn fits(text: &str, width: usize) -> bool
    ensures { IsTrue result → (suffix : List ℕ) → text.now ≡ truncated width suffix text.now }
{
    let mut rest = text;
    while let Some((line, others)) = rest.split_once('\n') {
        let columns = columns_of(line);
        if columns > width {
            return false;
        }
        rest = others;
    }
    let last = columns_of(rest);
    last <= width
}

/// The text with its lines cut.
fn truncated(alloc: Global, text: &str, width: usize, suffix: &str) -> Result<String, AllocError>
    ensures { IfOk result (λ new. string_bytes new ≡ truncated width suffix.now text.now) }
{
    let mut out = String::new(alloc);
    let mut rest = text;
    while let Some((line, others)) = rest.split_once('\n') {
        push_line(&mut out, line, width, suffix)?;
        out.push('\n')?;
        rest = others;
    }
    push_line(&mut out, rest, width, suffix)?;
    Ok(out)
}

/// Puts a line behind a text, cut where it has more than n columns.
fn push_line(out: &mut String, line: &str, width: usize, suffix: &str) -> Result<(), AllocError>
    ensures { OnOk result (string_bytes out.new ≡ string_bytes out.old ++ truncated_line width suffix.now line.now) }
{
    let columns = columns_of(line);
    if columns <= width {
        out.push_str(line)?;
        return Ok(());
    }
    let taken = columns_of(suffix);
    if taken > width {
        push_beginning(out, suffix, width)?;
        return Ok(());
    }
    push_beginning(out, line, width - taken)?;
    out.push_str(suffix)?;
    Ok(())
}

/// Puts the beginning of a text that takes at most n columns behind another text.
fn push_beginning(out: &mut String, text: &str, width: usize) -> Result<(), AllocError>
    ensures { OnOk result (string_bytes out.new ≡ string_bytes out.old ++ beginning width text.now) }
{
    let mut left = width;
    for piece in Pieces::new(text) {
        let columns = columns_of(piece);
        if columns > left {
            return Ok(());
        }
        out.push_str(piece)?;
        left -= columns;
    }
    Ok(())
}
