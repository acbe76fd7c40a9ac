//! Texts of some cells written to others.

ghost use Rattle.std.specs.Prelude.{◌≡◌, ◌%◌, ◌+◌, ◌<◌, ◌≤◌, length, map, take, OnErr, OnOk, IfOk};
ghost use Rattle.std.specs.List.{AllByRecursion};
ghost use Rattle.std.specs.String.{string_bytes};
ghost use Rattle.tabled_grid.specs.Entity.{inside};
ghost use Rattle.tabled_grid.specs.Grid.{map_grid};
ghost use Rattle.tabled_settings.specs.Dups.{AppendsUpTo, Duplicates, DuplicatesFirst, source_texts, texts_at, texts_to, texts_to_each};
ghost use Rattle.tabled_options.specs.Writes.{FirstWritten, Written};
ghost use Rattle.std.proofs.Common.{rules};

use std::alloc::{AllocError, Global};
use std::marker::Model;
use tabled_grid::config::Entity;
use tabled_grid::records::{CellText, ExactRecords, PeekableRecords, Records, RecordsMut};
use tabled_options::TableOption;
use tabled_select::object::{Object, entities};

/// Writes the texts of one object's cells to the cells of another. A contract sees it as both, the
/// destination first.
///
/// The texts of the source are read before any is written, as many as an entity of the destination takes.
/// Each of these takes them from the first on, and after the last one the first again. A source without cells
/// changes nothing. Refused for memory, it leaves the cells that it wrote.
///
/// Ported from `tabled::settings::Dup`.
#[derive(Clone, Copy, Drop)]
pub struct Dup<Dst, Src> {
    src: Src,
    dst: Dst,
}

impl<Dst, Src> Model for Dup<Dst, Src> {
    ghost Value = { Dst × Src };

    ghost view = { λ a. (a.dst, a.src) };

    ghost inverse = { λ s. record { src = s.1; dst = s.0 } };
}

impl<Dst, Src> Dup<Dst, Src> {
    ghost use Rattle.std.specs.Prelude.{◌≡◌};

    /// The texts of a source, written to a destination.
    ///
    /// Ported from `tabled::settings::Dup::new`.
    pub fn new(dst: Dst, src: Src) -> Self
        ensures { result ≡ (dst, src) }
    {
        Dup { src, dst }
    }
}

impl<Dst, Src, R, C, D> TableOption<R, C, D> for Dup<Dst, Src>
where
    Dst: Object<R> + Drop,
    Src: Object<R> + Drop,
    R: Records + ExactRecords + PeekableRecords + RecordsMut<String>,
    R::Cell: CellText,
{
    ghost does = { λ s. Duplicates R.Cell.text_of (Dst.lists s.0) (Src.lists s.1) };

    ghost leaves = { λ s. DuplicatesFirst R.Cell.text_of (Dst.lists s.0) (Src.lists s.1) };

    ghost can_change = { λ s. Dst.can_list s.0 × Src.can_list s.1 };

    fn change(
        self,
        alloc: Global,
        records: &mut R,
        _cfg: &mut C,
        _dimension: &mut D,
    ) -> Result<(), AllocError> {
        let sources = entities(alloc, &self.src, records)?;
        let targets = entities(alloc, &self.dst, records)?;
        let many = most_named(&targets, records.count_rows(), records.count_columns());
        let texts = first_texts(alloc, records, sources, many)?;
        if texts.is_empty() {
            return Ok(());
        }
        write_rounds(alloc, records, targets, &texts)
    }

    fn hint_change(&self) -> Option<Entity> {
        Some(Entity::Global)
    }

    ghost acts_like = { Prim.search rules };
}

/// How many cells an entity names at most in a table (`rows x columns`).
fn count_named(entity: Entity, rows: usize, columns: usize) -> u128
    ensures { length (inside entity rows columns) ≤ result }
{
    match entity {
        Entity::Global => rows as u128 * columns as u128,
        Entity::Column(_) => rows as u128,
        Entity::Row(_) => columns as u128,
        Entity::Cell(_, _) => 1,
    }
}

/// How many cells each of some entities names at most in a table (`rows x columns`).
fn most_named(entities: &[Entity], rows: usize, columns: usize) -> u128
    ensures { AllByRecursion (λ entity. length (inside entity rows columns) ≤ result) entities.now }
{
    let mut most = 0;
    for entity in entities {
        let many = count_named(*entity, rows, columns);
        if many > most {
            most = many;
        }
    }
    most
}

/// Appends copies of the texts of the cells inside that an entity names, until there are as many as are wanted.
fn push_texts<R>(
    alloc: Global,
    records: &R,
    entity: Entity,
    many: u128,
    texts: &mut Vec<String>,
) -> Result<(), AllocError>
where
    R: Records + ExactRecords + PeekableRecords,
    R::Cell: CellText,
    requires well { R.is_well_formed records.now }
    requires few { length texts.old.items ≤ many }
    ensures texts { OnOk result (AppendsUpTo many texts.old.items (texts_at entity (map_grid R.Cell.text_of (R.grid records.now))) texts.new.items) }
    ensures few { OnOk result (length texts.new.items ≤ many) }
{
    for pos in entity.iter(records.count_rows(), records.count_columns()) {
        if texts.len() as u128 == many {
            return Ok(());
        }
        texts.push(String::from_str(alloc, records.get_text(pos))?)?;
    }
    Ok(())
}

/// Copies of the first texts of what entities name.
fn first_texts<R>(
    alloc: Global,
    records: &R,
    entities: Vec<Entity>,
    many: u128,
) -> Result<Vec<String>, AllocError>
where
    R: Records + ExactRecords + PeekableRecords,
    R::Cell: CellText,
    requires well { R.is_well_formed records.now }
    ensures { IfOk result (λ texts. map string_bytes texts.items ≡ take many (source_texts (map_grid R.Cell.text_of (R.grid records.now)) entities.items)) }
{
    let mut texts = Vec::new(alloc);
    let mut rest = entities.into_iter();
    while let Some(entity) = rest.next() {
        push_texts(alloc, records, entity, many, &mut texts)?;
    }
    Ok(texts)
}

/// The index after one of n, round and round: after the last one comes the first.
fn index_after(index: usize, count: usize) -> usize
    requires { index < count }
    ensures next { result ≡ (index + 1) % count }
    ensures within { result < count }
{
    let next = index + 1;
    if next == count { 0 } else { next }
}

/// Writes texts to the cells inside that an entity names, from the first on, round and round.
fn write_round<R>(
    alloc: Global,
    records: &mut R,
    entity: Entity,
    texts: &[String],
) -> Result<(), AllocError>
where
    R: Records + ExactRecords + RecordsMut<String>,
    R::Cell: CellText,
    requires well { R.is_well_formed records.old }
    requires some { 0 < length texts.now }
    ensures well { R.is_well_formed records.new }
    ensures rows { (R.grid records.new).rows ≡ (R.grid records.old).rows }
    ensures columns { (R.grid records.new).columns ≡ (R.grid records.old).columns }
    ensures ok { OnOk result (Written R.Cell.text_of (texts_to entity texts.now) (R.grid records.old) (R.grid records.new)) }
    ensures err { OnErr result (FirstWritten R.Cell.text_of (texts_to entity texts.now) (R.grid records.old) (R.grid records.new)) }
{
    let mut next = 0;
    for pos in entity.iter(records.count_rows(), records.count_columns()) {
        records.set(alloc, pos, texts[next].clone()?)?;
        next = index_after(next, texts.len());
    }
    Ok(())
}

/// Writes texts to what entities name, for each of them from the first on.
fn write_rounds<R>(
    alloc: Global,
    records: &mut R,
    entities: Vec<Entity>,
    texts: &[String],
) -> Result<(), AllocError>
where
    R: Records + ExactRecords + RecordsMut<String>,
    R::Cell: CellText,
    requires well { R.is_well_formed records.old }
    requires some { 0 < length texts.now }
    ensures well { R.is_well_formed records.new }
    ensures ok { OnOk result (Written R.Cell.text_of (texts_to_each entities.items texts.now) (R.grid records.old) (R.grid records.new)) }
    ensures err { OnErr result (FirstWritten R.Cell.text_of (texts_to_each entities.items texts.now) (R.grid records.old) (R.grid records.new)) }
{
    let mut rest = entities.into_iter();
    while let Some(entity) = rest.next() {
        write_round(alloc, records, entity, texts)?;
    }
    Ok(())
}
