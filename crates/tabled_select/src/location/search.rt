//! The walk over texts that locators share.

ghost use Rattle.std.specs.Prelude.{◌≡◌, IfOk, map};
ghost use Rattle.std.specs.Fn.{FnReturnsAt};
ghost use Rattle.tabled_grid.specs.Grid.{map_grid};
ghost use Rattle.tabled_grid.specs.declared.config.position.Position.{Position};
ghost use Rattle.tabled_grid.specs.declared.config.entity.Entity.TheVariants.{Cell, Column};
ghost use Rattle.tabled_select.specs.Locators.{ToldOf, PicksNamed, named_with};

use std::alloc::{AllocError, Global};
use tabled_grid::config::{Entity, Position};
use tabled_grid::records::{CellText, ExactRecords, PeekableRecords, Records};

/// What is told of a place that was found.
pub(super) trait Tell {
    type Told: Drop;

    /// What is told of a place.
    ghost told: { Position → Self.Told };

    fn tell(pos: Position) -> Self::Told
        ensures { result ≡ told pos };
}

/// Places themselves.
pub(super) enum Places {}

impl Tell for Places {
    type Told = Position;

    ghost told = { λ p. p };

    fn tell(pos: Position) -> Position {
        pos
    }
}

/// The entities of places.
pub(super) enum Cells {}

impl Tell for Cells {
    type Told = Entity;

    ghost told = { λ p. Cell p.row p.col };

    fn tell(pos: Position) -> Entity {
        Entity::from(pos)
    }
}

/// The indexes of the columns of places.
pub(super) enum ColumnIndexes {}

impl Tell for ColumnIndexes {
    type Told = usize;

    ghost told = { λ p. p.col };

    fn tell(pos: Position) -> usize {
        pos.col
    }
}

/// The entities of the columns of places.
pub(super) enum WholeColumns {}

impl Tell for WholeColumns {
    type Told = Entity;

    ghost told = { λ p. Column p.col };

    fn tell(pos: Position) -> Entity {
        Entity::Column(pos.col)
    }
}

/// The places with a text, of those inside that an entity names.
pub(super) fn search_text<K, R>(
    alloc: Global,
    records: &R,
    entity: Entity,
    wanted: &str,
) -> Result<Vec<K::Told>, AllocError>
where
    K: Tell,
    R: Records + ExactRecords + PeekableRecords,
    R::Cell: CellText,
    requires well { R.is_well_formed records.now }
    ensures { IfOk result (λ all. all.items ≡ map K.told (named_with entity wanted.now (map_grid R.Cell.text_of (R.grid records.now)))) }
{
    search::<K, R, _>(alloc, records, entity, &|text: &str| text == wanted)
}

/// The places inside that an entity names and to whose texts a closure says yes, each asked for once
/// and in order.
pub(super) fn search<K, R, F>(
    alloc: Global,
    records: &R,
    entity: Entity,
    says: &F,
) -> Result<Vec<K::Told>, AllocError>
where
    K: Tell,
    R: Records + ExactRecords + PeekableRecords,
    R::Cell: CellText,
    F: Fn(&str) -> bool,
    requires well { R.is_well_formed records.now }
    requires can { F.IsAlwaysCallable says.now }
    ensures { IfOk result (λ all. ToldOf K.told (PicksNamed entity (FnReturnsAt F.Fn says.now) (map_grid R.Cell.text_of (R.grid records.now))) all.items) }
{
    let mut found = Vec::new(alloc);
    for pos in entity.iter(records.count_rows(), records.count_columns()) {
        if says(records.get_text(pos)) {
            found.push(K::tell(pos))?;
        }
    }
    Ok(found)
}
