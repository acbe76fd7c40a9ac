//! The places that entities name.

ghost use Rattle.std.specs.Prelude.{◌≡◌};
ghost use Rattle.std.specs.Iterator.{YieldsFirst, item_count};
ghost use Rattle.tabled_grid.specs.Entity.{inside};
ghost use Rattle.tabled_select.specs.Algebra.{flat};

use std::marker::Model;
use std::vec;
use tabled_grid::config::{Entity, EntityIterator, Position};

/// Goes over the places of a table that entities name, of one entity after another.
///
/// A contract sees it as the list of the places that are left.
#[derive(Drop)]
pub(crate) struct NamedPlaces {
    rows: usize,
    columns: usize,
    current: EntityIterator,
    entities: vec::IntoIter<Entity>,
}

impl Model for NamedPlaces {
    ghost use Rattle.std.specs.Prelude.{◌++◌, List};
    ghost use Rattle.std.specs.Vec.Iter.{into_iter_items};
    ghost use Rattle.tabled_grid.specs.declared.config.position.Position.{Position};
    ghost use Rattle.tabled_select.specs.Algebra.{flat};

    ghost Value = { List Position };

    ghost view = { λ a. a.current ++ flat (into_iter_items a.entities) a.rows a.columns };
}

impl NamedPlaces {
    pub(crate) fn new(entities: Vec<Entity>, rows: usize, columns: usize) -> Self
        ensures { result ≡ flat entities.items rows columns }
    {
        NamedPlaces {
            rows,
            columns,
            current: Entity::Global.iter(0, 0),
            entities: entities.into_iter(),
        }
    }
}

impl Iterator for NamedPlaces {
    type Item = Position;

    ghost next_gives = { YieldsFirst (λ s. s) };

    ghost remaining = { item_count (λ s. s) };

    #[inline(always)]
    fn next(&mut self) -> Option<Position> {
        loop {
            if let Some(pos) = self.current.next() {
                return Some(pos);
            }
            let entity = self.entities.next()?;
            // Most entities of a combination are cells: their one place needs no walk.
            if let Entity::Cell(row, col) = entity {
                if row < self.rows && col < self.columns {
                    return Some(Position { row, col });
                }
            }
            enter(&mut self.current, entity, self.rows, self.columns);
        }
    }
}

/// Goes on to the places of a table of `rows x columns` that an entity names.
// A call apart keeps the walk over the places of one entity short.
#[inline(never)]
fn enter(current: &mut EntityIterator, entity: Entity, rows: usize, columns: usize)
    ensures { current.new ≡ inside entity rows columns }
{
    *current = entity.iter(rows, columns);
}

/// How many cells of a table of `rows x columns` entities name, cut at `usize::MAX`.
pub(super) fn count_named(entities: &[Entity], rows: usize, columns: usize) -> usize {
    let mut count: usize = 0;
    for entity in entities {
        count = count.saturating_add(match entity {
            Entity::Global => rows.saturating_mul(columns),
            Entity::Column(_) => rows,
            Entity::Row(_) => columns,
            Entity::Cell(_, _) => 1,
        });
    }
    count
}
