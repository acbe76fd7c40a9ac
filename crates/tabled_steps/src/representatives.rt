//! The entities that stand for those that a selector names.

ghost use Rattle.std.specs.Prelude.{IsOk, IsSomeAnd, OnErr, OnOk};
ghost use Rattle.tabled_options.specs.Does.{CopiesAlike, EachListed};
ghost use Rattle.tabled_steps.specs.Groups.{AreRepresentatives, IsLocal};
ghost use Rattle.tabled_steps.specs.Selected.{single};
ghost use Rattle.tabled_steps.specs.Steps.{LeavesFirst, Names};

use crate::select::Select;
use std::alloc::{AllocError, Global};
use std::marker::Model;
use std::vec;
use tabled_grid::config::{Entity, SpannedConfig};
use tabled_grid::records::{CellText, ExactRecords, PeekableRecords, Records};
use tabled_options::{CellOption, Modify, TableOption};
use tabled_select::object::Object;

/// Changes each entity that a selector names by a copy of an option. A single one, which is known without the
/// table, is changed by the option itself, and not listed.
///
/// Refused for memory, it leaves nothing changed, or the entities before one changed, and of that one what the
/// option leaves.
pub(crate) fn change_each<M, R>(
    alloc: Global,
    records: &mut R,
    cfg: &mut SpannedConfig,
    select: Select,
    option: M,
) -> Result<(), AllocError>
where
    M: CellOption<R, SpannedConfig> + Clone + Drop,
    R: Records + ExactRecords + PeekableRecords,
    R::Cell: CellText,
    requires well { R.is_well_formed records.old }
    requires can { M.can_change option }
    requires alike { CopiesAlike M.is_clone M.is_like option }
    requires local { IsLocal (M.does option) (M.leaves option) }
    ensures well { R.is_well_formed records.new }
    ensures ok { OnOk result (EachListed (Names R.Cell.text_of select) (M.does option) (R.grid records.old) cfg.old (R.grid records.new) cfg.new) }
    ensures err { OnErr result (LeavesFirst R.Cell.text_of select (M.does option) (M.leaves option) (R.grid records.old) cfg.old (R.grid records.new) cfg.new) }
    ensures promised { IsSomeAnd (single select) (λ e. M.never_refused option e (R.grid records.old) cfg.old) → IsOk result }
{
    match select.single() {
        Some(entity) => option.change(alloc, records, cfg, entity),
        None => Modify::list(Representatives(select), option).change(alloc, records, cfg, &mut ()),
    }
}

/// Names for each group of entities that a selector names the one that stands for it.
#[derive(Debug, Drop)]
pub(crate) struct Representatives(pub(crate) Select);

impl<R> Object<R> for Representatives
where
    R: Records + ExactRecords + PeekableRecords,
    R::Cell: CellText,
{
    type Iter = RepresentativesIter;

    ghost lists = { λ s. AreRepresentatives R.Cell.text_of s.0 };

    ghost can_list = { λ _. Unit {0} };

    fn cells(&self, alloc: Global, records: &R) -> Result<RepresentativesIter, AllocError> {
        match self.0.single() {
            Some(entity) => Ok(RepresentativesIter::one(entity)),
            None => Ok(RepresentativesIter::each(self.0.representatives(alloc, records)?)),
        }
    }
}

/// Where entities come from: a single one takes no memory.
#[derive(Drop)]
enum Entities {
    One(Option<Entity>),
    Each(vec::IntoIter<Entity>),
}

/// Goes over entities. A contract sees it as the list of those that are left.
#[derive(Drop)]
pub(crate) struct RepresentativesIter {
    entities: Entities,
}

impl Model for RepresentativesIter {
    ghost use Rattle.std.specs.Prelude.{List};
    ghost use Rattle.tabled_grid.specs.declared.config.entity.Entity.{Entity};
    ghost use Rattle.tabled_steps.specs.Groups.{entities_left};

    ghost Value = { List Entity };

    ghost view = { λ a. entities_left a.entities };
}

impl RepresentativesIter {
    ghost use Rattle.std.specs.Prelude.{◌≡◌, ◌∷◌, []};

    fn one(entity: Entity) -> Self
        ensures { result ≡ entity ∷ [] }
    {
        RepresentativesIter {
            entities: Entities::One(Some(entity)),
        }
    }

    fn each(entities: Vec<Entity>) -> Self
        ensures { result ≡ entities.items }
    {
        RepresentativesIter {
            entities: Entities::Each(entities.into_iter()),
        }
    }
}

impl Iterator for RepresentativesIter {
    type Item = Entity;

    ghost use Rattle.std.specs.Iterator.{YieldsFirst, item_count};

    ghost next_gives = { YieldsFirst (λ s. s) };

    ghost remaining = { item_count (λ s. s) };

    fn next(&mut self) -> Option<Entity> {
        match &mut self.entities {
            Entities::One(entity) => entity.take(),
            Entities::Each(entities) => entities.next(),
        }
    }
}
