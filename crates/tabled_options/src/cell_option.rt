//! What changes cells of a table.

ghost use Rattle.std.specs.Iterator.{AlwaysYields, IsFinite};
ghost use Rattle.std.specs.Option.{IfSome};
ghost use Rattle.std.specs.Prelude.{◌≡◌, IfOk, IsNone, OnOk, OnErr, IsOk, List, Option, Some};
ghost use Rattle.tabled_grid.specs.Grid.{Grid};
ghost use Rattle.tabled_grid.specs.declared.config.entity.Entity.{Entity};
ghost use Rattle.tabled_grid.specs.declared.config.entity.Entity.TheVariants.{Global};
ghost use Rattle.tabled_options.specs.Does.{ActsLike, Change, Each, EachUntil, Same, SameOr};

use std::alloc::{AllocError, Global};
use tabled_grid::config::Entity;
use tabled_grid::records::GridStore;

/// Changes the cells of the store `R` that an entity names, or their configuration `C`.
///
/// A contract sees an option as what it does, on an entity, to the grid of cells and to the
/// configuration, and as what a refused call leaves of them.
///
/// Ported from `tabled::settings::CellOption`.
pub trait CellOption<R: GridStore, C> {
    /// What it does on an entity where it isn't refused.
    ghost does: { Self → Entity → Change R.Cell C };

    /// What it leaves where it is refused for memory: all as it was, where nothing else is said.
    ghost leaves: { Self → Entity → Change R.Cell C } = { λ _ _. Same };

    /// The condition of use. There is none, where nothing else is said.
    ghost can_change: { Self → Type 0 } = { λ _. Unit {0} };

    /// It takes no memory on an entity at this grid and configuration, so that it can't be refused. Nothing is
    /// promised, where nothing else is said.
    ghost never_refused: { Self → Entity → Grid R.Cell → C → Type 0 } = { λ _ _ _ _. ⊥ };

    /// The second option may stand for the first, as its copies may.
    ghost is_like: { Self → Self → Type 0 } = { λ first second. second ≡ first };

    /// The part of the table that may change, or none.
    ghost hint: { Self → Option Entity } = { λ _. Some Global };

    /// Changes the cells that an entity names.
    ///
    /// Refused for memory, it leaves what `leaves` says.
    ///
    /// Ported from `tabled::settings::CellOption::change`.
    fn change(
        self,
        alloc: Global,
        records: &mut R,
        cfg: &mut C,
        entity: Entity,
    ) -> Result<(), AllocError>
        requires well { R.is_well_formed records.old }
        requires can { can_change self }
        ensures well { R.is_well_formed records.new }
        ensures ok { OnOk result (does self entity (R.grid records.old) cfg.old (R.grid records.new) cfg.new) }
        ensures err { OnErr result (leaves self entity (R.grid records.old) cfg.old (R.grid records.new) cfg.new) }
        ensures promised { never_refused self entity (R.grid records.old) cfg.old → IsOk result };

    /// Changes the cells of some entities at once, where the option has a way to: so that there is what comes of
    /// copies of it on one entity after another. Else it gives the entities back, and changes nothing.
    ///
    /// Refused, it leaves the changes for the entities before one, and of that one nothing, or what its refused
    /// change leaves.
    ///
    /// Of this project.
    fn change_at_once<I>(
        &self,
        alloc: Global,
        records: &mut R,
        cfg: &mut C,
        entities: I,
    ) -> Result<Option<I>, AllocError>
    where
        I: Iterator<Item = Entity> + Drop,
        requires well { R.is_well_formed records.old }
        requires can { can_change self.now }
        requires next { I.can_next entities }
        requires ends { IsFinite (I.remaining entities) }
        ensures well { R.is_well_formed records.new }
        ensures back { IfOk result (λ back. IfSome back (λ rest. (rest ≡ entities) × Same (R.grid records.old) cfg.old (R.grid records.new) cfg.new)) }
        ensures ok { (items : List Entity) → AlwaysYields I.next_gives (λ e. e) entities items
            → IfOk result (λ back. IsNone back → Each (does self.now) items (R.grid records.old) cfg.old (R.grid records.new) cfg.new) }
        ensures err { (items : List Entity) → AlwaysYields I.next_gives (λ e. e) entities items
            → OnErr result (EachUntil (does self.now) (λ e. SameOr (leaves self.now e)) items (R.grid records.old) cfg.old (R.grid records.new) cfg.new) }
    {
        Ok(Some(entities))
    }

    /// Hints at the part of the table that it may change, or at none. Where nothing better is known, this
    /// is `Some(Entity::Global)`.
    ///
    /// Ported from `tabled::settings::CellOption::hint_change`.
    fn hint_change(&self) -> Option<Entity>
        ensures { result ≡ hint self.now };

    /// An option that may stand for another acts like it: `Prim.search rules` proves it where `is_like` is
    /// an equation.
    ghost acts_like: { (first second : Self) → is_like first second
        → ActsLike (can_change first) (can_change second) (does first) (does second) (leaves first) (leaves second) };
}
