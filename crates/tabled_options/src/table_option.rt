//! What changes a table.

ghost use Rattle.std.specs.Prelude.{◌≡◌, OnOk, OnErr, IsOk, Option, Some};
ghost use Rattle.tabled_grid.specs.Grid.{Grid};
ghost use Rattle.tabled_grid.specs.declared.config.entity.Entity.{Entity};
ghost use Rattle.tabled_grid.specs.declared.config.entity.Entity.TheVariants.{Global};
ghost use Rattle.tabled_options.specs.Does.{Change, Same, TableActsLike};

use std::alloc::{AllocError, Global};
use tabled_grid::config::Entity;
use tabled_grid::records::GridStore;

/// Changes the store `R`, the configuration `C` and the dimension `D` of a table.
///
/// A contract sees an option as what it does to the grid of cells and to the configuration, and as what
/// a refused call leaves of them.
///
/// Ported from `tabled::settings::TableOption`.
pub trait TableOption<R: GridStore, C, D> {
    /// What it does where it isn't refused.
    ghost does: { Self → Change R.Cell C };

    /// What it leaves where it is refused for memory: all as it was, where nothing else is said.
    ghost leaves: { Self → Change R.Cell C } = { λ _. Same };

    /// The condition of use. There is none, where nothing else is said.
    ghost can_change: { Self → Type 0 } = { λ _. Unit {0} };

    /// It takes no memory at this grid and configuration, so that it can't be refused. Nothing is promised, where
    /// nothing else is said.
    ghost never_refused: { Self → Grid R.Cell → C → Type 0 } = { λ _ _ _. ⊥ };

    /// The second option may stand for the first, as its copies may.
    ghost is_like: { Self → Self → Type 0 } = { λ first second. second ≡ first };

    /// The part of the table that may change, or none.
    ghost hint: { Self → Option Entity } = { λ _. Some Global };

    /// Changes the table.
    ///
    /// Refused for memory, it leaves what `leaves` says.
    ///
    /// Ported from `tabled::settings::TableOption::change`.
    fn change(
        self,
        alloc: Global,
        records: &mut R,
        cfg: &mut C,
        dimension: &mut D,
    ) -> Result<(), AllocError>
        requires well { R.is_well_formed records.old }
        requires can { can_change self }
        ensures well { R.is_well_formed records.new }
        ensures ok { OnOk result (does self (R.grid records.old) cfg.old (R.grid records.new) cfg.new) }
        ensures err { OnErr result (leaves self (R.grid records.old) cfg.old (R.grid records.new) cfg.new) }
        ensures promised { never_refused self (R.grid records.old) cfg.old → IsOk result };

    /// Hints at the part of the table that it may change, or at none. Where nothing better is known, this
    /// is `Some(Entity::Global)`.
    ///
    /// Ported from `tabled::settings::TableOption::hint_change`.
    fn hint_change(&self) -> Option<Entity>
        ensures { result ≡ hint self.now };

    /// An option that may stand for another acts like it: `Prim.search rules` proves it where `is_like` is
    /// an equation.
    ghost acts_like: { (first second : Self) → is_like first second
        → TableActsLike (can_change first) (can_change second) (does first) (does second) (leaves first) (leaves second) };
}
