//! Options one after another.

ghost use Rattle.std.specs.Prelude.{◌≡◌, ◌⊎◌, Option};
ghost use Rattle.tabled_options.specs.Does.{AfterNeverRefused, Same, Then, ThenLeaves};
ghost use Rattle.tabled_options.specs.Hints.{combined_hint};
ghost use Rattle.std.proofs.Common.{rules};
ghost use Rattle.tabled_options.specs.Copies.{act_like_in_order};

use crate::cell_option::CellOption;
use crate::hints::combine_hints;
use crate::modify::{Modify, ModifyList};
use crate::table_option::TableOption;
use std::alloc::{AllocError, Global};
use std::marker::Model;
use tabled_grid::config::Entity;
use tabled_grid::records::GridStore;

/// No option: it changes nothing and can't be refused.
///
/// Ported from `tabled::settings::EmptySettings`.
#[derive(Debug, Clone, Copy, PartialEq, Eq, PartialOrd, Ord)]
pub struct EmptySettings;

/// One option, and then another. A contract sees it as the pair of them.
///
/// Ported from `tabled::settings::Settings`.
#[derive(Copy, Drop)]
pub struct Settings<A = EmptySettings, B = EmptySettings>(A, B);

impl<A, B> Model for Settings<A, B> {
    ghost Value = { A × B };

    ghost view = { λ a. (a.0, a.1) };

    ghost inverse = { λ pair. record { 0 = pair.0; 1 = pair.1 } };
}

impl<A: Clone, B: Clone> Clone for Settings<A, B> {
    ghost is_clone = { λ s t. A.is_clone s.0 t.0 × B.is_clone s.1 t.1 };

    ghost is_infallible = { λ s. A.is_infallible s.0 × B.is_infallible s.1 };

    fn clone(&self) -> Result<Self, AllocError> {
        Ok(Settings(self.0.clone()?, self.1.clone()?))
    }
}

impl Settings {
    /// No options, to which others can be added.
    ///
    /// Ported from `tabled::settings::Settings::empty`.
    pub fn empty() -> Self
        ensures { result ≡ (record {}, record {}) }
    {
        Settings(EmptySettings, EmptySettings)
    }
}

impl Default for Settings {
    fn default() -> Self {
        Settings::empty()
    }
}

impl<A, B> Settings<A, B> {
    /// The first option, and then the second.
    ///
    /// Ported from `tabled::settings::Settings::new`.
    pub fn new(first: A, second: B) -> Self
        ensures { result ≡ (first, second) }
    {
        Settings(first, second)
    }

    /// These options, and then one more.
    ///
    /// Ported from `tabled::settings::Settings::with`.
    pub fn with<O>(self, option: O) -> Settings<Self, O>
        ensures { result ≡ (self, option) }
    {
        Settings(self, option)
    }

    /// These options, and then a cell option on what an object lists.
    ///
    /// Ported from `tabled::settings::Settings::modify`.
    pub fn modify<O, M>(self, object: O, option: M) -> Settings<Self, ModifyList<O, M>>
        ensures { result ≡ (self, (object, option)) }
    {
        Settings(self, Modify::list(object, option))
    }
}

impl<R: GridStore, C, D> TableOption<R, C, D> for EmptySettings {
    ghost does = { λ _. Same };

    ghost leaves = { λ _ _ _ _ _. ⊥ };

    ghost never_refused = { λ _ _ _. Unit {0} };

    fn change(
        self,
        _alloc: Global,
        _records: &mut R,
        _cfg: &mut C,
        _dimension: &mut D,
    ) -> Result<(), AllocError> {
        Ok(())
    }

    fn hint_change(&self) -> Option<Entity> {
        Some(Entity::Global)
    }

    ghost acts_like = { Prim.search rules };
}

impl<R: GridStore, C> CellOption<R, C> for EmptySettings {
    ghost does = { λ _ _. Same };

    ghost leaves = { λ _ _ _ _ _ _. ⊥ };

    ghost never_refused = { λ _ _ _ _. Unit {0} };

    fn change(
        self,
        _alloc: Global,
        _records: &mut R,
        _cfg: &mut C,
        _entity: Entity,
    ) -> Result<(), AllocError> {
        Ok(())
    }

    fn hint_change(&self) -> Option<Entity> {
        Some(Entity::Global)
    }

    ghost acts_like = { Prim.search rules };
}

/// The first option, and then the second where the first wasn't refused.
impl<R, C, D, A, B> TableOption<R, C, D> for Settings<A, B>
where
    R: GridStore,
    A: TableOption<R, C, D>,
    B: TableOption<R, C, D> + Drop,
{
    ghost does = { λ s. Then (A.does s.0) (B.does s.1) };

    ghost leaves = { λ s. ThenLeaves (A.does s.0) (A.leaves s.0) (B.leaves s.1) };

    ghost can_change = { λ s. A.can_change s.0 × B.can_change s.1 };

    ghost never_refused = { λ s old cfg. A.never_refused s.0 old cfg × AfterNeverRefused (A.does s.0) (B.never_refused s.1) old cfg };

    ghost is_like = { λ p q. A.is_like p.0 q.0 × B.is_like p.1 q.1 };

    ghost hint = { λ s. combined_hint (A.hint s.0) (B.hint s.1) };

    fn change(
        self,
        alloc: Global,
        records: &mut R,
        cfg: &mut C,
        dimension: &mut D,
    ) -> Result<(), AllocError> {
        let Settings(first, second) = self;
        first.change(alloc, records, cfg, dimension)?;
        second.change(alloc, records, cfg, dimension)
    }

    fn hint_change(&self) -> Option<Entity> {
        combine_hints(self.0.hint_change(), self.1.hint_change())
    }

    ghost acts_like = { λ p q e. act_like_in_order (A.acts_like p.0 q.0 e.0) (B.acts_like p.1 q.1 e.1) };
}

/// The first option, and then the second where the first wasn't refused.
impl<R, C, A, B> CellOption<R, C> for Settings<A, B>
where
    R: GridStore,
    A: CellOption<R, C>,
    B: CellOption<R, C> + Drop,
{
    ghost does = { λ s e. Then (A.does s.0 e) (B.does s.1 e) };

    ghost leaves = { λ s e. ThenLeaves (A.does s.0 e) (A.leaves s.0 e) (B.leaves s.1 e) };

    ghost can_change = { λ s. A.can_change s.0 × B.can_change s.1 };

    ghost never_refused = { λ s e old cfg. A.never_refused s.0 e old cfg × AfterNeverRefused (A.does s.0 e) (B.never_refused s.1 e) old cfg };

    ghost is_like = { λ p q. A.is_like p.0 q.0 × B.is_like p.1 q.1 };

    ghost hint = { λ s. combined_hint (A.hint s.0) (B.hint s.1) };

    fn change(
        self,
        alloc: Global,
        records: &mut R,
        cfg: &mut C,
        entity: Entity,
    ) -> Result<(), AllocError> {
        let Settings(first, second) = self;
        first.change(alloc, records, cfg, entity)?;
        second.change(alloc, records, cfg, entity)
    }

    fn hint_change(&self) -> Option<Entity> {
        combine_hints(self.0.hint_change(), self.1.hint_change())
    }

    ghost acts_like = { λ p q e. act_like_in_order (A.acts_like p.0 q.0 e.0) (B.acts_like p.1 q.1 e.1) };
}
