//! A cell option on what an object lists.

ghost use Rattle.std.specs.Iterator.{AlwaysYields, IsFinite};
ghost use Rattle.std.specs.Prelude.{◌≡◌, List, OnErr, OnOk};
ghost use Rattle.tabled_grid.specs.declared.config.entity.Entity.{Entity};
ghost use Rattle.tabled_options.specs.Does.{CopiesAlike, Each, EachListed, EachListedLeaves, EachUntil, SameOr};
ghost use Rattle.std.proofs.Common.{rules};

use crate::cell_option::CellOption;
use crate::settings_list::Settings;
use crate::table_option::TableOption;
use std::alloc::{AllocError, Global};
use std::marker::Model;
use tabled_grid::config::Entity;
use tabled_grid::records::{ExactRecords, GridStore, Records};
use tabled_select::object::Object;

/// An object whose cells are to be changed. A contract sees it as the object.
///
/// Ported from `tabled::settings::Modify`.
#[derive(Copy, Drop)]
pub struct Modify<O> {
    object: O,
}

impl<O> Model for Modify<O> {
    ghost Value = { O };

    ghost view = { λ a. a.object };

    ghost inverse = { λ object. record { object = object } };
}

impl<O: Clone> Clone for Modify<O> {
    ghost is_clone = { O.is_clone };

    ghost is_infallible = { O.is_infallible };

    fn clone(&self) -> Result<Self, AllocError> {
        Ok(Modify {
            object: self.object.clone()?,
        })
    }
}

impl<O> Modify<O> {
    /// The cells of an object.
    ///
    /// Ported from `tabled::settings::Modify::new`.
    pub fn new(object: O) -> Self
        ensures { result ≡ object }
    {
        Modify { object }
    }

    /// An option on what an object lists.
    ///
    /// Ported from `tabled::settings::Modify::list`.
    pub fn list<M>(object: O, option: M) -> ModifyList<O, M>
        ensures { result ≡ (object, option) }
    {
        ModifyList { object, option }
    }

    /// An option on what the object lists.
    ///
    /// Ported from `tabled::settings::Modify::with`.
    pub fn with<M>(self, option: M) -> ModifyList<O, M>
        ensures { result ≡ (self, option) }
    {
        Modify::list(self.object, option)
    }
}

/// A cell option on what an object lists. A contract sees it as the pair of them.
///
/// Ported from `tabled::settings::ModifyList`.
#[derive(Drop)]
pub struct ModifyList<O, M> {
    object: O,
    option: M,
}

impl<O, M> Model for ModifyList<O, M> {
    ghost Value = { O × M };

    ghost view = { λ a. (a.object, a.option) };

    ghost inverse = { λ pair. record { object = pair.0; option = pair.1 } };
}

impl<O, M> ModifyList<O, M> {
    /// This option on each entity that is listed, and then another one.
    ///
    /// Ported from `tabled::settings::ModifyList::with`.
    pub fn with<N>(self, option: N) -> ModifyList<O, Settings<M, N>>
        ensures { result ≡ (self.0, (self.1, option)) }
    {
        let ModifyList {
            object,
            option: first,
        } = self;
        ModifyList {
            object,
            option: Settings::new(first, option),
        }
    }
}

/// Changes the entities that the object lists in the table as it is before any change, one after
/// another, each by a copy of the option.
///
/// A refused list changes nothing. A refused copy or change ends the call there.
impl<O, M, R, C, D> TableOption<R, C, D> for ModifyList<O, M>
where
    O: Object<R> + Drop,
    M: CellOption<R, C> + Clone,
    R: Records + ExactRecords,
{
    ghost does = { λ s. EachListed (O.lists s.0) (M.does s.1) };

    ghost leaves = { λ s. EachListedLeaves (O.lists s.0) (M.does s.1) (M.leaves s.1) };

    ghost can_change = { λ s. O.can_list s.0 × (M.can_change s.1 × CopiesAlike M.is_clone M.is_like s.1) };

    ghost hint = { λ s. M.hint s.1 };

    fn change(
        self,
        alloc: Global,
        records: &mut R,
        cfg: &mut C,
        _dimension: &mut D,
    ) -> Result<(), AllocError> {
        let ModifyList { object, option } = self;
        let entities = object.cells(alloc, records)?;
        match option.change_at_once(alloc, records, cfg, entities)? {
            Some(entities) => change_each(option, alloc, records, cfg, entities),
            None => Ok(()),
        }
    }

    fn hint_change(&self) -> Option<Entity> {
        self.option.hint_change()
    }

    ghost acts_like = { Prim.search rules };
}

/// Changes the cells of some entities, one after another, each by a copy of the option.
///
/// A refused copy or change ends the call there.
fn change_each<M, R, C, I>(
    option: M,
    alloc: Global,
    records: &mut R,
    cfg: &mut C,
    mut entities: I,
) -> Result<(), AllocError>
where
    M: CellOption<R, C> + Clone,
    R: GridStore,
    I: Iterator<Item = Entity> + Drop,
    requires well { R.is_well_formed records.old }
    requires can { M.can_change option × CopiesAlike M.is_clone M.is_like option }
    requires next { I.can_next entities }
    requires ends { IsFinite (I.remaining entities) }
    ensures well { R.is_well_formed records.new }
    ensures ok { (items : List Entity) → AlwaysYields I.next_gives (λ e. e) entities items
        → OnOk result (Each (M.does option) items (R.grid records.old) cfg.old (R.grid records.new) cfg.new) }
    ensures err { (items : List Entity) → AlwaysYields I.next_gives (λ e. e) entities items
        → OnErr result (EachUntil (M.does option) (λ e. SameOr (M.leaves option e)) items (R.grid records.old) cfg.old (R.grid records.new) cfg.new) }
{
    while let Some(entity) = entities.next() {
        let copy = option.clone()?;
        copy.change(alloc, records, cfg, entity)?;
    }
    Ok(())
}
