//! Calls of options: what compositions of them make of a table.

ghost use Rattle.std.proofs.Common.{rules};
ghost use Rattle.tabled_options.specs.Does.{CopiesAlike, Same};
ghost use Rattle.std.specs.List.{AllByRecursion};
ghost use Rattle.std.specs.Prelude.{None};

use std::alloc::{AllocError, Global};
use tabled_grid::config::{Entity, SpannedConfig};
use tabled_grid::records::{GridStore, Text, VecRecords};
use tabled_options::laws::vectors_copied;
use tabled_options::{CellOption, OptionSlice, TableOption};
use tabled_select::object::{Cell, Rows, Segment};
use tabled_table::{Modify, Settings, Table, TextRef};

/// A store of texts, as a table has it.
type Store = VecRecords<Text<String>>;

/// An option on cells that changes nothing.
#[derive(Debug, Clone, Copy)]
pub struct Nothing;

impl<R: GridStore, C> CellOption<R, C> for Nothing {
    ghost does = { λ _ _. Same };

    ghost leaves = { λ _ _ _ _ _ _. ⊥ };

    ghost never_refused = { λ _ _ _ _. Unit {0} };

    ghost hint = { λ _. None };

    fn change(
        self,
        _alloc: Global,
        _records: &mut R,
        _cfg: &mut C,
        _entity: Entity,
    ) -> Result<(), AllocError> {
        Ok(())
    }

    fn hint_change(&self) -> Option<Entity> {
        None
    }

    ghost acts_like = { Prim.search rules };
}

pub fn writes_texts(alloc: Global, table: &mut Table) -> Result<(), AllocError> {
    table.modify(alloc, Segment::all(), TextRef("a"))?;
    table.modify(alloc, Cell::new(0, 0), String::from_str(alloc, "b")?)
}

pub fn writes_settings(alloc: Global, table: &mut Table) -> Result<(), AllocError> {
    let text = String::from_str(alloc, "c")?;
    let settings = Settings::new(Settings::empty(), TextRef("b")).with(text);
    table.modify(alloc, Segment::all(), settings)
}

pub fn writes_tuples(alloc: Global, table: &mut Table) -> Result<(), AllocError> {
    let text = String::from_str(alloc, "b")?;
    let inner = Settings::new(Nothing, TextRef("c"));
    table.modify(alloc, Segment::all(), (TextRef("a"), text, inner))
}

pub fn writes_lists(alloc: Global, table: &mut Table) -> Result<(), AllocError> {
    let settings = Settings::empty()
        .modify(Segment::all(), (TextRef("a"), TextRef("b")))
        .modify(Rows::one(1), TextRef("c"));
    table.with(alloc, settings)?;
    let list = Modify::new(Cell::new(0, 0)).with(TextRef("d"));
    table.with(alloc, (list.with(Nothing), Settings::empty()))
}

pub fn applies_both<A, B>(
    alloc: Global,
    table: &mut Table,
    first: A,
    second: B,
) -> Result<(), AllocError>
where
    A: CellOption<Store, SpannedConfig> + Clone + Drop,
    B: CellOption<Store, SpannedConfig> + Clone + Drop,
    requires first_can { A.can_change first }
    requires second_can { B.can_change second }
    requires first_copies { CopiesAlike A.is_clone A.is_like first }
    requires second_copies { CopiesAlike B.is_clone B.is_like second }
{
    table.modify(alloc, Segment::all(), (first, second))
}

/// Applies a copy of a vector of options: it stands for the vector, as copies of its items stand for these.
pub fn applies_copies<T>(
    alloc: Global,
    table: &mut Table,
    options: Vec<T>,
) -> Result<(), AllocError>
where
    T: TableOption<Store, SpannedConfig, ()> + Clone + Drop,
    requires can { AllByRecursion T.can_change options.items }
    requires copies { AllByRecursion (CopiesAlike T.is_clone T.is_like) options.items }
{
    vectors_copied::<Store, SpannedConfig, (), T>(&options);
    let lists = [options];
    table.with(alloc, OptionSlice(&lists))
}
