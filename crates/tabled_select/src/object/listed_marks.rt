//! Marks of a few places.

ghost use Rattle.std.specs.Prelude.{◌≡◌, not, IfOk, None, OnOk, true};
ghost use Rattle.tabled_grid.specs.declared.config.position.Position.{Position};
ghost use Rattle.tabled_select.specs.Algebra.{flat};
ghost use Rattle.tabled_select.specs.Sets.{few_marks};
ghost use Rattle.tabled_select.specs.Marks.{HasRoom, MarksAll, SetsMark, has};

use crate::object::named_places::NamedPlaces;
use std::alloc::{AllocError, Global};
use std::collections::BTreeMap;
use tabled_grid::config::{Entity, Position};

/// Marks of some places.
#[derive(Drop)]
pub(super) struct ListedMarks {
    marks: BTreeMap<Position, bool>,
}

impl ListedMarks {
    /// No mark, and no room.
    fn new(alloc: Global) -> Self
        ensures { (p : Position) → few_marks result p ≡ None }
    {
        ListedMarks {
            marks: BTreeMap::new(alloc),
        }
    }

    /// A mark, yes or no, for each place that entities name in a table of `rows x columns`.
    pub(super) fn of(
        alloc: Global,
        entities: Vec<Entity>,
        rows: usize,
        columns: usize,
        mark: bool,
    ) -> Result<Self, AllocError>
        ensures { IfOk result (λ set. MarksAll (few_marks set) (flat entities.items rows columns) mark) }
    {
        let mut set = ListedMarks::new(alloc);
        for pos in NamedPlaces::new(entities, rows, columns) {
            set.set(pos, mark)?;
        }
        Ok(set)
    }

    // A call apart keeps the walk over dense marks short.
    #[inline(never)]
    pub(super) fn contains(&self, pos: Position) -> bool
        ensures { result ≡ has (few_marks self.now) pos }
    {
        match self.marks.get(&pos) {
            Some(mark) => *mark,
            None => false,
        }
    }

    /// Gives a place a mark, yes or no. Refused where memory runs out.
    fn set(&mut self, pos: Position, mark: bool) -> Result<(), AllocError>
        ensures { OnOk result (SetsMark (few_marks self.old) (few_marks self.new) pos mark) }
    {
        match self.marks.insert(pos, mark) {
            Ok(_) => Ok(()),
            Err(_) => Err(AllocError),
        }
    }

    /// Marks a place that there is room for, and says whether it wasn't marked before.
    #[inline(never)]
    pub(super) fn insert(&mut self, pos: Position) -> bool
        requires { HasRoom (few_marks self.old) pos }
        ensures is_new { result ≡ not (has (few_marks self.old) pos) }
        ensures set { SetsMark (few_marks self.old) (few_marks self.new) pos true }
    {
        let is_new = !self.contains(pos);
        // A place that has a mark takes no memory, so this isn't refused.
        let _ = self.marks.insert(pos, true);
        is_new
    }
}
