//! Options that write what they did into a log.

ghost use Rattle.std.specs.Prelude.{◌≡◌, ◌++◌, OnOk, OnErr};
ghost use Rattle.std.specs.Char.{encode_utf8};
ghost use Rattle.std.proofs.Common.{rules};

use std::alloc::{AllocError, Global};
use std::cell::Cell;
use std::marker::Model;
use tabled_grid::config::Entity;
use tabled_grid::records::GridStore;
use tabled_options::{CellOption, TableOption};

/// Letters, as many as the limit allows. A contract sees the letters.
#[derive(Drop)]
pub(crate) struct Log {
    letters: String,
    limit: usize,
}

impl Model for Log {
    ghost use Rattle.std.specs.Prelude.{ℕ, List};
    ghost use Rattle.std.specs.String.{string_bytes};

    ghost Value = { List ℕ };

    ghost view = { λ a. string_bytes a.letters };
}

impl Log {
    pub(crate) fn new(alloc: Global, limit: usize) -> Self {
        Log {
            letters: String::new(alloc),
            limit,
        }
    }

    /// Whether these are the letters, with `!` after them where a call was refused.
    pub(crate) fn is_told(&self, done: Result<(), AllocError>, want: &str) -> bool {
        let letters = match done {
            Ok(()) => Some(want),
            Err(_) => want.strip_suffix('!'),
        };
        letters == Some(self.letters.as_str())
    }

    /// Pushes a letter, if the limit allows.
    fn push(&mut self, letter: char) -> Result<(), AllocError>
        ensures ok { OnOk result (self.new ≡ self.old ++ encode_utf8 letter) }
        ensures err { OnErr result (self.new ≡ self.old) }
    {
        if self.letters.len() >= self.limit {
            return Err(AllocError);
        }
        self.letters.push(letter)
    }
}

/// Writes its letter into the log, for a table once and for cells at each entity.
#[derive(Debug, Clone, Copy)]
pub(crate) struct Letter {
    letter: char,
    hint: Option<Entity>,
}

impl Letter {
    pub(crate) fn new(letter: char) -> Self {
        Letter { letter, hint: None }
    }

    pub(crate) fn hinting(letter: char, hint: Option<Entity>) -> Self {
        Letter { letter, hint }
    }
}

impl<R: GridStore, D> TableOption<R, Log, D> for Letter {
    ghost does = { λ s g c h d. (h ≡ g) × (d ≡ c ++ encode_utf8 s.letter) };

    ghost hint = { λ s. s.hint };

    fn change(
        self,
        _alloc: Global,
        _records: &mut R,
        cfg: &mut Log,
        _dimension: &mut D,
    ) -> Result<(), AllocError> {
        cfg.push(self.letter)
    }

    fn hint_change(&self) -> Option<Entity> {
        self.hint
    }

    ghost acts_like = { Prim.search rules };
}

impl<R: GridStore> CellOption<R, Log> for Letter {
    ghost does = { λ s _ g c h d. (h ≡ g) × (d ≡ c ++ encode_utf8 s.letter) };

    ghost hint = { λ s. s.hint };

    fn change(
        self,
        _alloc: Global,
        _records: &mut R,
        cfg: &mut Log,
        _entity: Entity,
    ) -> Result<(), AllocError> {
        cfg.push(self.letter)
    }

    fn hint_change(&self) -> Option<Entity> {
        self.hint
    }

    ghost acts_like = { Prim.search rules };
}

/// An option of which as many copies can be made as are left.
#[derive(Drop)]
pub(crate) struct CountedCopies<'a, O> {
    option: O,
    left: &'a Cell<usize>,
}

impl<'a, O> CountedCopies<'a, O> {
    pub(crate) fn new(option: O, left: &'a Cell<usize>) -> Self
        ensures { result.option ≡ option }
    {
        CountedCopies { option, left }
    }
}

impl<'a, O: Copy> Clone for CountedCopies<'a, O> {
    ghost is_clone = { λ x y. y.option ≡ x.option };

    fn clone(&self) -> Result<Self, AllocError> {
        let left = self.left.get();
        if left == 0 {
            return Err(AllocError);
        }
        self.left.set(left - 1);
        Ok(CountedCopies {
            option: self.option,
            left: self.left,
        })
    }
}

impl<'a, R, C, D, O> TableOption<R, C, D> for CountedCopies<'a, O>
where
    R: GridStore,
    O: TableOption<R, C, D>,
{
    ghost does = { λ s. O.does s.option };

    ghost leaves = { λ s. O.leaves s.option };

    ghost can_change = { λ s. O.can_change s.option };

    ghost never_refused = { λ s. O.never_refused s.option };

    ghost is_like = { λ first second. second.option ≡ first.option };

    ghost hint = { λ s. O.hint s.option };

    fn change(
        self,
        alloc: Global,
        records: &mut R,
        cfg: &mut C,
        dimension: &mut D,
    ) -> Result<(), AllocError> {
        self.option.change(alloc, records, cfg, dimension)
    }

    fn hint_change(&self) -> Option<Entity> {
        self.option.hint_change()
    }

    ghost acts_like = { Prim.search rules };
}

impl<'a, R, C, O> CellOption<R, C> for CountedCopies<'a, O>
where
    R: GridStore,
    O: CellOption<R, C>,
{
    ghost does = { λ s. O.does s.option };

    ghost leaves = { λ s. O.leaves s.option };

    ghost can_change = { λ s. O.can_change s.option };

    ghost never_refused = { λ s. O.never_refused s.option };

    ghost is_like = { λ first second. second.option ≡ first.option };

    ghost hint = { λ s. O.hint s.option };

    fn change(
        self,
        alloc: Global,
        records: &mut R,
        cfg: &mut C,
        entity: Entity,
    ) -> Result<(), AllocError> {
        self.option.change(alloc, records, cfg, entity)
    }

    fn hint_change(&self) -> Option<Entity> {
        self.option.hint_change()
    }

    ghost acts_like = { Prim.search rules };
}
