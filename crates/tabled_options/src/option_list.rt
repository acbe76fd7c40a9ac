//! Lists of options.

ghost use Rattle.std.specs.Prelude.{◌≡◌, ◌⊎◌, []};
ghost use Rattle.std.specs.List.{AllByRecursion, AllZip};
ghost use Rattle.tabled_options.specs.Copies.{act_like_each};
ghost use Rattle.tabled_options.specs.Does.{CopiesAlike, Each, EachUntil, NeverRefused, SameOr};
ghost use Rattle.std.proofs.Common.{rules};

use crate::table_option::TableOption;
use std::alloc::{AllocError, Global};
use tabled_grid::config::Entity;
use tabled_grid::records::GridStore;

/// The options in order. A refused one ends the call there.
impl<R, C, D, T> TableOption<R, C, D> for Vec<T>
where
    R: GridStore,
    T: TableOption<R, C, D> + Drop,
{
    ghost does = { λ s. Each T.does s.items };

    ghost leaves = { λ s. EachUntil T.does T.leaves s.items };

    ghost can_change = { λ s. AllByRecursion T.can_change s.items };

    ghost never_refused = { λ s. NeverRefused T.does T.never_refused s.items };

    ghost is_like = { λ p q. AllZip T.is_like p.items q.items };

    fn change(
        self,
        alloc: Global,
        records: &mut R,
        cfg: &mut C,
        dimension: &mut D,
    ) -> Result<(), AllocError> {
        let mut options = self.into_iter();
        while let Some(option) = options.next() {
            option.change(alloc, records, cfg, dimension)?;
        }
        Ok(())
    }

    fn hint_change(&self) -> Option<Entity> {
        Some(Entity::Global)
    }

    ghost acts_like = { λ p q e. act_like_each T.acts_like p.items q.items e };
}

/// Options in a slice, of which copies are applied in order. A refused copy or option ends the call
/// there.
///
/// It stands for the slices `&[T]`, which are options in `tabled`.
#[derive(Debug, Clone, Copy)]
pub struct OptionSlice<'a, T>(pub &'a [T]);

impl<'a, R, C, D, T> TableOption<R, C, D> for OptionSlice<'a, T>
where
    R: GridStore,
    T: TableOption<R, C, D> + Clone,
{
    ghost does = { λ s. Each T.does s.0.now };

    ghost leaves = { λ s. EachUntil T.does (λ x. SameOr (T.leaves x)) s.0.now };

    ghost can_change = { λ s. AllByRecursion (λ x. T.can_change x × CopiesAlike T.is_clone T.is_like x) s.0.now };

    ghost never_refused = { λ s _ _. s.0.now ≡ [] };

    fn change(
        self,
        alloc: Global,
        records: &mut R,
        cfg: &mut C,
        dimension: &mut D,
    ) -> Result<(), AllocError> {
        for option in self.0 {
            option.clone()?.change(alloc, records, cfg, dimension)?;
        }
        Ok(())
    }

    fn hint_change(&self) -> Option<Entity> {
        Some(Entity::Global)
    }

    ghost acts_like = { Prim.search rules };
}
