//! An option that grows a store.

ghost use Rattle.std.specs.Prelude.{◌≡◌};
ghost use Rattle.std.proofs.Common.{rules};
ghost use Rattle.tabled_grid.specs.Resized.{InsertsRow};

use std::alloc::{AllocError, Global};
use tabled_grid::config::Entity;
use tabled_grid::records::{Blank, Resizable};
use tabled_options::TableOption;

/// Pushes a row of blanks below the last one.
#[derive(Debug, Clone, Copy)]
pub(crate) struct PushRow;

impl<R, C, D> TableOption<R, C, D> for PushRow
where
    R: Resizable,
    R::Cell: Blank,
{
    ghost does = { λ _ g c h d. InsertsRow R.Cell.is_blank g h g.rows × (d ≡ c) };

    fn change(
        self,
        alloc: Global,
        records: &mut R,
        _cfg: &mut C,
        _dimension: &mut D,
    ) -> Result<(), AllocError> {
        records.push_row(alloc)
    }

    fn hint_change(&self) -> Option<Entity> {
        Some(Entity::Global)
    }

    ghost acts_like = { Prim.search rules };
}
