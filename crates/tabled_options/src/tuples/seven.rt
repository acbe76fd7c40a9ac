//! Tuples of seven options.

ghost use Rattle.tabled_options.specs.Copies.{act_like_in_order};
ghost use Rattle.tabled_options.specs.Tuples.{settings_of_seven as settings};

use crate::cell_option::CellOption;
use crate::hints::combine_hints;
use crate::settings_list::Settings;
use crate::table_option::TableOption;
use std::alloc::{AllocError, Global};
use tabled_grid::config::Entity;
use tabled_grid::records::GridStore;

impl<R, C, D, T0, T1, T2, T3, T4, T5, T6> TableOption<R, C, D> for (T0, T1, T2, T3, T4, T5, T6)
where
    R: GridStore,
    T0: TableOption<R, C, D>,
    T1: TableOption<R, C, D> + Drop,
    T2: TableOption<R, C, D> + Drop,
    T3: TableOption<R, C, D> + Drop,
    T4: TableOption<R, C, D> + Drop,
    T5: TableOption<R, C, D> + Drop,
    T6: TableOption<R, C, D> + Drop,
{
    ghost does = { λ s. ⟦<Settings<(T0, T1, T2, T3, T4, T5), T6> as TableOption<R, C, D>>⟧.does (settings s) };

    ghost leaves = { λ s. ⟦<Settings<(T0, T1, T2, T3, T4, T5), T6> as TableOption<R, C, D>>⟧.leaves (settings s) };

    ghost can_change = { λ s. ⟦<Settings<(T0, T1, T2, T3, T4, T5), T6> as TableOption<R, C, D>>⟧.can_change (settings s) };

    ghost never_refused = { λ s. ⟦<Settings<(T0, T1, T2, T3, T4, T5), T6> as TableOption<R, C, D>>⟧.never_refused (settings s) };

    ghost is_like = { λ p q. ⟦<Settings<(T0, T1, T2, T3, T4, T5), T6> as TableOption<R, C, D>>⟧.is_like (settings p) (settings q) };

    ghost hint = { λ s. ⟦<Settings<(T0, T1, T2, T3, T4, T5), T6> as TableOption<R, C, D>>⟧.hint (settings s) };

    fn change(
        self,
        alloc: Global,
        records: &mut R,
        cfg: &mut C,
        dimension: &mut D,
    ) -> Result<(), AllocError> {
        let (first, second, third, fourth, fifth, sixth, seventh) = self;
        let before = (first, second, third, fourth, fifth, sixth);
        Settings::new(before, seventh).change(alloc, records, cfg, dimension)
    }

    fn hint_change(&self) -> Option<Entity> {
        let hint = combine_hints(self.0.hint_change(), self.1.hint_change());
        let hint = combine_hints(hint, self.2.hint_change());
        let hint = combine_hints(hint, self.3.hint_change());
        let hint = combine_hints(hint, self.4.hint_change());
        let hint = combine_hints(hint, self.5.hint_change());
        combine_hints(hint, self.6.hint_change())
    }

    ghost acts_like = { λ p q e.
        let two = act_like_in_order (T0.acts_like p.0 q.0 e.0.0.0.0.0.0) (T1.acts_like p.1 q.1 e.0.0.0.0.0.1) in
        let three = act_like_in_order two (T2.acts_like p.2 q.2 e.0.0.0.0.1) in
        let four = act_like_in_order three (T3.acts_like p.3 q.3 e.0.0.0.1) in
        let five = act_like_in_order four (T4.acts_like p.4 q.4 e.0.0.1) in
        let six = act_like_in_order five (T5.acts_like p.5 q.5 e.0.1) in
        act_like_in_order six (T6.acts_like p.6 q.6 e.1) };
}

impl<R, C, T0, T1, T2, T3, T4, T5, T6> CellOption<R, C> for (T0, T1, T2, T3, T4, T5, T6)
where
    R: GridStore,
    T0: CellOption<R, C>,
    T1: CellOption<R, C> + Drop,
    T2: CellOption<R, C> + Drop,
    T3: CellOption<R, C> + Drop,
    T4: CellOption<R, C> + Drop,
    T5: CellOption<R, C> + Drop,
    T6: CellOption<R, C> + Drop,
{
    ghost does = { λ s. ⟦<Settings<(T0, T1, T2, T3, T4, T5), T6> as CellOption<R, C>>⟧.does (settings s) };

    ghost leaves = { λ s. ⟦<Settings<(T0, T1, T2, T3, T4, T5), T6> as CellOption<R, C>>⟧.leaves (settings s) };

    ghost can_change = { λ s. ⟦<Settings<(T0, T1, T2, T3, T4, T5), T6> as CellOption<R, C>>⟧.can_change (settings s) };

    ghost never_refused = { λ s. ⟦<Settings<(T0, T1, T2, T3, T4, T5), T6> as CellOption<R, C>>⟧.never_refused (settings s) };

    ghost is_like = { λ p q. ⟦<Settings<(T0, T1, T2, T3, T4, T5), T6> as CellOption<R, C>>⟧.is_like (settings p) (settings q) };

    ghost hint = { λ s. ⟦<Settings<(T0, T1, T2, T3, T4, T5), T6> as CellOption<R, C>>⟧.hint (settings s) };

    fn change(
        self,
        alloc: Global,
        records: &mut R,
        cfg: &mut C,
        entity: Entity,
    ) -> Result<(), AllocError> {
        let (first, second, third, fourth, fifth, sixth, seventh) = self;
        let before = (first, second, third, fourth, fifth, sixth);
        Settings::new(before, seventh).change(alloc, records, cfg, entity)
    }

    fn hint_change(&self) -> Option<Entity> {
        let hint = combine_hints(self.0.hint_change(), self.1.hint_change());
        let hint = combine_hints(hint, self.2.hint_change());
        let hint = combine_hints(hint, self.3.hint_change());
        let hint = combine_hints(hint, self.4.hint_change());
        let hint = combine_hints(hint, self.5.hint_change());
        combine_hints(hint, self.6.hint_change())
    }

    ghost acts_like = { λ p q e.
        let two = act_like_in_order (T0.acts_like p.0 q.0 e.0.0.0.0.0.0) (T1.acts_like p.1 q.1 e.0.0.0.0.0.1) in
        let three = act_like_in_order two (T2.acts_like p.2 q.2 e.0.0.0.0.1) in
        let four = act_like_in_order three (T3.acts_like p.3 q.3 e.0.0.0.1) in
        let five = act_like_in_order four (T4.acts_like p.4 q.4 e.0.0.1) in
        let six = act_like_in_order five (T5.acts_like p.5 q.5 e.0.1) in
        act_like_in_order six (T6.acts_like p.6 q.6 e.1) };
}
