//! Indexes that are counted from the last.

ghost use Rattle.std.specs.Prelude.{◌≡◌, option_to_list};
ghost use Rattle.tabled_select.specs.Selectors.{index_from_last};

use std::marker::Model;

/// How far before the last row or column, or past it. A contract sees it as these two facts.
#[derive(Clone, Copy, Debug, Default, PartialEq, Eq, PartialOrd, Ord, Hash)]
pub(super) struct FromLast {
    offset: usize,
    is_past: bool,
}

impl Model for FromLast {
    ghost use Rattle.tabled_select.specs.Selectors.{FromLast};

    ghost Value = { FromLast };

    ghost view = { λ a. record { offset = a.offset; is_past = a.is_past } };

    ghost inverse = { λ v. record { offset = v.offset; is_past = v.is_past } };
}

impl FromLast {
    ghost use Rattle.std.specs.Prelude.{false, true};
    ghost use Rattle.tabled_select.specs.Selectors.{before_last, past_last};

    pub(super) fn before(offset: usize) -> Self
        ensures { result ≡ before_last offset }
    {
        FromLast {
            offset,
            is_past: false,
        }
    }

    pub(super) fn past(offset: usize) -> Self
        ensures { result ≡ past_last offset }
    {
        FromLast {
            offset,
            is_past: true,
        }
    }

    /// The index of n rows or columns, if there is a last one and the index is one.
    pub(super) fn index(&self, count: usize) -> Option<usize>
        ensures { option_to_list result ≡ index_from_last self.now count }
    {
        let last = count.checked_sub(1)?;
        if self.is_past {
            last.checked_add(self.offset)
        } else {
            last.checked_sub(self.offset)
        }
    }
}
