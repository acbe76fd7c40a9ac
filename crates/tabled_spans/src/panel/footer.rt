//! A last row of one text.

ghost use Rattle.std.specs.Prelude.{◌≡◌, false};
ghost use Rattle.std.specs.String.{string_bytes};
ghost use Rattle.tabled_grid.specs.declared.records.axis.Axis.TheVariants.{Rows};
ghost use Rattle.tabled_spans.specs.Panels.{Panels, has_room};
ghost use Rattle.std.proofs.Common.{rules};

use crate::panel::HorizontalPanel;
use std::alloc::{AllocError, Global};
use std::marker::Model;
use tabled_grid::config::{Entity, SpannedConfig};
use tabled_grid::records::{CellText, ExactRecords, Records, RecordsMut, Resizable};
use tabled_options::TableOption;

/// Puts a row with one text in after the last row, as `HorizontalPanel` does (r x c to r+1 x c).
///
/// It changes nothing where the table has no columns, and where merged cells reach below the last row.
/// That takes no memory. Refused for memory, it leaves the table as it was.
///
/// Ported from `tabled::settings::panel::Footer`.
#[derive(Drop)]
pub struct Footer {
    text: String,
}

impl Model for Footer {
    ghost use Rattle.std.specs.Prelude.{ℕ, List};
    ghost use Rattle.std.specs.String.{string_bytes};

    ghost Value = { List ℕ };

    ghost view = { λ a. string_bytes a.text };
}

impl Footer {
    /// A last row with a text.
    ///
    /// Ported from `tabled::settings::panel::Footer::new`.
    pub fn new(text: String) -> Self
        ensures { result ≡ string_bytes text }
    {
        Footer { text }
    }
}

impl<R, D> TableOption<R, SpannedConfig, D> for Footer
where
    R: Records + ExactRecords + Resizable + RecordsMut<String>,
    R::Cell: CellText,
{
    ghost does = { λ s g. Panels R.Cell.is_blank R.Cell.text_of Rows g.rows s g };

    ghost never_refused = { λ _ g c. has_room Rows g.rows g c ≡ false };

    fn change(
        self,
        alloc: Global,
        records: &mut R,
        cfg: &mut SpannedConfig,
        dimension: &mut D,
    ) -> Result<(), AllocError> {
        let rows = records.count_rows();
        HorizontalPanel::new(rows, self.text).change(alloc, records, cfg, dimension)
    }

    fn hint_change(&self) -> Option<Entity> {
        Some(Entity::Global)
    }

    ghost acts_like = { Prim.search rules };
}
