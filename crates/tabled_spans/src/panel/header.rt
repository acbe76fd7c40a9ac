//! A first row of one text.

ghost use Rattle.std.specs.Prelude.{◌≡◌, false};
ghost use Rattle.std.specs.String.{string_bytes};
ghost use Rattle.tabled_grid.specs.declared.records.axis.Axis.TheVariants.{Rows};
ghost use Rattle.tabled_spans.specs.Panels.{Panels, has_room};
ghost use Rattle.std.proofs.Common.{rules};

use crate::panel::HorizontalPanel;
use std::alloc::{AllocError, Global};
use std::marker::Model;
use tabled_grid::config::{Entity, SpannedConfig};
use tabled_grid::records::{CellText, ExactRecords, Records, RecordsMut, Resizable};
use tabled_options::TableOption;

/// Puts a row with one text in before the first row, as `HorizontalPanel` does (r x c to r+1 x c).
///
/// It changes nothing where the table has no columns. That takes no memory. Refused for memory, it leaves
/// the table as it was.
///
/// Ported from `tabled::settings::panel::Header`.
#[derive(Drop)]
pub struct Header {
    text: String,
}

impl Model for Header {
    ghost use Rattle.std.specs.Prelude.{ℕ, List};
    ghost use Rattle.std.specs.String.{string_bytes};

    ghost Value = { List ℕ };

    ghost view = { λ a. string_bytes a.text };
}

impl Header {
    /// A first row with a text.
    ///
    /// Ported from `tabled::settings::panel::Header::new`.
    pub fn new(text: String) -> Self
        ensures { result ≡ string_bytes text }
    {
        Header { text }
    }
}

impl<R, D> TableOption<R, SpannedConfig, D> for Header
where
    R: Records + ExactRecords + Resizable + RecordsMut<String>,
    R::Cell: CellText,
{
    ghost does = { λ s g. Panels R.Cell.is_blank R.Cell.text_of Rows 0 s g };

    ghost never_refused = { λ _ g c. has_room Rows 0 g c ≡ false };

    fn change(
        self,
        alloc: Global,
        records: &mut R,
        cfg: &mut SpannedConfig,
        dimension: &mut D,
    ) -> Result<(), AllocError> {
        HorizontalPanel::new(0, self.text).change(alloc, records, cfg, dimension)
    }

    fn hint_change(&self) -> Option<Entity> {
        Some(Entity::Global)
    }

    ghost acts_like = { Prim.search rules };
}
