//! Texts as options on cells.

ghost use Rattle.std.specs.Prelude.{◌≡◌, [], OnOk, OnErr, IsOk};
ghost use Rattle.std.specs.String.{string_bytes};
ghost use Rattle.tabled_grid.specs.Entity.{inside};
ghost use Rattle.tabled_options.specs.Writes.{DoesFirstWrites, DoesWrites, FirstWritten, Written, text_writes};
ghost use Rattle.std.proofs.Common.{rules};

use crate::cell_option::CellOption;
use std::alloc::{AllocError, Global};
use tabled_grid::config::Entity;
use tabled_grid::records::{CellText, ExactRecords, Records, RecordsMut};

/// Writes the text to each cell of the table that the entity names, row by row. Refused for memory,
/// it leaves the cells that it wrote.
impl<R, C> CellOption<R, C> for String
where
    R: Records + ExactRecords + RecordsMut<String>,
    R::Cell: CellText,
{
    ghost does = { λ s e. DoesWrites R.Cell.text_of (text_writes (string_bytes s) e) };

    ghost leaves = { λ s e. DoesFirstWrites R.Cell.text_of (text_writes (string_bytes s) e) };

    ghost never_refused = { λ _ e g _. inside e g.rows g.columns ≡ [] };

    ghost is_like = { λ first second. string_bytes second ≡ string_bytes first };

    fn change(
        self,
        alloc: Global,
        records: &mut R,
        _cfg: &mut C,
        entity: Entity,
    ) -> Result<(), AllocError> {
        write(alloc, records, entity, self)
    }

    fn hint_change(&self) -> Option<Entity> {
        Some(Entity::Global)
    }

    ghost acts_like = { Prim.search rules };
}

/// A text that is written to each cell of the table that an entity names, row by row. Refused for
/// memory, it leaves the cells that it wrote.
///
/// It stands for `&str`, which is an option in `tabled`.
#[derive(Debug, Clone, Copy)]
pub struct TextRef<'a>(pub &'a str);

impl<'a, R, C> CellOption<R, C> for TextRef<'a>
where
    R: Records + ExactRecords + RecordsMut<&'a str>,
    R::Cell: CellText,
{
    ghost does = { λ s e. DoesWrites R.Cell.text_of (text_writes s.0.now e) };

    ghost leaves = { λ s e. DoesFirstWrites R.Cell.text_of (text_writes s.0.now e) };

    ghost never_refused = { λ _ e g _. inside e g.rows g.columns ≡ [] };

    fn change(
        self,
        alloc: Global,
        records: &mut R,
        _cfg: &mut C,
        entity: Entity,
    ) -> Result<(), AllocError> {
        write(alloc, records, entity, self.0)
    }

    fn hint_change(&self) -> Option<Entity> {
        Some(Entity::Global)
    }

    ghost acts_like = { Prim.search rules };
}

/// Writes a text to each cell inside that an entity names, a copy to each but the last.
fn write<R, T>(alloc: Global, records: &mut R, entity: Entity, text: T) -> Result<(), AllocError>
where
    R: Records + ExactRecords + RecordsMut<T>,
    R::Cell: CellText,
    T: CellText + Clone,
    requires well { R.is_well_formed records.old }
    requires alike { (copy : T) → T.is_clone text copy → T.text_of copy ≡ T.text_of text }
    ensures well { R.is_well_formed records.new }
    ensures ok { OnOk result (Written R.Cell.text_of (text_writes (T.text_of text) entity) (R.grid records.old) (R.grid records.new)) }
    ensures err { OnErr result (FirstWritten R.Cell.text_of (text_writes (T.text_of text) entity) (R.grid records.old) (R.grid records.new)) }
    ensures promised { inside entity ((R.grid records.old).rows) ((R.grid records.old).columns) ≡ [] → IsOk result }
{
    let mut places = entity.iter(records.count_rows(), records.count_columns());
    let Some(mut pos) = places.next() else {
        return Ok(());
    };
    while let Some(next) = places.next() {
        records.set(alloc, pos, text.clone()?)?;
        pos = next;
    }
    records.set(alloc, pos, text)
}
