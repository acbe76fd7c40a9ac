//! The walk of all writers that answer the text of a cell anew.

ghost use Rattle.std.specs.Prelude.{◌≡◌, [], ℕ, List, IfOk, IsOk, IsTrue, OnErr, OnOk};
ghost use Rattle.std.specs.String.{string_bytes};
ghost use Rattle.tabled_grid.specs.Entity.{inside};
ghost use Rattle.tabled_grid.specs.declared.config.position.Position.{Position};
ghost use Rattle.tabled_settings.specs.Rewrites.{FirstRewritten, Rewritten};

use std::alloc::{AllocError, Global};
use tabled_grid::config::{Entity, Position};
use tabled_grid::records::{CellText, ExactRecords, PeekableRecords, Records, RecordsMut};

/// What answers the text of a cell anew.
pub(crate) trait Answers: Drop {
    /// Asked for a place and its text, it may answer a text and become another.
    ghost asks: { Self → Position → List ℕ → List ℕ → Self → Type 0 };

    /// It may be asked.
    ghost can_answer: { Self → Type 0 };

    /// Says whether it surely answers the text that it is asked for, and stays as it is: then no cell has to be
    /// written.
    fn keeps(&self, _pos: Position, _text: &str) -> bool
        ensures { IsTrue result → asks self.now _pos _text.now _text.now self.now }
    {
        false
    }

    fn answer(&mut self, alloc: Global, pos: Position, text: &str) -> Result<String, AllocError>
        requires can { can_answer self.old }
        ensures can { IfOk result (λ _. can_answer self.new) }
        ensures asks { IfOk result (λ new. asks self.old pos text.now (string_bytes new) self.new) };
}

/// Writes to each cell inside that an entity names what is answered to its old text, row by row, but where that
/// is the old text.
///
/// Refused for memory, it leaves the cells that it wrote.
pub(crate) fn rewrite<A, R>(
    alloc: Global,
    records: &mut R,
    entity: Entity,
    mut answers: A,
) -> Result<(), AllocError>
where
    A: Answers,
    R: Records + ExactRecords + PeekableRecords + RecordsMut<String>,
    R::Cell: CellText,
    requires well { R.is_well_formed records.old }
    requires can { A.can_answer answers }
    ensures well { R.is_well_formed records.new }
    ensures ok { OnOk result (Rewritten R.Cell.text_of A.asks answers entity (R.grid records.old) (R.grid records.new)) }
    ensures err { OnErr result (FirstRewritten R.Cell.text_of A.asks answers entity (R.grid records.old) (R.grid records.new)) }
    ensures promised { inside entity (R.grid records.old).rows (R.grid records.old).columns ≡ [] → IsOk result }
{
    for pos in entity.iter(records.count_rows(), records.count_columns()) {
        let old = records.get_text(pos);
        if !answers.keeps(pos, old) {
            let text = answers.answer(alloc, pos, old)?;
            records.set(alloc, pos, text)?;
        }
    }
    Ok(())
}
