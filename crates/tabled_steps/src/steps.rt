//! Lists of steps.

ghost use Rattle.std.specs.Prelude.{◌<◌, IfErr, OnOk, length};
ghost use Rattle.std.specs.List.{AllByRecursion};
ghost use Rattle.tabled_carry.specs.PutIn.{FitsGrid};
ghost use Rattle.tabled_options.specs.Does.{Each};
ghost use Rattle.tabled_steps.specs.Fitting.{KeepsCellsFitting};
ghost use Rattle.tabled_steps.specs.States.{Becomes, SplitsAreUndone, SplitsAreUndoneBefore, after_all};
ghost use Rattle.tabled_steps.specs.Steps.{Does, RefusedAt};

use crate::step::Step;
use std::alloc::{AllocError, Global};
use tabled_grid::config::SpannedConfig;
use tabled_grid::records::{
    CellText, ExactRecords, PeekableRecords, Records, RecordsMut, Resizable,
};
use tabled_options::TableOption;

/// Does steps to a store and its merged cells, one after another.
///
/// - Ok: the texts and the merged cells are those after all steps (`after_all`), of which each is the
///   formula of its step on texts and merged cells (`after`). Two stores of whatever kind that have equal
///   texts and merged cells before have them after, too.
/// - `Err((k, _))`: memory was refused at step `k`. The steps before it are done, and it leaves what it
///   leaves. No step is refused that takes no memory.
/// - Where no step is a span of size 0 or below, merged cells that lay inside the table and apart do so after
///   it, done or refused: cells that move carry theirs along.
/// - Where a step, or a part of one, is done and is a split that keeps all pieces, and these have a cell, the
///   table before it, if it has a row and a column, is its pieces, glued together; so also before a refused
///   step or part, and the formulas lead from there to the table that this found.
///
/// Of this project.
pub fn run<R>(
    alloc: Global,
    records: &mut R,
    cfg: &mut SpannedConfig,
    steps: Vec<Step>,
) -> Result<(), (usize, AllocError)>
where
    R: Records + ExactRecords + PeekableRecords + RecordsMut<String> + Resizable,
    R::Cell: CellText,
    requires well { R.is_well_formed records.old }
    ensures well { R.is_well_formed records.new }
    ensures state { OnOk result (Becomes R.Cell.text_of (after_all steps.items) (R.grid records.old) cfg.old (R.grid records.new) cfg.new) }
    ensures ok { OnOk result (Each (Does R.Cell.is_blank R.Cell.text_of) steps.items (R.grid records.old) cfg.old (R.grid records.new) cfg.new) }
    ensures index { IfErr result (λ e. e.0 < length steps.items) }
    ensures err { IfErr result (λ e. RefusedAt R.Cell.is_blank R.Cell.text_of steps.items e.0 (R.grid records.old) cfg.old (R.grid records.new) cfg.new) }
    ensures fitting { AllByRecursion KeepsCellsFitting steps.items → FitsGrid cfg.old (R.grid records.old) → FitsGrid cfg.new (R.grid records.new) }
    ensures glued { OnOk result (SplitsAreUndone R.Cell.text_of steps.items (R.grid records.old) cfg.old (R.grid records.new) cfg.new) }
    ensures glued_before { IfErr result (λ e. SplitsAreUndoneBefore R.Cell.is_blank R.Cell.text_of steps.items e.0 (R.grid records.old) cfg.old (R.grid records.new) cfg.new) }
{
    let mut index = 0;
    for step in steps {
        if let Err(error) = step.change(alloc, records, cfg, &mut ()) {
            return Err((index, error));
        }
        index += 1;
    }
    Ok(())
}
