//! Steps that are done one after another, and told where they name or change nothing.

ghost use Rattle.std.specs.Prelude.{◌≡◌, ◌∷◌, [], OnOk};
ghost use Rattle.tabled_grid.specs.Grid.{IsEven, grid_of, map_items};
ghost use Rattle.tabled_script.specs.InMemory.{state_in};
ghost use Rattle.tabled_steps.specs.States.{after_all};

use crate::names::unknown_names_text;
use crate::notes::Notes;
use crate::script_form::write_script;
use crate::telling::{Doubt, LineOrigins, doubt_line};
use std::alloc::{AllocError, Global};
use std::io::Write;
use tabled_grid::config::SpannedConfig;
use tabled_language::LentText;
use tabled_settings::width::Width;
use tabled_steps::{Step, run};

/// Does steps as `run` does, and tells those that are doubtful: all that name or change nothing or leave no text, where
/// steps are checked, and else those of the arguments that name nothing or leave no text. The steps are of lines of these
/// numbers.
pub(crate) fn run_checked<E: Write>(
    alloc: Global,
    records: &mut Vec<Vec<LentText>>,
    cfg: &mut SpannedConfig,
    steps: Vec<Step>,
    numbers: &[usize],
    checks_steps: bool,
    lines: LineOrigins,
    notes: &mut Notes<'_, E>,
) -> Result<(), AllocError>
    requires { IsEven (grid_of (map_items records.old.items)) }
    ensures well { IsEven (grid_of (map_items records.new.items)) }
    ensures state { OnOk result (state_in records.new.items cfg.new ≡ after_all steps.items (state_in records.old.items cfg.old)) }
{
    let script_end = lines.script_end();
    let mut numbers = numbers.iter();
    for step in steps {
        let number = numbers.next().copied().unwrap_or(0);
        let look = if checks_steps || script_end < number {
            let words = lines.step_words(number);
            Look::at(alloc, &step, words, records, cfg, checks_steps)?
        } else {
            Look::nowhere()
        };
        run_one(alloc, records, cfg, step)?;
        if let Some(doubt) = look.doubt(alloc, records, cfg)? {
            notes.tell(doubt_line(alloc, lines, number, doubt));
        }
    }
    Ok(())
}

/// Does a step.
fn run_one(
    alloc: Global,
    records: &mut Vec<Vec<LentText>>,
    cfg: &mut SpannedConfig,
    step: Step,
) -> Result<(), AllocError>
    requires { IsEven (grid_of (map_items records.old.items)) }
    ensures well { IsEven (grid_of (map_items records.new.items)) }
    ensures state { OnOk result (state_in records.new.items cfg.new ≡ after_all (step ∷ []) (state_in records.old.items cfg.old)) }
{
    match run(alloc, records, cfg, vec![in alloc; step]?) {
        Ok(()) => Ok(()),
        Err((_, error)) => Err(error),
    }
}

/// What was seen of a step and its table before it was done.
#[derive(Drop)]
struct Look {
    doubt: Option<Doubt>,
    /// The lines of the table, where it is asked for whether the step changes it.
    table: Option<Vec<u8>>,
}

impl Look {
    ghost use Rattle.tabled_grid.specs.Grid.{IsEven, grid_of, map_items};

    /// No look at a step.
    fn nowhere() -> Self {
        Look {
            doubt: None,
            table: None,
        }
    }

    /// Looks at a step of these words, and at its table where that is asked for and the step is not doubtful.
    fn at(
        alloc: Global,
        step: &Step,
        words: &[String],
        records: &Vec<Vec<LentText>>,
        cfg: &SpannedConfig,
        looks_at_table: bool,
    ) -> Result<Self, AllocError>
        requires { IsEven (grid_of (map_items records.now.items)) }
    {
        let doubt = doubt_of(alloc, step, words, records)?;
        let table = if looks_at_table && doubt.is_none() {
            Some(printed(alloc, records, cfg)?)
        } else {
            None
        };
        Ok(Look { doubt, table })
    }

    /// What is doubtful of the step, once it is done.
    fn doubt(
        self,
        alloc: Global,
        records: &Vec<Vec<LentText>>,
        cfg: &SpannedConfig,
    ) -> Result<Option<Doubt>, AllocError>
        requires { IsEven (grid_of (map_items records.now.items)) }
    {
        let Look { doubt, table } = self;
        let Some(table) = table else {
            return Ok(doubt);
        };
        if printed(alloc, records, cfg)? == table {
            return Ok(Some(Doubt::ChangesNothing));
        }
        Ok(None)
    }
}

/// What is doubtful of a step of these words before it is done.
fn doubt_of(
    alloc: Global,
    step: &Step,
    words: &[String],
    records: &Vec<Vec<LentText>>,
) -> Result<Option<Doubt>, AllocError>
    requires { IsEven (grid_of (map_items records.now.items)) }
{
    if let Some(text) = unknown_names_text(alloc, step, words, records)? {
        return Ok(Some(Doubt::NamesNoColumn(text)));
    }
    if step.names_nothing(alloc, records)? {
        return Ok(Some(Doubt::NamesNothing));
    }
    match step {
        Step::Wrap(wrap, _) if *wrap == Width::wrap(0).keep_words(true) => {
            Ok(Some(Doubt::LeavesNoText))
        }
        Step::Truncate(truncate, _) if truncate.width == 0 => Ok(Some(Doubt::LeavesNoText)),
        _ => Ok(None),
    }
}

/// The lines of a table, which are others where its texts or merged cells are.
fn printed(
    alloc: Global,
    records: &Vec<Vec<LentText>>,
    cfg: &SpannedConfig,
) -> Result<Vec<u8>, AllocError>
    requires { IsEven (grid_of (map_items records.now.items)) }
{
    let mut lines = Vec::new(alloc);
    match write_script(alloc, records, cfg, &mut lines) {
        Ok(()) => Ok(lines),
        Err(_) => Err(AllocError),
    }
}
