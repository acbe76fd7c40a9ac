//! What options make of tables that are spelled, with their merged cells.

use std::alloc::{AllocError, Global};
use tabled_grid::config::SpannedConfig;
use tabled_grid::records::{CellText, ExactRecords, PeekableRecords, Records, Refusing};
use tabled_options::TableOption;
use tabled_testing::{Flat, Nested, flat, is_word, merged, nested, spelled_merged};

/// What an option makes of a table with merged cells, with `!` after it where it was refused.
pub(crate) fn made<R, O>(
    alloc: Global,
    mut records: R,
    mut cfg: SpannedConfig,
    option: O,
) -> Result<String, AllocError>
where
    R: Records + ExactRecords + PeekableRecords + Drop,
    R::Cell: CellText,
    O: TableOption<R, SpannedConfig, ()>,
    requires well { R.is_well_formed records }
    requires can { O.can_change option }
{
    let done = option.change(alloc, &mut records, &mut cfg, &mut ());
    let mut words = spelled_merged(alloc, &records, &cfg)?;
    if done.is_err() {
        words.push('!')?;
    }
    Ok(words)
}

fn made_flat<O>(alloc: Global, old: &str, option: O) -> Result<String, AllocError>
where
    O: TableOption<Flat, SpannedConfig, ()> + Drop,
    requires { O.can_change option }
{
    made(alloc, flat(alloc, old)?, merged(alloc, old)?, option)
}

/// Whether an option makes one table of another in one vector of cells.
pub(crate) fn makes_flat<O>(alloc: Global, old: &str, option: O, new: &str) -> bool
where
    O: TableOption<Flat, SpannedConfig, ()> + Drop,
    requires { O.can_change option }
{
    is_word(made_flat(alloc, old, option), new)
}

/// Whether it makes that, or is refused and leaves the table as it was.
pub(crate) fn makes_or_keeps<O>(alloc: Global, old: &str, option: O, new: &str) -> bool
where
    O: TableOption<Flat, SpannedConfig, ()> + Drop,
    requires { O.can_change option }
{
    match made_flat(alloc, old, option) {
        Ok(words) => match words.as_str().strip_suffix("!") {
            Some(left) => left == old,
            None => words.as_str() == new,
        },
        // Where the table itself is refused, there is nothing to compare.
        Err(_) => true,
    }
}

fn made_nested<O>(alloc: Global, old: &str, option: O) -> Result<String, AllocError>
where
    O: TableOption<Nested, SpannedConfig, ()> + Drop,
    requires { O.can_change option }
{
    made(alloc, nested(alloc, old)?, merged(alloc, old)?, option)
}

/// Whether it makes that in a vector for each row.
pub(crate) fn makes_nested<O>(alloc: Global, old: &str, option: O, new: &str) -> bool
where
    O: TableOption<Nested, SpannedConfig, ()> + Drop,
    requires { O.can_change option }
{
    is_word(made_nested(alloc, old, option), new)
}

fn made_refusing<O>(
    alloc: Global,
    calls: (usize, usize),
    old: &str,
    option: O,
) -> Result<String, AllocError>
where
    O: TableOption<Refusing<Flat>, SpannedConfig, ()> + Drop,
    requires { O.can_change option }
{
    let records = Refusing::new(flat(alloc, old)?, calls.0, calls.1);
    made(alloc, records, merged(alloc, old)?, option)
}

/// Whether it leaves that in a store that refuses one growth and one write, each counted from 1, or none at 0. A
/// refusal is told by `!`.
pub(crate) fn makes_refusing<O>(
    alloc: Global,
    calls: (usize, usize),
    old: &str,
    option: O,
    new: &str,
) -> bool
where
    O: TableOption<Refusing<Flat>, SpannedConfig, ()> + Drop,
    requires { O.can_change option }
{
    is_word(made_refusing(alloc, calls, old, option), new)
}

/// Adds an exclamation mark.
pub(crate) fn exclaimed(alloc: Global, text: &str) -> Result<String, AllocError> {
    format!(in alloc; "{text}!")
}
