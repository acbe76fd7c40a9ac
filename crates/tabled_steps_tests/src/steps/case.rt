//! A case on a line: a table, steps, and what they make of it.
//!
//! In `a b c / | rotate left | c / b / a /` each kind of store ends so. Before the end may stand what is left
//! where the first, the second and each other growth, or set of a text, is refused, with the number of the step
//! that was refused: `set x b / !1`. A `!1` alone leaves the table as it was. `in place` says that no call is
//! met that a store may refuse.

use super::worded;
use std::alloc::Global;
use tabled_grid::records::{
    CellText, ExactRecords, PeekableRecords, Records, RecordsMut, Refusing, Resizable,
};
use tabled_steps::run;
use tabled_testing::{flat, merged, nested, push_word, spelled_merged};

/// A table with its merged cells, and steps.
#[derive(Clone, Copy)]
struct Work<'a> {
    table: &'a str,
    steps: &'a str,
}

/// What the steps make of the table, with `meeting` after it where its merged cells don't lie inside it and
/// apart, and at last `!` with the number of the step that was refused.
fn made<R>(alloc: Global, records: &mut R, work: Work) -> Option<String>
where
    R: Records + ExactRecords + PeekableRecords + RecordsMut<String> + Resizable,
    R::Cell: CellText,
    requires { R.is_well_formed records.old }
{
    let mut cfg = merged(alloc, work.table).ok()?;
    let done = run(alloc, records, &mut cfg, worded::steps(alloc, work.steps)?);
    let mut words = spelled_merged(alloc, records, &cfg).ok()?;
    if !cfg.fits(records.count_rows(), records.count_columns()) {
        push_word(&mut words, "meeting").ok()?;
    }
    if let Err((number, _)) = done {
        push_word(&mut words, format!(in alloc; "!{number}").ok()?.as_str()).ok()?;
    }
    Some(words)
}

/// Whether the steps end so in each kind of store.
fn makes(alloc: Global, work: Work, end: &str) -> Option<bool> {
    let in_one = made(alloc, &mut flat(alloc, work.table).ok()?, work)?;
    let in_rows = made(alloc, &mut nested(alloc, work.table).ok()?, work)?;
    Some(in_one.as_str() == end && in_rows.as_str() == end)
}

/// Whether a refused growth or set was met, each counted from 1, or none at 0, and what is left.
fn left(alloc: Global, work: Work, growth: usize, set: usize) -> Option<(bool, String)> {
    let mut records = Refusing::new(flat(alloc, work.table).ok()?, growth, set);
    let words = made(alloc, &mut records, work)?;
    Some((records.growth == 0 && records.set == 0, words))
}

/// Whether it was met, and this is left: words, or the table as it was and the words after it.
fn leaves(alloc: Global, work: Work, growth: usize, set: usize, want: &str) -> Option<bool> {
    let (is_met, words) = left(alloc, work, growth, set)?;
    let mut wanted = String::new(alloc);
    if want.starts_with('!') {
        wanted.push_str(work.table).ok()?;
    }
    push_word(&mut wanted, want).ok()?;
    Some(is_met && words == wanted)
}

/// Whether steps leave this where each call is refused in turn, and end so where a further one would be.
fn leaves_in_turn(alloc: Global, work: Work, calls: &str, end: &str) -> Option<bool> {
    let mut growths: usize = 1;
    let mut sets: usize = 1;
    for call in calls.split(" | ") {
        let is_left = match call.split_once(' ')? {
            ("growth", want) => {
                let is_left = leaves(alloc, work, growths, 0, want)?;
                growths = growths.saturating_add(1);
                is_left
            }
            ("set", want) => {
                let is_left = leaves(alloc, work, 0, sets, want)?;
                sets = sets.saturating_add(1);
                is_left
            }
            _ => call == "in place",
        };
        if !is_left {
            return Some(false);
        }
    }
    let (met_growth, without_growth) = left(alloc, work, growths, 0)?;
    let (met_set, without_set) = left(alloc, work, 0, sets)?;
    Some(!met_growth && !met_set && without_growth.as_str() == end && without_set.as_str() == end)
}

/// Whether a case ends as it says.
pub(crate) fn ends(alloc: Global, case: &str) -> Option<bool> {
    let (table, rest) = case.split_once(" | ")?;
    let (steps, rest) = rest.split_once(" | ")?;
    let work = Work { table, steps };
    match rest.rsplit_once(" | ") {
        Some((calls, end)) => {
            Some(makes(alloc, work, end)? && leaves_in_turn(alloc, work, calls, end)?)
        }
        None => makes(alloc, work, rest),
    }
}
