//! A call, the table that it is done to, and what comes of it.

use crate::call::Call;
use std::alloc::Global;
use tabled_grid::config::SpannedConfig;
use tabled_grid::records::{
    CellText, ExactRecords, PeekableRecords, Records, RecordsMut, Refusing, Resizable,
};
use tabled_language::parse;
use tabled_steps::{Step, run};
use tabled_testing::{Flat, flat, nested, spelled_merged};

/// More writes than a part does.
const MANY_WRITES: usize = 20;

/// A call, and the table that it is done to: its words, and the steps that come before. The parts are steps that do,
/// one after another, what the call does.
#[derive(Drop)]
pub(crate) struct Case<'a> {
    call: Call,
    is_flat: bool,
    table: &'a str,
    before: &'a str,
    parts: &'a str,
}

/// What comes of a call: it is done, it is refused and leaves what it may, or it leaves something else.
pub(crate) enum Outcome {
    Done,
    Refused,
    Wrong,
}

impl<'a> Case<'a> {
    /// The case that four lines describe.
    pub(crate) fn of_lines(lines: &'a str) -> Option<Case<'a>> {
        let mut lines = lines.split('\n');
        let (call, store) = lines.next()?.split_once('\t')?;
        let call = Call::of_name(call)?;
        Some(Case {
            call,
            is_flat: store == "flat",
            table: lines.next()?,
            before: lines.next()?,
            parts: lines.next()?,
        })
    }

    /// Does the call, and looks at what it leaves. Memory that is refused before the call or after it is no outcome.
    pub(crate) fn outcome(&self, alloc: Global) -> Option<Outcome> {
        if self.is_flat {
            self.outcome_on(alloc, flat(alloc, self.table).ok()?)
        } else {
            self.outcome_on(alloc, nested(alloc, self.table).ok()?)
        }
    }

    /// The same to the table in a store.
    fn outcome_on<R>(&self, alloc: Global, mut records: R) -> Option<Outcome>
    where
        R: Records + ExactRecords + PeekableRecords + Resizable + Drop,
        R: RecordsMut<String> + RecordsMut<&'static str>,
        R::Cell: CellText,
        requires { R.is_well_formed records }
    {
        let mut cfg = SpannedConfig::new(alloc);
        run(alloc, &mut records, &mut cfg, steps(alloc, self.before)?).ok()?;
        let parts = self.call.joined(alloc, steps(alloc, self.parts)?)?;
        let answer = self.call.does(alloc, &mut records, &mut cfg, parts);
        let left = spelled_merged(alloc, &records, &cfg).ok()?;
        self.judged(alloc, answer, left.as_str())
    }

    /// What came of the call, by its answer and by what it left.
    fn judged(
        &self,
        alloc: Global,
        answer: Result<(), Option<usize>>,
        left: &str,
    ) -> Option<Outcome> {
        let parts = steps(alloc, self.parts)?;
        let is_right = match answer {
            Ok(()) => self.after(alloc, parts.len())?.as_str() == left,
            Err(index) => self.may_leave(alloc, parts, index, left)?,
        };
        if !is_right {
            return Some(Outcome::Wrong);
        }
        Some(if answer.is_ok() {
            Outcome::Done
        } else {
            Outcome::Refused
        })
    }

    /// Whether a table may be left where one of the parts is refused, and the call names the part that it should.
    fn may_leave(
        &self,
        alloc: Global,
        parts: Vec<Step>,
        index: Option<usize>,
        left: &str,
    ) -> Option<bool> {
        for (count, part) in parts.iter().enumerate() {
            if index != self.call.index_of(count) {
                continue;
            }
            if self.after(alloc, count)?.as_str() == left {
                return Some(true);
            }
            if is_writer(part) && self.is_midway(alloc, count, left)? {
                return Some(true);
            }
        }
        Some(false)
    }

    /// The table after the first parts, in a store, and its merged cells.
    fn state(&self, alloc: Global, count: usize) -> Option<(Flat, SpannedConfig)> {
        let mut records = flat(alloc, self.table).ok()?;
        let mut cfg = SpannedConfig::new(alloc);
        run(alloc, &mut records, &mut cfg, steps(alloc, self.before)?).ok()?;
        let mut parts = steps(alloc, self.parts)?;
        parts.truncate(count);
        run(alloc, &mut records, &mut cfg, parts).ok()?;
        Some((records, cfg))
    }

    /// The same, spelled.
    fn after(&self, alloc: Global, count: usize) -> Option<String> {
        let (records, cfg) = self.state(alloc, count)?;
        spelled_merged(alloc, &records, &cfg).ok()
    }

    /// Whether a table is left where the part behind the first ones is refused one of its writes.
    fn is_midway(&self, alloc: Global, count: usize, left: &str) -> Option<bool> {
        for set in 1..MANY_WRITES {
            let (records, mut cfg) = self.state(alloc, count)?;
            let mut records = Refusing::new(records, 0, set);
            let mut parts = steps(alloc, self.parts)?;
            parts.truncate(count.saturating_add(1));
            let part = vec![in alloc; parts.pop()?].ok()?;
            if run(alloc, &mut records, &mut cfg, part).is_ok() {
                return Some(false);
            }
            if spelled_merged(alloc, &records, &cfg).ok()?.as_str() == left {
                return Some(true);
            }
        }
        Some(false)
    }
}

/// The steps of lines of words, with blanks in place of tabs, and a semicolon and a blank between two lines.
fn steps(alloc: Global, words: &str) -> Option<Vec<Step>> {
    let lines = words.replace(alloc, "; ", "\n").ok()?;
    let lines = lines.as_str().replace(alloc, ' ', "\t").ok()?;
    Some(parse(alloc, lines.as_bytes()).ok()?.steps)
}

/// Whether a step that is refused leaves the first of its writes. Others leave the table as it was.
fn is_writer(step: &Step) -> bool {
    match step {
        Step::Set(_, _)
        | Step::Dup(_, _)
        | Step::Charset(_, _)
        | Step::Wrap(_, _)
        | Step::Truncate(_, _)
        | Step::Replace(_, _, _) => true,
        Step::ColumnSpan(size, _) | Step::RowSpan(size, _) => *size <= 0,
        _ => false,
    }
}
