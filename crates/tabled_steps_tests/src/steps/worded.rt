//! Steps as words.
//!
//! Steps are written as the lines of a script, with blanks in place of tabs, a semicolon between two, and a `+`
//! between two that are one step.

use std::alloc::Global;
use tabled_language::parse;
use tabled_steps::Step;

/// A step of the words of its line.
fn line(alloc: Global, words: &str) -> Option<Step> {
    let line = words.replace(alloc, ' ', "\t").ok()?;
    parse(alloc, line.as_bytes()).ok()?.steps.pop()
}

/// A step of one line, or one of the steps of two.
fn step(alloc: Global, words: &str) -> Option<Step> {
    let Some((first, second)) = words.split_once(" + ") else {
        return line(alloc, words);
    };
    let first = Box::new(alloc, line(alloc, first)?).ok()?;
    let second = Box::new(alloc, line(alloc, second)?).ok()?;
    Some(Step::Both(first, second))
}

/// The steps of some lines.
pub(crate) fn steps(alloc: Global, words: &str) -> Option<Vec<Step>> {
    let mut steps = Vec::new(alloc);
    for line in words.split("; ") {
        if !line.is_empty() {
            steps.push(step(alloc, line)?).ok()?;
        }
    }
    Some(steps)
}
