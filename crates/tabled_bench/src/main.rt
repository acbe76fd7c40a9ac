//! Does the calls of one case once, and tells how long they took.
//!
//! Standard input is a line: the name of the case, a tab and its size. The answer is a line: the nanoseconds, a
//! tab and what is counted of what came out.
#![tactic(auto)]

mod builders;
mod case;
mod merging;
mod selectors;
mod spans;
mod stores;
mod tables;
mod watch;

use case::Case;
use std::process::ExitCode;
use watch::Watch;

/// The line names no case, or reading, writing or the clock failed.
const FAILED: u8 = 1;

/// Memory was refused.
const OUT_OF_MEMORY: u8 = 3;

fn main(rt: HostRuntime) -> ExitCode {
    let alloc = rt.alloc();
    let mut line = String::new(alloc);
    if rt.read_line(&mut line).is_err() {
        return ExitCode::from(FAILED);
    }
    if line.is_empty() {
        // Nothing is asked for.
        return ExitCode::SUCCESS;
    }
    let Some((case, size)) = case_of(line.as_str()) else {
        return ExitCode::from(FAILED);
    };
    let mut watch = Watch::new(&rt);
    let Ok(outcome) = case.run(alloc, size, &mut watch) else {
        return ExitCode::from(OUT_OF_MEMORY);
    };
    let Some(nanoseconds) = watch.nanoseconds() else {
        return ExitCode::from(FAILED);
    };
    // The outcome is written so that no compiler leaves out what it is counted from.
    match println!(rt; "{nanoseconds}\t{outcome}") {
        Ok(()) => ExitCode::SUCCESS,
        Err(_) => ExitCode::from(FAILED),
    }
}

/// The case and the size that a line names.
fn case_of(line: &str) -> Option<(Case, usize)> {
    let (name, size) = line.trim_end().split_once('\t')?;
    Some((Case::of_name(name)?, size.parse::<usize>().ok()?))
}
