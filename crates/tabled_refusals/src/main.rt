//! Does one call to a table, and says whether it leaves what it may where memory is refused.
//!
//! Standard input has four lines: the name of the call and that of the store, with a tab between them; the table as
//! words; steps that are done to it first; and steps that do, one after another, what the call does. The answer is
//! a line: `done`, `refused`, or `wrong` where the call left something else than it may.
#![tactic(auto)]

mod call;
mod case;

use case::{Case, Outcome};
use std::process::ExitCode;

/// The input is no case, or reading or writing failed.
const FAILED: u8 = 1;

/// Memory was refused before the call or after it.
const OUT_OF_MEMORY: u8 = 3;

fn main(rt: HostRuntime) -> ExitCode {
    let alloc = rt.alloc();
    let mut lines = String::new(alloc);
    for line in rt.lines(alloc) {
        let Ok(line) = line else {
            return ExitCode::from(OUT_OF_MEMORY);
        };
        if lines.push_str(line.as_str()).is_err() || lines.push('\n').is_err() {
            return ExitCode::from(OUT_OF_MEMORY);
        }
    }
    if lines.is_empty() {
        // Nothing is asked for.
        return ExitCode::SUCCESS;
    }
    let Some(case) = Case::of_lines(lines.as_str()) else {
        return ExitCode::from(FAILED);
    };
    let Some(outcome) = case.outcome(alloc) else {
        return ExitCode::from(OUT_OF_MEMORY);
    };
    let word = match outcome {
        Outcome::Done => "done",
        Outcome::Refused => "refused",
        Outcome::Wrong => "wrong",
    };
    match rt.println(word) {
        Ok(()) => ExitCode::SUCCESS,
        Err(_) => ExitCode::from(FAILED),
    }
}
