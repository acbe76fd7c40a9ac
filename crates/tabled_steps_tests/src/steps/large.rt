//! A large table through each kind of step, and scripts of many lines.

use super::worded::steps;
use std::alloc::{AllocError, Global};
use std::test::Fail;
use tabled_grid::config::SpannedConfig;
use tabled_grid::records::{ExactRecords, Records, Resizable};
use tabled_language::{Fault, ParseError, parse};
use tabled_steps::run;
use tabled_testing::flat;

/// Each kind of step, of which only the last ones take many rows or columns away.
///
/// What spans and merges merge is taken apart again, so that the steps after them carry little.
const STEPS: &str = "set all x; dup last-column first-column; clean all; tabs 2 all; wrap 9 all; \
    truncate 9 all; replace x y all; replace y x all; \
    hpanel 1 P; vpanel 0 P; vpanelw 3 1 xy; header N; footer N; \
    cspan -1 row 7; rspan -1 row 8; cspan 2 all; cspan 1 all; rspan 2 all; rspan 1 all; \
    hmerge; cspan 1 all; vmerge; rspan 1 all; merge vertical column 0; rspan 1 column 0; \
    reverse rows 0 end 0; reverse columns 1 start 2; \
    rotate top; rotate bottom; rotate left; rotate right; \
    split column 2 zip clean; split row 2 concat retain; \
    concat vertical - 1 2 x y; concat horizontal - 1 1 z; remove named z; \
    sort rows 1 0 text down; sort rows 0 1 number; keep rows 0 -1 2: 1; keep columns -1 x :; \
    remove rows 0 1; remove columns 1 9; set row 3 y + clean row 3; extract 0 10000 0 9";

/// The number of the step that is refused on a table of n rows, or the shape that all steps make.
fn ends(alloc: Global, rows: usize) -> Option<Result<(usize, usize), usize>> {
    let mut records = flat(alloc, "").ok()?;
    records.push_rows(alloc, rows).ok()?;
    records.push_columns(alloc, 2).ok()?;
    let mut cfg = SpannedConfig::new(alloc);
    match run(alloc, &mut records, &mut cfg, steps(alloc, STEPS)?) {
        Ok(()) => Some(Ok((records.count_rows(), records.count_columns()))),
        Err((number, _)) => Some(Err(number)),
    }
}

#[test]
fn each_step_is_done_to_a_large_table(rt: HostRuntime) {
    assert_eq!(rt; ends(rt.alloc(), 100_000), Some(Ok((2, 9))));
}

/// n lines of a word, and then another line.
fn lines(alloc: Global, line: &str, many: usize, last: &str) -> Result<String, AllocError> {
    let mut script = String::new(alloc);
    for _ in 0..many {
        script.push_str(line)?;
    }
    script.push_str(last)?;
    Ok(script)
}

/// The rows and the steps of a script.
fn read(alloc: Global, script: &str) -> Result<(usize, usize), ParseError> {
    let script = parse(alloc, script.as_bytes())?;
    Ok((script.records.len(), script.steps.len()))
}

#[test]
fn many_lines_are_read(rt: HostRuntime) -> Result<(), Fail> {
    let alloc = rt.alloc();
    for &(line, last, want) in &[
        ("row\ta\n", "vmerge\n", Ok((100_000, 1))),
        ("set\tall\tx\n", "", Ok((0, 100_000))),
        ("\n", "row\n", Ok((1, 0))),
        (
            "vmerge\n",
            "row\ta\n",
            Err(ParseError::Faulty {
                line: 100_001,
                fault: Fault::OutOfPlace,
            }),
        ),
    ] {
        let script = lines(alloc, line, 100_000, last)?;
        assert!(rt; read(alloc, script.as_str()) == want, "{line:?}");
    }
    Ok(())
}
