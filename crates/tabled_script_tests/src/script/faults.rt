//! What the program reads, and each fault of each of its words.

use super::answers::{answer, gives};
use std::alloc::{AllocError, Global};
use std::test::Fail;

/// Says whether a script is answered by a fault of a number in a line of a number, or by its table for line 0.
fn is_faulty(alloc: Global, script: &str, line: usize, fault: u8) -> Result<bool, AllocError> {
    if line == 0 {
        let (status, _) = answer(alloc, script.as_bytes());
        return Ok(status == 0);
    }
    let output = format!(in alloc; "line {line}: fault {fault}\n")?;
    Ok(gives(alloc, script.as_bytes(), output.as_bytes()))
}

/// Scripts that are read.
const READ: &[&str] = &[
    "row\ta\tb\nset\tand\trow\t0\tcell\t1\t1\tx\n",
    "dup\tskip\t1\tall\tcontent\ta\n\nclean\tframe\ntabs\t4\tname\tb",
    "cspan\t-2\tlast-row\nrspan\t3\tsegment\t0\t1\t2\t3\n",
    "hpanel\t0\ta\nvpanel\t1\tb\nvpanelw\t1\t2\tc\nheader\td\nfooter\te\n",
    "vmerge\nhmerge\nrotate\tleft\nreverse\trows\t1\tend\t2\n",
    "split\tcolumn\t2\tzip\tretain\nextract\t0\t1\t2\t3\n",
    "remove\trows\t0\t1\nremove\tnamed\ta\n",
    "keep\trows\t0\t-20:\tn>1\nkeep\tcolumns\tn\t3:\t=3\n",
    "sort\trows\t1\tn\tnumber\nsort\trows\t0\t2\ttext\tdown\n",
    "concat\tvertical\t-\t1\t2\ta\tb\n",
    "shape\t1\t2\nrow\ta\tb\nspan\t0\t0\t1\t2\n",
];

#[test]
fn each_verb_is_read(rt: HostRuntime) -> Result<(), Fail> {
    for &script in READ {
        assert!(rt; is_faulty(rt.alloc(), script, 0, 0)?, "{script:?}");
    }
    Ok(())
}

/// A line of each verb of a step.
const STEPS: &[&str] = &[
    "set\tall\tx",
    "dup\tall\trow\t0",
    "clean\tall",
    "tabs\t4\tall",
    "wrap\t4\tall",
    "truncate\t4\tall",
    "replace\ta\tb\tall",
    "cspan\t2\tall",
    "rspan\t-2\tall",
    "hpanel\t0\tx",
    "vpanel\t0\tx",
    "vpanelw\t0\t2\tx",
    "header\tx",
    "footer\tx",
    "vmerge",
    "hmerge",
    "merge\tvertical\tcolumn\t0",
    "rotate\tleft",
    "reverse\trows\t0\tstart\t1",
    "split\tcolumn\t2\tzip\tclean",
    "extract\t0\t1\t0\t1",
    "remove\trows\t0\t1",
    "remove\tcolumns\t0\t1",
    "remove\tnamed\tx",
    "concat\tvertical\t-\t1\t1\tx",
    "set\tcell\t0\t1\tx",
    "set\tsegment\t0\t1\t0\t1\tx",
    "set\tcontent\ta\tx",
    "set\tand\tall\tframe\tx",
    "set\tinverse\tlast-row\tx",
    "set\tskip\t1\tcolumns\t0\t1\tx",
];

/// Says whether a step, with something before it and after it, is answered by such a fault.
fn is_faulty_within(
    alloc: Global,
    before: &str,
    step: &str,
    behind: &str,
    line: usize,
    fault: u8,
) -> Result<bool, AllocError> {
    let script = format!(in alloc; "{before}{step}{behind}")?;
    is_faulty(alloc, script.as_str(), line, fault)
}

#[test]
fn each_line_may_be_too_long_or_have_a_bad_escape(rt: HostRuntime) -> Result<(), Fail> {
    for &(before, behind, line, fault) in &[
        ("", "", 0, 0),
        ("row\ta\n", "\tx", 2, 2),
        ("\n", "\\q", 2, 4),
        ("", "\n\nrow\ta\n", 3, 6),
    ] {
        for &step in STEPS {
            let faulty = is_faulty_within(rt.alloc(), before, step, behind, line, fault)?;
            assert!(rt; faulty, "{step:?}");
        }
    }
    Ok(())
}

/// Whether a step without its last word, if it has several, is too short.
fn may_be_too_short(alloc: Global, step: &str) -> Result<bool, AllocError> {
    match step.rsplit_once('\t') {
        Some((shorter, _)) => is_faulty(alloc, shorter, 1, 2),
        None => Ok(true),
    }
}

#[test]
fn each_line_may_be_too_short(rt: HostRuntime) -> Result<(), Fail> {
    for &step in STEPS {
        assert!(rt; may_be_too_short(rt.alloc(), step)?, "{step:?}");
    }
    Ok(())
}

/// A line whose selectors stand in each other n times.
fn nested(
    alloc: Global,
    step: &str,
    selector: &str,
    many: usize,
    behind: &str,
) -> Result<String, AllocError> {
    let mut line = String::from_str(alloc, step)?;
    for _ in 0..many {
        line.push_str(selector)?;
    }
    line.push_str("all")?;
    line.push_str(behind)?;
    Ok(line)
}

/// Whether a selector may stand in itself 63 times, and not 64 times.
fn may_be_too_deep(
    alloc: Global,
    step: &str,
    selector: &str,
    behind: &str,
) -> Result<bool, AllocError> {
    let deepest = nested(alloc, step, selector, 63, behind)?;
    let deeper = nested(alloc, step, selector, 64, behind)?;
    Ok(is_faulty(alloc, deepest.as_str(), 0, 0)? && is_faulty(alloc, deeper.as_str(), 1, 5)?)
}

#[test]
fn each_selector_may_be_too_deep(rt: HostRuntime) -> Result<(), Fail> {
    for &(step, selector, behind) in &[
        ("set\t", "and\trow\t0\t", "\tx"),
        ("set\t", "not\trow\t0\t", "\tx"),
        ("dup\tall\t", "intersect\trow\t0\t", ""),
        ("dup\t", "inverse\t", "\trow\t0"),
        ("clean\t", "skip\t0\t", ""),
        ("tabs\t1\t", "step\t1\t", ""),
        ("cspan\t2\t", "and\tall\t", ""),
        ("rspan\t2\t", "not\tall\t", ""),
    ] {
        assert!(rt;
            may_be_too_deep(rt.alloc(), step, selector, behind)?,
            "{selector:?}"
        );
    }
    Ok(())
}

/// Faulty scripts behind the numbers of the line and of the fault.
const FAULTY: &[&str] = &[
    "2 7 row\ta\tb\nspan\t0\t1\t1\t2\n",
    "1 8 shape\t1\t1\n",
    "2 6 vmerge\nspan\tx\n",
    "2 3 row\ta\nconcat\tvertical\t-\t0\t2\n",
    "1 2 concat\tvertical\t-\t2\t2\ta\tb\n",
    "1 1 rotate\tup\n",
    "1 1 set\tnot\tall\tsome\tx\n",
    "1 3 cspan\t--1\tall\n",
    "1 4 header\ta\\q\n",
    "2 6 vmerge\nrow\ta\n",
    "12 4 \n\n\n\n\n\n\n\n\n\n\nrow\t\\q\n",
    // A word that is unknown (1), missing (2) or no number (3).
    "1 3 shape\tx\t0",
    "1 3 shape\t0\tx",
    "1 2 shape\t0",
    "1 3 span\tx\t0\t1\t2",
    "1 3 span\t0\tx\t1\t2",
    "1 3 span\t0\t0\t0\t2",
    "1 3 span\t0\t0\t1\t1",
    "1 2 span\t0\t0\t2",
    "1 1 sett\tall\tx",
    "1 1 dup\tall\tsome",
    "1 3 dup\trow\tx\tall",
    "1 1 dup\tsome\tall",
    "1 3 clean\trow\t10001",
    "1 1 clean\tsome",
    "1 3 tabs\tx\tall",
    "1 1 tabs\t4\tsome",
    "1 3 wrap\tx\tall",
    "1 1 wrap\t4\tsome",
    "1 3 truncate\tx\tall",
    "1 1 truncate\t4\tsome",
    "1 2 replace\ta\tall",
    "1 1 replace\ta\tb\tsome",
    "1 3 cspan\t+2\tall",
    "1 3 cspan\t10001\tall",
    "1 3 cspan\t-10001\tall",
    "1 1 cspan\t2\tsome",
    "1 3 rspan\t-10001\tall",
    "1 3 rspan\t--2\tall",
    "1 1 rspan\t2\tsome",
    "1 3 hpanel\tx\tx",
    "1 3 vpanel\t-1\tx",
    "1 3 vpanelw\t0\tx\tx",
    "1 3 vpanelw\tx\t1\tx",
    "1 1 rotate\tup",
    "1 1 reverse\tcells\t0\tstart\t1",
    "1 3 reverse\trows\tx\tstart\t1",
    "1 1 reverse\trows\t0\tmiddle\t1",
    "1 3 reverse\trows\t0\tend\tx",
    "1 1 split\tcell\t2\tzip\tclean",
    "1 3 split\tcolumn\tx\tzip\tclean",
    "1 1 split\tcolumn\t2\tzap\tclean",
    "1 1 split\trow\t2\tconcat\tkeep",
    "1 3 extract\t0\t1\t0\tx",
    "1 3 extract\tx\t1\t0\t1",
    "1 3 remove\trows\tx\t1",
    "1 3 remove\tcolumns\t0\tx",
    "1 1 remove\tcells\t0\t1",
    "1 3 remove\trows\t0\tx",
    "1 3 remove\tcolumns\tx\t1",
    "1 2 keep",
    "1 2 keep\trows",
    "1 2 keep\tcolumns",
    "1 1 keep\tcells\t0",
    "1 3 keep\trows\tx",
    "1 3 keep\trows\t0\t1:2:3",
    "1 3 keep\trows\t0\t18446744073709551616\tx",
    "1 3 keep\trows\t18446744073709551616:",
    "1 3 keep\trows\t:--1",
    "1 3 keep\trows\t+1",
    "1 3 keep\trows\t",
    "1 3 keep\trows\tn>x",
    "1 3 keep\trows\tn<=",
    "1 3 keep\trows\tn!x",
    "1 3 keep\trows\tn!",
    "1 3 keep\trows\tn!<1",
    "1 3 keep\trows\tn>1e3",
    "1 2 sort",
    "1 1 sort\tcolumns\t0\t0\ttext",
    "1 3 sort\trows\t-1\t0\ttext",
    "1 3 sort\trows\t18446744073709551616\t0\ttext",
    "1 2 sort\trows\t0",
    "1 2 sort\trows\t0\t0",
    "1 1 sort\trows\t0\t0\tnumbers",
    "1 1 sort\trows\t0\t0\ttext\tup",
    "1 2 sort\trows\t0\t0\ttext\tdown\tx",
    "1 1 concat\tup\t-\t1\t1\tx",
    "1 3 concat\tvertical\t-\t0\t1\tx",
    "1 3 concat\thorizontal\t-\t1\t0\tx",
    "1 2 concat\tvertical\t-\t10000\t10000",
    "1 3 set\tcell\t0\tx\tx",
    "1 2 set\trow",
    "1 3 set\tcolumn\tx\tx",
    "1 2 set\tcolumn",
    "1 3 set\tlast-row-minus\tx\tx",
    "1 2 set\tlast-row-minus",
    "1 3 set\tlast-row-plus\tx\tx",
    "1 2 set\tlast-row-plus",
    "1 3 set\tlast-column-minus\tx\tx",
    "1 2 set\tlast-column-minus",
    "1 3 set\tlast-column-plus\tx\tx",
    "1 2 set\tlast-column-plus",
    "1 3 set\trows\t0\tx\tx",
    "1 3 set\trows\tx\t1\tx",
    "1 2 set\trows\t0",
    "1 3 set\tcolumns\tx\t1\tx",
    "1 3 set\tcolumns\t0\tx\tx",
    "1 2 set\tcolumns\t0",
    "1 3 set\tsegment\t0\t1\t0\tx\tx",
    "1 3 set\tsegment\tx\t1\t0\t1\tx",
    "1 2 set\tsegment\t0\t1\t0",
    "1 2 set\tcontent",
    "1 2 set\tname",
    "1 1 set\tand\tall\tsome\tx",
    "1 1 set\tand\tsome\tall\tx",
    "1 2 set\tand\tall",
    "1 1 set\tnot\tall\tsome\tx",
    "1 1 set\tnot\tsome\tall\tx",
    "1 2 set\tnot\tall",
    "1 1 set\tintersect\tsome\tall\tx",
    "1 1 set\tintersect\tall\tsome\tx",
    "1 2 set\tintersect\tall",
    "1 1 set\tinverse\tsome\tx",
    "1 2 set\tinverse",
    "1 1 set\tskip\t1\tsome\tx",
    "1 3 set\tskip\tx\tall\tx",
    "1 2 set\tskip\t1",
    "1 3 set\tstep\tx\tall\tx",
    "1 1 set\tstep\t1\tsome\tx",
    "1 2 set\tstep\t2",
];

/// Whether a script is answered by the fault that stands before it.
fn is_answered(alloc: Global, case: &str) -> Option<bool> {
    let (line, rest) = case.split_once(' ')?;
    let (fault, script) = rest.split_once(' ')?;
    let output = format!(in alloc; "line {line}: fault {fault}\n").ok()?;
    Some(gives(alloc, script.as_bytes(), output.as_bytes()))
}

#[test]
fn each_fault_is_named(rt: HostRuntime) {
    for &case in FAULTY {
        assert!(rt; is_answered(rt.alloc(), case) == Some(true), "{case:?}");
    }
}

#[test]
fn a_bad_byte_or_escape_or_number_is_a_fault_of_its_line(rt: HostRuntime) {
    let alloc = rt.alloc();
    assert!(rt; gives(alloc, b"row\ta\n\xff", b"line 2: fault 4\n"));
    assert!(rt; gives(alloc, b"\nrow\ta\\", b"line 2: fault 4\n"));
    assert!(rt; gives(alloc, b"cspan\t-10001\tall", b"line 1: fault 3\n"));
}
