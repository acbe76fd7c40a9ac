//! Scripts run over readers and writers in memory.

use std::alloc::{AllocError, Global};
use std::test::Fail;
use tabled_script::{draw_script, run_script};

/// The status for a script, and what was written.
pub(crate) fn answer(alloc: Global, script: &[u8]) -> (u8, Vec<u8>) {
    let mut reader = script;
    let mut written = Vec::new(alloc);
    let status = run_script(alloc, &mut reader, &mut written);
    (status, written)
}

/// Says whether a script is answered by this output, with the status of a table or of a fault.
pub(crate) fn gives(alloc: Global, script: &[u8], output: &[u8]) -> bool {
    let (status, written) = answer(alloc, script);
    let want = if output.starts_with(b"line ") { 2 } else { 0 };
    status == want && written.as_slice() == output
}

/// Says whether a script that is cut anywhere is answered by a table or by a fault.
pub(crate) fn ends_well(alloc: Global, script: &[u8]) -> bool {
    for end in 0..script.len() {
        let (status, written) = answer(alloc, &script[..end]);
        let begin: &[u8] = if status == 0 { b"shape\t" } else { b"line " };
        if status != 0 && status != 2 || !written.as_slice().starts_with(begin) {
            return false;
        }
    }
    true
}

/// A text once, another n times, and a third once.
fn repeated(
    alloc: Global,
    start: &str,
    text: &str,
    times: usize,
    end: &str,
) -> Result<Vec<u8>, AllocError> {
    let mut bytes = Vec::from_slice(alloc, start.as_bytes())?;
    for _ in 0..times {
        bytes.extend_from_slice(text.as_bytes())?;
    }
    bytes.extend_from_slice(end.as_bytes())?;
    Ok(bytes)
}

/// Long scripts, each a text once, another n times and a third once, and what is written of it: a shape stands before the
/// rows, which are written as they were read.
const LONG: &[&str] = &[
    "row|\t|255|\n|shape\t1\t255\n",
    "row|\t|256|\n|shape\t1\t256\n",
    "row|\t|1000|\n|shape\t1\t1000\n",
    "row|\ta|70000|\n|shape\t1\t70000\n",
    "row\t|x|70000|\n|shape\t1\t1\n",
    "row\tx\t|ä|300|\n|shape\t1\t2\n",
    "row\tx\t|\\\\|300|\n|shape\t1\t2\n",
    "row\ta|\nrow\tb|70000|\n|shape\t70001\t1\n",
    "|\n|70000|spin|line 70001: fault 1\n",
    "row|\t|70000|\\|line 1: fault 4\n",
    "set\tall|\t|255||line 1: fault 2\n",
    "set\trow\t|9|255|\tx|line 1: fault 3\n",
    "s|e|70000|t|line 1: fault 1\n",
    "row\ta\nset|\tinverse|64|\tall\tx\n|line 2: fault 5\n",
];

/// Whether a long script is answered as it says.
fn answers_long(alloc: Global, case: &str) -> Option<bool> {
    let (start, rest) = case.split_once('|')?;
    let (text, rest) = rest.split_once('|')?;
    let (times, rest) = rest.split_once('|')?;
    let (end, output) = rest.split_once('|')?;
    let times = times.parse::<usize>().ok()?;
    let script = repeated(alloc, start, text, times, end).ok()?;
    let mut written = Vec::from_slice(alloc, output.as_bytes()).ok()?;
    if output.starts_with("shape") {
        written.extend_from_slice(&script).ok()?;
    }
    Some(gives(alloc, &script, &written))
}

#[test]
fn answers_long_scripts(rt: HostRuntime) -> Result<(), Fail> {
    for &case in LONG {
        assert!(rt; answers_long(rt.alloc(), case) == Some(true), "{case:?}");
    }
    let deepest = repeated(rt.alloc(), "row\ta\nset", "\tinverse", 63, "\tall\tx\n")?;
    assert!(rt; gives(rt.alloc(), &deepest, b"shape\t1\t1\nrow\ta\n"));
    Ok(())
}

#[test]
fn ends_well_where_a_script_is_cut(rt: HostRuntime) {
    let script = "row\ta\\t\tä\n\nrow\tb\r\nset\tcell\t0\t1\tx\\\\\nset\trow\t007\ty\n";
    assert!(rt; ends_well(rt.alloc(), script.as_bytes()));
}

/// Says whether a script is drawn so, with the status of a picture or of a fault.
fn draws(alloc: Global, script: &str, picture: &str) -> bool {
    let mut reader = script.as_bytes();
    let mut written = Vec::new(alloc);
    let status = draw_script(alloc, &mut reader, &mut written);
    let want = if picture.starts_with("line ") { 2 } else { 0 };
    status == want && written.as_slice() == picture.as_bytes()
}

#[test]
fn draws_scripts(rt: HostRuntime) {
    let alloc = rt.alloc();
    assert!(rt; draws(alloc, "", ""));
    assert!(rt; draws(alloc, "row\nrow\n", ""));
    assert!(rt;
        draws(
            alloc,
            "row\t0\t1\t\nrow\t\t2\t3\nrow\t4\nrspan\t2\tcell\t0\t0\ncspan\t2\tcell\t0\t1\ncspan\t3\tcell\t2\t0\n",
            "+---+---+---+\n| 0 | 1     |\n+   +---+---+\n|   | 2 | 3 |\n+---+---+---+\n| 4         |\n+---+---+---+\n"
        )
    );
    assert!(rt; draws(alloc, "row\ta\nspin\n", "line 2: fault 1\n"));
}
