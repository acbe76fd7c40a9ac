//! Tables as Markdown.

use super::scripts::has_lines;
use super::styles::alignments;
use std::alloc::{AllocError, Global};
use std::test::Fail;
use tabled_draw::{Alignment, draw_markdown};
use tabled_language::{ParseError, Script, padded, parse};
use tabled_steps::run;

/// Alignments, lines of a script, and after a line `=` the lines of Markdown, with an empty line before the next case.
const CASES: &str = "lr
row\ta|b\tx\\ny
row\tm\tn
row\t\\\\\t<
span\t1\t0\t1\t2
=
| a\\|b | x<br>y |
|------|-------:|
| m    |        |
| \\\\   |   &lt; |

-
row\t<br>\t\\\\|\\n\\n
=
| &lt;br> | \\\\\\|<br><br> |
|---------|--------------|

c
row\t\u{6f22}\u{5b57}\\tx\t*b*
row\t1\t22
rspan\t2\tcell\t0\t1
cspan\t-1\tcell\t1\t1
=
| \u{6f22}\u{5b57}&#9;x | \\*b\\* |
|:---------:|:-----:|
|    22     |       |

-
row\t a  b \thttp://a.b<b>\twww.a.b&
=
| &#32;a &#32;b&#32; | http\\://a.b&lt;b> | www\\.a.b&amp; |
|--------------------|-------------------|---------------|

r
row\t
=
|     |
|----:|";

/// The table of a script as Markdown, and nothing of a faulty one.
fn marked(alloc: Global, script: &str, aligns: &[Alignment]) -> Result<String, AllocError> {
    match parse(alloc, script.as_bytes()) {
        Ok(script) => marked_after(alloc, script, aligns),
        Err(ParseError::Faulty { .. }) => Ok(String::new(alloc)),
        Err(ParseError::OutOfMemory) => Err(AllocError),
    }
}

/// A script's table after its steps, as Markdown.
fn marked_after(alloc: Global, script: Script, aligns: &[Alignment]) -> Result<String, AllocError> {
    let Script {
        records,
        mut spans,
        steps,
        ..
    } = script;
    let mut records = padded(records)?;
    if let Err((_, error)) = run(alloc, &mut records, &mut spans, steps) {
        return Err(error);
    }
    let mut bytes = Vec::new(alloc);
    match draw_markdown(alloc, &mut bytes, &records, &spans, aligns) {
        Ok(()) => String::from_utf8(bytes).map_err(|_| AllocError),
        Err(_) => Err(AllocError),
    }
}

#[test]
fn are_written_as_markdown(rt: HostRuntime) -> Result<(), Fail> {
    for case in CASES.split("\n\n") {
        let (given, lines) = case.split_once("\n=\n").unwrap_or(("", ""));
        let (letters, script) = given.split_once('\n').unwrap_or(("", ""));
        let text = marked(rt.alloc(), script, &alignments(letters))?;
        assert!(rt; has_lines(text.as_str(), lines), "{case}");
    }
    Ok(())
}
