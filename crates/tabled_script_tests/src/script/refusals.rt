//! What the program writes where memory runs out: run with each allocation refused in turn.

use std::alloc::Global;
use std::io;
use tabled_script::{Arguments, Refusal, answer};

/// Rows that differ in length, and a text in which quotes are doubled.
const FILE: &[u8] = b"a,\"more_than_15 \"\"bytes\"\"\"\n1\n";

/// Rows that are equally long.
const EVEN: &[u8] = b"a,\"more_than_15 \"\"bytes\"\"\"\n1,2\n";

/// Answers arguments, which stand apart by bars, with a script behind the rows of files, of which those named `even` have
/// rows of one length, and says whether the table is written whole with a status, or nothing with that of a refusal.
fn answers_whole(
    alloc: Global,
    arguments: &str,
    script: &str,
    status: u8,
    table: &str,
) -> Result<bool, Refusal> {
    let mut taken = Arguments::new(alloc);
    for argument in arguments.split('|') {
        taken = taken.take(alloc, argument)?;
    }
    let mut request = taken.into_invocation(alloc)?.request;
    for source in &mut request.sources {
        let rows = if source.name.as_str() == "even" {
            EVEN
        } else {
            FILE
        };
        source.bytes.extend_from_slice(rows)?;
    }
    // So that the writer itself is not refused.
    let mut written = Vec::with_capacity(alloc, 1000)?;
    let got = answer(
        alloc,
        &request,
        script.as_bytes(),
        &mut written,
        &mut io::sink(),
    );
    Ok(if got == 3 {
        written.is_empty()
    } else {
        got == status && written.as_slice() == table.as_bytes()
    })
}

#[test]
fn answers_whole_or_not_at_all_at_a_refusal(rt: HostRuntime) {
    for &(arguments, script, status, table) in &[
        (
            "--csv|f|header|A head of more than 15 bytes|then|vmerge",
            "row\tx\n",
            0,
            "shape\t4\t2\nrow\tA head of more than 15 bytes\t\nrow\ta\tmore_than_15 \"bytes\"\nrow\t1\t\nrow\tx\t\nspan\t0\t0\t1\t2\nspan\t2\t1\t2\t1\n",
        ),
        (
            "--csv|f|--width|12|hpanel|9|z",
            "row\tx\n",
            0,
            "+---+------+\n| a | more |\n|   | _tha |\n|   | n_15 |\n|   | \"byt |\n|   | es\"  |\n+---+------+\n| 1 |      |\n+---+------+\n| x |      |\n+---+------+\n",
        ),
        (
            "--check|--csv|f|--csv|g|--to|csv|hpanel|9|z",
            "row\tx\n",
            5,
            "a,\"more_than_15 \"\"bytes\"\"\"\n1,\n1,\nx,\n",
        ),
        (
            "--csv|f|--header|1|--align|r|set|row|1|y",
            "row\tx\n",
            0,
            "<table>\n<thead>\n<tr><th scope=\"col\" style=\"text-align: right\">a</th><th scope=\"col\" style=\"text-align: right\">more_than_15 \"bytes\"</th></tr>\n</thead>\n<tbody>\n<tr><td style=\"text-align: right\">y</td><td style=\"text-align: right\">y</td></tr>\n<tr><td style=\"text-align: right\">x</td><td style=\"text-align: right\"></td></tr>\n</tbody>\n</table>\n",
        ),
        // Rows of one length, to which nothing is done, are written as they are.
        (
            "--csv|even|--style|modern",
            "",
            0,
            "┌───┬──────────────────────┐\n│ a │ more_than_15 \"bytes\" │\n├───┼──────────────────────┤\n│ 1 │ 2                    │\n└───┴──────────────────────┘\n",
        ),
        (
            "--csv|even|--csv|even|--to|jsonl",
            "",
            0,
            "{\"a\":1,\"more_than_15 \\\"bytes\\\"\":2}\n{\"a\":1,\"more_than_15 \\\"bytes\\\"\":2}\n",
        ),
    ] {
        // Where the arguments themselves are refused, there is nothing to compare.
        assert!(rt;
            !matches!(
                answers_whole(rt.alloc(), arguments, script, status, table),
                Ok(false)
            ),
            "{arguments}"
        );
    }
}
