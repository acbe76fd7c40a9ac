//! Tables with merged cells, and what a page asks for of them.

use std::alloc::{AllocError, Global};
use std::test::Fail;
use tabled_grid::config::{Position, SpannedConfig};
use tabled_grid::records::{CellText, ExactRecords, PeekableRecords, Records, Resizable};
use tabled_html::{Alignment, Page, WriteError, write, write_with};
use tabled_testing::{flat, merged, nested};

/// What a page asks for, a table with its merged cells, and after a line `=` the lines of HTML, with an empty line before
/// the next case.
const CASES: &str = "-
a b / c d /
=
<table>
<tbody>
<tr><td>a</td><td>b</td></tr>
<tr><td>c</td><td>d</td></tr>
</tbody>
</table>

-
a b c / d e f / g h i / 0.0:2x2 2.1:1x2
=
<table>
<tbody>
<tr><td colspan=\"2\" rowspan=\"2\">a</td><td>c</td></tr>
<tr><td>f</td></tr>
<tr><td>g</td><td colspan=\"2\">h</td></tr>
</tbody>
</table>

-
a b / c d / 0.0:2x2
=
<table>
<tbody>
<tr><td colspan=\"2\" rowspan=\"2\">a</td></tr>
<tr></tr>
</tbody>
</table>

-
a b / c d / 0.0:1x2 0.1:2x1 1.0:1x3
=
<table>
<tbody>
<tr><td>a</td><td>b</td></tr>
<tr><td>c</td><td>d</td></tr>
</tbody>
</table>

class=wide_dark header=1 caption=C align=lc
a b c / d e f / 1.0:1x2
=
<table class=\"wide_dark\">
<caption>C</caption>
<thead>
<tr><th scope=\"col\" style=\"text-align: left\">a</th><th scope=\"col\" style=\"text-align: center\">b</th><th scope=\"col\" style=\"text-align: center\">c</th></tr>
</thead>
<tbody>
<tr><td colspan=\"2\" style=\"text-align: left\">d</td><td style=\"text-align: center\">f</td></tr>
</tbody>
</table>

header=1
a b / c d / 0.0:2x1
=
<table>
<tbody>
<tr><th rowspan=\"2\" scope=\"col\">a</th><th scope=\"col\">b</th></tr>
<tr><td>d</td></tr>
</tbody>
</table>

header=2 align=r
a b / c d / 0.0:2x1
=
<table>
<thead>
<tr><th rowspan=\"2\" scope=\"col\" style=\"text-align: right\">a</th><th scope=\"col\" style=\"text-align: right\">b</th></tr>
<tr><th scope=\"col\" style=\"text-align: right\">d</th></tr>
</thead>
<tbody>
</tbody>
</table>

header=3
a /
=
<table>
<tbody>
<tr><th scope=\"col\">a</th></tr>
</tbody>
</table>

class=a\"b caption=
_ /
=
<table>
<caption></caption>
<tbody>
<tr><td></td></tr>
</tbody>
</table>

whole
a /
=
<!DOCTYPE html>
<html lang=\"en\">
<head>
<meta charset=\"utf-8\">
<title>Table</title>
<style>
:root { color-scheme: light dark }
table { border-collapse: collapse }
caption { white-space: pre-line }
th, td { border: 1px solid; padding: 0.2em 0.5em; text-align: left; vertical-align: top; white-space: pre-line }
</style>
</head>
<body>
<table>
<tbody>
<tr><td>a</td></tr>
</tbody>
</table>
</body>
</html>";

/// The alignments of letters.
fn alignments(alloc: Global, letters: &str) -> Result<Vec<Alignment>, AllocError> {
    let alignment = |letter: char| match letter {
        'l' => Alignment::Left,
        'c' => Alignment::Center,
        _ => Alignment::Right,
    };
    letters.chars().map(alignment).collect(alloc)
}

/// The value of a word among others, as of `header` in `header=1 caption=C`.
fn value_of<'w>(words: &'w str, name: &str) -> Option<&'w str> {
    for word in words.split(' ') {
        if let Some((found, value)) = word.split_once('=') {
            if found == name {
                return Some(value);
            }
        }
    }
    None
}

/// What words ask for, with these alignments.
fn page_of<'w>(words: &'w str, alignments: &'w [Alignment]) -> Page<'w> {
    let mut page = Page::new().alignments(alignments);
    if let Some(class) = value_of(words, "class") {
        page = page.class(class);
    }
    if let Some(caption) = value_of(words, "caption") {
        page = page.caption(caption);
    }
    if let Some(rows) = value_of(words, "header") {
        page = page.header(rows.parse().unwrap_or(0));
    }
    if words == "whole" { page.whole() } else { page }
}

/// A table as HTML, as words ask for it.
fn written<R>(
    alloc: Global,
    words: &str,
    records: &R,
    cfg: &SpannedConfig,
) -> Result<Vec<u8>, WriteError>
where
    R: Records + ExactRecords + PeekableRecords,
    R::Cell: CellText,
    requires { R.is_well_formed records.now }
{
    let mut bytes = Vec::new(alloc);
    if words == "-" {
        write(alloc, &mut bytes, records, cfg)?;
    } else {
        let alignments = alignments(alloc, value_of(words, "align").unwrap_or(""))?;
        write_with(
            alloc,
            &mut bytes,
            records,
            cfg,
            &page_of(words, &alignments),
        )?;
    }
    Ok(bytes)
}

/// Whether bytes are these lines, with a newline behind each.
fn are_lines(bytes: Result<Vec<u8>, WriteError>, lines: &str) -> bool {
    match bytes {
        Ok(bytes) => bytes.as_slice().strip_suffix(b"\n") == Some(lines.as_bytes()),
        Err(_) => false,
    }
}

#[test]
fn are_written_as_they_say(rt: HostRuntime) -> Result<(), Fail> {
    let alloc = rt.alloc();
    for case in CASES.split("\n\n") {
        let (given, lines) = case.split_once("\n=\n").unwrap_or(("", ""));
        let (words, table) = given.split_once('\n').unwrap_or(("", ""));
        let cfg = merged(alloc, table)?;
        let in_one = written(alloc, words, &flat(alloc, table)?, &cfg);
        assert!(rt; are_lines(in_one, lines), "{case}");
        let in_rows = written(alloc, words, &nested(alloc, table)?, &cfg);
        assert!(rt; are_lines(in_rows, lines), "{case}");
    }
    Ok(())
}

/// Whether a merged cell that is all of a table is written as one cell.
fn is_one_cell(alloc: Global, rows: usize, columns: usize) -> Result<bool, Fail> {
    let mut records = flat(alloc, "_ /")?;
    records.push_rows(alloc, rows.saturating_sub(1))?;
    records.push_columns(alloc, columns.saturating_sub(1))?;
    let mut cfg = SpannedConfig::new(alloc);
    let first = Position { row: 0, col: 0 };
    cfg.set_row_span(alloc, first, rows)?;
    cfg.set_column_span(alloc, first, columns)?;
    match written(alloc, "-", &records, &cfg) {
        Ok(bytes) => Ok(
            bytes
                .windows(3)
                .filter(|part| *part == b"<td".as_slice())
                .count()
                == 1,
        ),
        Err(_) => Ok(false),
    }
}

#[test]
fn merged_cells_of_the_largest_size_are_written(rt: HostRuntime) -> Result<(), Fail> {
    let alloc = rt.alloc();
    for &(rows, columns, is_one) in &[
        (1, 1000, true),
        (1, 1001, false),
        (65_534, 1, true),
        (65_535, 1, false),
    ] {
        assert_eq!(rt;
            is_one_cell(alloc, rows, columns)?,
            is_one,
            "{rows} x {columns}"
        );
    }
    Ok(())
}
