//! Tests of elements that are read from HTML.

use std::alloc::{AllocError, Global};
use tabled_html_elements::{Element, ReadError, Table, read};

/// Bytes of HTML, and after a line `=` what is read of them, with an empty line before the next case.
const CASES: &str = "<table>
<tbody>
<tr><td colspan=\"2\" rowspan=\"2\">a</td><td>c</td></tr>
<tr></tr>
</tbody>
</table>
=
body: tr td[colspan=2][rowspan=2](a) td(c) tr

<TABLE Class=\"x\"><Caption>t&amp;</caption><thead></thead> <tr><th SCOPE=\"col\" scope=\"row\">a&lt;&#65;&#x42,&#128; &</th></tr></table>
=
caption(t&) head: body: tr th[scope=col](a<AB,€ &)

<table></table>
=
-

<table><tr><td>&unknown;</td></tr></table>
=
no table

<table><tr><td colspan=\"x\">a</td></tr></table>
=
no table

<table><tr><td>a</th></tr></table>
=
no table

<table><tr><td>a</td></tr>
=
no table

a<table></table>
=
no table

<table></table><table></table>
=
no table";

/// A text of bytes.
fn text(bytes: &[u8]) -> &str {
    str::from_utf8(bytes).unwrap_or("?")
}

/// Writes a cell: its name, its attributes and its text.
fn write_cell(out: &mut String, cell: &Element) -> Result<(), AllocError> {
    write!(out, " {}", if cell.is_header { "th" } else { "td" })?;
    for attribute in &cell.attributes {
        write!(
            out,
            "[{}={}]",
            text(&attribute.name),
            text(&attribute.value)
        )?;
    }
    write!(out, "({})", text(&cell.text))
}

/// The parts of a table, in words.
fn words(alloc: Global, table: &Table) -> Result<String, AllocError> {
    let mut out = String::new(alloc);
    if table.groups.is_empty() {
        write!(out, "-")?;
    }
    if let Some(caption) = &table.caption {
        write!(out, "caption({}) ", text(caption))?;
    }
    for group in &table.groups {
        write!(out, "{}:", if group.is_head { "head" } else { "body" })?;
        for row in &group.rows {
            write!(out, " tr")?;
            for cell in &row.cells {
                write_cell(&mut out, cell)?;
            }
        }
        write!(out, " ")?;
    }
    Ok(out)
}

/// Whether bytes are read as these words say.
fn is_read_as(alloc: Global, bytes: &[u8], wanted: &str) -> bool {
    match read(alloc, bytes) {
        Ok(table) => words(alloc, &table).is_ok_and(|words| words.as_str().trim_end() == wanted),
        Err(ReadError::NoTable) => wanted == "no table",
        Err(ReadError::OutOfMemory) => false,
    }
}

#[test]
fn is_read_as_its_case_says(rt: HostRuntime) {
    for case in CASES.split("\n\n") {
        let (bytes, wanted) = case.split_once("\n=\n").unwrap_or(("", "?"));
        assert!(rt; is_read_as(rt.alloc(), bytes.as_bytes(), wanted), "{case}");
    }
}

#[test]
fn is_read_with_any_newlines(rt: HostRuntime) {
    let bytes = b"<table>\r\n<tr><td>a\r\nb\rc\0</td></tr>\r</table>\r\n";
    assert!(rt; is_read_as(rt.alloc(), bytes, "body: tr td(a\nb\nc)"));
}

/// Whether bytes are read as one row group, or memory is refused.
fn is_read_or_refused(alloc: Global, bytes: &[u8]) -> bool {
    match read(alloc, bytes) {
        Ok(table) => table.groups.len() == 1,
        Err(error) => error == ReadError::OutOfMemory,
    }
}

/// `.ci/test_refusals` runs this test, and refuses each allocation in turn.
#[test]
fn is_read_whole_or_not_at_all_at_a_refusal(rt: HostRuntime) {
    let bytes =
        b"<table class=\"c\"><caption>t</caption>\r\n<tr><td rowspan=\"1\">a&lt;b&#65;</td></tr></table>";
    assert!(rt; is_read_or_refused(rt.alloc(), bytes));
}
