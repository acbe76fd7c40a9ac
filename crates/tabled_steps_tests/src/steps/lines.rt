//! Lines that come from rows, from bytes and from words.

use std::alloc::Global;
use tabled_grid::records::CellText;
use tabled_language::{
    LentText, Origin, ParseError, Script, count_lines, origin_of, parse_between,
};
use tabled_testing::push_word;

/// Lists of texts, with ` / ` between two lists and a blank between two texts.
fn lent<'a>(alloc: Global, lists: &'a str) -> Option<Vec<Vec<LentText<'a>>>> {
    let mut all = Vec::new(alloc);
    if lists.is_empty() {
        return Some(all);
    }
    for list in lists.split(" / ") {
        let mut texts = Vec::new(alloc);
        for text in list.split(' ') {
            texts.push(LentText::from(text)).ok()?;
        }
        all.push(texts).ok()?;
    }
    Some(all)
}

/// The texts of a script's records, each with ` /` behind it, and the numbers of the lines of its steps.
fn spelled(alloc: Global, script: &Script) -> Option<String> {
    let mut words = String::new(alloc);
    for record in &script.records {
        for text in record {
            push_word(&mut words, text.text()).ok()?;
        }
        push_word(&mut words, "/").ok()?;
    }
    for line in &script.step_lines {
        push_word(&mut words, format!(in alloc; "{line}").ok()?.as_str()).ok()?;
    }
    Some(words)
}

/// What rows, bytes and words say: records and the numbers of the lines of steps; or where the first faulty line comes
/// from and its fault.
fn said(alloc: Global, rows: &str, input: &str, words: &str) -> Option<String> {
    let rows = lent(alloc, rows)?;
    let many = rows.len();
    match parse_between(alloc, rows, input.as_bytes(), lent(alloc, words)?) {
        Ok(script) => spelled(alloc, &script),
        Err(ParseError::Faulty { line, fault }) => {
            let fault = fault.number();
            match origin_of(many, count_lines(input.as_bytes()), line) {
                Origin::Row(k) => format!(in alloc; "row {k}: {fault}").ok(),
                Origin::Line(k) => format!(in alloc; "line {k}: {fault}").ok(),
                Origin::Words(k) => format!(in alloc; "words {k}: {fault}").ok(),
            }
        }
        Err(ParseError::OutOfMemory) => None,
    }
}

/// Rows, bytes and words, and what they say.
const CASES: &[&str] = &[
    " =>  =>  => ",
    "a b / c =>  =>  => a b / c /",
    "a => row\tb\nset\tall\tx\n => vmerge / hmerge => a / b / 3 4 5",
    "a => row\tb\nset\tall\tx => vmerge / hmerge => a / b / 3 4 5",
    "a => row\tb\\n\n\nvmerge\n\n => hmerge => a / b\n / 4 6",
    "a =>  => row b / vmerge => a / b / 3",
    " =>  => row b\tc / shape => words 2: 6",
    "a b\\q =>  => header b\\q => a b\\q / 2",
    "a => shape\t1\t1\n =>  => line 1: 6",
    "a / b => vmerge\nrow\tc\n =>  => line 2: 6",
    "a => vmerge\nheader\\q => header => line 2: 4",
    "a => vmerge\n => rotate left / rotate up => words 2: 1",
    "a => vmerge => rotate left / row b => words 2: 6",
    "a b => span\t0\t0\t1\t2\n => set all x => a b / 3",
    "a b =>  => span 0 0 1 3 => words 1: 7",
    "a => \n =>  / vmerge => a / 4",
    "a => \n => vmerge /  x => words 2: 1",
];

/// Whether rows, bytes and words say what stands behind them.
fn says(alloc: Global, case: &str) -> Option<bool> {
    let (rows, rest) = case.split_once(" => ")?;
    let (input, rest) = rest.split_once(" => ")?;
    let (words, want) = rest.split_once(" => ")?;
    Some(said(alloc, rows, input, words)?.as_str() == want)
}

#[test]
fn lines_come_from_rows_and_bytes_and_words(rt: HostRuntime) {
    for &case in CASES {
        assert!(rt; says(rt.alloc(), case) == Some(true), "{case:?}");
    }
}
