//! What writers make of the texts of a table.

use super::tables::{exclaimed, made, makes_flat};
use std::alloc::{AllocError, Global};
use std::test::Fail;
use tabled_grid::config::{Position, SpannedConfig};
use tabled_grid::records::{Text, VecRecords};
use tabled_options::{Modify, Settings, TextRef};
use tabled_select::location::Locator;
use tabled_select::object::{Columns, Rows};
use tabled_settings::duplicate::Dup;
use tabled_settings::format::Format;
use tabled_settings::formatting::Charset;
use tabled_testing::is_word;

#[test]
fn answers_keep_their_state(rt: HostRuntime) {
    let alloc = rt.alloc();
    let mut calls: u8 = 0;
    let count = move |alloc: Global, _: &str, _: Position| {
        calls = calls.saturating_add(1);
        format!(in alloc; "{calls}")
    };
    assert!(rt;
        makes_flat(
            alloc,
            "a b / c d /",
            Format::positioned(count),
            "1 2 / 3 4 /"
        )
    );
}

#[test]
fn copies_write_where_the_first_ones_do(rt: HostRuntime) -> Result<(), Fail> {
    let alloc = rt.alloc();
    let content = Modify::new(Locator::content(String::from_str(alloc, "a")?));
    let copy = content.clone()?.with(TextRef("x"));
    assert!(rt; makes_flat(alloc, "a b / c a /", copy, "x b / c x /"));
    let first = content.with(TextRef("x"));
    assert!(rt; makes_flat(alloc, "a b / c a /", first, "x b / c x /"));
    let listed = Locator::content(String::from_str(alloc, "a")?);
    assert!(rt; makes_flat(alloc, "a a /", Modify::list(listed, TextRef("b")), "b b /"));
    let column = Modify::new(Locator::column(String::from_str(alloc, "a")?));
    let copy = column.clone()?.with(TextRef("x"));
    assert!(rt; makes_flat(alloc, "a b / c a /", copy, "x b / x a /"));
    let first = column.with(TextRef("x"));
    assert!(rt; makes_flat(alloc, "a b / c a /", first, "x b / x a /"));
    Ok(())
}

#[test]
fn nothing_is_located_without_columns(rt: HostRuntime) {
    for table in ["", "/ / /"] {
        let by = Locator::by(|text| text == "1");
        assert!(rt; makes_flat(rt.alloc(), table, Modify::list(by, TextRef("x")), table));
    }
}

#[test]
fn texts_are_cleaned(rt: HostRuntime) -> Result<(), Fail> {
    let text = "Some\ttext\t\twith \\tabs\r\nSome";
    let clean = Charset::charset_clean(rt.alloc(), text)?;
    assert_eq!(&rt; clean.as_str(), "Some    text        with \\tabs\nSome");
    Ok(())
}

/// What a store of one cell with a text has after `exclaimed` of each line.
fn exclaimed_lines(alloc: Global, text: &str) -> Result<String, AllocError> {
    let cell = vec![in alloc; Text::new(String::from_str(alloc, text)?)]?;
    let store = VecRecords::new(alloc, vec![in alloc; cell]?)?;
    let lines = Format::content(exclaimed).multiline();
    made(alloc, store, SpannedConfig::new(alloc), lines)
}

#[test]
fn lines_are_asked_for_one_by_one(rt: HostRuntime) {
    let alloc = rt.alloc();
    for &(text, lines) in &[
        ("p\r\nq\n", "p!\nq! /"),
        ("", "_ /"),
        ("\n", "! /"),
        ("a\rb", "a\rb! /"),
        ("é\n\u{1F633}", "é!\n\u{1F633}! /"),
    ] {
        assert!(rt; is_word(exclaimed_lines(alloc, text), lines));
    }
}

#[test]
fn lines_are_counted_anew_in_each_cell(rt: HostRuntime) {
    let alloc = rt.alloc();
    let lines = Format::content(|alloc: Global, _: &str| String::from_str(alloc, "p\nq"));
    let mut calls: u8 = 0;
    let count = move |alloc: Global, _: &str| {
        calls = calls.saturating_add(1);
        format!(in alloc; "{calls}")
    };
    let counted = Settings::new(lines, Format::content(count).multiline());
    assert!(rt; makes_flat(alloc, "a b /", counted, "1\n2 1\n2 /"));
}

/// The positioned form of `exclaimed`.
fn exclaimed_at(alloc: Global, text: &str, _: Position) -> Result<String, AllocError> {
    exclaimed(alloc, text)
}

#[test]
fn each_writer_writes_some_cells_alone(rt: HostRuntime) {
    let (alloc, old, new) = (rt.alloc(), "a b / c d /", "a! b! / c d /");
    let content = Modify::list(Rows::first(), Format::content(exclaimed));
    assert!(rt; makes_flat(alloc, old, content, new));
    let lines = Modify::list(Rows::first(), Format::content(exclaimed).multiline());
    assert!(rt; makes_flat(alloc, old, lines, new));
    let positioned = Modify::list(Rows::first(), Format::positioned(exclaimed_at));
    assert!(rt; makes_flat(alloc, old, positioned, new));
    let digits = "1 2 3 / 4 5 6 /";
    let last = Dup::new(Columns::last(), Rows::first());
    assert!(rt; makes_flat(alloc, digits, last, "1 2 1 / 4 5 2 /"));
    let first_two = Dup::new(Columns::new(0..2), Rows::first());
    assert!(rt; makes_flat(alloc, digits, first_two, "1 1 3 / 2 2 6 /"));
}

#[test]
fn each_charset_writes_all_cells_or_some(rt: HostRuntime) {
    let (alloc, old) = (rt.alloc(), "a / b /");
    for &(charset, all, some) in &[
        (Charset::new(), "p\tq\r / p\tq\r /", "p\tq\r / p\tq\r /"),
        (Charset::new().clean(), "pq / pq /", "pq / p\tq\r /"),
        (
            Charset::new().tab_size(1),
            "p q\r / p q\r /",
            "p q\r / p\tq\r /",
        ),
        (
            Charset::new().tab_size(1).clean(),
            "p q / p q /",
            "p q / p\tq\r /",
        ),
    ] {
        let texts = Modify::list(Rows::new(..), TextRef("p\tq\r"));
        assert!(rt; makes_flat(alloc, old, Settings::new(texts, charset), all));
        let texts = Modify::list(Rows::new(..), TextRef("p\tq\r"));
        let first = Modify::list(Rows::first(), charset);
        assert!(rt; makes_flat(alloc, old, Settings::new(texts, first), some));
    }
}

#[test]
fn charsets_are_ordered(rt: HostRuntime) {
    let charsets = [
        Charset::new(),
        Charset::new().tab_size(0),
        Charset::new().tab_size(9),
        Charset::new().clean(),
        Charset::new().clean().tab_size(4),
    ];
    assert!(rt; charsets.iter().is_sorted());
}
