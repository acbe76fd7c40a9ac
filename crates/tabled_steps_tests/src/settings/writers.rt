//! What cuts of lines and replacements make of texts.

use super::tables::{made, makes_flat, makes_refusing};
use std::alloc::{AllocError, Global};
use tabled_grid::config::SpannedConfig;
use tabled_grid::records::{Text, VecRecords};
use tabled_options::Modify;
use tabled_select::object::Rows;
use tabled_settings::replace::Replace;
use tabled_settings::width::Width;
use tabled_testing::is_word;

/// A store of one cell with a text.
fn of_one(alloc: Global, text: &str) -> Result<VecRecords<Text<String>>, AllocError> {
    let cell = vec![in alloc; Text::new(String::from_str(alloc, text)?)]?;
    VecRecords::new(alloc, vec![in alloc; cell]?)
}

/// Widths to which lines are cut and their suffixes, texts, and their lines.
const CUTS: &[&str] = &[
    "3 : abcde => abc /",
    "5 ..: abcde => abcde /",
    "4 ..: abcde => ab.. /",
    "4 \u{2026}: abcde => abc\u{2026} /",
    "5 ..: aa bb c => aa .. /",
    // Lines that fit stay.
    "3 ..: abc\nde\nfghi\n => abc\nde\nf..\n /",
    // A suffix that is as wide, and one that is wider.
    "2 ..: abc => .. /",
    "2 +-*: abc => +- /",
    "0 ..: abc => _ /",
    "0 : abc\nd\n\ne => \n\n\n /",
    "0 ..:  => _ /",
    // Pieces are never cut.
    "3 : \u{4E2D}\u{6587}a => \u{4E2D} /",
    "3 .: \u{4E2D}\u{6587}a => \u{4E2D}. /",
    "2 .: \u{4E2D}\u{6587}a => . /",
    "1 \u{4E2D}: \u{4E2D}a => _ /",
    "3 : \u{1F468}\u{200D}\u{1F469}ab => \u{1F468}\u{200D}\u{1F469}a /",
    "1 : \u{1F468}\u{200D}\u{1F469}ab => _ /",
    "2 : e\u{301}e\u{301}e => e\u{301}e\u{301} /",
    "18446744073709551615 ..: ab cd => ab cd /",
];

/// Whether the lines of a text are cut as a case says.
fn is_cut(alloc: Global, case: &str) -> Option<bool> {
    let (how, rest) = case.split_once(": ")?;
    let (width, suffix) = how.split_once(' ')?;
    let (text, lines) = rest.split_once(" => ")?;
    let cut = Width::truncate(width.parse::<usize>().ok()?).suffix(suffix);
    let store = of_one(alloc, text).ok()?;
    Some(is_word(made(alloc, store, SpannedConfig::new(alloc), cut), lines))
}

#[test]
fn lines_are_cut_and_have_a_suffix(rt: HostRuntime) {
    for &case in CUTS {
        assert!(rt; is_cut(rt.alloc(), case) == Some(true), "{case:?}");
    }
}

/// What is replaced by what, texts, and what they become.
const REPLACED: &[&str] = &[
    "b by -: abcabc => a-ca-c /",
    "bc by : abcabc => aa /",
    "aa by b: aaa => ba /",
    "aa by a: aaaa => aa /",
    "aba by x: abab => xb /",
    "abc by : abc => _ /",
    "x by y: abc => abc /",
    " by y: abc => abc /",
    "a by y:  => _ /",
    " by y:  => _ /",
    "ab by y: a => a /",
    "\u{4E2D} by ab: \u{4E2D}a\u{4E2D} => abaab /",
    "\n by +: a\nb => a+b /",
];

/// Whether occurrences in a text are replaced as a case says.
fn is_replaced(alloc: Global, case: &str) -> Option<bool> {
    let (how, rest) = case.split_once(": ")?;
    let (from, to) = how.split_once(" by ")?;
    let (text, new) = rest.split_once(" => ")?;
    let store = of_one(alloc, text).ok()?;
    let replaced = made(
        alloc,
        store,
        SpannedConfig::new(alloc),
        Replace::new(from, to),
    );
    Some(is_word(replaced, new))
}

#[test]
fn occurrences_are_replaced_from_the_left(rt: HostRuntime) {
    for &case in REPLACED {
        assert!(rt; is_replaced(rt.alloc(), case) == Some(true), "{case:?}");
    }
}

#[test]
fn entities_are_cut_and_replaced(rt: HostRuntime) {
    let alloc = rt.alloc();
    let cut = Modify::list(Rows::first(), Width::truncate(2).suffix("."));
    assert!(rt; makes_flat(alloc, "abc b / abc d /", cut, "a. b / abc d /"));
    let replaced = Modify::list(Rows::last(), Replace::new("b", "xy"));
    assert!(rt; makes_flat(alloc, "abc b / abc d /", replaced, "abc b / axyc d /"));
}

#[test]
fn writes_of_texts_that_change_are_refused_in_turn(rt: HostRuntime) {
    let alloc = rt.alloc();
    // A text that fits, or has no occurrence, isn't written.
    for (before, want) in ["abc b abc /!", "a. b abc /!", "a. b a. /"]
        .iter()
        .enumerate()
    {
        let calls = (1, before.saturating_add(1));
        let cut = Width::truncate(2).suffix(".");
        assert!(rt; makes_refusing(alloc, calls, "abc b abc /", cut, *want));
    }
    for (before, want) in ["abc d abc /!", "axc d abc /!", "axc d axc /"]
        .iter()
        .enumerate()
    {
        let calls = (1, before.saturating_add(1));
        assert!(rt; makes_refusing(alloc, calls, "abc d abc /", Replace::new("b", "x"), *want));
    }
}
