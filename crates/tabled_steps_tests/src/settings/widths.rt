//! What wraps make of texts.

use super::tables::{made, makes_flat};
use std::alloc::{AllocError, Global};
use tabled_grid::config::SpannedConfig;
use tabled_grid::records::{Text, VecRecords};
use tabled_options::{Modify, Settings, TextRef};
use tabled_select::object::Rows;
use tabled_settings::width::{Width, Wrap};
use tabled_testing::is_word;

/// What a wrap makes of a store of one cell with a text.
fn wrapped(alloc: Global, text: &str, wrap: Wrap) -> Result<String, AllocError> {
    let cell = vec![in alloc; Text::new(String::from_str(alloc, text)?)]?;
    let store = VecRecords::new(alloc, vec![in alloc; cell]?)?;
    made(alloc, store, SpannedConfig::new(alloc), wrap)
}

/// Widths at which texts are cut between letters or words, the texts, and their lines.
const CUTS: &[&str] = &[
    "3 letters: abcde => abc\nde /",
    "2 letters: a b c => a \nb \nc /",
    "2 letters: ab\n\ncde\n => ab\n\ncd\ne\n /",
    "5 words: aa bb cc => aa bb\ncc /",
    "2 words: aa  bb => aa\nbb /",
    "3 words: aa  bb => aa \nbb /",
    "3 words: a abcdef b => a\nabc\ndef\nb /",
    "3 words: a abcd b => a\nabc\nd b /",
    "3 words:   aa =>  \naa /",
    "3 words: aa    => aa  /",
    "2 words: ab cd\n\nef gh\n => ab\ncd\n\nef\ngh\n /",
    "2 letters: \u{4E2D}\u{6587}a => \u{4E2D}\n\u{6587}\na /",
    "3 letters: \u{4E2D}\u{6587}a => \u{4E2D}\n\u{6587}a /",
    "1 words: \u{4E2D}a => \u{4E2D}\na /",
    "1 letters: \u{1F468}\u{200D}\u{1F469}a => \u{1F468}\u{200D}\u{1F469}\na /",
    "2 words: \u{26A0}\u{FE0F} a => \u{26A0}\u{FE0F}\na /",
    "2 letters: e\u{301}e\tf => e\u{301}e\n\tf /",
    "3 words:  => _ /",
    "0 letters: a\n => _ /",
    "18446744073709551615 words: ab cd => ab cd /",
];

/// Whether a text is cut as a case says.
fn is_cut(alloc: Global, case: &str) -> Option<bool> {
    let (how, rest) = case.split_once(": ")?;
    let (width, kept) = how.split_once(' ')?;
    let (text, lines) = rest.split_once(" => ")?;
    let wrap = Width::wrap(width.parse::<usize>().ok()?).keep_words(kept == "words");
    Some(is_word(wrapped(alloc, text, wrap), lines))
}

#[test]
fn lines_are_cut(rt: HostRuntime) {
    for &case in CUTS {
        assert!(rt; is_cut(rt.alloc(), case) == Some(true), "{case:?}");
    }
}

#[test]
fn each_wrap_writes_all_cells_or_some(rt: HostRuntime) {
    let (alloc, old) = (rt.alloc(), "a / b /");
    for &(wrap, all, some) in &[
        (Width::wrap(2), "pq\nr / pq\nr /", "pq\nr / pqr /"),
        (Width::wrap(3), "pqr / pqr /", "pqr / pqr /"),
    ] {
        let texts = Modify::list(Rows::new(..), TextRef("pqr"));
        assert!(rt; makes_flat(alloc, old, Settings::new(texts, wrap), all));
        let texts = Modify::list(Rows::new(..), TextRef("pqr"));
        let first = Modify::list(Rows::first(), wrap);
        assert!(rt; makes_flat(alloc, old, Settings::new(texts, first), some));
    }
}

#[test]
fn wraps_are_ordered(rt: HostRuntime) {
    let wraps = [
        Width::wrap(0),
        Width::wrap(1),
        Width::wrap(1).keep_words(true),
        Width::wrap(2).keep_words(true).keep_words(false),
    ];
    assert!(rt; wraps.iter().is_sorted());
}
