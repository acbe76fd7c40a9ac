//! Tests of pieces, on texts of many writings, and of what is made of them.

use std::alloc::Global;
use tabled_width::{Pieces, columns_of, lines_fit, widest_piece, widest_word, wrap};

/// Texts, with bars between their pieces.
const TEXTS: &[&str] = &[
    "a|b| |c",
    "a|\n|b",
    // marks, behind a letter and behind a blank
    "e\u{301}\u{323}|e",
    "a| \u{301}|b",
    "\u{301}|a",
    // joined emoji, tones, flags, keycaps and selectors
    "👨\u{200D}👩\u{200D}👧\u{200D}👦|👦",
    "👍🏽|👍",
    "🇩🇪|🇫🇷|🇮",
    "1\u{FE0F}\u{20E3}|1",
    "⚠\u{FE0F}| |⚠\u{FE0F}|漢",
    "🏴\u{E0067}\u{E0062}\u{E007F}|x",
    "a\u{200D}| |b\u{200D}c",
    // Devanagari, Thai, lam-alef, Khmer, Hangul, Han, Tifinagh and Lisu
    "क्|ष",
    "ที่",
    "س|لا|م",
    "\u{1781}\u{17D2}\u{1798}|\u{179A}",
    "\u{1112}\u{1161}\u{11AB}|글",
    "漢|字",
    "\u{2D4F}\u{2D7F}\u{2D3E}|\u{2D4F}",
    "\u{A4F9}\u{A4FC}|\u{A4D0}",
];

/// Says whether a text falls into the pieces between bars.
fn falls_into(alloc: Global, pieces: &str) -> Option<bool> {
    let mut text = String::new(alloc);
    for piece in pieces.split('|') {
        text.push_str(piece).ok()?;
    }
    let mut wanted = pieces.split('|');
    for piece in Pieces::new(text.as_str()) {
        if wanted.next() != Some(piece) {
            return Some(false);
        }
    }
    Some(wanted.next().is_none())
}

#[test]
fn texts_fall_into_pieces(rt: HostRuntime) {
    for &pieces in TEXTS {
        assert!(rt; falls_into(rt.alloc(), pieces) == Some(true), "{pieces:?}");
    }
}

#[test]
fn the_widest_are_found(rt: HostRuntime) {
    for &(text, piece, word) in &[
        ("", 0, 0),
        ("\n", 0, 0),
        ("abc de\nf", 1, 3),
        ("漢字 a", 2, 4),
        ("👨\u{200D}👩\u{200D}👧\u{200D}👦 abc", 2, 3),
    ] {
        assert!(rt; widest_piece(text) == piece, "{text:?}");
        assert!(rt; widest_word(text) == word, "{text:?}");
    }
}

#[test]
fn nothing_is_lost_but_blanks(rt: HostRuntime) {
    let alloc = rt.alloc();
    for &(text, width, keep_words, wanted) in &[
        ("漢字", 1, true, "漢\n字"),
        (
            "👨\u{200D}👩\u{200D}👧\u{200D}👦",
            2,
            true,
            "👨\u{200D}👩\u{200D}👧\u{200D}👦",
        ),
        (
            "⚠\u{FE0F} disk is nearly full",
            11,
            true,
            "⚠\u{FE0F} disk is\nnearly full",
        ),
        ("🇩🇪🇫🇷🇮🇹", 4, false, "🇩🇪🇫🇷\n🇮🇹"),
        ("ab cd", 0, true, ""),
    ] {
        let wrapped = wrap(alloc, text, width, keep_words).expect(&rt, "there is memory");
        assert!(rt; wrapped.as_str() == wanted, "{text:?}");
    }
    assert!(rt; lines_fit("⚠\u{FE0F} ab\nc", 5) && !lines_fit("漢字", 3));
    assert!(rt; columns_of("⚠\u{FE0F} ab") == 5);
}
