//! What writers leave, for a refusal at each write and at each answer in turn.

use super::tables::{exclaimed, makes_flat, makes_refusing};
use std::alloc::{AllocError, Global};
use std::cell::Cell;
use tabled_grid::config::Position;
use tabled_options::{Modify, Settings, TextRef};
use tabled_select::location::Locator;
use tabled_select::object::{ObjectIterator, Rows};
use tabled_settings::format::Format;
use tabled_settings::formatting::Charset;

/// What is left where the first, the second, the third or the fourth write or answer is refused.
const LEFT: &[&str] = &["a b c /!", "a! b c /!", "a! b! c /!", "a! b! c! /"];

/// Adds an exclamation mark, wherever the text stands.
fn exclaimed_at(alloc: Global, text: &str, _: Position) -> Result<String, AllocError> {
    exclaimed(alloc, text)
}

#[test]
fn writes_are_refused_in_turn(rt: HostRuntime) {
    let alloc = rt.alloc();
    for (before, want) in LEFT.iter().enumerate() {
        let calls = (1, before.saturating_add(1));
        let content = Format::content(exclaimed);
        assert!(rt; makes_refusing(alloc, calls, "a b c /", content, *want));
        let lines = Format::content(exclaimed).multiline();
        assert!(rt; makes_refusing(alloc, calls, "a b c /", lines, *want));
        let positioned = Format::positioned(exclaimed_at);
        assert!(rt; makes_refusing(alloc, calls, "a b c /", positioned, *want));
    }
    assert!(rt; makes_refusing(alloc, (1, 1), "a\u{7} b /", Charset::new(), "a\u{7} b /"));
}

#[test]
fn writes_where_closures_say_are_refused_in_turn(rt: HostRuntime) {
    let alloc = rt.alloc();
    for (before, want) in LEFT.iter().enumerate() {
        let calls = (1, before.saturating_add(1));
        let rows = Rows::first().filter(|_| true);
        let filtered = Modify::list(rows, Format::positioned(exclaimed_at));
        assert!(rt; makes_refusing(alloc, calls, "a b c /", filtered, *want));
        let located = Modify::list(Locator::by(|_| true), Format::content(exclaimed));
        assert!(rt; makes_refusing(alloc, calls, "a b c /", located, *want));
    }
    let never = Modify::list(Locator::by(|_| false), Format::content(exclaimed));
    assert!(rt; makes_refusing(alloc, (1, 1), "a b c /", never, "a b c /"));
}

#[test]
fn answers_are_refused_in_turn(rt: HostRuntime) {
    let alloc = rt.alloc();
    for (left, want) in LEFT.iter().enumerate() {
        let mut answers = left;
        let content = Format::content(move |alloc: Global, text: &str| {
            answers = answers.checked_sub(1).ok_or(AllocError)?;
            exclaimed(alloc, text)
        });
        assert!(rt; makes_flat(alloc, "a b c /", content, *want));
        let mut answers = left;
        let positioned = Format::positioned(move |alloc: Global, text: &str, _: Position| {
            answers = answers.checked_sub(1).ok_or(AllocError)?;
            exclaimed(alloc, text)
        });
        assert!(rt; makes_flat(alloc, "a b c /", positioned, *want));
    }
}

#[test]
fn answers_of_lines_are_refused_in_turn(rt: HostRuntime) {
    let alloc = rt.alloc();
    for &(answers, want) in &[
        (0, "p\nq p\nq /!"),
        (1, "p\nq p\nq /!"),
        (2, "p!\nq! p\nq /!"),
        (3, "p!\nq! p\nq /!"),
        (4, "p!\nq! p!\nq! /"),
    ] {
        let left: Cell<usize> = Cell::new(answers);
        let lines = Format::content(|alloc: Global, text: &str| {
            left.set(left.get().checked_sub(1).ok_or(AllocError)?);
            exclaimed(alloc, text)
        });
        let texts = Modify::list(Rows::first(), TextRef("p\nq"));
        assert!(rt;
            makes_flat(
                alloc,
                "a b /",
                Settings::new(texts, lines.multiline()),
                want
            )
        );
    }
}
