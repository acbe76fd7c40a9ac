//! What refused options leave, for a refusal at each place in turn.

use super::testing::{CountedCopies, Letter, Log, PushRow, apply, apply_to, listed, two_rows};
use std::alloc::{AllocError, Global};
use std::cell::Cell;
use std::test::Fail;
use tabled_grid::config::Entity;
use tabled_grid::records::Refusing;
use tabled_options::{
    CellOption, EmptySettings, Modify, OptionSlice, Settings, TableOption, TextRef,
};
use tabled_testing::{Flat, spells};

/// Whether an option on tables writes these letters into a log with a limit, and `!` where it is refused.
fn logs<O>(alloc: Global, option: O, limit: usize, want: &str) -> bool
where
    O: TableOption<Flat, Log, ()> + Drop,
    requires { O.can_change option }
{
    let Ok(mut store) = two_rows(alloc) else {
        return false;
    };
    let mut log = Log::new(alloc, limit);
    let done = apply(alloc, option, &mut store, &mut log, &mut ());
    log.is_told(done, want)
}

/// Whether an option on cells, applied to the second row, writes these letters, and `!` where it is refused.
fn logs_at<O>(alloc: Global, option: O, limit: usize, want: &str) -> bool
where
    O: CellOption<Flat, Log> + Drop,
    requires { O.can_change option }
{
    let Ok(mut store) = two_rows(alloc) else {
        return false;
    };
    let mut log = Log::new(alloc, limit);
    let done = apply_to(alloc, option, &mut store, &mut log, Entity::Row(1));
    log.is_told(done, want)
}

/// What is written where the first, the second and each other letter is refused.
const TOLD: &[&str] = &[
    "!",
    "a!",
    "ab!",
    "abc!",
    "abcd!",
    "abcde!",
    "abcdef!",
    "abcdefg!",
    "abcdefgh!",
    "abcdefghi!",
    "abcdefghij!",
];

/// Whether an option writes `abc..` on tables and on cells, and none after the letter that is refused.
fn writes_in_order<O>(alloc: Global, option: O, count: usize) -> bool
where
    O: TableOption<Flat, Log, ()> + CellOption<Flat, Log> + Copy,
    requires on_tables { ⟦<O as TableOption<Flat, Log, ()>>⟧.can_change option }
    requires on_cells { ⟦<O as CellOption<Flat, Log>>⟧.can_change option }
{
    for (limit, refused) in TOLD.iter().enumerate() {
        let want = if limit == count {
            refused.trim_end_matches('!')
        } else {
            *refused
        };
        if !logs(alloc, option, limit, want) || !logs_at(alloc, option, limit, want) {
            return false;
        }
        if limit == count {
            return true;
        }
    }
    false
}

#[test]
fn settings_and_tuples_stop_at_a_refusal(rt: HostRuntime) {
    let alloc = rt.alloc();
    let letters = ['a', 'b', 'c', 'd', 'e', 'f', 'g', 'h', 'i', 'j'];
    let [a, b, c, d, e, f, g, h, i, j] = letters.map(|letter| Letter::new(letter));
    assert!(rt; writes_in_order(alloc, Settings::new(a, Settings::new(b, c)), 3));
    assert!(rt; writes_in_order(alloc, (a, b), 2));
    assert!(rt; writes_in_order(alloc, (a, b, c), 3));
    assert!(rt; writes_in_order(alloc, (a, b, c, d), 4));
    assert!(rt; writes_in_order(alloc, (a, b, c, d, e), 5));
    assert!(rt; writes_in_order(alloc, (a, b, c, d, e, f), 6));
    assert!(rt; writes_in_order(alloc, (a, b, c, d, e, f, g), 7));
    assert!(rt; writes_in_order(alloc, (a, b, c, d, e, f, g, h), 8));
    assert!(rt; writes_in_order(alloc, (a, b, c, d, e, f, g, h, i), 9));
    assert!(rt; writes_in_order(alloc, (a, b, c, d, e, f, g, h, i, j), 10));
}

const PLACES: [Entity; 3] = [Entity::Row(0), Entity::Cell(5, 5), Entity::Global];

#[test]
fn lists_stop_at_a_refusal(rt: HostRuntime) -> Result<(), Fail> {
    let alloc = rt.alloc();
    let options = ['a', 'b', 'c'].map(|letter| Letter::new(letter));
    for &(limit, want, want_copies) in &[
        (0, "!", "!"),
        (1, "a!", "a!"),
        (2, "ab!", "aa!"),
        (3, "abc", "aaa"),
    ] {
        let list = options.to_vec(alloc)?;
        assert!(rt; logs(alloc, list, limit, want));
        assert!(rt; logs(alloc, OptionSlice(&options), limit, want));
        let listed = Modify::list(listed(alloc, &PLACES), Letter::new('a'));
        assert!(rt; logs(alloc, listed, limit, want_copies));
    }
    Ok(())
}

#[test]
fn lists_stop_at_a_refused_copy(rt: HostRuntime) {
    let alloc = rt.alloc();
    for &(copies, want) in &[(0, "!"), (1, "a!"), (2, "aa!"), (3, "aaa")] {
        let left = Cell::new(copies);
        let counted = CountedCopies::new(Letter::new('a'), &left);
        let listed = Modify::list(listed(alloc, &PLACES), counted);
        assert!(rt; logs(alloc, listed, 9, want));
        let left = Cell::new(copies);
        let options = [
            CountedCopies::new(Letter::new('a'), &left),
            CountedCopies::new(Letter::new('a'), &left),
            CountedCopies::new(Letter::new('a'), &left),
        ];
        assert!(rt; logs(alloc, OptionSlice(&options), 9, want));
    }
}

/// Whether an option on tables leaves these texts, with `!` after them where it was refused, in a store that
/// refuses one growth and one write, each counted from 1, or none at 0.
fn leaves<O>(alloc: Global, option: O, growth: usize, set: usize, want: &str) -> bool
where
    O: TableOption<Refusing<Flat>, (), ()> + Drop,
    requires { O.can_change option }
{
    let Ok(store) = two_rows(alloc) else {
        return false;
    };
    let mut store = Refusing::new(store, growth, set);
    let done = apply(alloc, option, &mut store, &mut (), &mut ());
    is_left(alloc, &store, done, want)
}

/// Whether an option on cells, applied to all of them, leaves these texts, with `!` after them where it was
/// refused, in a store that refuses one write, which is counted from 1, or none at 0.
fn leaves_at_all<O>(alloc: Global, option: O, set: usize, want: &str) -> bool
where
    O: CellOption<Refusing<Flat>, ()> + Drop,
    requires { O.can_change option }
{
    let Ok(store) = two_rows(alloc) else {
        return false;
    };
    let mut store = Refusing::new(store, 0, set);
    let done = apply_to(alloc, option, &mut store, &mut (), Entity::Global);
    is_left(alloc, &store, done, want)
}

/// Whether a store has these texts, with `!` after them where a call was refused.
fn is_left(
    alloc: Global,
    store: &Refusing<Flat>,
    done: Result<(), AllocError>,
    want: &str,
) -> bool {
    match want.strip_suffix('!') {
        Some(texts) => done.is_err() && spells(alloc, store, texts),
        None => done.is_ok() && spells(alloc, store, want),
    }
}

#[test]
fn writers_keep_what_they_wrote(rt: HostRuntime) -> Result<(), Fail> {
    let alloc = rt.alloc();
    for &(set, want) in &[
        (1, "a b / c d /!"),
        (2, "x b / c d /!"),
        (3, "x x / c d /!"),
        (4, "x x / x d /!"),
        (5, "x x / x x /"),
    ] {
        let text = String::from_str(alloc, "x")?;
        assert!(rt; leaves_at_all(alloc, text, set, want));
        assert!(rt; leaves_at_all(alloc, TextRef("x"), set, want));
    }
    assert!(rt; leaves_at_all(alloc, EmptySettings, 1, "a b / c d /"));
    Ok(())
}

#[test]
fn lists_keep_what_was_written(rt: HostRuntime) {
    let alloc = rt.alloc();
    let entities = [Entity::Row(1), Entity::Cell(0, 5), Entity::Row(0)];
    for &(set, want) in &[
        (1, "a b / c d /!"),
        (2, "a b / x d /!"),
        (3, "a b / x x /!"),
        (4, "x b / x x /!"),
        (5, "x x / x x /"),
    ] {
        let listed = Modify::list(listed(alloc, &entities), TextRef("x"));
        assert!(rt; leaves(alloc, listed, 0, set, want));
    }
}

#[test]
fn options_keep_the_rows_pushed(rt: HostRuntime) {
    for &(growth, want) in &[
        (1, "a b / c d /!"),
        (2, "a b / c d / _ _ /!"),
        (3, "a b / c d / _ _ / _ _ /!"),
        (4, "a b / c d / _ _ / _ _ / _ _ /"),
    ] {
        let settings = Settings::new(PushRow, Settings::new(PushRow, PushRow));
        assert!(rt; leaves(rt.alloc(), settings, growth, 0, want));
    }
}
