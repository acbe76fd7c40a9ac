//! Tests of decimal numbers.

use crate::Decimal;
use std::cmp::Ordering;

/// Whether two texts are numbers in this order, from both sides.
fn compare_as(a: &str, b: &str, order: Ordering) -> bool {
    match (Decimal::parse(a), Decimal::parse(b)) {
        (Some(x), Some(y)) => x.cmp(&y) == order && y.cmp(&x) == order.reverse(),
        _ => false,
    }
}

#[test]
fn numbers_are_equal_whatever_their_zeros(rt: HostRuntime) {
    for &(a, b) in &[
        ("-0", "0"),
        (".0", "0."),
        ("1.50", "1.5"),
        ("007", "7"),
        ("+7", "7."),
        ("-00.10", "-.1"),
        ("100000000000000000000000.000", "100000000000000000000000"),
    ] {
        assert!(rt; compare_as(a, b, Ordering::Equal), "{a} {b}");
    }
}

#[test]
fn numbers_are_compared_exactly(rt: HostRuntime) {
    for &(a, b) in &[
        ("9", "10"),
        ("0.09", "0.1"),
        ("-10", "-9"),
        ("-1", "0"),
        ("-1", "-.999"),
        ("-0.5", ".5"),
        ("2.5", "10.25"),
        ("1.5", "1.50000000000000000000000000000000000001"),
        (
            "99999999999999999999999999999",
            "100000000000000000000000000000",
        ),
        ("9007199254740992", "9007199254740993"),
        ("-.30000000000000000000000001", "-0.3"),
    ] {
        assert!(rt; compare_as(a, b, Ordering::Less), "{a} {b}");
    }
}

/// Whether the number of a text is so many millionths.
fn has_millionths(text: &str, wanted: Option<i64>) -> bool {
    match Decimal::parse(text) {
        Some(number) => number.millionths() == wanted,
        None => false,
    }
}

#[test]
fn numbers_are_so_many_millionths(rt: HostRuntime) {
    for &(text, millionths) in &[
        ("1.5", Some(1_500_000)),
        ("-.000001", Some(-1)),
        ("-0", Some(0)),
        ("0000000000007.", Some(7_000_000)),
        ("-999999999999.999999", Some(-999_999_999_999_999_999)),
        ("1000000000000", None),
        ("0.0000000", None),
    ] {
        assert!(rt; has_millionths(text, millionths), "{text}");
    }
}

#[test]
fn other_texts_are_no_numbers(rt: HostRuntime) {
    for &text in &[
        "", "-", "+", ".", "-.", "1e3", "1.2.3", " 1", "1 ", "--1", "+-1", "1,000", "0x1", "1-",
        "½", "٣", "NaN",
    ] {
        assert!(rt; Decimal::parse(text).is_none(), "{text:?}");
    }
}
