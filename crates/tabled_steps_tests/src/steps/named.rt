//! Lines that are kept, in the order in which they are named, and rows that are sorted.

use super::case::ends;
use super::worded::steps;
use std::alloc::Global;
use tabled_testing::flat;

const CASES: &[&str] = &[
    // By indexes and slices, from either end, each line once.
    "a / b / c / | keep rows 2 0 | in place | c / a /",
    "a / b / c / | keep rows 2 0 2 1 0 | in place | c / a / b /",
    "a / b / c / | keep rows -1 | in place | c /",
    "a / b / c / | keep rows -3 -4 | in place | a /",
    "a / b / c / | keep rows -0 00 | in place | a /",
    "a / b / c / | keep rows 0 -2: | in place | a / b / c /",
    "a / b / c / d / | keep rows 0 -1: | in place | a / d /",
    "a / b / c / d / | keep rows 1:3 | in place | b / c /",
    "a / b / c / d / | keep rows :-1 | in place | a / b / c /",
    "a / b / c / d / | keep rows -9:2 3:18446744073709551615 | in place | a / b / d /",
    "a / b / c / d / | keep rows 3:1 -1:1 2:2 0 | in place | a /",
    "a / b / c / | keep rows : | in place | a / b / c /",
    "a / b / c / | keep rows 5 18446744073709551615 -18446744073709551615 | ",
    "a b c / d e f / | keep columns -1 0 | in place | c a / f d /",
    "a b c / d e f / | keep columns 1: 0 | in place | b c a / e f d /",
    "a b c / d e f / | keep columns 9 | / /",
    " | keep rows 0 | ",
    " | keep columns : | ",
    // By names.
    "n m n / 1 2 3 / | keep columns m | in place | m / 2 /",
    "n m n / 1 2 3 / | keep columns n | in place | n n / 1 3 /",
    "n m o / 1 2 3 / | keep columns o 0 m | in place | o n m / 3 1 2 /",
    "n 1 =n / 2 3 4 / | keep columns =1 ==n | in place | 1 =n / 3 4 /",
    "1: -1 a:b / 2 3 4 / | keep columns a:b =-1 =1: | in place | a:b -1 1: / 4 3 2 /",
    "+1 1.5 - / 2 3 4 / | keep columns - 1.5 +1 | in place | - 1.5 +1 / 4 3 2 /",
    "n m / 1 2 / | keep columns x | / /",
    // By tests of texts.
    "n m / a 1 / b 2 / a 3 / | keep rows n=a | in place | a 1 / a 3 /",
    "n m / a 1 / b 2 / a 3 / | keep rows 0 n!=a | in place | n m / b 2 /",
    "n m / a 1 / b 2 / a 3 / | keep rows m>=2 0 | in place | b 2 / a 3 / n m /",
    "n m / a 1 / b 2.0 / a x / | keep rows m<2 m<=2 | in place | a 1 / b 2.0 /",
    "n m / a -1 / b +.5 / a 0 / | keep rows m>-0 m<0.0 | in place | b +.5 / a -1 /",
    "n n / 1 2 / 2 1 / | keep rows n=1 | in place | 1 2 /",
    "n n / 1 2 / 2 1 / | keep rows n!=1 | in place | 2 1 /",
    "n / =a / !b / | keep rows n==a n=!b | in place | =a / !b /",
    "n / a / | keep rows m=a m!=b | ",
    "1:2 / a / b / | keep rows 1:2=b | in place | b /",
    // Merged cells go along, or come apart.
    "a b c / d e f / 0.0:1x2 | keep columns 2 0 1 | in place | c a b / f d e / 0.1:1x2",
    "a b c / d e f / 0.0:1x2 | keep columns 0 2 | in place | a c / d f /",
    "a b / c d / e f / 0.0:2x1 | keep rows 2 1 0 | in place | e f / c d / a b / 1.0:2x1",
    "a b / c d / e f / 0.0:3x1 | keep rows 2 1 | in place | e f / c d /",
    // Sorts.
    "n / b / a / c / | sort rows 1 0 text | in place | n / a / b / c /",
    "n / b / a / c / | sort rows 0 0 text down | in place | n / c / b / a /",
    "n m / a 10 / b 9 / c ? / d 9.0 / | sort rows 1 m number | in place | n m / b 9 / d 9.0 / a 10 / c ? /",
    "n m / a 10 / b 9 / c ? / d 9.0 / | sort rows 1 1 number down | in place | n m / a 10 / b 9 / d 9.0 / c ? /",
    "1 0 / a d / b c / | sort rows 1 =0 text | in place | 1 0 / b c / a d /",
    "1 0 / a d / b c / | sort rows 1 00 text down | in place | 1 0 / b c / a d /",
    "n / b / a / | sort rows 2 n text | in place | n / b / a /",
    "n / b / a / | sort rows 1 m text | in place | n / b / a /",
    "n / b / a / | sort rows 18446744073709551615 18446744073709551615 text | in place | n / b / a /",
    " | sort rows 0 0 number | in place | ",
    "n / c / a / b / 1.0:2x1 | sort rows 1 n text | in place | n / a / b / c /",
    "n x / c 1 / a 2 / b 3 / 1.0:1x2 | sort rows 1 n text | in place | n x / a 2 / b 3 / c 1 / 3.0:1x2",
];

#[test]
fn named_lines(rt: HostRuntime) {
    for case in CASES.iter() {
        assert!(rt; ends(rt.alloc(), *case) == Some(true), "{case}");
    }
}

/// Whether the step of these words names nothing in a table.
fn is_idle(alloc: Global, table: &str, words: &str) -> Option<bool> {
    let table = flat(alloc, table).ok()?;
    let step = steps(alloc, words)?.pop()?;
    step.names_nothing(alloc, &table).ok()
}

/// Tables, steps, and whether these name nothing there.
const NAMING: &[&str] = &[
    "n m / a 1 / b 2 / | keep rows 0 | something",
    "n m / a 1 / b 2 / | keep rows 3 9: -4 | nothing",
    "n m / a 1 / b 2 / | keep rows 3 2 | something",
    "n m / a 1 / b 2 / | keep rows n=b | something",
    "n m / a 1 / b 2 / | keep rows n=c o=a m>2 | nothing",
    "n m / a 1 / b 2 / | keep columns m | something",
    "n m / a 1 / b 2 / | keep columns 1 | something",
    "n m / a 1 / b 2 / | keep columns o 2 | nothing",
    "/ / | keep rows 0 | nothing",
    " | keep columns : | nothing",
    "n m / a 1 / b 2 / | sort rows 1 m number | something",
    "n m / a 1 / b 2 / | sort rows 2 1 text | something",
    "n m / a 1 / b 2 / | sort rows 3 1 text | nothing",
    "n m / a 1 / b 2 / | sort rows 1 2 text | nothing",
    "n m / a 1 / b 2 / | sort rows 1 o text down | nothing",
];

/// Whether a step names as much as its case says.
fn names(alloc: Global, case: &str) -> Option<bool> {
    let (table, rest) = case.split_once(" | ")?;
    let (words, named) = rest.split_once(" | ")?;
    Some(is_idle(alloc, table, words)? == (named == "nothing"))
}

#[test]
fn some_name_nothing(rt: HostRuntime) {
    for &case in NAMING {
        assert!(rt; names(rt.alloc(), case) == Some(true), "{case}");
    }
}
