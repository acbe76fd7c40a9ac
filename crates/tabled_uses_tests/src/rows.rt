//! Rows of cells: limited, skipped, read ahead, lent, and made as they are asked for.

use std::alloc::{AllocError, Global};
use std::test::Fail;
use tabled_grid::records::{Resizable, Text, VecRecords};
use tabled_rows::records::{EitherString, EmptyRecords};
use tabled_testing::is_word;
use tabled_uses::rows::{empty, lent, limited, lines, lines_ahead, read_ahead, skipped};
use tabled_uses::stores::fruits;

const MAX: usize = usize::MAX;

/// The three rows of the callers, spelled.
const ROWS: &str = "[a][b][c]|[d][e][f]|[g][h][i]|";

#[test]
fn limits(rt: HostRuntime) {
    for &(rows, columns, skip, want) in &[
        (2, 1, 0, "[a]|[d]|"),
        (MAX, MAX, 5, ""),
        (MAX, MAX, 0, ROWS),
        (3, 3, 0, ROWS),
        (4, 4, 0, ROWS),
        (0, MAX, 0, ""),
        (MAX, 0, 0, "|||"),
        (2, 0, 1, "|"),
        (MAX, MAX, 3, ""),
        (MAX, MAX, 2, "[g][h][i]|"),
        (2, 2, 1, "[d][e]|"),
        (2, MAX, 2, ""),
        (MAX, MAX, MAX, ""),
    ] {
        assert!(rt;
            is_word(limited(rt.alloc(), rows, columns, skip), want),
            "{want:?}"
        );
    }
}

#[test]
fn skips(rt: HostRuntime) {
    for &(skip, rows, want) in &[
        (1, 1, "[d][e][f]|"),
        (0, 2, "[a][b][c]|[d][e][f]|"),
        (2, MAX, "[g][h][i]|"),
        (3, 1, ""),
        (0, 0, ""),
        (MAX, MAX, ""),
    ] {
        assert!(rt; is_word(skipped(rt.alloc(), skip, rows), want), "{want:?}");
    }
}

/// Whether so many rows were read ahead, and these were given.
fn reads(
    ahead: Result<(usize, String), AllocError>,
    want: usize,
    rows: &str,
) -> Result<bool, AllocError> {
    let (count, given) = ahead?;
    Ok(count == want && given.as_str() == rows)
}

#[test]
fn reads_ahead(rt: HostRuntime) -> Result<(), Fail> {
    for &(rows, want) in &[(0, 0), (1, 1), (2, 2), (3, 3), (4, 3), (MAX, 3)] {
        assert!(rt; reads(read_ahead(rt.alloc(), rows), want, ROWS)?, "{rows}");
    }
    let (text, words) = ("a b c\nd\n\ne f", "[a][b][c]|[d]||[e][f]|");
    for &(rows, want) in &[(0, 0), (1, 1), (3, 3), (4, 4), (5, 4), (MAX, 4)] {
        let ahead = lines_ahead(rt.alloc(), text, rows);
        assert!(rt; reads(ahead, want, words)?, "{rows}");
    }
    Ok(())
}

/// The rows of a lent store of r rows and c columns of blanks.
fn lent_blanks(alloc: Global, rows: usize, columns: usize) -> Result<String, AllocError> {
    let mut store: VecRecords<Text<String>> = VecRecords::new(alloc, Vec::new(alloc))?;
    store.push_rows(alloc, rows)?;
    store.push_columns(alloc, columns)?;
    lent(alloc, &store)
}

#[test]
fn lends_rows(rt: HostRuntime) -> Result<(), Fail> {
    for &(rows, columns, want) in &[(0, 0, ""), (2, 0, "||"), (2, 1, "[]|[]|")] {
        assert!(rt;
            is_word(lent_blanks(rt.alloc(), rows, columns), want),
            "{want:?}"
        );
    }
    let fruits = fruits(rt.alloc())?;
    assert!(rt;
        is_word(
            lent(rt.alloc(), &fruits),
            "[Fruit][Count]|[Apple][3]|[Pear][5]|"
        )
    );
    Ok(())
}

#[test]
fn has_empty_rows(rt: HostRuntime) {
    for &(shape, want) in &[
        ((0, 3), "0 x 3: "),
        ((2, 0), "2 x 0: ||"),
        ((2, 3), "2 x 3: [][][]|[][][]|"),
        ((0, 0), "0 x 0: "),
        ((0, MAX), "0 x 18446744073709551615: "),
    ] {
        assert!(rt;
            is_word(empty(rt.alloc(), EmptyRecords::from(shape)), want),
            "{want:?}"
        );
    }
}

#[test]
fn compares_empty_records(rt: HostRuntime) {
    assert!(rt; EmptyRecords::default() == EmptyRecords::new(0, 0));
    assert!(rt; EmptyRecords::from((0, 3)) == EmptyRecords::new(0, 3));
    assert!(rt; EmptyRecords::new(1, 2) < EmptyRecords::new(2, 0));
}

#[test]
fn has_a_text_of_either_kind(rt: HostRuntime) -> Result<(), Fail> {
    let owned: EitherString<&str> = EitherString::Owned(String::from_str(rt.alloc(), "own")?);
    assert!(rt; owned.as_str() == "own");
    assert!(rt; EitherString::Some("lent").as_str() == "lent");
    Ok(())
}

#[test]
fn goes_through_rows_made_as_they_are_asked_for(rt: HostRuntime) {
    let text = "a b c\nd\n\ne f";
    for &(skip, limit, want) in &[
        (0, 9, "[a][b][c]|[d]||[e][f]|"),
        (1, 2, "[d]||"),
        (3, 2, "[e][f]|"),
        (4, 2, ""),
        (0, 0, ""),
    ] {
        assert!(rt;
            is_word(lines(rt.alloc(), text, skip, limit), want),
            "{want:?}"
        );
    }
}
