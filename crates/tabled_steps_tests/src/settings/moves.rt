//! Options that move rows and columns, by their own calls.

use super::tables::makes_flat;
use std::alloc::{AllocError, Global};
use std::test::Fail;
use tabled_grid::config::Offset::{End, Start};
use tabled_grid::config::SpannedConfig;
use tabled_grid::records::VecRecords;
use tabled_options::TableOption;
use tabled_settings::extract::Extract;
use tabled_settings::reverse::Reverse;
use tabled_settings::rotate::Rotate;
use tabled_settings::split::Split;

#[test]
fn rows_and_columns_are_moved(rt: HostRuntime) {
    let (alloc, old) = (rt.alloc(), "a b / c d /");
    for (rotate, new) in [
        (Rotate::Left, "b d / a c /"),
        (Rotate::Right, "c a / d b /"),
        (Rotate::Top, "c d / a b /"),
        (Rotate::Bottom, "c d / a b /"),
    ] {
        assert!(rt; makes_flat(alloc, old, rotate, new));
    }
    for &(split, new) in &[
        (Split::column(1).zip().clean(), "a / b / c / d /"),
        (Split::row(1).concat().retain(), "a b c d /"),
    ] {
        assert!(rt; makes_flat(alloc, old, split, new));
    }
    // Each three rows are joined and cut at five.
    let wide = "a b c d e / f g h i j /";
    let pieces = Split::column(2).zip().retain();
    let joined = (Split::row(1).concat().retain(), Split::column(6).retain());
    assert!(rt; makes_flat(alloc, wide, (pieces, joined, Extract::columns(..5)), wide));
}

/// The numbers from 0 to 8 in three rows, after a reversal.
fn reversed(alloc: Global, reverse: Reverse) -> Result<Vec<Vec<usize>>, AllocError> {
    let rows = vec![in alloc;
        vec![in alloc; 0, 1, 2]?,
        vec![in alloc; 3, 4, 5]?,
        vec![in alloc; 6, 7, 8]?,
    ]?;
    let mut numbers = VecRecords::new(alloc, rows)?;
    reverse.change(alloc, &mut numbers, &mut SpannedConfig::new(alloc), &mut ())?;
    numbers.into_rows(alloc)
}

#[test]
fn numbers_are_reversed(rt: HostRuntime) -> Result<(), Fail> {
    let alloc = rt.alloc();
    for &(reverse, numbers) in &[
        (Reverse::rows(0), [6, 7, 8, 3, 4, 5, 0, 1, 2]),
        (Reverse::columns(0), [2, 1, 0, 5, 4, 3, 8, 7, 6]),
        (
            Reverse::columns(0).limit(End(1)),
            [1, 0, 2, 4, 3, 5, 7, 6, 8],
        ),
    ] {
        let made = reversed(alloc, reverse)?.into_iter().flatten();
        assert!(rt; made.collect::<Vec<_>>(alloc)?.as_slice() == numbers.as_slice());
    }
    Ok(())
}

#[test]
fn reversals_are_ordered(rt: HostRuntime) {
    let reversals = [
        Reverse::rows(0).limit(Start(2)),
        Reverse::rows(0).limit(End(1)),
        Reverse::rows(1).limit(Start(0)),
        Reverse::columns(0).limit(Start(0)),
        Reverse::columns(0),
    ];
    assert!(rt; reversals.iter().is_sorted());
}
