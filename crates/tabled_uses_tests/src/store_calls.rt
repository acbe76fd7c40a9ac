//! Calls of stores that no option makes of each kind of store: each is done where memory is ample.

use std::alloc::{AllocError, Global};
use std::test::Fail;
use tabled_grid::config::Position;
use tabled_grid::records::{
    Axis, CellText, ExactRecords, PeekableRecords, Records, RecordsMut, Refusing, Resizable,
    VecRecords,
};
use tabled_testing::{is_word, spelled};
use tabled_uses::stores::two_rows;

/// What a store is after a lent text is written to its first cell.
fn written<R>(alloc: Global, mut records: R) -> Result<String, AllocError>
where
    R: Records + ExactRecords + PeekableRecords + RecordsMut<&'static str> + Drop,
    R::Cell: CellText,
    requires { R.is_well_formed records }
{
    if records.count_rows() > 0 && records.count_columns() > 0 {
        records.set(alloc, Position::new(0, 0), "x")?;
    }
    spelled(alloc, &records)
}

#[test]
fn writes_lent_texts(rt: HostRuntime) -> Result<(), Fail> {
    let alloc = rt.alloc();
    let want = "x b / c d /";
    let flat = VecRecords::new(alloc, two_rows(alloc)?)?;
    assert!(rt; is_word(written(alloc, flat), want));
    assert!(rt; is_word(written(alloc, two_rows(alloc)?), want));
    let around = Refusing::new(two_rows(alloc)?, 0, 0);
    assert!(rt; is_word(written(alloc, around), want));
    Ok(())
}

/// What a store is after two rows, or columns, are added at its end.
fn pushed<R>(alloc: Global, mut records: R, axis: Axis) -> Result<String, AllocError>
where
    R: Resizable + Records + ExactRecords + PeekableRecords + Drop,
    R::Cell: CellText,
    requires { R.is_well_formed records }
{
    records.push_lines(alloc, axis, 2)?;
    spelled(alloc, &records)
}

#[test]
fn pushes_lines_along_either_axis(rt: HostRuntime) -> Result<(), Fail> {
    let alloc = rt.alloc();
    for &(axis, want) in &[
        (Axis::Rows, "a b / c d / _ _ / _ _ /"),
        (Axis::Columns, "a b _ _ / c d _ _ /"),
    ] {
        let flat = VecRecords::new(alloc, two_rows(alloc)?)?;
        assert!(rt; is_word(pushed(alloc, flat, axis), want));
        assert!(rt; is_word(pushed(alloc, two_rows(alloc)?, axis), want));
        let around = Refusing::new(two_rows(alloc)?, 0, 0);
        assert!(rt; is_word(pushed(alloc, around, axis), want));
    }
    Ok(())
}

#[test]
fn copies_a_store_that_refuses(rt: HostRuntime) -> Result<(), Fail> {
    let alloc = rt.alloc();
    let numbers = vec![in alloc; vec![in alloc; 1_usize, 2]?]?;
    let around = Refusing::new(numbers, 1, 2);
    let copy = around.clone()?;
    assert!(rt; copy.growth == 1 && copy.set == 2);
    assert!(rt; copy.store == around.store);
    Ok(())
}
