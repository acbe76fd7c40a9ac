//! Row numbers, put into tables, and refused.

use std::alloc::{AllocError, Global};
use std::test::Fail;
use tabled_grid::records::Refusing;
use tabled_options::TableOption;
use tabled_own_option::RowNumbers;
use tabled_table::{Settings, Table};
use tabled_testing::{flat, is_word, merged, spelled_merged, spells};

#[test]
fn numbers_tables(rt: HostRuntime) -> Result<(), Fail> {
    let alloc = rt.alloc();
    for &(records, once, twice) in &[
        ("a b / c d /", "1 a b / 2 c d /", "1 1 a b / 2 2 c d /"),
        ("a /", "1 a /", "1 1 a /"),
        ("", "", ""),
    ] {
        let mut table = Table::from_records(alloc, flat(alloc, records)?);
        table.with(alloc, RowNumbers)?;
        assert!(rt; spells(alloc, table.get_records(), once));
        let mut table = Table::from_records(alloc, flat(alloc, records)?);
        table.with(alloc, Settings::new(RowNumbers, RowNumbers))?;
        assert!(rt; spells(alloc, table.get_records(), twice));
    }
    Ok(())
}

/// A table with merged cells after row numbers, whose write of a number is refused.
fn refused_at(alloc: Global, set: usize) -> Result<String, AllocError> {
    let mut records = Refusing::new(flat(alloc, "a b / c d /")?, 0, set);
    let mut cfg = merged(alloc, "0.0:1x2")?;
    let done = RowNumbers.change(alloc, &mut records, &mut cfg, &mut ());
    if done.is_err() != (set > 0) {
        return Err(AllocError);
    }
    spelled_merged(alloc, &records.store, &cfg)
}

#[test]
fn takes_the_column_back_where_it_is_refused(rt: HostRuntime) -> Result<(), Fail> {
    let alloc = rt.alloc();
    for &(set, want) in &[
        (0, "1 a b / 2 c d / 0.1:1x2"),
        (1, "a b / c d / 0.0:1x2"),
        (2, "a b / c d / 0.0:1x2"),
    ] {
        assert!(rt; is_word(refused_at(alloc, set), want));
    }
    Ok(())
}
