//! A table of languages, made and changed.

use super::call::{holds, texts};
use std::alloc::{AllocError, Global};
use std::collections::BTreeMap;
use std::test::Fail;
use tabled_grid::config::Position;
use tabled_select::object::{Columns, Object, Rows};
use tabled_table::builder::Builder;
use tabled_table::{Table, TextRef};

fn languages(alloc: Global) -> Result<Table, AllocError> {
    let mut builder = Builder::new(alloc);
    for record in ["Name Designer Year", "C Ritchie 1972", "Go Pike"] {
        builder.push_record(alloc, texts(alloc, record)?)?;
    }
    let mut table = builder.build(alloc)?;
    let corner = Rows::last().intersect(Columns::last());
    table.modify(alloc, corner, TextRef("2009"))?;
    Ok(table)
}

#[test]
fn builds_the_first_table(rt: HostRuntime) -> Result<(), Fail> {
    let alloc = rt.alloc();
    let table = languages(alloc)?;
    assert_eq!(rt; table.shape(), (3, 3));
    for &(col, text) in &[(0, "Go"), (1, "Pike"), (2, "2009")] {
        assert_eq!(rt;
            table.get_records().get(Position::new(2, col)).as_str(),
            text
        );
    }
    Ok(())
}

/// Prices by their names, turned so that each name has a column.
fn prices(alloc: Global) -> Result<Builder, AllocError> {
    let mut prices = BTreeMap::new(alloc);
    for &(name, price) in &[("pear", 3), ("apple", 2)] {
        prices.insert(name, price)?;
    }
    let mut builder = Builder::from_btree_map(alloc, prices)?;
    builder.insert_record(alloc, 0, texts(alloc, "fruit price")?)?;
    let turned = builder.index(alloc)?.column(alloc, 0)?.transpose(alloc)?;
    turned.into_builder(alloc)
}

#[test]
fn turns_a_table_by_its_index(rt: HostRuntime) {
    let alloc = rt.alloc();
    assert!(rt; holds(alloc, prices(alloc), 3, "fruit apple pear / price 2 3 /"));
}
