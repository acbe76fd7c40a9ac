//! The diagonal of tables, where they are changed.

use std::test::Fail;
use tabled_own_selector::Diagonal;
use tabled_select::object::Object;
use tabled_table::{Table, TextRef};
use tabled_testing::{flat, spells};

#[test]
fn writes_where_it_lies(rt: HostRuntime) -> Result<(), Fail> {
    let alloc = rt.alloc();
    for &(records, whole, others) in &[
        ("a b c / d e f /", "x b c / d x f /", "a x x / x e x /"),
        (
            "a b / c d / e f /",
            "x b / c x / e f /",
            "a x / x d / x x /",
        ),
        ("", "", ""),
    ] {
        let mut table = Table::from_records(alloc, flat(alloc, records)?);
        table.modify(alloc, Diagonal, TextRef("x"))?;
        assert!(rt; spells(alloc, table.get_records(), whole));
        let mut table = Table::from_records(alloc, flat(alloc, records)?);
        table.modify(alloc, Diagonal.inverse(), TextRef("x"))?;
        assert!(rt; spells(alloc, table.get_records(), others));
    }
    Ok(())
}
