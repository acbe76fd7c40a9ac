//! Calls of builders and of tables to which memory is refused.
//!
//! With ample memory each call is made. `.ci/test_refusals` runs these tests, and refuses each allocation in turn.

use super::call::{Call, builder, spelled, texts};
use super::maps::{of_hashed_map, of_hashed_set, of_sorted_map, of_sorted_set};
use std::alloc::{AllocError, Global};
use std::test::Fail;
use tabled_grid::records::VecRecords;
use tabled_options::{Modify, TextRef};
use tabled_rows::records::BufRecords;
use tabled_select::object::Rows;
use tabled_table::builder::Builder;

/// A text that takes memory.
const LONG: &str = "more_than_15_bytes";

/// Makes a call, and says whether the builder is as it was if that is refused.
fn keeps(alloc: Global, call: Call, words: &str) -> Result<bool, AllocError> {
    let before = builder(alloc, "a b / c /")?;
    let mut after = builder(alloc, "a b / c /")?;
    after.set_empty(String::from_str(alloc, LONG)?);
    let given = texts(alloc, words)?;
    if call.make(alloc, &mut after, given).is_ok() {
        return Ok(true);
    }
    let same_width = before.count_columns() == after.count_columns();
    Ok(same_width && spelled(alloc, before)? == spelled(alloc, after)?)
}

#[test]
fn keeps_the_builder_at_a_refusal(rt: HostRuntime) {
    for &call in &[
        Call::PushRecord,
        Call::ExtendRecord,
        Call::InsertRecord(1),
        Call::PushColumn,
        Call::InsertColumn(1),
    ] {
        for words in ["x", "x y z"] {
            // Where the builder itself is refused, there is nothing to compare.
            assert!(rt; keeps(rt.alloc(), call, words) != Ok(false));
        }
    }
}

/// Writes texts by a call of a table, and says whether the first of them alone are written if that is refused.
fn keeps_what_it_wrote(alloc: Global, is_of_cells: bool) -> Result<bool, AllocError> {
    let mut table = builder(alloc, "a b / c d /")?.build(alloc)?;
    let made = if is_of_cells {
        table.modify(alloc, Rows::first(), TextRef(LONG))
    } else {
        table.with(alloc, Modify::list(Rows::first(), TextRef(LONG)))
    };
    let words = tabled_testing::spelled(alloc, table.get_records())?;
    let words = words.as_str();
    Ok(match made {
        Ok(()) => words == "more_than_15_bytes more_than_15_bytes / c d /",
        Err(_) => words == "a b / c d /" || words == "more_than_15_bytes b / c d /",
    })
}

#[test]
fn keeps_what_was_written_at_a_refusal(rt: HostRuntime) {
    for &is_of_cells in &[false, true] {
        assert!(rt; keeps_what_it_wrote(rt.alloc(), is_of_cells) != Ok(false));
    }
}

/// Makes the calls on rows that drop what they were given at a refusal.
fn consume_rows(alloc: Global) -> Result<(), AllocError> {
    let rows = vec![in alloc; texts(alloc, "a b")?]?;
    let rows = VecRecords::new(alloc, rows)?.into_rows(alloc)?;
    let strings = Builder::from_strings(alloc, rows)?.into_strings(alloc)?;
    let cells = Builder::from_rows(alloc, strings)?.into_cells();
    BufRecords::new(alloc, Builder::from_cells(alloc, cells)?.into_cells(), 1)?;
    Ok(())
}

/// Makes the calls on an index that drop what they were given at a refusal.
fn consume_index(alloc: Global) -> Result<(), AllocError> {
    let index = builder(alloc, "a b / c /")?.index(alloc)?;
    let turned = index.column(alloc, 1)?.transpose(alloc)?;
    turned.into_builder(alloc)?.index(alloc)?.build(alloc)?;
    Ok(())
}

/// Makes the calls on maps and sets that drop what they were given at a refusal.
fn consume_maps(alloc: Global) -> Result<(), AllocError> {
    of_sorted_map(alloc)?;
    of_hashed_map(alloc)?;
    of_sorted_set(alloc)?;
    of_hashed_set(alloc)?;
    Ok(())
}

/// Makes the calls in turn, up to the first that is refused.
fn consume(alloc: Global) -> Result<(), AllocError> {
    Builder::with_capacity(alloc, 2, 2)?;
    consume_rows(alloc)?;
    consume_index(alloc)?;
    consume_maps(alloc)
}

#[test]
fn ends_well_at_a_refusal(rt: HostRuntime) {
    // With memory this is Ok, and with a refusal it ends all the same.
    let _ = consume(rt.alloc());
}

#[test]
fn takes_what_it_is_given(rt: HostRuntime) -> Result<(), Fail> {
    consume(rt.alloc())?;
    Ok(())
}
