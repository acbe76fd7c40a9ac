//! Merges of equal neighbours, among the cells of an entity and of a table.

use std::alloc::{AllocError, Global};
use std::test::Fail;
use tabled_grid::config::Entity::{self, Cell, Column, Row};
use tabled_grid::config::SpannedConfig;
use tabled_grid::records::Axis::{self, Columns, Rows};
use tabled_grid::records::{CellText, ExactRecords, PeekableRecords, Records};
use tabled_options::{CellOption, TableOption};
use tabled_spans::merge::Merge;
use tabled_testing::{flat, merged, nested, spelled_merged};

/// What a merge on an entity makes of a table with merged cells.
fn on_entity<R>(
    alloc: Global,
    mut records: R,
    mut cfg: SpannedConfig,
    axis: Axis,
    entity: Entity,
) -> Result<String, AllocError>
where
    R: Records + ExactRecords + PeekableRecords + Drop,
    R::Cell: CellText,
    requires { R.is_well_formed records }
{
    match axis {
        Rows => CellOption::change(Merge::vertical(), alloc, &mut records, &mut cfg, entity)?,
        Columns => CellOption::change(Merge::horizontal(), alloc, &mut records, &mut cfg, entity)?,
    }
    spelled_merged(alloc, &records, &cfg)
}

/// What a merge on several entities at once makes of a table with merged cells.
fn on_entities(
    alloc: Global,
    old: &str,
    axis: Axis,
    entities: &[Entity],
) -> Result<String, AllocError> {
    let (mut records, mut cfg) = (flat(alloc, old)?, merged(alloc, old)?);
    let entities = entities.to_vec(alloc)?.into_iter();
    match axis {
        Rows => {
            let merge = Merge::vertical();
            merge.change_at_once(alloc, &mut records, &mut cfg, entities)?;
        }
        Columns => {
            let merge = Merge::horizontal();
            merge.change_at_once(alloc, &mut records, &mut cfg, entities)?;
        }
    }
    spelled_merged(alloc, &records, &cfg)
}

/// What a merge makes of all of it.
fn on_table<R>(
    alloc: Global,
    mut records: R,
    mut cfg: SpannedConfig,
    axis: Axis,
) -> Result<String, AllocError>
where
    R: Records + ExactRecords + PeekableRecords + Drop,
    R::Cell: CellText,
    requires { R.is_well_formed records }
{
    match axis {
        Rows => TableOption::change(Merge::vertical(), alloc, &mut records, &mut cfg, &mut ())?,
        Columns => TableOption::change(
            Merge::horizontal(),
            alloc,
            &mut records,
            &mut cfg,
            &mut (),
        )?,
    }
    spelled_merged(alloc, &records, &cfg)
}

#[test]
fn merges_join_the_runs_of_an_entity(rt: HostRuntime) -> Result<(), Fail> {
    let alloc = rt.alloc();
    for &(old, axis, entity, new) in &[
        (
            "a a / a a / b a /",
            Rows,
            Column(0),
            "a a / a a / b a / 0.0:2x1",
        ),
        (
            "a a / a a / b a /",
            Rows,
            Column(1),
            "a a / a a / b a / 0.1:3x1",
        ),
        (
            "a a / a a / b a /",
            Columns,
            Row(1),
            "a a / a a / b a / 1.0:1x2",
        ),
        (
            "a a / a a / b a /",
            Rows,
            Entity::Global,
            "a a / a a / b a / 0.0:2x1 0.1:3x1",
        ),
        (
            "a a / a a / b a /",
            Columns,
            Entity::Global,
            "a a / a a / b a / 0.0:1x2 1.0:1x2",
        ),
        // The other pairings, and what lies outside.
        ("a a / a a /", Rows, Row(0), "a a / a a /"),
        ("a a / a a /", Columns, Column(0), "a a / a a /"),
        ("a a / a a /", Rows, Cell(0, 0), "a a / a a /"),
        ("a a / a a /", Columns, Cell(1, 1), "a a / a a /"),
        ("a a / a a /", Rows, Column(2), "a a / a a /"),
        ("a a / a a /", Columns, Row(usize::MAX), "a a / a a /"),
        ("", Rows, Column(0), ""),
        // Hidden cells and anchors end a run, also those that reach in from beside it.
        (
            "a a / a a / a a / a a / 2.0:1x2",
            Rows,
            Column(1),
            "a a / a a / a a / a a / 0.1:2x1 2.0:1x2",
        ),
        (
            "a a / a a / a a / a a / 2.0:1x2",
            Rows,
            Column(0),
            "a a / a a / a a / a a / 0.0:2x1 2.0:1x2",
        ),
        (
            "a a a a / a b b b / 0.1:2x1",
            Columns,
            Row(1),
            "a a a a / a b b b / 0.1:2x1 1.2:1x2",
        ),
    ] {
        let made = on_entity(alloc, flat(alloc, old)?, merged(alloc, old)?, axis, entity)?;
        let in_rows = on_entity(
            alloc,
            nested(alloc, old)?,
            merged(alloc, old)?,
            axis,
            entity,
        )?;
        assert!(rt;
            made.as_str() == new && in_rows.as_str() == new,
            "{old}: {made}"
        );
    }
    Ok(())
}

#[test]
fn a_merge_on_a_table_is_that_of_all_cells(rt: HostRuntime) -> Result<(), Fail> {
    let alloc = rt.alloc();
    for &old in &[
        "",
        "a /",
        "a a b / a c b / b b b /",
        "a a / a a / a a / a a / 2.0:1x2",
        "_ _ _ / _ _ _ / _ _ _ / 1.1:2x2",
    ] {
        for &axis in &[Rows, Columns] {
            let one = on_table(alloc, flat(alloc, old)?, merged(alloc, old)?, axis)?;
            let other = on_entity(
                alloc,
                flat(alloc, old)?,
                merged(alloc, old)?,
                axis,
                Entity::Global,
            )?;
            assert!(rt; one.as_str() == other.as_str(), "{old}");
        }
    }
    Ok(())
}

#[test]
fn merges_on_several_entities_are_made_at_once(rt: HostRuntime) -> Result<(), Fail> {
    let alloc = rt.alloc();
    let cases: &[(&str, Axis, &[Entity], &str)] = &[
        // Named twice, and out of order.
        (
            "a a / b b / c c /",
            Columns,
            &[Row(2), Row(0), Row(2)],
            "a a / b b / c c / 0.0:1x2 2.0:1x2",
        ),
        // A row, and then all.
        (
            "a a / b b / c d /",
            Columns,
            &[Row(1), Entity::Global, Row(0)],
            "a a / b b / c d / 0.0:1x2 1.0:1x2",
        ),
        // Merged cells are there, and what has no neighbours, or lies outside, is passed over.
        (
            "a a / a a / a a / 1.1:2x1",
            Rows,
            &[Column(1), Row(0), Cell(0, 0), Column(2), Column(0)],
            "a a / a a / a a / 0.0:3x1 1.1:2x1",
        ),
        (
            "a a / a a /",
            Rows,
            &[Row(0), Column(1), Column(usize::MAX)],
            "a a / a a / 0.1:2x1",
        ),
        ("a a / a a /", Rows, &[], "a a / a a /"),
    ];
    for &(old, axis, entities, new) in cases {
        let made = on_entities(alloc, old, axis, entities)?;
        assert!(rt; made.as_str() == new, "{old}: {made}");
    }
    Ok(())
}
