//! What a selector names in a table, with the entities outside of it counted and not listed.

ghost use Rattle.std.specs.Prelude.{◌≡◌, ◌++◌, IfOk, OnOk, map};
ghost use Rattle.tabled_grid.specs.Bounds.{indexes};
ghost use Rattle.tabled_select.specs.Selectors.{columns_of, rows_of};
ghost use Rattle.tabled_steps.specs.Groups.{AreGroupedIn, Skips, StepsBy, groups_of, groups_outside, once, representatives_of, row_groups, segment_cells, segment_groups};
ghost use Rattle.tabled_steps.specs.Selected.{half_open};

use std::alloc::{AllocError, Global};
use tabled_grid::config::Entity;
use tabled_grid::records::{ExactRecords, Records};
use tabled_select::object::{Columns, EntityList, ObjectIterator, Rows, Segment, entities};

/// Neighbours among the entities that a selector names: one alone, or some that have no cell in the table. An
/// entity stands for them.
#[derive(Debug, Clone, Copy)]
pub(crate) struct Group {
    pub(crate) entity: Entity,
    pub(crate) count: u128,
}

/// What a selector names in a table, in order, as groups.
#[derive(Debug, Drop)]
pub(crate) enum Groups {
    /// Each entity is a group.
    Each(Vec<Entity>),
    /// Groups of some entities.
    Counted(Vec<Group>),
}

impl Groups {
    /// The entities that stand for the groups.
    pub(crate) fn into_representatives(self, alloc: Global) -> Result<Vec<Entity>, AllocError>
        ensures { IfOk result (λ all. all.items ≡ representatives_of (groups_of self)) }
    {
        match self {
            Groups::Each(entities) => Ok(entities),
            Groups::Counted(groups) => representatives(alloc, groups),
        }
    }

    /// What is named without the first n.
    pub(crate) fn skip<R>(self, alloc: Global, records: &R, n: usize) -> Result<Groups, AllocError>
    where
        R: Records + ExactRecords,
        requires well { R.is_well_formed records.now }
        ensures { IfOk result (λ left. Skips n (groups_of self) (groups_of left)) }
    {
        match self {
            Groups::Each(listed) => Ok(Groups::Each(entities(
                alloc,
                &EntityList(listed).skip(n),
                records,
            )?)),
            Groups::Counted(groups) => Ok(Groups::Counted(skip_counted(alloc, groups, n as u128)?)),
        }
    }

    /// Of what is named the entities 0, n, 2n and so on.
    pub(crate) fn step_by<R>(
        self,
        alloc: Global,
        records: &R,
        n: usize,
    ) -> Result<Groups, AllocError>
    where
        R: Records + ExactRecords,
        requires well { R.is_well_formed records.now }
        ensures { IfOk result (λ left. StepsBy n (groups_of self) (groups_of left)) }
    {
        match self {
            Groups::Each(listed) => Ok(Groups::Each(entities(
                alloc,
                &EntityList(listed).step_by(n),
                records,
            )?)),
            Groups::Counted(groups) => Ok(Groups::Counted(step_counted(alloc, groups, n as u128)?)),
        }
    }
}

/// The entities that stand for groups.
fn representatives(alloc: Global, groups: Vec<Group>) -> Result<Vec<Entity>, AllocError>
    ensures { IfOk result (λ all. all.items ≡ representatives_of groups.items) }
{
    let mut all = Vec::with_capacity(alloc, groups.len())?;
    for group in groups {
        all.push(group.entity)?;
    }
    Ok(all)
}

/// Groups without their first n entities.
fn skip_counted(alloc: Global, groups: Vec<Group>, n: u128) -> Result<Vec<Group>, AllocError>
    ensures { IfOk result (λ left. Skips n groups.items left.items) }
{
    let mut ahead = n;
    let mut left = Vec::new(alloc);
    for group in groups {
        if group.count <= ahead {
            ahead -= group.count;
        } else {
            left.push(Group {
                entity: group.entity,
                count: group.count - ahead,
            })?;
            ahead = 0;
        }
    }
    Ok(left)
}

/// Groups of the entities 0, n, 2n and so on of those in groups.
fn step_counted(alloc: Global, groups: Vec<Group>, n: u128) -> Result<Vec<Group>, AllocError>
    ensures { IfOk result (λ left. StepsBy n groups.items left.items) }
{
    let mut left = Vec::new(alloc);
    if n == 0 {
        return Ok(left);
    }
    let mut ahead = 0;
    for group in groups {
        if group.count <= ahead {
            ahead -= group.count;
        } else {
            let more = group.count - ahead - 1;
            left.push(Group {
                entity: group.entity,
                count: more / n + 1,
            })?;
            ahead = n - 1 - more % n;
        }
    }
    Ok(left)
}

/// Adds a group of n entities outside of any table, or none.
fn push_outside(groups: &mut Vec<Group>, count: u128) -> Result<(), AllocError>
    ensures { OnOk result (groups.new.items ≡ groups.old.items ++ groups_outside count) }
{
    if count == 0 {
        return Ok(());
    }
    groups.push(Group {
        entity: Entity::Cell(usize::MAX, usize::MAX),
        count,
    })?;
    Ok(())
}

/// Entities one by one, and then n that are outside.
fn with_outside(alloc: Global, entities: Vec<Entity>, count: usize) -> Result<Groups, AllocError>
    ensures { IfOk result (λ groups. groups_of groups ≡ map once entities.items ++ groups_outside count) }
{
    if count == 0 {
        return Ok(Groups::Each(entities));
    }
    let mut groups = Vec::with_capacity(alloc, entities.len().saturating_add(1))?;
    for entity in entities {
        groups.push(Group { entity, count: 1 })?;
    }
    push_outside(&mut groups, count as u128)?;
    Ok(Groups::Counted(groups))
}

/// The rows of a range, those past the last row counted.
pub(crate) fn group_rows<R>(
    alloc: Global,
    records: &R,
    start: usize,
    end: usize,
) -> Result<Groups, AllocError>
where
    R: Records + ExactRecords,
    requires well { R.is_well_formed records.now }
    ensures { IfOk result (AreGroupedIn (R.grid records.now) (rows_of (indexes (half_open start end) (R.grid records.now).rows))) }
{
    let count = records.count_rows();
    let inside = entities(alloc, &Rows::new(start..end.min(count)), records)?;
    with_outside(alloc, inside, end.saturating_sub(start.max(count)))
}

/// The columns of a range, those past the last column counted.
pub(crate) fn group_columns<R>(
    alloc: Global,
    records: &R,
    start: usize,
    end: usize,
) -> Result<Groups, AllocError>
where
    R: Records + ExactRecords,
    requires well { R.is_well_formed records.now }
    ensures { IfOk result (AreGroupedIn (R.grid records.now) (columns_of (indexes (half_open start end) (R.grid records.now).columns))) }
{
    let count = records.count_columns();
    let inside = entities(alloc, &Columns::new(start..end.min(count)), records)?;
    with_outside(alloc, inside, end.saturating_sub(start.max(count)))
}

/// The cells of a range of rows and a range of columns, those outside counted.
pub(crate) fn group_segment<R>(
    alloc: Global,
    records: &R,
    rows: (usize, usize),
    columns: (usize, usize),
) -> Result<Groups, AllocError>
where
    R: Records + ExactRecords,
    requires well { R.is_well_formed records.now }
    ensures { IfOk result (AreGroupedIn (R.grid records.now) (segment_cells rows columns)) }
{
    let (all_rows, all_columns) = (records.count_rows(), records.count_columns());
    if rows.1 <= all_rows && columns.1 <= all_columns {
        let segment = Segment::new(rows.0..rows.1, columns.0..columns.1);
        return Ok(Groups::Each(entities(alloc, &segment, records)?));
    }
    let within = columns.1.min(all_columns);
    let rows_within = if columns.0 < within {
        rows.1.min(all_rows)
    } else {
        rows.0
    };
    Ok(Groups::Counted(segment_parts(alloc, rows, rows_within, columns, within)?))
}

/// Adds the cells of row `i` of a range of columns, of which those from the column `within` on are outside.
fn push_row(
    groups: &mut Vec<Group>,
    i: usize,
    columns: (usize, usize),
    within: usize,
) -> Result<(), AllocError>
    ensures { OnOk result (groups.new.items ≡ groups.old.items ++ row_groups columns within i) }
{
    for j in columns.0..within {
        groups.push(Group {
            entity: Entity::Cell(i, j),
            count: 1,
        })?;
    }
    push_outside(groups, columns.1.saturating_sub(within) as u128)
}

/// The cells of a range of rows and a range of columns, of which those from the row `rows_within` and from
/// the column `within` on are outside.
fn segment_parts(
    alloc: Global,
    rows: (usize, usize),
    rows_within: usize,
    columns: (usize, usize),
    within: usize,
) -> Result<Vec<Group>, AllocError>
    ensures { IfOk result (λ groups. groups.items ≡ segment_groups rows rows_within columns within) }
{
    let mut groups = Vec::new(alloc);
    for i in rows.0..rows_within {
        push_row(&mut groups, i, columns, within)?;
    }
    let tall = rows.1.saturating_sub(rows.0.max(rows_within));
    let wide = columns.1.saturating_sub(columns.0);
    push_outside(&mut groups, tall as u128 * wide as u128)?;
    Ok(groups)
}
