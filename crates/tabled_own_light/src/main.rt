//! Draws a table of its input with row numbers, by an option of its own that promises nothing.
#![tactic(auto)]

use std::alloc::{AllocError, Global};
use std::io;
use tabled_draw::draw;
use tabled_grid::config::{Entity, Position, SpannedConfig};
use tabled_grid::records::{Axis, CellText, ExactRecords, RecordsMut, Resizable};
use tabled_options::TableOption;
use tabled_table::builder::Builder;

fn main(rt: HostRuntime) -> io::Result<()> {
    let alloc = rt.alloc();
    let mut lines = Builder::new(alloc);
    for line in rt.lines(alloc) {
        lines.push_record(alloc, cells(alloc, line?.as_str())?)?;
    }
    let mut table = lines.build(alloc)?;
    table.with(alloc, RowNumbers)?;
    draw(
        alloc,
        &mut io::writer(&rt),
        table.get_records(),
        table.get_config(),
    )
}

/// The cells of a line.
fn cells(alloc: Global, line: &str) -> Result<Vec<String>, AllocError> {
    line.split('\t')
        .map(|text| String::from_str(alloc, text))
        .try_collect(alloc)
}

/// A first column of row numbers.
#[derive(Clone, Copy)]
struct RowNumbers;

impl<R, D> TableOption<R, SpannedConfig, D> for RowNumbers
where
    R: ExactRecords + Resizable + RecordsMut<String>,
    R::Cell: CellText,
{
    ghost use Rattle.std.proofs.Common.{rules};

    ghost does = { λ _ _ _ _ _. Unit {0} };

    ghost leaves = { λ _ _ _ _ _. Unit {0} };

    fn change(
        self,
        alloc: Global,
        records: &mut R,
        cfg: &mut SpannedConfig,
        _dimension: &mut D,
    ) -> Result<(), AllocError> {
        let rows = records.count_rows();
        records.insert_column(alloc, 0)?;
        cfg.shift(Axis::Columns, 0);
        for row in 0..rows {
            let number = (row + 1).to_string(alloc)?;
            records.set(alloc, Position::new(row, 0), number)?;
        }
        Ok(())
    }

    fn hint_change(&self) -> Option<Entity> {
        Some(Entity::Global)
    }

    ghost acts_like = { Prim.search rules };
}
