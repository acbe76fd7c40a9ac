//! Merged cells fit after each call that keeps them fitting.

ghost use Rattle.tabled_grid.specs.Fitting.{Fits};

use std::alloc::{AllocError, Global};
use std::test::Fail;
use tabled_grid::config::{Position, SpannedConfig};
use tabled_grid::records::{
    CellText, ExactRecords, PeekableRecords, Records, RecordsMut, Resizable,
};
use tabled_testing::flat;
use tabled_uses::geometry::{
    frames, runs_fitting_steps, spans_back, widens_and_merges, writes_and_spans,
};
use tabled_uses::writers::{shortens_all, wraps_all, writes_all};

#[derive(Clone, Copy)]
enum Call {
    Steps,
    Texts,
    Frames,
    Lines,
    Writers,
    Wraps,
    Shortens,
}

fn make<R>(
    alloc: Global,
    records: &mut R,
    cfg: &mut SpannedConfig,
    call: Call,
) -> Result<(), AllocError>
where
    R: Records + ExactRecords + PeekableRecords + RecordsMut<String> + Resizable,
    R::Cell: CellText,
    requires well { R.is_well_formed records.old }
    requires fits { Fits cfg.old ((R.grid records.old).rows) ((R.grid records.old).columns) }
    ensures { R.is_well_formed records.new }
{
    match call {
        Call::Steps => {
            runs_fitting_steps(alloc, records, cfg)?;
            Ok(())
        }
        Call::Texts => writes_and_spans(alloc, records, cfg, String::from_str(alloc, "x")?),
        Call::Frames => frames(alloc, records, cfg, "x"),
        Call::Lines => widens_and_merges(alloc, records, cfg, "x"),
        Call::Writers => writes_all(alloc, records, cfg),
        Call::Wraps => wraps_all(alloc, records, cfg, 1),
        Call::Shortens => shortens_all(alloc, records, cfg, "a", 1),
    }
}

/// The rows and columns of a table, and the height and the width of its first cell, if merged cells fit.
type Fitted = Option<(usize, usize, usize, usize)>;

fn seen(shape: (usize, usize), cfg: &SpannedConfig) -> Fitted {
    let (rows, columns) = shape;
    if !cfg.fits(rows, columns) {
        return None;
    }
    let first = Position::new(0, 0);
    let height = cfg.get_row_span(first).unwrap_or(1);
    let width = cfg.get_column_span(first).unwrap_or(1);
    Some((rows, columns, height, width))
}

/// What a call makes of a table, if merged cells fit before.
fn made<R>(alloc: Global, mut records: R, call: Call) -> Result<Fitted, AllocError>
where
    R: Records + ExactRecords + PeekableRecords + RecordsMut<String> + Resizable + Drop,
    R::Cell: CellText,
    requires { R.is_well_formed records }
{
    let mut cfg = SpannedConfig::new(alloc);
    if !cfg.fits(records.count_rows(), records.count_columns()) {
        return Ok(None);
    }
    make(alloc, &mut records, &mut cfg, call)?;
    Ok(seen((records.count_rows(), records.count_columns()), &cfg))
}

const BLANKS: &str = "_ _ _ / _ _ _ /";

/// What spans back make of blanks.
fn spanned_back(alloc: Global) -> Result<Fitted, AllocError> {
    let mut records = flat(alloc, BLANKS)?;
    let mut cfg = SpannedConfig::new(alloc);
    if !cfg.fits(records.count_rows(), records.count_columns()) {
        return Ok(None);
    }
    spans_back(alloc, &mut records, &mut cfg)?;
    Ok(seen((records.count_rows(), records.count_columns()), &cfg))
}

#[test]
fn merged_cells_fit_after_each_call(rt: HostRuntime) -> Result<(), Fail> {
    for (call, wanted) in [
        (Call::Steps, (3, 3, 3, 1)),
        (Call::Texts, (2, 3, 2, 1)),
        (Call::Frames, (6, 3, 1, 3)),
        (Call::Lines, (3, 4, 2, 1)),
        (Call::Writers, (2, 3, 1, 1)),
        (Call::Wraps, (2, 3, 1, 1)),
        (Call::Shortens, (2, 3, 1, 1)),
    ] {
        let made = made(rt.alloc(), flat(rt.alloc(), BLANKS)?, call)?;
        assert!(rt; made == Some(wanted), "{wanted:?}");
    }
    Ok(())
}

#[test]
fn merged_cells_fit_after_spans_back(rt: HostRuntime) -> Result<(), Fail> {
    assert!(rt; spanned_back(rt.alloc())? == Some((2, 3, 1, 2)));
    Ok(())
}
