//! Spans of the least and of the greatest size, what spans print, and a text that is cut to the greatest width.

use super::tables::makes_flat;
use Many::{All, Exactly, Greatest, Least};
use SpanOf::{Columns, Rows};
use std::alloc::{AllocError, Global};
use std::test::Fail;
use tabled_grid::config::Entity::{self, Cell, Column, Row};
use tabled_grid::config::SpannedConfig;
use tabled_grid::records::{
    CellText, ExactRecords, PeekableRecords, Records, RecordsMut, Refusing,
};
use tabled_options::CellOption;
use tabled_spans::panel::Panel;
use tabled_spans::span::{ColumnSpan, RowSpan, Span};
use tabled_testing::{flat, is_word, merged, nested, spelled_merged};

#[derive(Clone, Copy)]
enum Many {
    Least,
    Greatest,
    All,
    Exactly(isize),
}

#[derive(Clone, Copy)]
enum SpanOf {
    Columns(Many),
    Rows(Many),
}

fn columns(many: Many) -> ColumnSpan {
    match many {
        Least => ColumnSpan::min(),
        Greatest => ColumnSpan::max(),
        All => ColumnSpan::spread(),
        Exactly(size) => Span::column(size),
    }
}

fn rows(many: Many) -> RowSpan {
    match many {
        Least => RowSpan::min(),
        Greatest => RowSpan::max(),
        All => RowSpan::spread(),
        Exactly(size) => Span::row(size),
    }
}

/// What a span on an entity makes of a table with merged cells, with `!` after it where it was refused.
fn spanned<R>(
    alloc: Global,
    mut records: R,
    mut cfg: SpannedConfig,
    span: SpanOf,
    entity: Entity,
) -> Result<String, AllocError>
where
    R: Records + ExactRecords + PeekableRecords + RecordsMut<String> + Drop,
    R::Cell: CellText,
    requires { R.is_well_formed records }
{
    let done = match span {
        Columns(many) => columns(many).change(alloc, &mut records, &mut cfg, entity),
        Rows(many) => rows(many).change(alloc, &mut records, &mut cfg, entity),
    };
    let mut words = spelled_merged(alloc, &records, &cfg)?;
    if done.is_err() {
        words.push('!')?;
    }
    Ok(words)
}

/// What a span makes of a table that is spelled, in a vector for each row.
fn spanned_nested(
    alloc: Global,
    old: &str,
    span: SpanOf,
    entity: Entity,
) -> Result<String, AllocError> {
    spanned(
        alloc,
        nested(alloc, old)?,
        merged(alloc, old)?,
        span,
        entity,
    )
}

/// What a span makes of it in one vector of cells that refuses its first growth, and one write, which is counted
/// from 1, or none at 0.
fn spanned_refusing(
    alloc: Global,
    old: &str,
    span: SpanOf,
    entity: Entity,
    set: usize,
) -> Result<String, AllocError> {
    let records = Refusing::new(flat(alloc, old)?, 1, set);
    spanned(alloc, records, merged(alloc, old)?, span, entity)
}

#[test]
fn the_least_and_the_greatest_span_end_at_the_table(rt: HostRuntime) {
    let alloc = rt.alloc();
    for &(old, span, entity, new) in &[
        ("a b c /", Columns(Least), Cell(0, 2), "c _ _ / 0.0:1x3"),
        ("a b c /", Columns(Greatest), Cell(0, 1), "a b c / 0.1:1x2"),
        ("a b c /", Columns(All), Cell(0, 1), "b _ _ / 0.0:1x3"),
        (
            "a / b / c /",
            Rows(Least),
            Cell(2, 0),
            "c / _ / _ / 0.0:3x1",
        ),
        (
            "a / b / c /",
            Rows(Greatest),
            Cell(1, 0),
            "a / b / c / 1.0:2x1",
        ),
        ("a / b / c /", Rows(All), Cell(1, 0), "b / _ / _ / 0.0:3x1"),
        ("a b c /", Rows(Exactly(2)), Column(usize::MAX), "a b c /"),
        (
            "a b c / d e f / g h i / 1.2:2x1",
            Columns(Exactly(isize::MAX)),
            Entity::Global,
            "a b c / d e f / g h i / 0.0:1x3 1.0:1x3",
        ),
        (
            "a b c / d e f / g h i / 2.1:1x2",
            Rows(Exactly(isize::MAX)),
            Entity::Global,
            "a b c / d e f / g h i / 0.0:3x1 0.1:3x1",
        ),
        (
            "a b c / d e f / g h i / 0.2:3x1",
            Columns(Exactly(isize::MAX)),
            Row(1),
            "a b c / d e f / g h i / 0.2:3x1",
        ),
    ] {
        assert!(rt;
            is_word(spanned_nested(alloc, old, span, entity), new),
            "{old}"
        );
        assert!(rt;
            is_word(spanned_refusing(alloc, old, span, entity, 0), new),
            "{old}"
        );
    }
}

#[test]
fn writes_of_the_least_span_are_refused_in_turn(rt: HostRuntime) {
    let alloc = rt.alloc();
    let least = Columns(Exactly(isize::MIN));
    for &(set, left) in &[
        (1, "a b c /!"),
        (2, "c b c /!"),
        (3, "c _ c /!"),
        (4, "c _ _ / 0.0:1x3"),
    ] {
        let made = spanned_refusing(alloc, "a b c /", least, Cell(0, 2), set);
        assert!(rt; is_word(made, left), "{left}");
    }
}

#[test]
fn panels_have_their_texts(rt: HostRuntime) -> Result<(), Fail> {
    let alloc = rt.alloc();
    let footer = Panel::footer(String::from_str(alloc, "end")?);
    assert!(rt; makes_flat(alloc, "a b /", footer, "a b / end _ / 1.0:1x2"));
    let row = Panel::horizontal(1, String::from_str(alloc, "mid")?);
    assert!(rt; makes_flat(alloc, "a b / c d /", row, "a b / mid _ / c d / 1.0:1x2"));
    // The greatest width cuts no text.
    let text = String::from_str(alloc, "123456789")?;
    let panel = Panel::vertical(0, text).width(alloc, usize::MAX)?;
    assert!(rt; makes_flat(alloc, "a /", panel, "123456789 a /"));
    Ok(())
}

#[test]
fn a_span_prints_as_a_span_of_columns_or_of_rows(rt: HostRuntime) {
    let (columns, rows) = (ColumnSpan::new(2), RowSpan::new(-1));
    let printed = format!(in rt.alloc(); "{columns:?}, {rows:?}");
    assert!(rt; is_word(printed, "ColumnSpan { size: 2 }, RowSpan { size: -1 }"));
}
