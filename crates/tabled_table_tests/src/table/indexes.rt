//! Tables with an index.

use super::call::{builder, builds, holds};
use std::alloc::{AllocError, Global};
use std::test::Fail;
use tabled_table::builder::{Builder, IndexBuilder};

/// A call of an index.
#[derive(Clone, Copy)]
enum Turn {
    Hide,
    Name(&'static str),
    Unname,
    Column(usize),
    Transpose,
    Keep,
}

impl Turn {
    fn make(self, alloc: Global, index: IndexBuilder) -> Result<IndexBuilder, AllocError> {
        match self {
            Turn::Hide => Ok(index.hide()),
            Turn::Name(name) => Ok(index.name(Some(String::from_str(alloc, name)?))),
            Turn::Unname => Ok(index.name(None)),
            Turn::Column(column) => index.column(alloc, column),
            Turn::Transpose => index.transpose(alloc),
            Turn::Keep => Ok(index),
        }
    }
}

/// What two calls make of the index of a builder.
fn turned(alloc: Global, builder: Builder, turns: [Turn; 2]) -> Result<IndexBuilder, AllocError> {
    let [first, second] = turns;
    let index = first.make(alloc, IndexBuilder::from_builder(alloc, builder)?)?;
    second.make(alloc, index)
}

/// What two calls make of the index of records.
fn indexed(alloc: Global, records: &str, turns: [Turn; 2]) -> Result<IndexBuilder, AllocError> {
    turned(alloc, builder(alloc, records)?, turns)
}

#[test]
fn indexes_records(rt: HostRuntime) -> Result<(), Fail> {
    use Turn::*;
    let alloc = rt.alloc();
    let three = "i a b / 0 v w / 2 x y /";
    let values =
        "i column-1 column-2 column-3 / 0 value-1 value-2 value-3 / 1 value-4 value-5 value-6 / 2 value-7 value-8 value-9 /";
    for &(records, turns, columns, want) in &[
        (three, [Keep, Keep], 4, "_ i a b / 0 0 v w / 1 2 x y /"),
        (three, [Hide, Keep], 3, "i a b / 0 v w / 2 x y /"),
        (three, [Column(3), Keep], 4, "_ i a b / 0 0 v w / 1 2 x y /"),
        (
            three,
            [Column(1), Name("index")],
            3,
            "_ i b / index _ _ / v 0 w / x 2 y /",
        ),
        (three, [Column(1), Unname], 3, "_ i b / v 0 w / x 2 y /"),
        (three, [Column(1), Column(0)], 2, "_ b / i _ / 0 w / 2 y /"),
        (three, [Column(1), Transpose], 3, "a v x / i 0 2 / b w y /"),
        (
            three,
            [Transpose, Transpose],
            4,
            "_ i a b / 0 0 v w / 1 2 x y /",
        ),
        (three, [Column(1), Hide], 2, "i b / a _ / 0 w / 2 y /"),
        (
            values,
            [Column(1), Transpose],
            4,
            "column-1 value-1 value-4 value-7 / i 0 1 2 / column-2 value-2 value-5 value-8 / column-3 value-3 value-6 value-9 /",
        ),
        (
            "i column1 column2 / 0 value1 value2 /",
            [Column(1), Name("index")],
            3,
            "_ i column2 / index _ _ / value1 0 value2 /",
        ),
        ("h / v /", [Column(0), Hide], 0, "/ /"),
        ("a b /", [Transpose, Hide], 0, "/ / /"),
        ("/", [Keep, Keep], 0, ""),
        ("/", [Name("index"), Hide], 0, "/"),
        ("/", [Name("index"), Keep], 1, "_ / index /"),
    ] {
        let made = indexed(alloc, records, turns)?.into_builder(alloc);
        assert!(rt; holds(alloc, made, columns, want));
        let made = indexed(alloc, records, turns)?.build(alloc);
        assert!(rt; builds(alloc, made, columns, want));
    }
    Ok(())
}

/// What two calls make of the index of a builder with three columns and no records.
fn declared(alloc: Global, turns: [Turn; 2]) -> Result<IndexBuilder, AllocError> {
    turned(alloc, Builder::with_capacity(alloc, 0, 3)?, turns)
}

#[test]
fn indexes_nothing(rt: HostRuntime) -> Result<(), Fail> {
    use Turn::*;
    let alloc = rt.alloc();
    for &turns in &[[Name("n"), Keep], [Name("n"), Hide], [Column(0), Transpose]] {
        let made = declared(alloc, turns)?.into_builder(alloc);
        assert!(rt; holds(alloc, made, 0, ""));
        assert!(rt; builds(alloc, declared(alloc, turns)?.build(alloc), 0, ""));
        let made = indexed(alloc, "", turns)?.into_builder(alloc);
        assert!(rt; holds(alloc, made, 0, ""));
        assert!(rt; builds(alloc, indexed(alloc, "", turns)?.build(alloc), 0, ""));
    }
    Ok(())
}
