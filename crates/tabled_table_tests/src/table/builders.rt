//! Builders, call by call.

use super::call::{Call, builder, builds, holds, texts};
use std::alloc::{AllocError, Global};
use std::test::Fail;
use tabled_grid::config::Position;
use tabled_grid::records::Text;
use tabled_table::Table;
use tabled_table::builder::Builder;

/// Records padded with `-`.
fn padded(alloc: Global) -> Result<Builder, AllocError> {
    let mut padded = Builder::new(alloc);
    padded.set_empty(String::from_str(alloc, "-")?);
    for words in ["a b", "c", "d e f"] {
        padded.push_record(alloc, texts(alloc, words)?)?;
    }
    Ok(padded)
}

/// Records padded with `-`, above which stands one padded with nothing.
fn padded_twice(alloc: Global) -> Result<Builder, AllocError> {
    let mut padded = padded(alloc)?;
    padded.set_empty(String::new(alloc));
    padded.insert_record(alloc, 0, Vec::new(alloc))?;
    Ok(padded)
}

/// The records that a call makes of others, given words, where this is the empty text.
fn after(
    alloc: Global,
    (records, empty): (&str, &str),
    call: Call,
    words: &str,
) -> Result<Builder, AllocError> {
    let mut builder = builder(alloc, records)?;
    builder.set_empty(String::from_str(alloc, empty)?);
    call.make(alloc, &mut builder, texts(alloc, words)?)?;
    Ok(builder)
}

#[test]
fn inserts_texts(rt: HostRuntime) {
    let alloc = rt.alloc();
    let two = "a b / c _ /";
    for &(call, words, columns, want) in &[
        (Call::PushRecord, "x", 2, "a b / c _ / x - /"),
        (Call::ExtendRecord, "x y z", 3, "a b - / c _ - / x y z /"),
        (Call::InsertRecord(0), "x", 2, "x - / a b / c _ /"),
        (Call::InsertRecord(1), "x y z", 3, "a b - / x y z / c _ - /"),
        (Call::InsertRecord(2), "", 2, "a b / c _ / - - /"),
        (Call::PushColumn, "x y z", 3, "a b x / c _ y / - - z /"),
        (Call::PushColumn, "x", 3, "a b x / c _ - /"),
        (Call::InsertColumn(0), "x", 3, "x a b / - c _ /"),
        (Call::InsertColumn(1), "x y z", 3, "a x b / c y _ /"),
        (Call::InsertColumn(2), "", 3, "a b - / c _ - /"),
    ] {
        assert!(rt; holds(alloc, after(alloc, (two, "-"), call, words), columns, want));
    }
    for &(call, words, columns, want) in &[
        (Call::PushRecord, "x y", 2, "x y /"),
        (Call::PushColumn, "x y", 1, "x / y /"),
        (Call::PushColumn, "", 1, ""),
        (Call::InsertColumn(0), "x y", 1, ""),
    ] {
        assert!(rt; holds(alloc, after(alloc, ("", "-"), call, words), columns, want));
    }
    for &(call, words, want) in &[
        (Call::PushColumn, "x y z", "a x / b y / _ z /"),
        (Call::InsertColumn(0), "p", "p a / _ b /"),
        (Call::InsertColumn(0), "p q r", "p a / q b /"),
    ] {
        assert!(rt; holds(alloc, after(alloc, ("a / b /", ""), call, words), 2, want));
    }
    assert!(rt;
        holds(
            alloc,
            padded_twice(alloc),
            3,
            "_ _ _ / a b - / c - - / d e f /"
        )
    );
}

#[test]
fn refuses_more_columns_than_a_number_counts(rt: HostRuntime) -> Result<(), Fail> {
    let alloc = rt.alloc();
    let mut full = Builder::with_capacity(alloc, 0, usize::MAX)?;
    for &(call, words) in &[
        (Call::PushRecord, ""),
        (Call::ExtendRecord, "a"),
        (Call::InsertRecord(0), "a"),
        (Call::PushColumn, ""),
        (Call::InsertColumn(0), "a"),
    ] {
        assert!(rt; call.make(alloc, &mut full, texts(alloc, words)?).is_err());
        assert!(rt; full.count_columns() == usize::MAX && full.count_records() == 0);
    }
    Ok(())
}

/// A builder of records that is cleaned, of its padding `-` not.
fn cleaned(alloc: Global, records: &str) -> Result<Builder, AllocError> {
    let mut cleaned = builder(alloc, records)?;
    cleaned.set_empty(String::from_str(alloc, "-")?);
    cleaned.clean();
    Ok(cleaned)
}

#[test]
fn cleans(rt: HostRuntime) {
    let alloc = rt.alloc();
    for &(records, columns, want) in &[
        ("_ a / _ _ /", 1, "a /"),
        ("a _ b / _ _ _ /", 2, "a b /"),
        ("a _ / _ b /", 2, "a _ / _ b /"),
        ("a - / _ _ /", 2, "a - /"),
        ("_ _ / _ _ /", 0, ""),
    ] {
        assert!(rt; holds(alloc, cleaned(alloc, records), columns, want));
    }
    let mut declared = Builder::with_capacity(alloc, 0, 3);
    if let Ok(builder) = &mut declared {
        builder.clean();
    }
    assert!(rt; holds(alloc, declared, 0, ""));
}

/// The records `a b c / d e f` without the second column and the first record.
fn cut(alloc: Global) -> Result<Builder, AllocError> {
    let mut cut = builder(alloc, "a b c / d e f /")?;
    if cut.count_records() == 2 && cut.count_columns() == 3 {
        cut.remove_column(1);
        cut.remove_record(0);
    }
    Ok(cut)
}

/// A builder whose records were cleared.
fn cleared(alloc: Global) -> Result<Builder, AllocError> {
    let mut cleared = builder(alloc, "a /")?;
    cleared.clear();
    Ok(cleared)
}

/// The rows `a b / c / (none)`, each a vector of texts.
fn uneven(alloc: Global) -> Result<Vec<Vec<String>>, AllocError> {
    Ok(vec![in alloc; texts(alloc, "a b")?, texts(alloc, "c")?, Vec::new(alloc)]?)
}

fn of_strings(alloc: Global) -> Result<Builder, AllocError> {
    Builder::from_strings(alloc, uneven(alloc)?)
}

fn of_rows(alloc: Global) -> Result<Builder, AllocError> {
    Builder::from_rows(alloc, uneven(alloc)?)
}

/// Rows of cells, uneven at first, and then handed over even.
fn of_cells(alloc: Global) -> Result<Builder, AllocError> {
    let first = vec![in alloc; Text::new(String::from_str(alloc, "a")?)]?;
    let rows = vec![in alloc; first, Vec::new(alloc)]?;
    let even = Builder::from_cells(alloc, rows)?.into_cells();
    Ok(Builder::from_vec(alloc, even))
}

#[test]
fn makes_builders(rt: HostRuntime) {
    let alloc = rt.alloc();
    assert!(rt; holds(alloc, cut(alloc), 2, "d f /"));
    assert!(rt; holds(alloc, cleared(alloc), 0, ""));
    assert!(rt; holds(alloc, of_strings(alloc), 2, "a b / c _ / _ _ /"));
    assert!(rt; holds(alloc, of_rows(alloc), 2, "a b / c _ / _ _ /"));
    assert!(rt; holds(alloc, of_cells(alloc), 1, "a / _ /"));
    assert!(rt; holds(alloc, Ok(Builder::from_vec(alloc, Vec::new(alloc))), 0, ""));
}

/// Two languages, whose designers have names with blanks.
fn languages(alloc: Global) -> Result<Table, AllocError> {
    let mut builder = Builder::new(alloc);
    for record in ["C|Dennis Ritchie|1972", "Go|Rob Pike|2009"] {
        let texts: Vec<String> = record
            .split('|')
            .map(|text| String::from_str(alloc, text))
            .try_collect(alloc)?;
        builder.push_record(alloc, texts)?;
    }
    builder.build(alloc)
}

#[test]
fn builds_tables(rt: HostRuntime) -> Result<(), Fail> {
    let alloc = rt.alloc();
    let table = languages(alloc)?;
    assert_eq!(rt; table.shape(), (2, 3));
    assert!(rt; table.get_config().rectangles().is_empty());
    for &(col, first, second) in &[
        (0, "C", "Go"),
        (1, "Dennis Ritchie", "Rob Pike"),
        (2, "1972", "2009"),
    ] {
        let records = table.get_records();
        assert_eq!(rt; records.get(Position::new(0, col)).as_str(), first);
        assert_eq!(rt; records.get(Position::new(1, col)).as_str(), second);
    }
    assert!(rt;
        builds(
            alloc,
            padded(alloc)?.build(alloc),
            3,
            "a b - / c - - / d e f /"
        )
    );
    let declared = Builder::with_capacity(alloc, 2, 3)?;
    assert_eq!(rt; declared.build(alloc)?.shape(), (0, 0));
    Ok(())
}
