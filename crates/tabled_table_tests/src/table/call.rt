//! Calls that builders are made by, and what a builder holds, as words.

use std::alloc::{AllocError, Global};
use tabled_table::Table;
use tabled_table::builder::Builder;
use tabled_testing::{is_word, push_word, spelled_merged};

/// Texts written as words, where `_` is an empty one.
pub(crate) fn texts(alloc: Global, words: &str) -> Result<Vec<String>, AllocError> {
    let mut texts = Vec::new(alloc);
    for word in words.split_whitespace() {
        texts.push(String::from_str(alloc, if word == "_" { "" } else { word })?)?;
    }
    Ok(texts)
}

/// A builder of records, spelled as a table whose rows may differ in length.
pub(crate) fn builder(alloc: Global, records: &str) -> Result<Builder, AllocError> {
    let mut builder = Builder::new(alloc);
    for words in records.split_terminator('/') {
        builder.push_record(alloc, texts(alloc, words)?)?;
    }
    Ok(builder)
}

/// The calls that add something to a builder.
#[derive(Clone, Copy)]
pub(crate) enum Call {
    PushRecord,
    ExtendRecord,
    InsertRecord(usize),
    PushColumn,
    InsertColumn(usize),
}

impl Call {
    /// Makes the call, at the end where there is no such place.
    pub(crate) fn make(
        self,
        alloc: Global,
        builder: &mut Builder,
        given: Vec<String>,
    ) -> Result<(), AllocError> {
        let records = builder.count_records();
        let columns = builder.count_columns();
        match self {
            Call::PushRecord => builder.push_record(alloc, given),
            Call::ExtendRecord => builder.extend_record(alloc, given),
            Call::InsertRecord(i) => builder.insert_record(alloc, i.min(records), given),
            Call::PushColumn => builder.push_column(alloc, given),
            Call::InsertColumn(j) => builder.insert_column(alloc, j.min(columns), given),
        }
    }
}

/// Spells the records of a builder.
pub(crate) fn spelled(alloc: Global, builder: Builder) -> Result<String, AllocError> {
    let mut words = String::new(alloc);
    for row in &builder.into_strings(alloc)? {
        for text in row {
            push_word(
                &mut words,
                if text.is_empty() { "_" } else { text.as_str() },
            )?;
        }
        push_word(&mut words, "/")?;
    }
    Ok(words)
}

/// Whether a builder was made, declares n columns, and holds these records.
pub(crate) fn holds(
    alloc: Global,
    made: Result<Builder, AllocError>,
    columns: usize,
    want: &str,
) -> bool {
    let Ok(builder) = made else {
        return false;
    };
    builder.count_columns() == columns && is_word(spelled(alloc, builder), want)
}

/// Whether a table was made, has n columns, and is spelled so, with nothing merged.
pub(crate) fn builds(
    alloc: Global,
    made: Result<Table, AllocError>,
    columns: usize,
    want: &str,
) -> bool {
    let Ok(table) = made else {
        return false;
    };
    let words = spelled_merged(alloc, table.get_records(), table.get_config());
    table.count_columns() == columns && is_word(words, want)
}
