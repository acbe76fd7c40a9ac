//! The names of columns that steps and alignments go by, where no column has them.

use crate::alignments::{AlignmentRule, Alignments};
use crate::told_words::ToldWords;
use std::alloc::{AllocError, Global};
use tabled_grid::records::CellText;
use tabled_language::{LentText, length_of};
use tabled_settings::sort::SortColumn;
use tabled_steps::{Select, Step};

/// That a step of these words goes by names that no column of a table has, and those that there are; nothing where it
/// goes by none.
pub(crate) fn unknown_names_text(
    alloc: Global,
    step: &Step,
    words: &[String],
    records: &[Vec<LentText>],
) -> Result<Option<String>, AllocError> {
    let mut unknown = ToldWords::new(alloc);
    push_unknown_in_step(alloc, &mut unknown, step, words, records)?;
    unknown_text(alloc, &unknown, records)
}

/// That columns are aligned by names that none of them has, in a line with those that there are.
pub(crate) fn unknown_alignments_line<T: CellText>(
    alloc: Global,
    alignments: &Alignments,
    records: &[Vec<T>],
) -> Result<Option<String>, AllocError> {
    let mut unknown = ToldWords::new(alloc);
    if let Alignments::Rules(rules) = alignments {
        for rule in rules {
            if let AlignmentRule::Name(name, _) = rule {
                push_unknown(alloc, &mut unknown, name.as_str(), records)?;
            }
        }
    }
    match unknown_text(alloc, &unknown, records)? {
        Some(text) => Ok(Some(format!(in alloc; "tabled_script: --align: {text}\n")?)),
        None => Ok(None),
    }
}

/// That no column has these names, and those that there are; nothing where there are none of these.
fn unknown_text<T: CellText>(
    alloc: Global,
    unknown: &ToldWords,
    records: &[Vec<T>],
) -> Result<Option<String>, AllocError> {
    if unknown.words.is_empty() {
        return Ok(None);
    }
    let mut told = String::from_str(alloc, "no column is named")?;
    unknown.push_to(&mut told)?;
    match records.first() {
        Some(row) if !row.is_empty() => {
            told.push_str(": the first row has")?;
            ToldWords::of_texts(alloc, row)?.push_to(&mut told)?;
            told.push_str(separator_cure(row))?;
        }
        _ => told.push_str(": there is none")?,
    }
    Ok(Some(told))
}

/// The cure of a first row that is one text, where a character stands in it that is likely to part texts.
fn separator_cure<T: CellText>(row: &[T]) -> &'static str {
    match row {
        [text] if text.text().contains(';') => "; maybe --separator ';' is lacking",
        [text] if text.text().contains('\t') => "; maybe --separator tab is lacking",
        _ => "",
    }
}

/// Adds a name, if no column has it.
fn push_unknown<T: CellText>(
    alloc: Global,
    unknown: &mut ToldWords,
    name: &str,
    records: &[Vec<T>],
) -> Result<(), AllocError> {
    if is_name(name, records) {
        return Ok(());
    }
    unknown.push(alloc, name.as_bytes())
}

/// Says whether a text stands in the first row.
fn is_name<T: CellText>(name: &str, records: &[Vec<T>]) -> bool {
    match records.first() {
        Some(row) => row.iter().any(|text| text.text() == name),
        None => false,
    }
}

/// Adds the names of columns that a step goes by and no column has, those of kept lines by its words.
fn push_unknown_in_step(
    alloc: Global,
    unknown: &mut ToldWords,
    step: &Step,
    words: &[String],
    records: &[Vec<LentText>],
) -> Result<(), AllocError> {
    match step {
        Step::Set(select, _)
        | Step::Charset(_, select)
        | Step::Wrap(_, select)
        | Step::Truncate(_, select)
        | Step::Replace(_, _, select)
        | Step::ColumnSpan(_, select)
        | Step::RowSpan(_, select)
        | Step::Merge(_, select) => push_unknown_selected(alloc, unknown, select, records),
        Step::Dup(destination, source) => {
            push_unknown_selected(alloc, unknown, destination, records)?;
            push_unknown_selected(alloc, unknown, source, records)
        }
        Step::RemoveNamed(name) => push_unknown(alloc, unknown, name.as_str(), records),
        Step::Sort(sort) => match &sort.column {
            SortColumn::Name(name) => push_unknown(alloc, unknown, name.as_str(), records),
            SortColumn::Index(_) => Ok(()),
        },
        Step::KeepColumns(_) => {
            for word in words.iter().skip(2) {
                if let Some(name) = named_column(word.as_str()) {
                    push_unknown(alloc, unknown, name, records)?;
                }
            }
            Ok(())
        }
        Step::KeepRows(_) => {
            for word in words.iter().skip(2) {
                if let Some(name) = tested_column(word.as_str()) {
                    push_unknown(alloc, unknown, name, records)?;
                }
            }
            Ok(())
        }
        _ => Ok(()),
    }
}

/// Adds the names of columns in a selector that no column has.
fn push_unknown_selected(
    alloc: Global,
    unknown: &mut ToldWords,
    select: &Select,
    records: &[Vec<LentText>],
) -> Result<(), AllocError> {
    match select {
        Select::Name(name) => push_unknown(alloc, unknown, name.as_str(), records),
        Select::And(first, second)
        | Select::Not(first, second)
        | Select::Intersect(first, second) => {
            push_unknown_selected(alloc, unknown, first, records)?;
            push_unknown_selected(alloc, unknown, second, records)
        }
        Select::Inverse(select) | Select::Skip(_, select) | Select::StepBy(_, select) => {
            push_unknown_selected(alloc, unknown, select, records)
        }
        _ => Ok(()),
    }
}

/// The name of columns that a word is, if it is no index and no slice.
fn named_column(word: &str) -> Option<&str> {
    if let Some(name) = word.strip_prefix('=') {
        return Some(name);
    }
    let is_counted = match word.split_once(':') {
        Some((from, to)) => is_bound(from) && is_bound(to),
        None => is_index(word),
    };
    if is_counted { None } else { Some(word) }
}

/// Says whether a text is an end of a slice.
fn is_bound(text: &str) -> bool {
    text.is_empty() || is_index(text)
}

/// Says whether a text is an index, maybe from the end.
fn is_index(text: &str) -> bool {
    length_of(text.strip_prefix('-').unwrap_or(text)).is_some()
}

/// The name of a column that a word tests, if it is no index and no slice.
fn tested_column(word: &str) -> Option<&str> {
    let end = word.find(|c| matches!(c, '=' | '!' | '<' | '>'))?;
    word.get(..end)
}
