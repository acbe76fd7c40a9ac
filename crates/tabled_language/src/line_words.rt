//! What one word says of lines: an index, a slice, a name, or a test of texts.

ghost use Rattle.std.specs.Prelude.{◌≡◌, IfOk};
ghost use Rattle.std.specs.List.{position_or_len};
ghost use Rattle.std.specs.Option.{option_map};
ghost use Rattle.std.specs.String.{string_bytes};
ghost use Rattle.tabled_language.specs.LineNames.{bound_of, column_told, columns_of_word, comparison_with, index_of, is_operator, lines_told, number_test, rows_tested, rows_told, test_told};
ghost use Rattle.tabled_language.specs.Parsing.{column_lines, columns_in, is_tested, lines_in, row_lines, rows_in, rows_tested_in};
ghost use Rattle.tabled_settings.specs.Named.{text_passes};
ghost use Rattle.tabled_settings.specs.Sorted.{sort_column};

use crate::word::length_of;
use std::alloc::{AllocError, Global};
use tabled_decimal::Decimal;
use tabled_grid::config::Offset;
use tabled_settings::line_names::{ColumnName, RowName};
use tabled_settings::sort::SortColumn;
use tabled_settings::text_test::{Comparison, TextTest};

/// Lines that are told without the table's texts.
#[derive(Clone, Copy)]
pub(crate) enum ToldLines {
    /// One, counted from either end.
    At(Offset),
    /// Those from one up to another.
    Between(Offset, Offset),
}

/// What is asked of a text, without what it is compared with.
#[derive(Clone, Copy)]
pub(crate) enum Operator {
    Is,
    IsNot,
    Compares(Comparison),
}

/// A test of the texts in the first column of a name.
#[derive(Clone, Copy)]
pub(crate) struct RowTest<'a> {
    title: &'a str,
    operator: Operator,
    value: &'a str,
}

/// Rows as a word tells them.
#[derive(Clone, Copy)]
pub(crate) enum RowWord<'a> {
    Lines(ToldLines),
    Where(RowTest<'a>),
}

/// The columns that a word names.
pub(crate) fn column_name(alloc: Global, word: &str) -> Result<ColumnName, AllocError>
    ensures { IfOk result (λ name. column_lines name ≡ columns_of_word word.now) }
{
    if let Some(name) = word.strip_prefix('=') {
        return Ok(ColumnName::Text(String::from_str(alloc, name)?));
    }
    match lines_of(word) {
        Some(lines) => Ok(column_of_lines(lines)),
        None => Ok(ColumnName::Text(String::from_str(alloc, word)?)),
    }
}

/// A name of columns that are told without texts.
fn column_of_lines(lines: ToldLines) -> ColumnName
    ensures { column_lines result ≡ columns_in lines }
{
    match lines {
        ToldLines::At(index) => ColumnName::At(index),
        ToldLines::Between(from, to) => ColumnName::Between(from, to),
    }
}

/// The rows that a word names, if it names some.
pub(crate) fn row_word(word: &str) -> Option<RowWord<'_>>
    ensures { option_map rows_in result ≡ rows_told word.now }
{
    match lines_of(word) {
        Some(lines) => Some(RowWord::Lines(lines)),
        None => Some(RowWord::Where(row_test(word)?)),
    }
}

/// What is in a word, as a name of rows.
pub(crate) fn row_name(alloc: Global, word: RowWord<'_>) -> Result<RowName, AllocError>
    ensures { IfOk result (λ name. row_lines name ≡ rows_in word.entry) }
{
    match word {
        RowWord::Lines(ToldLines::At(index)) => Ok(RowName::At(index)),
        RowWord::Lines(ToldLines::Between(from, to)) => Ok(RowName::Between(from, to)),
        RowWord::Where(test) => {
            let title = String::from_str(alloc, test.title)?;
            let value = String::from_str(alloc, test.value)?;
            Ok(RowName::Where(title, text_test(test.operator, value)))
        }
    }
}

/// The column that a word names.
pub(crate) fn sort_column(alloc: Global, word: &str) -> Result<SortColumn, AllocError>
    ensures { IfOk result (λ column. sort_column column ≡ column_told word.now) }
{
    if let Some(name) = word.strip_prefix('=') {
        return Ok(SortColumn::Name(String::from_str(alloc, name)?));
    }
    match length_of(word) {
        Some(index) => Ok(SortColumn::Index(index)),
        None => Ok(SortColumn::Name(String::from_str(alloc, word)?)),
    }
}

/// The lines that an index or a slice tells.
fn lines_of(word: &str) -> Option<ToldLines>
    ensures { option_map lines_in result ≡ lines_told word.now }
{
    match word.split_once(':') {
        Some((from, to)) => {
            let start = bound_of(Offset::Start(0), from)?;
            let end = bound_of(Offset::End(0), to)?;
            Some(ToldLines::Between(start, end))
        }
        None => Some(ToldLines::At(index_of(word)?)),
    }
}

/// The index that a text tells, or one that is told where the text is empty.
fn bound_of(missing: Offset, text: &str) -> Option<Offset>
    ensures { result ≡ bound_of missing text.now }
{
    if text.is_empty() {
        return Some(missing);
    }
    index_of(text)
}

/// The index that a number tells, with a minus before it from the end.
fn index_of(text: &str) -> Option<Offset>
    ensures { result ≡ index_of text.now }
{
    match text.strip_prefix('-') {
        Some(digits) => match length_of(digits)? {
            0 => Some(Offset::Start(0)),
            index => Some(Offset::End(index)),
        },
        None => Some(Offset::Start(length_of(text)?)),
    }
}

/// The test that a word tells, if it tells one.
fn row_test(word: &str) -> Option<RowTest<'_>>
    ensures { option_map rows_tested_in result ≡ rows_tested word.now }
{
    let (title, test) = word.split_at(operator_index(word));
    let (operator, value) = operator_of(test)?;
    Some(RowTest {
        title,
        operator,
        value,
    })
}

/// Where the first operator of a text begins, or its length.
fn operator_index(text: &str) -> usize
    ensures { result ≡ position_or_len is_operator text.now }
{
    let bytes = text.as_bytes();
    for (index, byte) in bytes.iter().enumerate() {
        if is_operator(*byte) {
            return index;
        }
    }
    bytes.len()
}

/// Says whether a byte begins an operator.
fn is_operator(byte: u8) -> bool
    ensures { result ≡ is_operator byte }
{
    matches!(byte, b'=' | b'!' | b'<' | b'>')
}

/// What is asked of a text, with what it is compared with.
fn text_test(operator: Operator, value: String) -> TextTest
    ensures { text_passes result ≡ is_tested operator (string_bytes value) }
{
    match operator {
        Operator::Is => TextTest::Is(value),
        Operator::IsNot => TextTest::IsNot(value),
        Operator::Compares(how) => TextTest::Compares(how, value),
    }
}

/// The operator that a text begins with, and what is behind it.
fn operator_of(text: &str) -> Option<(Operator, &str)>
    ensures { option_map (λ test. is_tested test.0 test.1.now) result ≡ test_told text.now }
{
    if let Some(value) = text.strip_prefix('=') {
        return Some((Operator::Is, value));
    }
    if let Some(rest) = text.strip_prefix('!') {
        let value = rest.strip_prefix('=')?;
        return Some((Operator::IsNot, value));
    }
    if let Some(rest) = text.strip_prefix('<') {
        return comparison_of(Comparison::Less, Comparison::LessOrEqual, rest);
    }
    let rest = text.strip_prefix('>')?;
    comparison_of(Comparison::Greater, Comparison::GreaterOrEqual, rest)
}

/// A comparison with a number, or another one behind an equals sign.
fn comparison_of(strict: Comparison, equal: Comparison, rest: &str) -> Option<(Operator, &str)>
    ensures { option_map (λ test. is_tested test.0 test.1.now) result ≡ comparison_with strict equal rest.now }
{
    match rest.strip_prefix('=') {
        Some(number) => number_test(equal, number),
        None => number_test(strict, rest),
    }
}

/// A comparison with a number.
fn number_test(how: Comparison, number: &str) -> Option<(Operator, &str)>
    ensures { option_map (λ test. is_tested test.0 test.1.now) result ≡ number_test how number.now }
{
    match Decimal::parse(number) {
        Some(_) => Some((Operator::Compares(how), number)),
        None => None,
    }
}
