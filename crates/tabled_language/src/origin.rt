//! Where the lines of a script come from that stands between rows and words.

ghost use Rattle.std.specs.Prelude.{◌≡◌, [], MatchOption, length};
ghost use Rattle.tabled_language.specs.Line.{ended_lines, lines_of};
ghost use Rattle.tabled_language.specs.Origins.{origin_of};

use crate::parts::count_parts;

/// Where a line comes from. What is of its kind is counted from 1.
///
/// Of this project.
#[derive(Clone, Copy, Debug, PartialEq, Eq)]
pub enum Origin {
    /// A row.
    Row(usize),
    /// A line of bytes.
    Line(usize),
    /// A list of words.
    Words(usize),
}

/// Where the line of a number comes from, where so many rows, and then so many lines of bytes, come before words.
/// Lines are counted from 1.
///
/// Of this project.
pub fn origin_of(rows: usize, lines: usize, number: usize) -> Origin
    ensures { result ≡ origin_of rows lines number }
{
    if number <= rows {
        return Origin::Row(number);
    }
    let behind_rows = number - rows;
    if behind_rows <= lines {
        return Origin::Line(behind_rows);
    }
    Origin::Words(behind_rows - lines)
}

/// How many lines bytes have that others may stand behind: where nothing stands behind the last newline, that is no
/// line.
///
/// Of this project.
pub fn count_lines(input: &[u8]) -> usize
    ensures { result ≡ length (ended_lines input.now) }
{
    match until_last_newline(input) {
        Some(lines) => count_parts(lines, b'\n'),
        None => 0,
    }
}

/// Bytes without the newline that ends their last line, or nothing where they have no line.
pub(crate) fn until_last_newline(input: &[u8]) -> Option<&[u8]>
    ensures { MatchOption result (ended_lines input.now ≡ []) (λ lines. lines_of lines.now ≡ ended_lines input.now) }
{
    let (last, lines) = input.split_last()?;
    if *last == b'\n' {
        return Some(lines);
    }
    Some(input)
}
