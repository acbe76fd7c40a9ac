//! Spans of columns and of rows.

ghost use Rattle.std.specs.Prelude.{◌≡◌};

mod along;
mod grow;
mod property;
mod pull;
mod span_on;

pub use property::{ColumnSpansFit, RowSpansFit};
pub use span_on::{ColumnSpan, RowSpan, SpanOn};

/// Makes spans of columns and of rows.
///
/// A span of size 1 or more takes n cells from a place on, cut at the table's end, where all of them
/// are visible; size 1 takes a span away. One below 0 takes n cells back from the place, and 0 all
/// of its row or column; the text goes to the first of them, and the others are emptied.
///
/// With `Span::row(2)` on the cell `a`, `Span::column(2)` on `b` and `Span::column(-1)` on `h`,
///
/// ```text
/// +---+---+---+      +---+---+---+
/// | a | b | c |      | a | b     |
/// +---+---+---+      +   +---+---+
/// | d | e | f |  ->  |   | e | f |
/// +---+---+---+      +---+---+---+
/// | g | h | i |      | h     | i |
/// +---+---+---+      +---+---+---+
/// ```
///
/// Ported from `tabled::settings::Span`.
#[derive(Debug)]
pub struct Span;

impl Span {
    /// A span of columns.
    ///
    /// Ported from `tabled::settings::Span::column`.
    pub fn column(size: isize) -> ColumnSpan
        ensures { result ≡ size }
    {
        ColumnSpan::new(size)
    }

    /// A span of rows.
    ///
    /// Ported from `tabled::settings::Span::row`.
    pub fn row(size: isize) -> RowSpan
        ensures { result ≡ size }
    {
        RowSpan::new(size)
    }
}
