//! The styles that have a name, each with a picture.

ghost use Rattle.std.specs.Prelude.{◌≡◌};
ghost use Rattle.tabled_draw.specs.declared.style.TheConstants.Style as style;

use crate::style::Style;

impl Style {
    /// Lines of `-` and `|`, and `+` at corners: the default.
    ///
    /// ```text
    /// +---+-----+
    /// | a | b   |
    /// +---+-----+
    /// | 1 | 234 |
    /// +---+-----+
    /// ```
    ///
    /// Ported from `tabled::settings::Style::ascii`.
    pub fn ascii() -> Self
        ensures { result ≡ style.ASCII }
    {
        Style::ASCII
    }

    /// Lines as in boxes.
    ///
    /// ```text
    /// ┌───┬─────┐
    /// │ a │ b   │
    /// ├───┼─────┤
    /// │ 1 │ 234 │
    /// └───┴─────┘
    /// ```
    ///
    /// Ported from `tabled::settings::Style::modern`.
    pub fn modern() -> Self
        ensures { result ≡ style.MODERN }
    {
        Style::MODERN
    }

    /// Lines as in boxes with round corners, and between rows only that below the first.
    ///
    /// ```text
    /// ╭───┬─────╮
    /// │ a │ b   │
    /// ├───┼─────┤
    /// │ 1 │ 234 │
    /// ╰───┴─────╯
    /// ```
    ///
    /// Ported from `tabled::settings::Style::rounded`.
    pub fn rounded() -> Self
        ensures { result ≡ style.ROUNDED }
    {
        Style::ROUNDED
    }

    /// Lines as in boxes, and between rows only that below the first.
    ///
    /// ```text
    /// ┌───┬─────┐
    /// │ a │ b   │
    /// ├───┼─────┤
    /// │ 1 │ 234 │
    /// └───┴─────┘
    /// ```
    ///
    /// Ported from `tabled::settings::Style::sharp`.
    pub fn sharp() -> Self
        ensures { result ≡ style.SHARP }
    {
        Style::SHARP
    }

    /// Double lines.
    ///
    /// ```text
    /// ╔═══╦═════╗
    /// ║ a ║ b   ║
    /// ╠═══╬═════╣
    /// ║ 1 ║ 234 ║
    /// ╚═══╩═════╝
    /// ```
    ///
    /// Ported from `tabled::settings::Style::extended`.
    pub fn extended() -> Self
        ensures { result ≡ style.EXTENDED }
    {
        Style::EXTENDED
    }

    /// As PostgreSQL's client shows tables.
    ///
    /// ```text
    ///  a | b
    /// ---+-----
    ///  1 | 234
    /// ```
    ///
    /// Ported from `tabled::settings::Style::psql`.
    pub fn psql() -> Self
        ensures { result ≡ style.PSQL }
    {
        Style::PSQL
    }

    /// A table of Markdown.
    ///
    /// ```text
    /// | a | b   |
    /// |---|-----|
    /// | 1 | 234 |
    /// ```
    ///
    /// Ported from `tabled::settings::Style::markdown`.
    pub fn markdown() -> Self
        ensures { result ≡ style.MARKDOWN }
    {
        Style::MARKDOWN
    }

    /// A simple table of reStructuredText.
    ///
    /// ```text
    /// === =====
    ///  a   b
    /// === =====
    ///  1   234
    /// === =====
    /// ```
    ///
    /// Ported from `tabled::settings::Style::re_structured_text`.
    pub fn re_structured_text() -> Self
        ensures { result ≡ style.RE_STRUCTURED_TEXT }
    {
        Style::RE_STRUCTURED_TEXT
    }

    /// Lines of dots.
    ///
    /// ```text
    /// ...........
    /// : a : b   :
    /// :...:.....:
    /// : 1 : 234 :
    /// :...:.....:
    /// ```
    ///
    /// Ported from `tabled::settings::Style::dots`.
    pub fn dots() -> Self
        ensures { result ≡ style.DOTS }
    {
        Style::DOTS
    }

    /// A frame with round corners, and no line between rows.
    ///
    /// ```text
    /// .---------.
    /// | a | b   |
    /// | 1 | 234 |
    /// '---------'
    /// ```
    ///
    /// Ported from `tabled::settings::Style::ascii_rounded`.
    pub fn ascii_rounded() -> Self
        ensures { result ≡ style.ASCII_ROUNDED }
    {
        Style::ASCII_ROUNDED
    }

    /// A blank between columns, and no line.
    ///
    /// ```text
    ///  a   b
    ///  1   234
    /// ```
    ///
    /// Ported from `tabled::settings::Style::blank`.
    pub fn blank() -> Self
        ensures { result ≡ style.BLANK }
    {
        Style::BLANK
    }

    /// No line at all.
    ///
    /// ```text
    ///  a  b
    ///  1  234
    /// ```
    ///
    /// Ported from `tabled::settings::Style::empty`.
    pub fn empty() -> Self
        ensures { result ≡ style.EMPTY }
    {
        Style::EMPTY
    }
}
