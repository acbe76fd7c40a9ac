//! Rows and columns of one text.

ghost use Rattle.std.specs.Prelude.{◌≡◌};
ghost use Rattle.std.specs.String.{string_bytes};

mod footer;
mod header;
mod panel_on;
mod width;

pub use footer::Footer;
pub use header::Header;
pub use panel_on::{HorizontalPanel, PanelOn, VerticalPanel};

/// Makes panels: rows and columns of one text, each of which is one merged cell.
///
/// With `Panel::vertical(1, "S")` and then `Panel::header("N")`,
///
/// ```text
///                    +---+---+---+
/// +---+---+          | N         |
/// | a | b |          +---+---+---+
/// +---+---+    ->    | a | S | b |
/// | c | d |          +---+   +---+
/// +---+---+          | c |   | d |
///                    +---+---+---+
/// ```
///
/// Ported from `tabled::settings::Panel`.
#[derive(Debug)]
pub struct Panel;

impl Panel {
    /// A column of one text, put in before column `col`.
    ///
    /// Ported from `tabled::settings::Panel::vertical`.
    pub fn vertical(col: usize, text: String) -> VerticalPanel
        ensures { result ≡ (col, string_bytes text) }
    {
        VerticalPanel::new(col, text)
    }

    /// A row of one text, put in before row `row`.
    ///
    /// Ported from `tabled::settings::Panel::horizontal`.
    pub fn horizontal(row: usize, text: String) -> HorizontalPanel
        ensures { result ≡ (row, string_bytes text) }
    {
        HorizontalPanel::new(row, text)
    }

    /// A row of one text, put in before the first row.
    ///
    /// Ported from `tabled::settings::Panel::header`.
    pub fn header(text: String) -> Header
        ensures { result ≡ string_bytes text }
    {
        Header::new(text)
    }

    /// A row of one text, put in after the last row.
    ///
    /// Ported from `tabled::settings::Panel::footer`.
    pub fn footer(text: String) -> Footer
        ensures { result ≡ string_bytes text }
    {
        Footer::new(text)
    }
}
