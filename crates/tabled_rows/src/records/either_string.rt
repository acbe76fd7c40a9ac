//! A text of one's own, or something that has a text.

ghost use Rattle.std.specs.Prelude.{◌≡◌};
ghost use Rattle.tabled_rows.specs.Texts.{text_held};

use tabled_grid::records::CellText;

/// A text of one's own, or something that has a text.
///
/// Ported from `tabled::grid::records::into_records::either_string::EitherString`.
#[derive(Drop)]
pub enum EitherString<T> {
    /// A text of one's own.
    Owned(String),
    /// Something that has a text.
    Some(T),
}

impl<T: CellText> EitherString<T> {
    /// The text that is held.
    ///
    /// Ported from `tabled::grid::records::into_records::either_string::EitherString::as_ref`.
    pub fn as_str(&self) -> &str
        ensures { result.now ≡ text_held T.text_of self.now }
    {
        match self {
            EitherString::Owned(text) => text.as_str(),
            EitherString::Some(cell) => cell.text(),
        }
    }
}
