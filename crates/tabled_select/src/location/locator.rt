//! The locators by one name.

ghost use Rattle.std.specs.Prelude.{◌≡◌};
ghost use Rattle.std.specs.String.{string_bytes};

use crate::location::{ByColumnName, ByCondition, ByContent, ByValue};

/// Makes what finds cells or columns by their texts.
///
/// Ported from `tabled::settings::location::Locator`.
#[derive(Clone, Copy, Debug, Default, PartialEq, Eq, PartialOrd, Ord, Hash)]
pub struct Locator;

impl Locator {
    /// The cells with a text.
    ///
    /// Ported from `tabled::settings::location::Locator::content`.
    pub fn content(text: String) -> ByContent
        ensures { result ≡ string_bytes text }
    {
        ByContent::new(text)
    }

    /// The columns with a text in the first row.
    ///
    /// Ported from `tabled::settings::location::Locator::column`.
    pub fn column(text: String) -> ByColumnName
        ensures { result ≡ string_bytes text }
    {
        ByColumnName::new(text)
    }

    /// The cells to whose texts a closure says yes.
    ///
    /// Ported from `tabled::settings::location::Locator::by`.
    pub fn by<F>(says: F) -> ByCondition<F>
    where
        F: Fn(&str) -> bool,
        ensures { result ≡ says }
    {
        ByCondition::new(says)
    }

    /// The cell of an object that a closure leaves held.
    ///
    /// Ported from `tabled::settings::location::Locator::value`.
    pub fn value<O, F>(search: O, takes: F) -> ByValue<O, F>
    where
        F: Fn(&str, &str) -> bool,
        ensures { result ≡ (search, takes) }
    {
        ByValue::new(search, takes)
    }
}
