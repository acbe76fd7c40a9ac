//! Tests of texts, as data.

ghost use Rattle.std.specs.Prelude.{◌≡◌};
ghost use Rattle.tabled_settings.specs.Named.{accepts, text_passes};

use std::cmp::Ordering;
use tabled_decimal::Decimal;

/// What is asked of a text.
///
/// Of this project.
#[derive(Debug, Drop)]
pub enum TextTest {
    Is(String),
    IsNot(String),
    /// It is a decimal number, and so is this one, and the comparison holds.
    Compares(Comparison, String),
}

/// How two numbers compare.
///
/// Of this project.
#[derive(Clone, Copy, Debug, PartialEq, Eq)]
pub enum Comparison {
    Less,
    LessOrEqual,
    GreaterOrEqual,
    Greater,
}

impl Comparison {
    /// Says whether the order of two numbers is accepted.
    fn accepts(self, order: Ordering) -> bool
        ensures { result ≡ accepts self order }
    {
        match order {
            Ordering::Less => matches!(self, Comparison::Less | Comparison::LessOrEqual),
            Ordering::Equal => matches!(self, Comparison::LessOrEqual | Comparison::GreaterOrEqual),
            Ordering::Greater => matches!(self, Comparison::GreaterOrEqual | Comparison::Greater),
        }
    }
}

impl TextTest {
    /// Says whether a text passes.
    ///
    /// Of this project.
    pub fn passes(&self, text: &str) -> bool
        ensures { result ≡ text_passes self.now text.now }
    {
        match self {
            TextTest::Is(wanted) => text == wanted.as_str(),
            TextTest::IsNot(other) => text != other.as_str(),
            TextTest::Compares(how, number) => {
                match (Decimal::parse(text), Decimal::parse(number.as_str())) {
                    (Some(left), Some(right)) => how.accepts(left.cmp(&right)),
                    _ => false,
                }
            }
        }
    }
}
