//! Decimal numbers, read.

ghost use Rattle.std.specs.Prelude.{◌≡◌, option_map};
ghost use Rattle.tabled_decimal.specs.Decimals.{number};
ghost use Rattle.tabled_decimal.specs.Numbers.{decimal};

use crate::decimal::{Decimal, cut_point, cut_sign, is_digits};

impl<'a> Decimal<'a> {
    /// The number that a text writes: maybe a sign, digits, and maybe a point and digits. One of both parts may be
    /// empty. `None` for any other text. Takes no memory.
    ///
    /// Of this project.
    pub fn parse(text: &'a str) -> Option<Self>
        ensures { option_map number result ≡ decimal text.now }
    {
        let (negative, digits) = cut_sign(text.as_bytes());
        let (whole, fraction) = cut_point(digits);
        if whole.is_empty() && fraction.is_empty() || !is_digits(whole) || !is_digits(fraction) {
            return None;
        }
        Some(Decimal {
            negative,
            whole,
            fraction,
        })
    }
}
