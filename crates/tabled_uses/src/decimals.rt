//! Decimal numbers, compared and as integers.

ghost use Rattle.std.specs.Prelude.{◌≡◌, IfSome, Some};
ghost use Rattle.tabled_decimal.specs.Millionths.{AreMillionths};
ghost use Rattle.tabled_decimal.specs.Numbers.{Number, decimal, number_cmp};

use std::cmp::Ordering;
use tabled_decimal::Decimal;

/// How two texts compare as numbers, if both write one.
pub fn compared(a: &str, b: &str) -> Option<Ordering>
    ensures { (m n : Number) → decimal a.now ≡ Some m → decimal b.now ≡ Some n → result ≡ Some (number_cmp m n) }
{
    match (Decimal::parse(a), Decimal::parse(b)) {
        (Some(a), Some(b)) => Some(a.cmp(&b)),
        _ => None,
    }
}

/// How many millionths the number of a text is, if it writes one that isn't too long.
pub fn in_millionths(text: &str) -> Option<i64>
    ensures { (a : Number) → decimal text.now ≡ Some a → IfSome result (AreMillionths a) }
{
    Decimal::parse(text).and_then(|number| number.millionths())
}
