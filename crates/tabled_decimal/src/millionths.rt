//! Decimal numbers as integers.

ghost use Rattle.std.specs.Prelude.{◌≡◌, ◌++◌, ◌-◌, ◌*◌, ◌^◌, ◌<◌, ◌≤◌, ◌⊎◌, IfSome, IsNone, IsTrue, MatchOption, length, ℤ};
ghost use Rattle.std.specs.Char.{is_ascii_digit};
ghost use Rattle.std.specs.List.{list_all};
ghost use Rattle.std.specs.Str.Parse.{digits_value};
ghost use Rattle.tabled_decimal.specs.Decimals.{number};
ghost use Rattle.tabled_decimal.specs.Millionths.{AreMillionths, HasEighteenDigits};

use crate::decimal::Decimal;

/// The number that digits write, if it is below 10 ^ 12.
fn value(digits: &[u8]) -> Option<u64>
    requires { IsTrue (list_all is_ascii_digit digits.now) }
    ensures { MatchOption result (10 ^ 12 ≤ digits_value 10 digits.now) (λ n. (n ≡ digits_value 10 digits.now) × (n < 10 ^ 12)) }
{
    let mut value: u64 = 0;
    for digit in digits {
        value = value * 10 + u64::from(*digit - b'0');
        if value >= 1_000_000_000_000 {
            return None;
        }
    }
    Some(value)
}

/// How many millionths the digits before and behind a point write, if they are fewer than 10 ^ 18.
fn unsigned_millionths(whole: &[u8], fraction: &[u8]) -> Option<u64>
    requires whole_digits { IsTrue (list_all is_ascii_digit whole.now) }
    requires fraction_digits { IsTrue (list_all is_ascii_digit fraction.now) }
    ensures none { IsNone result → (6 < length fraction.now) ⊎ (10 ^ 18 ≤ digits_value 10 (whole.now ++ fraction.now) * 10 ^ (6 - length fraction.now)) }
    ensures some { IfSome result (λ n. (length fraction.now ≤ 6) × (n ≡ digits_value 10 (whole.now ++ fraction.now) * 10 ^ (6 - length fraction.now)) × (n < 10 ^ 18)) }
{
    if fraction.len() > 6 {
        return None;
    }
    let front = value(whole)?;
    let back = value(fraction)?;
    let unit = 10u64.pow((6 - fraction.len()) as u32);
    Some(front * 1_000_000 + back * unit)
}

impl Decimal<'_> {
    /// How many millionths the number is, if it has at most six digits behind its point, and its millionths at most
    /// eighteen digits.
    ///
    /// Of this project.
    pub fn millionths(&self) -> Option<i64>
        ensures millionths { IfSome result (AreMillionths (number self.now)) }
        ensures digits { IfSome result HasEighteenDigits }
        ensures none { IsNone result → (n : ℤ) → AreMillionths (number self.now) n → HasEighteenDigits n → ⊥ }
    {
        let millionths = unsigned_millionths(self.whole, self.fraction)? as i64;
        Some(if self.negative {
            -millionths
        } else {
            millionths
        })
    }
}
