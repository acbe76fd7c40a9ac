//! The order of decimal numbers.

ghost use Rattle.std.specs.Prelude.{◌≡◌, ◌*◌, ◌&&◌, Some, nat_lt, refl};
ghost use Rattle.std.specs.Cmp.{eq_by_cmp_equiv, on_equiv, on_total, partial_equiv_from_equiv, po};
ghost use Rattle.std.specs.Ordering.{as_partial_cmp, eq_by_cmp, nat_cmp, on};
ghost use Rattle.tabled_decimal.specs.Decimals.{all_digits, number, scale};
ghost use Rattle.tabled_decimal.specs.Numbers.{number_cmp};
ghost use Rattle.tabled_decimal.specs.TotalOrder.{number_cmp-total};

use crate::decimal::Decimal;
use crate::digits::{cmp_fraction, cmp_whole, is_above_zero};
use std::cmp::Ordering;

/// Whether a number is below 0.
fn is_below_zero(number: &Decimal<'_>) -> bool
    ensures { result ≡ (number.now.negative && nat_lt 0 (all_digits number.now)) }
{
    number.negative && (is_above_zero(number.whole) || is_above_zero(number.fraction))
}

/// Compares two numbers without their signs.
fn cmp_unsigned(a: &Decimal<'_>, b: &Decimal<'_>) -> Ordering
    ensures { result ≡ nat_cmp (all_digits a.now * scale b.now) (all_digits b.now * scale a.now) }
{
    match cmp_whole(a.whole, b.whole) {
        Ordering::Equal => cmp_fraction(a.fraction, b.fraction),
        unequal => unequal,
    }
}

impl PartialEq for Decimal<'_> {
    ghost eq = { on number (eq_by_cmp number_cmp) };

    ghost laws = { partial_equiv_from_equiv (on_equiv number (eq_by_cmp_equiv number_cmp-total)) };

    fn eq(&self, other: &Self) -> bool {
        self.cmp(other) == Ordering::Equal
    }
}

impl Eq for Decimal<'_> {
    ghost laws = { on_equiv number (eq_by_cmp_equiv number_cmp-total) };
}

impl PartialOrd for Decimal<'_> {
    ghost partial_cmp = { as_partial_cmp (on number number_cmp) };

    ghost laws = { po (on_total number number_cmp-total) (λ a b. refl) };

    fn partial_cmp(&self, other: &Self) -> Option<Ordering> {
        Some(self.cmp(other))
    }
}

impl Ord for Decimal<'_> {
    ghost cmp = { on number number_cmp };

    ghost total = { on_total number number_cmp-total };

    ghost matches_partial_cmp = { λ a b. refl };

    ghost matches_eq = { λ a b. refl };

    fn cmp(&self, other: &Self) -> Ordering {
        match (is_below_zero(self), is_below_zero(other)) {
            (false, false) => cmp_unsigned(self, other),
            (true, true) => cmp_unsigned(other, self),
            (true, false) => Ordering::Less,
            (false, true) => Ordering::Greater,
        }
    }
}
