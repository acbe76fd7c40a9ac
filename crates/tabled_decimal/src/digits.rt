//! Digits, compared by the numbers that they write.

ghost use Rattle.std.specs.Prelude.{◌≡◌, ◌*◌, ◌^◌, IsTrue, length, nat_lt};
ghost use Rattle.std.specs.Char.{is_ascii_digit};
ghost use Rattle.std.specs.List.{list_all};
ghost use Rattle.std.specs.Ordering.{nat_cmp};
ghost use Rattle.std.specs.Str.Parse.{digits_value};

use std::cmp::Ordering;

/// Whether digits write a number above 0.
pub(crate) fn is_above_zero(digits: &[u8]) -> bool
    ensures { result ≡ nat_lt 0 (digits_value 10 digits.now) }
{
    for digit in digits {
        if *digit != b'0' {
            return true;
        }
    }
    false
}

/// Compares the numbers of two lists of digits.
///
/// What one of them has more stands at its front; else they are as long, and as their bytes.
pub(crate) fn cmp_whole(a: &[u8], b: &[u8]) -> Ordering
    requires left { IsTrue (list_all is_ascii_digit a.now) }
    requires right { IsTrue (list_all is_ascii_digit b.now) }
    ensures { result ≡ nat_cmp (digits_value 10 a.now) (digits_value 10 b.now) }
{
    let common = a.len().min(b.len());
    let (a_front, a_back) = a.split_at(a.len() - common);
    let (b_front, b_back) = b.split_at(b.len() - common);
    match is_above_zero(a_front).cmp(&is_above_zero(b_front)) {
        Ordering::Equal => a_back.cmp(b_back),
        unequal => unequal,
    }
}

/// Compares the numbers of two lists of digits behind a point.
///
/// What one of them has more stands at its back.
pub(crate) fn cmp_fraction(a: &[u8], b: &[u8]) -> Ordering
    requires left { IsTrue (list_all is_ascii_digit a.now) }
    requires right { IsTrue (list_all is_ascii_digit b.now) }
    ensures { result ≡ nat_cmp (digits_value 10 a.now * 10 ^ length b.now) (digits_value 10 b.now * 10 ^ length a.now) }
{
    let common = a.len().min(b.len());
    let (a_front, a_back) = a.split_at(common);
    let (b_front, b_back) = b.split_at(common);
    match a_front.cmp(b_front) {
        Ordering::Equal => is_above_zero(a_back).cmp(&is_above_zero(b_back)),
        unequal => unequal,
    }
}
