//! Indexes of rows, put in order by a key of each row.

ghost use Rattle.std.specs.Prelude.{◌≡◌, [], IfOk, None, OnOk, get_or, map, option_map};
ghost use Rattle.std.specs.Cmp.Lexicographic.{slice_cmp};
ghost use Rattle.std.specs.Ordering.{nat_cmp, ordering_then};
ghost use Rattle.tabled_decimal.specs.Decimals.{number};
ghost use Rattle.tabled_decimal.specs.Numbers.{decimal, number_cmp};
ghost use Rattle.tabled_settings.specs.InOrder.{comes_before, in_order};
ghost use Rattle.tabled_settings.specs.Keys.{lent_text, number_of_key};
ghost use Rattle.tabled_settings.specs.Sorted.{directed, numbers_first, order_at, text_order};
ghost use Rattle.tabled_settings.specs.declared.sort.SortKeys.TheVariants.{Numbers, Texts};

use crate::sort::ranks::{cmp_ranks, ranks_of};
use std::alloc::{AllocError, Global};
use std::cmp::Ordering;
use tabled_decimal::Decimal;

/// Puts indexes in order by the texts at them.
pub(super) fn sort_by_texts(indexes: &mut [usize], texts: &[&str], descending: bool)
    ensures { indexes.new ≡ in_order (comes_before (order_at Texts descending texts.now)) indexes.old }
{
    indexes.sort_unstable_by(|a, b| cmp_texts(texts, descending, *a, *b));
}

/// Compares two indexes by the texts at them, and then by themselves.
fn cmp_texts(texts: &[&str], descending: bool, a: usize, b: usize) -> Ordering
    ensures { result ≡ ordering_then (order_at Texts descending texts.now a b) (nat_cmp a b) }
{
    let left = text_at(texts, a);
    let right = text_at(texts, b);
    let order = if descending {
        right.cmp(left)
    } else {
        left.cmp(right)
    };
    with_index(order, a, b)
}

/// Compares two indexes by an order of their keys, and then by themselves.
fn with_index(order: Ordering, a: usize, b: usize) -> Ordering
    ensures { result ≡ ordering_then order (nat_cmp a b) }
{
    order.then(a.cmp(&b))
}

/// The text at an index, an empty one past the texts.
fn text_at<'a>(texts: &[&'a str], index: usize) -> &'a str
    ensures { result.now ≡ lent_text texts.now index }
{
    if index < texts.len() {
        texts[index]
    } else {
        ""
    }
}

/// Puts indexes in order by the numbers that the texts at them write: by their ranks, unless one has too many digits.
pub(super) fn sort_by_numbers(
    alloc: Global,
    indexes: &mut [usize],
    texts: &[&str],
    descending: bool,
) -> Result<(), AllocError>
    ensures { OnOk result (indexes.new ≡ in_order (comes_before (order_at Numbers descending texts.now)) indexes.old) }
{
    if let Some(ranks) = ranks_of(alloc, texts, descending)? {
        let ranks = ranks.as_slice();
        indexes.sort_unstable_by(|a, b| cmp_ranks(ranks, *a, *b));
        return Ok(());
    }
    let numbers = numbers_of(alloc, texts)?;
    let numbers = numbers.as_slice();
    indexes.sort_unstable_by(|a, b| cmp_numbers(numbers, descending, *a, *b));
    Ok(())
}

/// The number that each text writes, if it writes one.
fn numbers_of<'a>(alloc: Global, texts: &[&'a str]) -> Result<Vec<Option<Decimal<'a>>>, AllocError>
    ensures { IfOk result (λ numbers. map (option_map number) numbers.items ≡ map (λ t. decimal t.now) texts.now) }
{
    let mut numbers = Vec::with_capacity(alloc, texts.len())?;
    for text in texts {
        numbers.push(Decimal::parse(text))?;
    }
    Ok(numbers)
}

/// Compares two indexes by the numbers at them, and then by themselves.
fn cmp_numbers(numbers: &[Option<Decimal<'_>>], descending: bool, a: usize, b: usize) -> Ordering
    ensures { result ≡ ordering_then (numbers_first (directed descending number_cmp) (number_of_key numbers.now a) (number_of_key numbers.now b)) (nat_cmp a b) }
{
    let order = match (number_at(numbers, a), number_at(numbers, b)) {
        (Some(left), Some(right)) => {
            if descending {
                right.cmp(&left)
            } else {
                left.cmp(&right)
            }
        }
        (Some(_), None) => Ordering::Less,
        (None, Some(_)) => Ordering::Greater,
        (None, None) => Ordering::Equal,
    };
    with_index(order, a, b)
}

/// The number at an index, if there is one.
fn number_at<'a>(numbers: &[Option<Decimal<'a>>], index: usize) -> Option<Decimal<'a>>
    ensures { option_map number result ≡ number_of_key numbers.now index }
{
    if index < numbers.len() {
        numbers[index]
    } else {
        None
    }
}
