//! Ranks of texts: whole numbers in the order of the numbers that the texts write.

ghost use Rattle.std.specs.Prelude.{◌≡◌, IfOk, IfSome, get_or};
ghost use Rattle.std.specs.Ordering.{int_cmp, nat_cmp, ordering_then};
ghost use Rattle.tabled_decimal.specs.Numbers.{decimal};
ghost use Rattle.tabled_settings.specs.Ranks.{AreRanks, IsRank, last_rank};

use std::alloc::{AllocError, Global};
use std::cmp::Ordering;
use tabled_decimal::Decimal;

/// The rank of each text, if no number has too many digits for one.
pub(super) fn ranks_of(
    alloc: Global,
    texts: &[&str],
    descending: bool,
) -> Result<Option<Vec<i64>>, AllocError>
    ensures { IfOk result (λ found. IfSome found (λ ranks. AreRanks descending texts.now ranks.items)) }
{
    let mut ranks = Vec::with_capacity(alloc, texts.len())?;
    for text in texts {
        match rank_of(text, descending) {
            Some(rank) => ranks.push(rank)?,
            None => return Ok(None),
        }
    }
    Ok(Some(ranks))
}

/// The rank of a text, if its number hasn't too many digits for one.
fn rank_of(text: &str, descending: bool) -> Option<i64>
    ensures { IfSome result (IsRank descending (decimal text.now)) }
{
    match Decimal::parse(text) {
        Some(number) => {
            let millionths = number.millionths()?;
            Some(if descending { -millionths } else { millionths })
        }
        None => Some(i64::MAX),
    }
}

/// Compares two indexes by the ranks at them, and then by themselves.
pub(super) fn cmp_ranks(ranks: &[i64], a: usize, b: usize) -> Ordering
    ensures { result ≡ ordering_then (int_cmp (get_or ranks.now a last_rank) (get_or ranks.now b last_rank)) (nat_cmp a b) }
{
    rank_at(ranks, a).cmp(&rank_at(ranks, b)).then(a.cmp(&b))
}

/// The rank at an index, the last one past the ranks.
fn rank_at(ranks: &[i64], index: usize) -> i64
    ensures { result ≡ get_or ranks.now index last_rank }
{
    if index < ranks.len() {
        ranks[index]
    } else {
        i64::MAX
    }
}
