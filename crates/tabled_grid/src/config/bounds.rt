//! Ranges of rows and of columns.

ghost use Rattle.std.specs.Prelude.{◌≡◌, ℕ};
ghost use Rattle.std.specs.Range.{range_inclusive_end, range_inclusive_exhausted, range_inclusive_start};
ghost use Rattle.std.specs.declared.ops.Bound.{Bound};
ghost use Rattle.std.specs.declared.ops.Bound.TheVariants.{Excluded, Included, Unbounded};
ghost use Rattle.tabled_grid.specs.Bounds.{end_index, first_index, inclusive_end};

use std::ops::{Bound, Range, RangeFrom, RangeFull, RangeInclusive, RangeTo, RangeToInclusive};

/// A range of indexes, as of rows or of columns.
///
/// It stands for `std::ops::RangeBounds<usize>`, of which the original takes no range with an excluded
/// start.
pub trait ToBounds {
    /// The two bounds of the range.
    ghost bounds_of: { Self → Bound ℕ × Bound ℕ };

    /// Where the range begins and where it ends.
    fn bounds(&self) -> (Bound<usize>, Bound<usize>)
        ensures { result ≡ bounds_of self.now };

    /// The indexes of the range, of `count` where it has no end.
    ///
    /// They may lie past `count`. An excluded start begins one further and an included end ends one
    /// further, both cut at `usize::MAX`, so the index `usize::MAX` itself is never among them.
    final fn to_range(&self, count: usize) -> Range<usize>
        ensures start { result.start ≡ first_index (bounds_of self.now).0 }
        ensures end { result.end ≡ end_index (bounds_of self.now).1 count }
    {
        let (start, end) = self.bounds();
        let first = match start {
            Bound::Included(index) => index,
            Bound::Excluded(index) => index.saturating_add(1),
            Bound::Unbounded => 0,
        };
        let past = match end {
            Bound::Included(index) => index.saturating_add(1),
            Bound::Excluded(index) => index,
            Bound::Unbounded => count,
        };
        first..past
    }
}

impl ToBounds for Range<usize> {
    ghost bounds_of = { λ s. (Included s.start, Excluded s.end) };

    fn bounds(&self) -> (Bound<usize>, Bound<usize>) {
        (Bound::Included(self.start), Bound::Excluded(self.end))
    }
}

/// A range that was gone through to its end names its last index no more, as in Rust.
impl ToBounds for RangeInclusive<usize> {
    ghost bounds_of = { λ s. (Included (range_inclusive_start s), inclusive_end (range_inclusive_end s) (range_inclusive_exhausted s)) };

    fn bounds(&self) -> (Bound<usize>, Bound<usize>) {
        let (start, end) = (*self.start(), *self.end());
        // Two ranges of the same ends are equal if neither or both were gone through.
        let last = if *self == (start..=end) {
            Bound::Included(end)
        } else {
            Bound::Excluded(end)
        };
        (Bound::Included(start), last)
    }
}

impl ToBounds for RangeFrom<usize> {
    ghost bounds_of = { λ s. (Included s.start, Unbounded) };

    fn bounds(&self) -> (Bound<usize>, Bound<usize>) {
        (Bound::Included(self.start), Bound::Unbounded)
    }
}

impl ToBounds for RangeTo<usize> {
    ghost bounds_of = { λ s. (Unbounded, Excluded s.end) };

    fn bounds(&self) -> (Bound<usize>, Bound<usize>) {
        (Bound::Unbounded, Bound::Excluded(self.end))
    }
}

impl ToBounds for RangeToInclusive<usize> {
    ghost bounds_of = { λ s. (Unbounded, Included s.end) };

    fn bounds(&self) -> (Bound<usize>, Bound<usize>) {
        (Bound::Unbounded, Bound::Included(self.end))
    }
}

impl ToBounds for RangeFull {
    ghost bounds_of = { λ _. (Unbounded, Unbounded) };

    fn bounds(&self) -> (Bound<usize>, Bound<usize>) {
        (Bound::Unbounded, Bound::Unbounded)
    }
}

impl ToBounds for (Bound<usize>, Bound<usize>) {
    ghost bounds_of = { λ s. s };

    fn bounds(&self) -> (Bound<usize>, Bound<usize>) {
        *self
    }
}
