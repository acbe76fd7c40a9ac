//! What a span takes of rows or columns.

ghost use Rattle.std.specs.Prelude.{◌≡◌, ◌<◌, ◌≤ℤ◌, pos};
ghost use Rattle.tabled_spans.specs.Spanned.{back_of, taken};

/// How many cells back a span of size 0 or below takes, or all of the line.
pub(super) fn back_of(size: isize) -> Option<usize>
    requires { size ≤ℤ pos 0 }
    ensures { result ≡ back_of size }
{
    if size == 0 {
        None
    } else {
        Some(size.unsigned_abs())
    }
}

/// The first of `count` rows or columns that a span takes, back from one of them, and how many it takes:
/// n cells more, or all of the line.
pub(super) fn taken(back: Option<usize>, count: usize, index: usize) -> (usize, usize)
    requires { index < count }
    ensures { result ≡ taken back count index }
{
    match back {
        None => (0, count),
        Some(back) => {
            let back = back.min(index);
            (index - back, back + 1)
        }
    }
}
