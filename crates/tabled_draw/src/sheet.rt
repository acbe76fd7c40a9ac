//! What all lines of a picture share.

ghost use Rattle.std.specs.Prelude.{◌≡◌, ◌+◌, length};
ghost use Rattle.tabled_held.specs.Runs.{run_of};
ghost use Rattle.tabled_draw.specs.Unmerged.{IsBetween};

use crate::look::Look;

/// The look of a picture, its rows and columns, and the bytes of borders that are made once.
#[derive(Clone, Copy)]
pub(crate) struct Sheet<'a> {
    pub(crate) look: Look<'a>,
    pub(crate) rows: usize,
    pub(crate) columns: usize,
    /// How high each row is.
    pub(crate) heights: &'a [usize],
    /// Where the left edge of each column stands, and the last edge.
    pub(crate) edges: &'a [usize],
    /// A run of the style's level border.
    pub(crate) level: &'a [u8],
    /// The line between two rows without merged cells, if its bytes are kept.
    pub(crate) between: &'a [u8],
    ghost long: { length edges.now ≡ columns + 1 },
    ghost is_level: { level.now ≡ run_of look.style.horizontal },
    ghost is_between: { IsBetween look.style columns edges.now between.now },
}
