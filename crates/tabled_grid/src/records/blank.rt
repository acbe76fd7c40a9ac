//! Cells that can be made empty.

ghost use Rattle.std.specs.Prelude.{◌≡◌, []};
ghost use Rattle.std.specs.String.{string_bytes};

use std::alloc::Global;

/// A cell that can be made empty, which takes no memory.
pub trait Blank: Drop {
    /// The cell is empty.
    ghost is_blank: { Self → Type 0 };

    /// An empty cell.
    fn blank(alloc: Global) -> Self
        ensures { is_blank result };
}

impl Blank for String {
    ghost is_blank = { λ s. string_bytes s ≡ [] };

    fn blank(alloc: Global) -> Self {
        String::new(alloc)
    }
}

impl<'a> Blank for &'a str {
    ghost is_blank = { λ s. s.now ≡ [] };

    fn blank(_alloc: Global) -> Self {
        ""
    }
}

impl Blank for usize {
    ghost is_blank = { λ n. n ≡ 0 };

    fn blank(_alloc: Global) -> Self {
        0
    }
}
