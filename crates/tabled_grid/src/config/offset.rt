//! Indexes that are counted from either end.

/// An index that is counted from the start, or back from the end.
///
/// Ported from `tabled::grid::config::Offset`.
#[derive(Clone, Copy, Debug, PartialEq, Eq, PartialOrd, Ord, Hash)]
pub enum Offset {
    Start(usize),
    End(usize),
}
