//! What changes from line to line of a picture.

use crate::owners::Owner;

/// What is known at a line between two rows, or at an outer one.
#[derive(Drop)]
pub(crate) struct Band<'a> {
    /// The owners of the places of the row above, with one more at both sides.
    pub(crate) above: Vec<Owner>,
    /// Room for those of the row below.
    pub(crate) here: Vec<Owner>,
    /// How many anchors stand in rows above.
    pub(crate) next: usize,
    /// What is left of the text that begins in each column.
    pub(crate) rests: Vec<&'a str>,
}
