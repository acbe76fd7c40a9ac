//! Merged cells, carried along when cells move.
#![tactic(auto)]

mod fitting_spans;
mod images;
pub mod laws;
mod line_pieces;
mod sort;

pub use fitting_spans::FittingSpans;
pub use images::{Moves, MovesCells, MovesRectangles, image_of};
