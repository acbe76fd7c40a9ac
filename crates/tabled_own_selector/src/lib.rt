//! A selector of one's own: the cells on the diagonal.
#![tactic(auto)]

mod diagonal;

pub use diagonal::{Diagonal, DiagonalIter};
