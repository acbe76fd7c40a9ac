//! How many columns texts take.
#![tactic(auto)]

mod columns;
pub mod laws;
mod pieces;
mod plain;
mod plain_wraps;
mod widest;
mod wrapping;

pub use columns::columns_of;
pub use pieces::Pieces;
pub use plain::is_plain;
pub use widest::{widest_piece, widest_word};
pub use wrapping::{lines_fit, wrap};
