//! Rows of texts, and what their readers and writers share.
#![tactic(auto)]

mod line;
mod mark;
mod part_error;
mod room;
mod rows;

pub use line::line_at;
pub use mark::{begins_with_mark, behind_mark};
pub use part_error::PartError;
pub use room::{Room, Spare};
pub use rows::{Rows, Stored};
