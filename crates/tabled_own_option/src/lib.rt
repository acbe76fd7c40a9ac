//! An option of one's own: a first column of row numbers.
#![tactic(auto)]

pub mod laws;
mod row_numbers;

pub use row_numbers::RowNumbers;
