//! Rows of cells, one after another, and what limits and skips them.
#![tactic(auto)]

pub mod laws;
pub mod records;
