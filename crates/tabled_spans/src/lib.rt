//! Options that merge cells.
#![tactic(auto)]

pub mod laws;
pub mod merge;
pub mod panel;
pub mod span;
