//! Selectors: what names cells of a table, and how selections combine.
#![tactic(auto)]

pub mod laws;
pub mod location;
pub mod object;
