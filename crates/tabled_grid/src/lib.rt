//! Stores of cells: what names their places, and what every store keeps.
#![tactic(auto)]

pub mod config;
pub mod laws;
pub mod records;
