//! How a reader of HTML makes a table: what the standard says of bytes, elements and slots.
#![tactic(auto)]

pub mod laws;
