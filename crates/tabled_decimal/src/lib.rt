//! Decimal numbers as texts write them, compared exactly.
#![tactic(auto)]

mod decimal;
mod digits;
pub mod laws;
mod millionths;
mod order;
mod parse;
#[cfg(test)]
mod tests;

pub use decimal::Decimal;
