//! Selectors and steps as data, and lists of steps that run on any store.
#![tactic(auto)]

mod groups;
pub mod laws;
mod naming;
mod representatives;
mod select;
mod step;
mod steps;

pub use select::Select;
pub use step::Step;
pub use steps::run;
