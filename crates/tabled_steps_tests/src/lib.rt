//! Tests of settings and of steps.
#![tactic(auto)]

#[cfg(test)]
mod settings;
#[cfg(test)]
mod steps;
