//! Tests of JSON, by public calls alone.
#![tactic(auto)]

#[cfg(test)]
mod reading;
#[cfg(test)]
mod refusals;
#[cfg(test)]
mod writing;
