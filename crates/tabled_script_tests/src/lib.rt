//! Tests of pictures and of scripts.
#![tactic(auto)]

#[cfg(test)]
mod draw;
#[cfg(test)]
mod script;
