//! Tests of an option, a selector and a store of one's own.
#![tactic(auto)]

#[cfg(test)]
mod option;
#[cfg(test)]
mod selector;
#[cfg(test)]
mod store;
