//! Tests of the libraries, and of what `tabled_uses` makes of them.
#![tactic(auto)]

#[cfg(test)]
mod covers;
#[cfg(test)]
mod fitting;
#[cfg(test)]
mod places;
#[cfg(test)]
mod rows;
#[cfg(test)]
mod spans;
#[cfg(test)]
mod steps;
#[cfg(test)]
mod store_calls;
#[cfg(test)]
mod stores;
#[cfg(test)]
mod texts;
