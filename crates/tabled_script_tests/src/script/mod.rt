//! Tests of scripts, by public calls alone: what can be typed stands in .ci/typed.

mod answers;
mod faults;
mod help;
mod refusals;
mod streams;
mod widths;
