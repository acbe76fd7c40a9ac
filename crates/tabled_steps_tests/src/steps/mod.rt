//! Tests of steps and of the options that they do, each a line of words.

mod case;
mod cuts;
mod joins;
mod large;
mod lines;
mod named;
mod panels;
mod selectors;
mod spans;
mod turns;
mod worded;
mod writers;
