//! Tests of tables as HTML, by public calls alone.

mod elements;
mod refusals;
mod texts;
mod writers;
mod written;
