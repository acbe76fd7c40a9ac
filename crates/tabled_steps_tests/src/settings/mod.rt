//! Tests of the public calls of `tabled_settings` and `tabled_spans`.

mod content;
mod cuts;
mod joins;
mod merges;
mod moves;
mod odd;
mod refused_writers;
mod sorts;
mod spans;
mod tables;
mod widths;
mod writers;
