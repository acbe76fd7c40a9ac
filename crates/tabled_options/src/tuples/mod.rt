//! Tuples of options, of two to ten, both for tables and for cells.
//!
//! A tuple is its parts one after another: `(a, b, c)` means what `Settings::new(Settings::new(a, b), c)`
//! means.

mod eight;
mod five;
mod four;
mod nine;
mod seven;
mod six;
mod ten;
mod three;
mod two;
