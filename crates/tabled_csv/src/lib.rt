//! Tables of texts as CSV, read and written.
#![tactic(auto)]

mod dialect;
mod fault;
mod field;
pub mod laws;
mod outside;
mod quoted;
mod quoting;
mod reading;
mod separator;
mod stop;
mod undoubling;
mod writing;

pub use dialect::Dialect;
pub use fault::{Fault, ReadError, WriteError};
pub use reading::{read, read_with};
pub use separator::Separator;
pub use tabled_texts::{Room, Spare};
pub use writing::{write, write_records};
