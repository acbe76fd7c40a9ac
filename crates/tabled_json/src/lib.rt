//! Records as JSON, read as a table of texts, and written.
#![tactic(auto)]

mod arrays;
mod cell;
mod fault;
mod form;
mod keyed;
mod keys;
mod kind;
pub mod laws;
mod lending;
mod list;
mod member;
mod number;
mod place;
mod record;
mod scalar;
mod space;
mod string;
mod tabling;
mod value;
mod writing;

pub use fault::{Fault, ReadError, WriteError};
pub use form::{Layout, Values};
pub use member::Member;
pub use record::read;
pub use tabled_texts::{Room, Spare};
pub use tabling::{read_table, read_table_with, table};
pub use writing::{write, write_records};
