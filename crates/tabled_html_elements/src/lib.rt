//! Elements of a table, read from HTML as the standard says.
#![tactic(auto)]

mod building;
mod characters;
mod elements;
mod fault;
mod parts;
mod reference;
mod tag;
mod text;

pub use elements::{Attribute, Element, Group, Row, Table};
pub use fault::ReadError;
pub use parts::read;
