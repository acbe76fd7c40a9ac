//! What the program tells of its words and of faults.
#![tactic(auto)]

mod entry;
mod near;
mod said;
mod texts;

pub use entry::{Entry, FaultText, Way};
pub use near::{is_within, nearest};
pub use said::{explained, said_of, way_of};
pub use texts::{ENTRIES, FAULTS, HELP, WAYS, WORDS};
