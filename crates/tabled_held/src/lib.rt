//! Bytes and characters on their way to a writer.
#![tactic(auto)]

mod characters;
mod held;
mod pen;
mod run;
mod sending;

pub use held::Held;
pub use pen::Pen;
pub use run::run_of;
pub use sending::write_all;
