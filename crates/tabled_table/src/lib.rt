//! Tables, what builds them and what changes them.
#![tactic(auto)]

pub mod builder;
pub mod laws;
mod table;

pub use table::Table;
pub use tabled_options::{
    CellOption, EmptySettings, Modify, ModifyList, OptionSlice, Settings, TableOption, TextRef,
    combine_entity,
};
