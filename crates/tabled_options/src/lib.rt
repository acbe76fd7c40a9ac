//! What changes tables and their cells, and how changes compose.
#![tactic(auto)]

mod cell_option;
mod hints;
pub mod laws;
mod modify;
mod option_list;
mod property;
mod settings_list;
mod table_option;
mod tuples;
mod writers;

pub use cell_option::CellOption;
pub use hints::combine_entity;
pub use modify::{Modify, ModifyList};
pub use option_list::OptionSlice;
pub use property::{MergedCellsFit, Property};
pub use settings_list::{EmptySettings, Settings};
pub use table_option::TableOption;
pub use writers::TextRef;
