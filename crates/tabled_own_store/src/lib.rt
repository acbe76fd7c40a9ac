//! A store of one's own: texts in a vector for each column.
#![tactic(auto)]

mod each_column;
mod text_columns;

pub use text_columns::TextColumns;
