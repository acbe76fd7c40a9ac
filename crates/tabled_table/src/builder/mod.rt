//! What builds tables from records.

mod columns;
mod index_builder;
mod indexed;
mod maps;
mod rows;
mod table_builder;
mod texts;

pub use index_builder::IndexBuilder;
pub use table_builder::Builder;
