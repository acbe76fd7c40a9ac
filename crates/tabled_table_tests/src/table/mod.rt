//! Tests of builders and of the tables that they make.

mod builders;
mod call;
mod csv;
mod first_table;
mod indexes;
mod maps;
mod refusals;
