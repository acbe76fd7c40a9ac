//! What an outsider writes over the libraries.
#![tactic(auto)]

pub mod answering;
pub mod carried;
pub mod csv;
pub mod decimals;
pub mod geometry;
pub mod helping;
pub mod json;
pub mod language;
pub mod merged;
pub mod options;
pub mod own_store;
pub mod pages;
pub mod pictures;
pub mod refusing;
pub mod rows;
pub mod select;
pub mod settings;
mod spelling;
pub mod steps;
pub mod stores;
pub mod texts;
pub mod widths;
pub mod writers;
