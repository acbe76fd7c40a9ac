//! What tests of tables are made of: tables as words.
#![tactic(auto)]

mod tables;

pub use tables::{
    Flat, Nested, flat, is_word, merged, nested, push_merged, push_word, spelled, spelled_merged,
    spells,
};
