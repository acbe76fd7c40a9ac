//! The language of scripts: a table and steps read from lines of words.
#![tactic(auto)]

mod draft;
mod fault;
mod faulty;
mod keywords;
pub mod laws;
mod lent;
mod line_names;
mod line_words;
mod origin;
mod padding;
mod parts;
mod plain;
mod script;
mod selectors;
mod short;
mod sizes;
mod spans;
mod text_parts;
mod texts;
mod verbs;
mod walk;
mod word;
mod words;

pub use fault::{Fault, ParseError};
pub use faulty::{faulty_word, faulty_word_of_line};
pub use lent::LentText;
pub use origin::{Origin, count_lines, origin_of};
pub use padding::padded;
pub use plain::PlainText;
pub use script::{Script, parse, parse_between};
pub use short::ShortText;
pub use word::length_of;
