//! Options that replace characters.

mod charset;

pub use charset::Charset;
