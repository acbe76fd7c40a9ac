//! Pictures of tables.
#![tactic(auto)]

mod alignment;
mod band;
mod borders;
mod drawing;
mod growth;
pub mod laws;
mod layout;
mod lines;
mod look;
mod markdown;
mod markdown_texts;
mod owners;
mod pictures;
mod sheet;
mod style;
mod styles;
mod texts;
mod width;

pub use alignment::Alignment;
pub use drawing::Drawing;
pub use growth::room;
pub use look::Look;
pub use markdown::{Markdown, draw_markdown};
pub use pictures::{draw, draw_with, picture, picture_with};
pub use style::{Lines, Style};
pub use width::{column_widths, picture_width, width_of_columns};
