//! Places of a table, and what names them.

mod anchors;
mod bounds;
mod count;
mod cover_map;
mod entity;
mod fitting;
mod hiders;
mod offset;
mod position;
mod rectangle;
mod shifts;
mod size;
mod spanned_config;

#[doc(hidden)]
pub use anchors::search;
pub use bounds::ToBounds;
pub use cover_map::CoverMap;
pub use entity::{Entity, EntityIterator};
pub use offset::Offset;
pub use position::Position;
pub use rectangle::Rectangle;
pub use size::Size;
pub use spanned_config::SpannedConfig;
