//! Stores of cells, and the traits that every store keeps.
//!
//! A contract sees a store as its grid alone, a shape and the list of its rows.
//!
//! Stores keep these traits:
//!
//! - `GridStore`: what the store means.
//! - `Records` and `ExactRecords`: how many columns and rows it has.
//! - `PeekableRecords`: the texts of its cells.
//! - `RecordsMut`: its texts can be written.
//! - `Resizable`: rows and columns are put in, taken out, exchanged and cut.
//!
//! Their cells keep `CellText` (has a text), `Blank` (can be made empty) and `FromText` (is made of a text).

mod axis;
mod blank;
mod borrowed;
mod cell_text;
mod exact_records;
mod from_text;
mod gather;
mod grid_store;
pub mod nested_rows;
mod peekable_records;
mod piece_order;
mod pieces;
#[allow(clippy::module_inception)]
mod records;
mod records_mut;
mod refusing;
mod resizable;
mod shape;
mod target;
pub mod vec_records;

pub use axis::Axis;
pub use blank::Blank;
pub use cell_text::CellText;
pub use exact_records::ExactRecords;
pub use from_text::FromText;
pub use grid_store::GridStore;
pub use peekable_records::PeekableRecords;
pub use piece_order::PieceOrder;
pub use pieces::LinePieces;
pub use records::Records;
pub use records_mut::RecordsMut;
pub use refusing::Refusing;
pub use resizable::Resizable;
#[doc(hidden)]
pub use shape::shape_of;
pub use target::{Target, TargetColumn, TargetRow};
pub use vec_records::{Text, VecRecords};
