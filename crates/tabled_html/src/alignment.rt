//! Where texts stand in their cells.

/// Where the lines of a cell's text stand in it.
///
/// Of this project.
#[derive(Clone, Copy, Debug, PartialEq, Eq)]
pub enum Alignment {
    Left,
    Center,
    Right,
}
