//! The forms in which rows are written.

/// What stands around and between objects.
///
/// Of this project.
#[derive(Clone, Copy, Debug, PartialEq, Eq)]
pub enum Layout {
    /// They stand in one array, an object a line.
    Array,
    /// They stand one a line, with nothing around or between them.
    Lines,
}

/// How texts are written as values.
///
/// Of this project.
#[derive(Clone, Copy, Debug, PartialEq, Eq)]
pub enum Values {
    /// Each is a string.
    Strings,
    /// A number of JSON, to the letter, `true` and `false` stand with no quotes, and each other one is a string.
    Bare,
}
