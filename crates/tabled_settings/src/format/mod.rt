//! Options that write what closures answer.

ghost use Rattle.std.specs.Prelude.{◌≡◌, false};

mod format_content;
mod format_positioned;

pub use format_content::FormatContent;
pub use format_positioned::FormatContentPositioned;
use std::alloc::{AllocError, Global};
use tabled_grid::config::Position;

/// Makes options that write what closures answer to the texts of cells.
///
/// Ported from `tabled::settings::format::Format`.
#[derive(Debug)]
pub struct Format;

impl Format {
    /// Writes to each cell what the closure answers to its text.
    ///
    /// Ported from `tabled::settings::format::Format::content`.
    pub fn content<F>(f: F) -> FormatContent<F>
    where
        F: FnMut(Global, &str) -> Result<String, AllocError>,
        ensures { result ≡ (f, false) }
    {
        FormatContent::new(f)
    }

    /// Writes to each cell what the closure answers to its text and its place.
    ///
    /// Ported from `tabled::settings::format::Format::positioned`.
    pub fn positioned<F>(f: F) -> FormatContentPositioned<F>
    where
        F: FnMut(Global, &str, Position) -> Result<String, AllocError>,
        ensures { result ≡ f }
    {
        FormatContentPositioned::new(f)
    }
}
