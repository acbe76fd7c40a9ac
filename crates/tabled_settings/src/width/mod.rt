//! Options for the widths of texts.

ghost use Rattle.std.specs.Prelude.{◌≡◌, [], false};

mod truncate;
mod wrap;

pub use truncate::Truncate;
pub use wrap::Wrap;

/// Changes the widths of texts.
///
/// Ported from `tabled::settings::Width`.
#[derive(Debug)]
pub struct Width;

impl Width {
    /// Cuts lines into lines of at most n columns, anywhere.
    ///
    /// Ported from `tabled::settings::Width::wrap`.
    pub fn wrap(width: usize) -> Wrap
        ensures { result ≡ (width, false) }
    {
        Wrap::new(width)
    }

    /// Cuts lines of more than n columns, with nothing behind what stays.
    ///
    /// Ported from `tabled::settings::Width::truncate`.
    pub fn truncate(width: usize) -> Truncate<'static>
        ensures width { result.width ≡ width }
        ensures suffix { result.suffix.now ≡ [] }
    {
        Truncate::new(width)
    }
}
