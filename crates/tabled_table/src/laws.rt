//! Laws of what the calls say they do. Each is the contract of a function that does nothing.

ghost use Rattle.std.specs.Prelude.{◌≡◌, option_map};
ghost use Rattle.tabled_table.specs.Builder.{IsClean, cleaned};
ghost use Rattle.tabled_table.specs.Index.{transposed_index};

use crate::builder::{Builder, IndexBuilder};
pub use tabled_options::laws::{combined_either_way, combined_names_both};

/// A builder that is cleaned twice is as if it was cleaned once.
pub fn cleaned_twice_is_once(_builder: &Builder)
    ensures { cleaned (cleaned _builder.now) ≡ cleaned _builder.now }
{}

/// In a cleaned builder no row and no column has empty texts alone.
pub fn cleaned_is_clean(_builder: &Builder)
    ensures { IsClean (cleaned _builder.now) }
{}

/// An index builder that is transposed twice is as it was.
pub fn transposed_twice_is_as_it_was(builder: &IndexBuilder)
    ensures { option_map transposed_index (option_map transposed_index builder.now) ≡ builder.now }
{
    builder.keeps_its_shape();
}
