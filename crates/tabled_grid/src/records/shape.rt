//! The shape of a store.

ghost use Rattle.std.specs.Prelude.{◌≡◌};

use crate::config::Size;
use crate::records::exact_records::ExactRecords;
use crate::records::records::Records;

/// How many rows and how many columns a store has.
///
/// Of this project: the original has a call for each.
#[doc(hidden)]
pub fn shape_of<R: Records + ExactRecords>(records: &R) -> Size
    requires { R.is_well_formed records.now }
    ensures rows { result.height ≡ (R.grid records.now).rows }
    ensures columns { result.width ≡ (R.grid records.now).columns }
{
    Size {
        height: records.count_rows(),
        width: records.count_columns(),
    }
}
