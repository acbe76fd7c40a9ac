//! Rows or columns, as a type says.

ghost use Rattle.std.specs.Prelude.{◌≡◌};
ghost use Rattle.tabled_grid.specs.declared.records.axis.Axis.{Axis};
ghost use Rattle.tabled_grid.specs.declared.records.axis.Axis.TheVariants.{Columns, Rows};

use crate::records::axis::Axis;

/// Which lines an option is for: rows or columns.
///
/// An option for both has a type parameter, which is `TargetRow` or `TargetColumn`.
pub trait Target {
    /// Rows or columns.
    ghost lines: { Axis };

    /// The axis of the lines.
    fn axis() -> Axis
        ensures { result ≡ lines };
}

/// Says that an option is for rows.
///
/// Ported from `tabled::settings::disable::TargetRow`.
#[derive(Clone, Copy, Debug, PartialEq, Eq, PartialOrd, Ord)]
pub struct TargetRow;

impl Target for TargetRow {
    ghost lines = { Rows };

    fn axis() -> Axis {
        Axis::Rows
    }
}

/// Says that an option is for columns.
///
/// Ported from `tabled::settings::disable::TargetColumn`.
#[derive(Clone, Copy, Debug, PartialEq, Eq, PartialOrd, Ord)]
pub struct TargetColumn;

impl Target for TargetColumn {
    ghost lines = { Columns };

    fn axis() -> Axis {
        Axis::Columns
    }
}
