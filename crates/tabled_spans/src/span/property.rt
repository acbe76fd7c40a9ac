//! Properties of tables that spans of any size keep.

ghost use Rattle.tabled_grid.specs.Fitting.{Fits};
ghost use Rattle.tabled_spans.specs.Spanned.{IsFlat};

use tabled_grid::config::SpannedConfig;
use tabled_options::Property;

/// Merged cells lie inside the table, no two of them share a cell, and each is one row high.
pub struct ColumnSpansFit;

impl<A> Property<A, SpannedConfig> for ColumnSpansFit {
    ghost use Rattle.tabled_grid.specs.declared.records.axis.Axis.TheVariants.{Columns};

    ghost holds = { λ g c. Fits c g.rows g.columns × IsFlat Columns c };
}

/// Merged cells lie inside the table, no two of them share a cell, and each is one column wide.
pub struct RowSpansFit;

impl<A> Property<A, SpannedConfig> for RowSpansFit {
    ghost use Rattle.tabled_grid.specs.declared.records.axis.Axis.TheVariants.{Rows};

    ghost holds = { λ g c. Fits c g.rows g.columns × IsFlat Rows c };
}
