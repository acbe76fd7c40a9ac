//! Properties of tables.

ghost use Rattle.tabled_grid.specs.Grid.{Grid};
ghost use Rattle.tabled_grid.specs.Fitting.{Fits};

use tabled_grid::config::SpannedConfig;

/// A property of a grid of cells `A` and a configuration `C`, of which laws say that options keep it.
pub trait Property<A, C> {
    /// It holds of a grid and a configuration.
    ghost holds: { Grid A → C → Type 0 };
}

/// Merged cells lie inside the table, and no two of them share a cell.
pub struct MergedCellsFit;

impl<A> Property<A, SpannedConfig> for MergedCellsFit {
    ghost holds = { λ g m. Fits m g.rows g.columns };
}
