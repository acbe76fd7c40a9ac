//! Laws of tables as HTML. Each is the contract of a function that does nothing.

ghost use Rattle.std.specs.Prelude.{ℕ, List};
ghost use Rattle.tabled_grid.specs.Fitting.{Fits};
ghost use Rattle.tabled_grid.specs.Grid.{Grid, IsEmptyWithoutRows};
ghost use Rattle.tabled_grid.specs.Spans.{SpanMap};
ghost use Rattle.tabled_html.specs.Elements.{fragment};
ghost use Rattle.tabled_html.specs.Laws.{FormsTheGrid, Shows};
ghost use Rattle.tabled_html.specs.Limits.{AreWithinLimits, keep_written};
ghost use Rattle.tabled_html.specs.Looks.{Look};

/// The table that is formed of the written row groups is the grid, if its merged cells fit and are within the standard's
/// limits.
pub fn written_rows_form_the_grid()
    ensures { (g : Grid (List ℕ)) (m : SpanMap) (look : Look) → IsEmptyWithoutRows g → Fits m g.rows g.columns → AreWithinLimits m → FormsTheGrid g m look }
{}

/// What is written is read as elements that form the grid, with the merged cells that fit and that HTML can say.
pub fn written_bytes_show_the_grid()
    ensures { (g : Grid (List ℕ)) (m : SpanMap) (look : Look) → IsEmptyWithoutRows g → Shows g (keep_written g.rows g.columns m) look (fragment g m look) }
{}
