//! Laws of merged cells that are carried along. Each is the contract of a function that does nothing.

ghost use Rattle.std.specs.Prelude.{◌≡◌, ◌↔◌, ℕ, List, Some, false};
ghost use Rattle.tabled_grid.specs.Fitting.{Fits, FitsAmong, keep_fitting};
ghost use Rattle.tabled_grid.specs.Grid.{Grid};
ghost use Rattle.tabled_grid.specs.Places.{Places};
ghost use Rattle.tabled_grid.specs.Shifts.{is_crossed};
ghost use Rattle.tabled_grid.specs.Spans.{SpanMap, get};
ghost use Rattle.tabled_grid.specs.declared.config.position.Position.{Position};
ghost use Rattle.tabled_grid.specs.declared.config.rectangle.Rectangle.{Rectangle};
ghost use Rattle.tabled_grid.specs.declared.records.axis.Axis.{Axis};
ghost use Rattle.tabled_grid.specs.declared.records.axis.Axis.TheVariants.{Columns, Rows};
ghost use Rattle.tabled_grid.specs.declared.config.size.Size.{Size};
ghost use Rattle.tabled_carry.specs.Images.{CarriesAll, IsImage, KeepsPlaces, LeadsBack, carried};
ghost use Rattle.tabled_carry.specs.PutIn.{FitsGrid, PutsInColumn, PutsInRow};

/// Those rectangles fit a table that lie inside it and share no cell with another one.
pub fn fitting_rectangles_are_the_free_ones()
    ensures { (m : SpanMap) (rows columns : ℕ) (e : Rectangle) → (get (keep_fitting rows columns m) e.first ≡ Some e.size) ↔ ((get m e.first ≡ Some e.size) × FitsAmong m rows columns e) }
{}

/// The rectangles that are carried along are just those whose cells are the new places of the cells of one
/// that fits, all of which have a new place.
pub fn carried_rectangles_are_the_images()
    ensures { (places : Places) (rows columns : ℕ) (m : SpanMap) → IsImage places (keep_fitting rows columns m) (carried places rows columns m) }
{}

/// There is one such map alone.
pub fn there_is_one_image()
    ensures { (places : Places) (old : SpanMap) (new : SpanMap) (other : SpanMap) → IsImage places old new → IsImage places old other → new ≡ other }
{}

/// What is carried along lies inside the new table and apart, whatever the map was before.
pub fn carried_rectangles_fit()
    ensures { (places : Places) (rows columns : ℕ) (m : SpanMap) → Fits (carried places rows columns m) places.size.height places.size.width }
{}

/// Merged cells that fit and are all carried along are as they were, once they are carried back.
pub fn carried_there_and_back_is_as_it_was()
    ensures { (there : Places) (back : Places) (rows columns : ℕ) (m : SpanMap) → LeadsBack there back → CarriesAll there m → Fits m rows columns → carried back there.size.height there.size.width (carried there rows columns m) ≡ m }
{}

/// Where the cells of a table keep their places, those merged cells stay that fit it.
pub fn merged_cells_stay_with_their_cells()
    ensures { (places : Places) (rows columns : ℕ) (m : SpanMap) → KeepsPlaces places rows columns → carried places rows columns m ≡ keep_fitting rows columns m }
{}

/// Merged cells that fit do so once a row, or a column, is put in that none of them crosses. None crosses
/// the first one.
pub fn merged_cells_fit_once_a_line_is_put_in<A>()
    ensures rows { (i : ℕ) (row : List A) (old new : Grid A) (cfg new_cfg : SpanMap) → PutsInRow i row old cfg new new_cfg → is_crossed Rows i cfg ≡ false → FitsGrid cfg old → FitsGrid new_cfg new }
    ensures columns { (j : ℕ) (column : List A) (old new : Grid A) (cfg new_cfg : SpanMap) → PutsInColumn j column old cfg new new_cfg → is_crossed Columns j cfg ≡ false → FitsGrid cfg old → FitsGrid new_cfg new }
    ensures first { (axis : Axis) (m : SpanMap) → is_crossed axis 0 m ≡ false }
{}
