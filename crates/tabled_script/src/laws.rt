//! Laws of what the program writes. Each is the contract of a function that does nothing.

ghost use Rattle.std.specs.Prelude.{◌≡◌, ◌≤◌, ◌<◌, ◌↔◌, ℕ, IsSome, List, None};
ghost use Rattle.tabled_draw.specs.Width.{picture_width};
ghost use Rattle.tabled_draw.specs.declared.style.Style.{Style};
ghost use Rattle.tabled_grid.specs.Grid.{Grid};
ghost use Rattle.tabled_grid.specs.Spans.{SpanMap};
ghost use Rattle.tabled_script.specs.Narrow.{at_widest_pieces, narrowed};
ghost use Rattle.tabled_language.specs.Script.{Script};
ghost use Rattle.tabled_language.specs.RoundTrip.{IsTable};
ghost use Rattle.tabled_script.specs.Again.{GivesAgain};
ghost use Rattle.tabled_script.specs.Answer.{ended};

/// The output of a script that ends with a table whose merged cells fit, given to the program once more, gives
/// the same bytes.
pub fn outputs_are_given_again()
    ensures { (script : Script) → IsTable (ended script) → GivesAgain script }
{}

/// A table that is drawn in so many columns is drawn in more, too.
pub fn what_is_drawn_is_drawn_in_more_columns()
    ensures { (n more : ℕ) (style : Style) (m : SpanMap) (g : Grid (List ℕ)) → n ≤ more → IsSome (narrowed n style m g) → IsSome (narrowed more style m g) }
{}

/// A table is not drawn in so many columns exactly where it is wider as it is, and also with its texts cut as far as may be.
pub fn only_what_cannot_be_cut_is_not_drawn()
    ensures { (n : ℕ) (style : Style) (m : SpanMap) (g : Grid (List ℕ)) → (narrowed n style m g ≡ None) ↔ ((n < picture_width style g m) × (n < picture_width style (at_widest_pieces g) m)) }
{}
