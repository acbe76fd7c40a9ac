//! Laws of tables that are read from HTML. Each is the contract of a function that does nothing.

ghost use Rattle.std.specs.Prelude.{◌≡◌, ◌≤◌, ℕ, List, Some};
ghost use Rattle.tabled_html_reading.specs.Areas.{Area, EndWithin, IsTiled, Tiles, as_body, as_head_and_body};
ghost use Rattle.tabled_html_reading.specs.Building.{parsed, read_text};
ghost use Rattle.tabled_html_reading.specs.Bytes.{table_bytes};
ghost use Rattle.tabled_html_reading.specs.Elements.{Element, Table};
ghost use Rattle.tabled_html_reading.specs.Escaping.{HasNoNul, escaped, shown};
ghost use Rattle.tabled_html_reading.specs.Examples.{AreFormed, AreRead};
ghost use Rattle.tabled_html_reading.specs.Forming.{forming_a_table};
ghost use Rattle.tabled_html_reading.specs.OddTables.{AreOddFormed, AreOddRead};
ghost use Rattle.tabled_html_reading.specs.Showing.{IsTableWritable, shown_table};

/// What is read of an escaped text is the text, in which U+FFFD stands for each U+0000.
pub fn escaped_texts_are_read_back()
    ensures shown { (text : List ℕ) → read_text (escaped text) ≡ Some (shown text) }
    ensures same { (text : List ℕ) → HasNoNul text → read_text (escaped text) ≡ Some text }
{}

/// The table that is formed of the rows of any tiled table is that table: as many columns and rows, no two cells in a slot,
/// and in each slot the cell of its area. The rows are its body, or its head as far as no area crosses the end, and its body.
pub fn rows_of_a_tiling_form_it()
    ensures body { (columns rows : ℕ) (own : ℕ → ℕ → Area) (element : Area → Element) → (rows ≡ 0 → columns ≡ 0) → Tiles columns rows own element → IsTiled columns rows own element (forming_a_table (as_body columns rows own element)) }
    ensures head { (columns rows : ℕ) (own : ℕ → ℕ → Area) (element : Area → Element) (head : ℕ) → (rows ≡ 0 → columns ≡ 0) → Tiles columns rows own element → head ≤ rows → EndWithin columns own head → IsTiled columns rows own element (forming_a_table (as_head_and_body columns rows own element head)) }
{}

/// The bytes of a table's elements are read as these elements, with their texts as they are shown.
pub fn written_elements_are_read_back()
    ensures { (t : Table) → IsTableWritable t → parsed (table_bytes t) ≡ Some (shown_table t) }
{}

/// Odd tables are read as other readers do, each by an equation that computing proves: bytes as html5lib reads them, and
/// elements with spans of all kinds as a browser lays them out.
pub fn odd_tables_are_read_as_others_do()
    ensures read { AreOddRead }
    ensures formed { AreOddFormed }
{}

/// What the definitions say of some elements and bytes, errors among them.
pub fn definitions_have_these_examples()
    ensures formed { AreFormed }
    ensures read { AreRead }
{}
