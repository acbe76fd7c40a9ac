//! Laws of pictures. Each is the contract of a function that does nothing.

ghost use Rattle.std.specs.Prelude.{◌≡◌, ℕ, List, codes, map};
ghost use Rattle.tabled_draw.specs.BoxCharacters.{double_lines, round_lines, sharp_lines};
ghost use Rattle.tabled_draw.specs.Markdown.{markdown, markdown_lines};
ghost use Rattle.tabled_draw.specs.MarkdownRead.{IsReadAs};
ghost use Rattle.tabled_draw.specs.Marks.{IsFine};
ghost use Rattle.tabled_draw.specs.Overall.{AreDrawnAlike, AreEquallyWide, AreNoLargerThanAsked, HasAsManyLines, HasLineOfEachRow, HasNoControls, HasNoLinesWithoutCells, HoldsOfAll, HoldsOfPictures, IsDrawnWhole};
ghost use Rattle.tabled_draw.specs.Picture.{bytes_of_lines};
ghost use Rattle.tabled_draw.specs.Standing.{AreSeenAlike, GoOn, HasBorders, HasPlainBorders, ShowsAllTexts};
ghost use Rattle.tabled_draw.specs.StyleLaws.{HasArmsAtCorners, HasEnds, HasLines, IsBox, IsMadeOf, all_lines, ascii_rounded_corner, dash_or_bar_or, dots_corner, inner_lines, line_of_header, markdown_corner, no_lines, outer_lines, outer_lines_and_header, re_structured_text_corner};
ghost use Rattle.tabled_draw.specs.Styles.{styles};
ghost use Rattle.tabled_draw.specs.declared.alignment.Alignment.{Alignment};
ghost use Rattle.tabled_draw.specs.declared.style.TheConstants.Style.{ASCII, ASCII_ROUNDED, BLANK, DOTS, EMPTY, EXTENDED, MARKDOWN, MODERN, NAMES, PSQL, RE_STRUCTURED_TEXT, ROUNDED, SHARP};
ghost use Rattle.tabled_grid.specs.Entity.{place};
ghost use Rattle.tabled_grid.specs.Fitting.{Fits, fitting, keep_fitting};
ghost use Rattle.tabled_grid.specs.Grid.{Grid, IsInside};
ghost use Rattle.tabled_grid.specs.Spans.{SpanMap, rectangles};

pub use crate::width::lines_take_the_width_of_their_picture;

/// All lines of a picture are equally wide.
pub fn lines_are_equally_wide()
    ensures { HoldsOfPictures AreEquallyWide }
{}

/// A picture has a line for each line of a row, and one for each line around the rows that is drawn; that of a table
/// without cells has none.
pub fn pictures_have_as_many_lines()
    ensures some { HoldsOfAll HasAsManyLines }
    ensures none { HoldsOfAll HasNoLinesWithoutCells }
{}

/// The characters of each style are one column wide, join no others, and are no control characters.
pub fn styles_are_fine()
    ensures ascii { IsFine ASCII }
    ensures modern { IsFine MODERN }
    ensures rounded { IsFine ROUNDED }
    ensures sharp { IsFine SHARP }
    ensures extended { IsFine EXTENDED }
    ensures psql { IsFine PSQL }
    ensures markdown { IsFine MARKDOWN }
    ensures re_structured_text { IsFine RE_STRUCTURED_TEXT }
    ensures dots { IsFine DOTS }
    ensures ascii_rounded { IsFine ASCII_ROUNDED }
    ensures blank { IsFine BLANK }
    ensures empty { IsFine EMPTY }
{}

/// Which lines each style draws around rows, and around columns.
pub fn styles_have_their_lines()
    ensures ascii { HasLines ASCII all_lines all_lines }
    ensures modern { HasLines MODERN all_lines all_lines }
    ensures rounded { HasLines ROUNDED outer_lines_and_header all_lines }
    ensures sharp { HasLines SHARP outer_lines_and_header all_lines }
    ensures extended { HasLines EXTENDED all_lines all_lines }
    ensures psql { HasLines PSQL line_of_header inner_lines }
    ensures markdown { HasLines MARKDOWN line_of_header all_lines }
    ensures re_structured_text { HasLines RE_STRUCTURED_TEXT outer_lines_and_header inner_lines }
    ensures dots { HasLines DOTS all_lines all_lines }
    ensures ascii_rounded { HasLines ASCII_ROUNDED outer_lines all_lines }
    ensures blank { HasLines BLANK no_lines inner_lines }
    ensures empty { HasLines EMPTY no_lines no_lines }
{}

/// Which characters each style has. Those of boxes have exactly the arms that they are drawn for, by their names in
/// Unicode, which has no double line with one arm alone. No corner is drawn that has one: `borders_go_on`.
pub fn styles_have_their_characters()
    ensures ascii { IsMadeOf (codes "-") (codes "|") (λ a. codes "+") ASCII }
    ensures modern { IsBox sharp_lines MODERN }
    ensures modern_ends { HasEnds sharp_lines MODERN }
    ensures rounded { IsBox round_lines ROUNDED }
    ensures rounded_ends { HasEnds round_lines ROUNDED }
    ensures sharp { IsBox sharp_lines SHARP }
    ensures sharp_ends { HasEnds sharp_lines SHARP }
    ensures extended { IsBox double_lines EXTENDED }
    ensures psql { IsMadeOf (codes "-") (codes "|") (dash_or_bar_or (codes "+")) PSQL }
    ensures markdown { IsMadeOf (codes "-") (codes "|") markdown_corner MARKDOWN }
    ensures re_structured_text { IsMadeOf (codes "=") (codes " ") re_structured_text_corner RE_STRUCTURED_TEXT }
    ensures dots { IsMadeOf (codes ".") (codes ":") dots_corner DOTS }
    ensures ascii_rounded { IsMadeOf (codes "-") (codes "|") ascii_rounded_corner ASCII_ROUNDED }
    ensures blank { IsMadeOf (codes " ") (codes " ") (λ a. codes " ") BLANK }
    ensures empty { IsMadeOf (codes " ") (codes " ") (λ a. codes " ") EMPTY }
{}

/// Each name of `Style::NAMES` has a style, and no other text has one.
pub fn styles_have_names()
    ensures { map (λ name. name.now) NAMES ≡ map (λ style. style.0) styles }
{}

/// Each row has a line of its own, also where all that is seen in it belongs to taller merged cells.
pub fn rows_have_lines_of_their_own()
    ensures { HoldsOfAll HasLineOfEachRow }
{}

/// No column is wider, and no row higher, than the most that is asked of it: by a text that is seen in no other, or by
/// the text of a merged cell that takes it, beside the room of the others as their own texts ask; or a row's one line.
pub fn rows_and_columns_are_no_larger_than_asked()
    ensures { HoldsOfPictures AreNoLargerThanAsked }
{}

/// No control character stands in a line of a picture: no text ends a line or sends an escape sequence.
pub fn no_control_character_is_drawn()
    ensures { HoldsOfAll HasNoControls }
{}

/// Each line of the text of each cell that no merged cell hides stands whole at the cell's place, with nothing but
/// blanks around it up to the cell's borders, also nothing without width: no text is overwritten or cut.
pub fn texts_stand_whole()
    ensures { HoldsOfPictures ShowsAllTexts }
{}

/// Borders stand between cells, merged or not, and round the table, wherever the style draws them: an upright one at an
/// edge of a row, unless a merged cell lies at both sides of it, a level one at an edge of a column likewise, and at
/// each corner the character that has an arm for each border that ends there and no other arm, unless a merged cell lies
/// all round it. What stands there if one does, `texts_stand_whole` says.
pub fn borders_are_those_of_the_owners()
    ensures { HoldsOfPictures HasBorders }
{}

/// In a style of box characters, as `styles_have_their_characters` says which are, each corner has just the arms of the
/// borders that end there, unless a merged cell lies all round it.
pub fn corners_of_boxes_have_their_arms()
    ensures { HoldsOfPictures HasArmsAtCorners }
{}

/// No border ends at a corner: where a corner has one arm, it has another. An arm to the next corner is met by an arm of
/// that corner, and `borders_are_those_of_the_owners` says that a border stands between the two.
pub fn borders_go_on()
    ensures { HoldsOfPictures GoOn }
{}

/// In the look that `tabled` has by default all lines are drawn, and borders are `|`, dashes and `+`.
pub fn borders_are_plain_by_default()
    ensures { HoldsOfPictures HasPlainBorders }
{}

/// Of two tables of a shape whose texts differ only where merged cells hide them, the pictures are the same.
pub fn hidden_texts_do_not_matter()
    ensures { (g h : Grid (List ℕ)) (m : SpanMap) → AreSeenAlike g h (fitting g.rows g.columns (rectangles m)) → AreDrawnAlike g m h m }
{}

/// Where all merged cells fit their table, the picture is that with all; where some don't, that without these.
pub fn misfits_leave_no_trace()
    ensures all { (g : Grid (List ℕ)) (m : SpanMap) → Fits m g.rows g.columns → IsDrawnWhole g m }
    ensures some { (g : Grid (List ℕ)) (m : SpanMap) → AreDrawnAlike g m g (keep_fitting g.rows g.columns m) }
{}

/// Markdown is read as its table: the second line has the dashes of each column, which say how its texts are aligned, and
/// each other line is that of a row. A bar that has no backslash before it ends a cell, and what stands there, without
/// blanks at both ends, is read as the cell's text: no part of a text is a mark, a tag, a link or a line's end to a
/// reader. Of merged cells the first has the text, and the others are empty.
pub fn markdown_is_read_as_its_table()
    ensures lines { (aligns : List Alignment) (g : Grid (List ℕ)) (m : SpanMap) → markdown aligns g m ≡ bytes_of_lines (markdown_lines aligns g m) }
    ensures read { (aligns : List Alignment) (g : Grid (List ℕ)) (m : SpanMap) → IsInside g (place 0 0) → IsReadAs aligns g m (markdown_lines aligns g m) }
{}
