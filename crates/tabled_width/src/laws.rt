//! Laws of the columns of texts. Each is the contract of a function that does nothing.

ghost use Rattle.std.specs.Prelude.{ℕ, Bool, List, true};
ghost use Rattle.tabled_width.specs.Laws.{AddsUp, IsLine};
ghost use Rattle.tabled_width.specs.WrapLaws.{IsWrapped, KeepsWords};
ghost use Rattle.tabled_width.specs.Wraps.{wrapped_characters};

/// At each cut between pieces of a line the columns add up: those of the line are those of what is before the cut and of
/// what is behind it, which begins with a character that takes some. So those of a line are those of its pieces.
pub fn columns_add_up_at_cuts()
    ensures { (line : List ℕ) → IsLine line → AddsUp line }
{}

/// A text that is wrapped, between words or between any pieces, has no line of more columns than the width but for a single
/// piece; what is neither a blank nor a newline stands there whole and in order; and it is wrapped line by line, where a
/// line that fits is as it was.
pub fn wrapped_texts_are_narrow_and_whole()
    ensures { (width : ℕ) (keep_words : Bool) (text : List ℕ) → IsWrapped width text (wrapped_characters width keep_words text) }
{}

/// A text that is wrapped between words has these in order, with blanks and newlines between them: each that has no more
/// columns than the width as it was, and the others in parts.
pub fn wraps_keep_words()
    ensures { (width : ℕ) (text : List ℕ) → KeepsWords width text (wrapped_characters width true text) }
{}
