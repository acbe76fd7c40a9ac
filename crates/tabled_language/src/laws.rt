//! Laws of what is written and read. Each is the contract of a function that does nothing.

ghost use Rattle.std.specs.List.{AllByRecursion};
ghost use Rattle.std.specs.Prelude.{◌≡◌, ◌≢◌, ◌<◌, ◌+◌, ◌∷◌, ◌++◌, ℕ, List, [], false, get_or, length};
ghost use Rattle.std.specs.Str.{IsUtf8};
ghost use Rattle.tabled_language.specs.Line.{ended_lines, says_line, says_words};
ghost use Rattle.tabled_language.specs.Origins.{origin_of, said_at};
ghost use Rattle.tabled_language.specs.Output.{row_lines, tab_separated};
ghost use Rattle.tabled_language.specs.Script.{AreTexts, Records, lines_between, parse, parse_between};
ghost use Rattle.tabled_language.specs.Verb.{EmptyLine};
ghost use Rattle.tabled_language.specs.Bare.{bare_parse, has_either_word};
ghost use Rattle.tabled_language.specs.RoundTrip.{IsTable, ReadsBack, ReadsRows};
ghost use Rattle.tabled_steps.specs.States.{State};

/// What is written of a table is read as that table, its merged cells, and no steps.
pub fn what_is_written_is_read_back()
    ensures { (s : State) → IsTable s → ReadsBack s }
{}

/// A script in which no line begins with `shape` or `span` is its records and its steps.
pub fn scripts_of_records_and_steps_keep_their_meaning()
    ensures { (input : List ℕ) → has_either_word input ≡ false → parse input ≡ bare_parse input }
{}

/// Bytes alone are a script between no rows and no words.
pub fn bytes_alone_are_a_script()
    ensures { (input : List ℕ) → parse_between [] input [] ≡ parse input }
{}

/// Rows before bytes mean the `row` lines that are written of them: these are the same lines, so they have the same
/// numbers.
pub fn rows_are_their_lines()
    ensures lines { (rows : Records) (input : List ℕ) (words : Records) → AreTexts rows → lines_between rows input words ≡ lines_between [] (row_lines rows ++ input) words }
    ensures script { (rows : Records) (input : List ℕ) → AreTexts rows → parse_between rows input [] ≡ parse (row_lines rows ++ input) }
{}

/// Words mean what their line says.
pub fn words_are_their_line()
    ensures { (words : List (List ℕ)) → AllByRecursion IsUtf8 words → says_words words ≡ says_line (tab_separated words) }
{}

/// Whether a newline ends the last line of bytes changes no line, nor the number of one.
pub fn last_newlines_do_not_matter()
    ensures { (rows : Records) (input : List ℕ) (b : ℕ) (words : Records) → b ≢ 10 → lines_between rows (input ++ b ∷ 10 ∷ []) words ≡ lines_between rows (input ++ b ∷ []) words }
{}

/// What stands where a line comes from is what that line says.
pub fn origins_are_where_lines_stand()
    ensures { (rows : Records) (input : List ℕ) (words : Records) (n : ℕ) → let lines = lines_between rows input words in n < length lines → said_at rows input words (origin_of (length rows) (length (ended_lines input)) (n + 1)) ≡ get_or lines n EmptyLine }
{}

/// Records that are written as `row` lines are read as these records, padded to the longest, no merged cells and no steps.
pub fn rows_are_read_back()
    ensures { (rows : Records) → AreTexts rows → ReadsRows rows }
{}
