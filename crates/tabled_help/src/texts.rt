//! The texts that are told. Made by docs/make from docs/SCRIPT.md and docs/help.txt.

use crate::entry::{Entry, FaultText, Way};

/// What the program can do.
pub const HELP: &str = "Makes a table of rows and scripts, changes and writes it.

  ./tabled_script [OPTIONS] [STEP [then STEP]..] [< SCRIPT]

  ./tabled_script < SCRIPT      runs a script, and prints its table
  ./tabled_script --draw rotate top then header 'Sales of 2026' < SCRIPT
                                does two more steps behind those of the script, and draws the table
  ./tabled_script --csv sales.csv --style modern merge vertical name Region
                                draws a file of CSV, with equal neighbours in a column merged
  ./tabled_script --csv may.csv --csv june.csv --to csv -o both.csv
                                writes the rows of two files to a third one

What is read
  --csv FILE                    the rows of a file of CSV (-: of standard input) as records before those of the script.
                                Those of a further file stand behind them, without its first row, which is the same
  --json FILE                   the records of a file of JSON, under a row of their keys, or its rows, as those of --csv
  --separator C                 the character of ASCII between fields of CSV, or tab; without it a comma
  --no-quotes                   quotes in the files of --csv are characters like others
  --script FILE                 a script (-: of standard input). Without it a script is read from standard input, where
                                there is no file of rows

What is written
  --draw                        draws the table in place of printing it
  --style NAME                  draws it in a style:
                                ascii modern rounded sharp extended psql markdown re_structured_text dots
                                ascii_rounded blank empty
                                as markdown with texts escaped, and each cell by itself
  --align HOW                   draws it with texts to the left (l), in the middle (c) or to the right (r): a letter for
                                each column, the last one for those behind it; or, with commas between, auto (columns
                                of numbers to the right, the others to the left) and NAME=l, NAME=c, NAME=r for the
                                columns of a name
  --width N                     draws it in at most N columns: lines of texts are cut between words where that is needed;
                                without it, and on a terminal, as wide as that at most
  --to FORM                     writes it as a script (script), as without it, its texts as CSV (csv), its rows as records of
                                JSON whose keys are the first one, in an array (json) or one a line (jsonl), or the table
                                with its merged cells as HTML (html), as a page of it (html-page)
  --header N                    writes HTML whose first N rows are its header
  --caption TEXT                writes HTML with a caption
  --to-separator C              writes CSV with this between fields; without it that of what is read
  --strings                     writes JSON whose values are strings, also where they are numbers, true or false
  -o FILE, --output FILE        writes it to a file, which is made only then: a fault leaves it as it was

What is told
  --check                       tells each step that names or changes nothing, and status 5
  --explain [K]                 tells what fault K is, with an example and its cure, or what each fault is
  --prove                       proves and builds the program, and compares it with the one in bin/
  --help [WORD]                 prints this, or what is said of a verb or a selector
  --version                     prints which program this is

The value of an option may stand behind an equals sign, as in --width=40. Behind the options each argument is a word of a
step, as it is, with tabs, newlines and backslashes; the word then stands between two steps. -- ends the options, where the
first word of a step begins with a minus. With steps a terminal as standard input is an empty script.

A script is lines of words, with single tabs between them. The table goes out by standard output, as a script that makes
it: its shape, its rows and its merged cells. What else there is to tell goes to standard error; without any argument it
is a line in the table's place.
docs/SCRIPT.md says more of each word, docs/TASKS.md has a command for each of many tasks, and docs/GALLERY.md leads to a
picture for each word.

WORDS

In each \\t is a tab, \\n a newline and \\\\ a backslash.

  T                             a text, maybe empty
  N, W, I, J, A, B, C, D        a number from 0 to 10000: digits, leading zeros too. Rows and columns are counted
                                from 0
  numbers of shape, span, keep and sort the same, up to 18446744073709551615
  Z                             a size: such a number, maybe with one minus
  SEL                           a selector, with its words
  ..                            any number of what stands before

LINES

At most one shape, then records (row), then spans, then steps: all the others, done one after another.

Records and texts
  row T ..                      A record
  shape R C                     Checks that the padded records have R rows and C columns; it pads nothing
  set SEL T                     Writes a text to each cell
  dup SEL SEL                   Writes to the cells of the first selector, in turn, the texts of the second
  clean SEL                     Takes out control characters below U+0020, tabs too, but not newlines
  tabs N SEL                    Writes N spaces for each tab
  wrap N SEL                    Cuts the lines of texts into lines of at most N columns, as a picture counts them,
                                between words, which blanks part
  truncate N SEL                Ends lines of more than N columns by …, so that they have N at most: what stays
                                before it is the beginning, cut between pieces as by wrap
  replace T T SEL               Replaces the first text, wherever it occurs in a text, by the second

Merged cells: a merged cell is a rectangle of cells, shown with the text of its upper left one, the anchor.
  span I J H W                  A merged cell of H rows and W columns at row I, column J; H and W are at least 1,
                                and not both 1
  cspan Z SEL                   Makes each cell an anchor over columns, row by row
  rspan Z SEL                   The same over rows: down, up, or the whole column
  vmerge                        Merges equal neighbours in each column
  hmerge                        The same in rows
  merge side SEL                Merges equal neighbours in each row, column, cell or all that the selector lists:
                                those in a column (vertical) or in a row (horizontal)

Panels: a new row or column with one text, as one merged cell.
  header T                      Above the first row
  footer T                      Below the last row
  hpanel N T                    Above row N, or below the last one for N rows
  vpanel N T                    Left of column N, alike
  vpanelw N W T                 The same, with the text cut into lines of W columns

Rows and columns: a merged cell stays one, with the text now at its upper left, where all its cells stay and form a
rectangle again; else they come apart.
  rotate way                    left (against the clock), right, and top or bottom, which both turn the order of
                                rows around
  reverse lines N limit N       Turns rows or columns around from index N on: end N leaves out the last N, start N
                                takes N
  extract A B C D               Keeps the rows A B and the columns C D
  remove lines                  Takes away rows A B, columns A B, or named T: the columns with that text in the
                                first row
  keep lines WHAT ..            Keeps the rows or the columns that are named, in the order in which they are named,
                                each once
                                2, -1: one by its index; -1 is the last
                                A:B, A:, :B, :: those of a slice, as in Python
                                T, =T: columns with this text in the first row
                                T=TEXT, T!=TEXT, T<NUMBER, <=, >, >=: rows below the first that pass a test
  sort rows N WHAT keys         Sorts the rows from row N on by a column: that of an index, or the first with this
                                text in the first row
                                text compares texts by their bytes
                                number compares decimal numbers, exactly; what is none comes behind, in its order
                                down behind either puts the largest first
  concat side T I J T ..        Puts a table of I rows and J columns, each at least 1, below (vertical) or to the
                                right (horizontal); its texts follow, row by row
  split lines N order pieces    Cuts rows (column) or columns (row) into pieces of N cells, filled up with empty
                                ones, which become lines of their own
                                zip puts the pieces of one row together; concat all first pieces before all second ones
                                clean drops pieces without a text, but no first one; retain keeps all

SELECTORS

  all                           all cells
  cell I J
  row I
  column J
  first-row
  last-row
  first-column
  last-column
  frame                         first and last row, first and last column
  last-row-minus N              the Nth row before the last
  last-row-plus N               the Nth after it, inside the table for 0 alone
  last-column-minus N
  last-column-plus N
  rows A B
  columns A B
  segment A B C D               the cells in rows A B and columns C D
  content T                     the cells with this text
  name T                        the columns with it in the first row
  and SEL SEL                   the cells of both, each once
  not SEL SEL                   those of the first that the second doesn't name
  intersect SEL SEL             those of the first that the second names
  inverse SEL                   all cells that it doesn't name, row by row
  skip N SEL                    all but the first N
  step N SEL                    the first, and then each Nth; none for 0

STATUSES

  0                             the table
  1                             nothing: the arguments are others, or there is no program of these sources
  2                             nothing: a line, a step or a file is faulty, or no picture is as narrow as is asked
                                for
  3                             nothing: memory ran out
  4                             reading or writing failed: nothing is said of what went out
  5                             the table, and --check told something of it

FAULTS

\"line N\" tells the first faulty line of a script, and \"step N\" the first step of the arguments.

  1                             a word stands where another one is asked for
  2                             a word is missing, or one is left over
  3                             a word is no number, or one out of range
  4                             a backslash begins no escape, or the bytes are no UTF-8
  5                             a selector stands in 64 others
  6                             a line stands where none of its kind may
  7                             a rectangle leaves the table, or shares a cell with one of an earlier line
  8                             the shape isn't that of the records

WORDS OF OTHER TOOLS

  transpose                     rotate left, then rotate top
  delete, drop                  remove
  insert, append                concat adds rows or columns, hpanel and vpanel one with a single text
  flip                          reverse
  cut, select, head, tail, filter keep
  order                         sort
  rename, fill                  set
  title                         header
  uniq, join, group, count, sum not of this layer: that is done before, to the records

ALL WORDS

  all and bottom cell clean column columns concat content cspan down dup end extract first-column first-row footer
  frame header hmerge horizontal hpanel intersect inverse keep last-column last-column-minus last-column-plus
  last-row last-row-minus last-row-plus left merge name named not number remove replace retain reverse right rotate
  row rows rspan segment set shape skip sort span split start step tabs text top truncate vertical vmerge vpanel
  vpanelw wrap zip
";

/// The words of scripts.
pub const WORDS: [&str; 65] = [
    "all",
    "and",
    "bottom",
    "cell",
    "clean",
    "column",
    "columns",
    "concat",
    "content",
    "cspan",
    "down",
    "dup",
    "end",
    "extract",
    "first-column",
    "first-row",
    "footer",
    "frame",
    "header",
    "hmerge",
    "horizontal",
    "hpanel",
    "intersect",
    "inverse",
    "keep",
    "last-column",
    "last-column-minus",
    "last-column-plus",
    "last-row",
    "last-row-minus",
    "last-row-plus",
    "left",
    "merge",
    "name",
    "named",
    "not",
    "number",
    "remove",
    "replace",
    "retain",
    "reverse",
    "right",
    "rotate",
    "row",
    "rows",
    "rspan",
    "segment",
    "set",
    "shape",
    "skip",
    "sort",
    "span",
    "split",
    "start",
    "step",
    "tabs",
    "text",
    "top",
    "truncate",
    "vertical",
    "vmerge",
    "vpanel",
    "vpanelw",
    "wrap",
    "zip",
];

/// What is said of each verb and each selector.
pub const ENTRIES: [Entry; 52] = [
    Entry {
        word: "row",
        text: "  row T ..                      A record
",
    },
    Entry {
        word: "shape",
        text: "  shape R C                     Checks that the padded records have R rows and C columns; it pads nothing
",
    },
    Entry {
        word: "set",
        text: "  set SEL T                     Writes a text to each cell
",
    },
    Entry {
        word: "dup",
        text: "  dup SEL SEL                   Writes to the cells of the first selector, in turn, the texts of the second
",
    },
    Entry {
        word: "clean",
        text: "  clean SEL                     Takes out control characters below U+0020, tabs too, but not newlines
",
    },
    Entry {
        word: "tabs",
        text: "  tabs N SEL                    Writes N spaces for each tab
",
    },
    Entry {
        word: "wrap",
        text: "  wrap N SEL                    Cuts the lines of texts into lines of at most N columns, as a picture counts them,
                                between words, which blanks part
",
    },
    Entry {
        word: "truncate",
        text: "  truncate N SEL                Ends lines of more than N columns by …, so that they have N at most: what stays
                                before it is the beginning, cut between pieces as by wrap
",
    },
    Entry {
        word: "replace",
        text: "  replace T T SEL               Replaces the first text, wherever it occurs in a text, by the second
",
    },
    Entry {
        word: "span",
        text: "  span I J H W                  A merged cell of H rows and W columns at row I, column J; H and W are at least 1,
                                and not both 1
",
    },
    Entry {
        word: "cspan",
        text: "  cspan Z SEL                   Makes each cell an anchor over columns, row by row
",
    },
    Entry {
        word: "rspan",
        text: "  rspan Z SEL                   The same over rows: down, up, or the whole column
",
    },
    Entry {
        word: "vmerge",
        text: "  vmerge                        Merges equal neighbours in each column
",
    },
    Entry {
        word: "hmerge",
        text: "  hmerge                        The same in rows
",
    },
    Entry {
        word: "merge",
        text: "  merge side SEL                Merges equal neighbours in each row, column, cell or all that the selector lists:
                                those in a column (vertical) or in a row (horizontal)
",
    },
    Entry {
        word: "header",
        text: "  header T                      Above the first row
",
    },
    Entry {
        word: "footer",
        text: "  footer T                      Below the last row
",
    },
    Entry {
        word: "hpanel",
        text: "  hpanel N T                    Above row N, or below the last one for N rows
",
    },
    Entry {
        word: "vpanel",
        text: "  vpanel N T                    Left of column N, alike
",
    },
    Entry {
        word: "vpanelw",
        text: "  vpanelw N W T                 The same, with the text cut into lines of W columns
",
    },
    Entry {
        word: "rotate",
        text: "  rotate way                    left (against the clock), right, and top or bottom, which both turn the order of
                                rows around
",
    },
    Entry {
        word: "reverse",
        text: "  reverse lines N limit N       Turns rows or columns around from index N on: end N leaves out the last N, start N
                                takes N
",
    },
    Entry {
        word: "extract",
        text: "  extract A B C D               Keeps the rows A B and the columns C D
",
    },
    Entry {
        word: "remove",
        text: "  remove lines                  Takes away rows A B, columns A B, or named T: the columns with that text in the
                                first row
",
    },
    Entry {
        word: "keep",
        text: "  keep lines WHAT ..            Keeps the rows or the columns that are named, in the order in which they are named,
                                each once
                                2, -1: one by its index; -1 is the last
                                A:B, A:, :B, :: those of a slice, as in Python
                                T, =T: columns with this text in the first row
                                T=TEXT, T!=TEXT, T<NUMBER, <=, >, >=: rows below the first that pass a test
",
    },
    Entry {
        word: "sort",
        text: "  sort rows N WHAT keys         Sorts the rows from row N on by a column: that of an index, or the first with this
                                text in the first row
                                text compares texts by their bytes
                                number compares decimal numbers, exactly; what is none comes behind, in its order
                                down behind either puts the largest first
",
    },
    Entry {
        word: "concat",
        text: "  concat side T I J T ..        Puts a table of I rows and J columns, each at least 1, below (vertical) or to the
                                right (horizontal); its texts follow, row by row
",
    },
    Entry {
        word: "split",
        text: "  split lines N order pieces    Cuts rows (column) or columns (row) into pieces of N cells, filled up with empty
                                ones, which become lines of their own
                                zip puts the pieces of one row together; concat all first pieces before all second ones
                                clean drops pieces without a text, but no first one; retain keeps all
",
    },
    Entry {
        word: "all",
        text: "  all                           all cells
",
    },
    Entry {
        word: "cell",
        text: "  cell I J
",
    },
    Entry {
        word: "row",
        text: "  row I
",
    },
    Entry {
        word: "column",
        text: "  column J
",
    },
    Entry {
        word: "first-row",
        text: "  first-row
",
    },
    Entry {
        word: "last-row",
        text: "  last-row
",
    },
    Entry {
        word: "first-column",
        text: "  first-column
",
    },
    Entry {
        word: "last-column",
        text: "  last-column
",
    },
    Entry {
        word: "frame",
        text: "  frame                         first and last row, first and last column
",
    },
    Entry {
        word: "last-row-minus",
        text: "  last-row-minus N              the Nth row before the last
",
    },
    Entry {
        word: "last-row-plus",
        text: "  last-row-plus N               the Nth after it, inside the table for 0 alone
",
    },
    Entry {
        word: "last-column-minus",
        text: "  last-column-minus N
",
    },
    Entry {
        word: "last-column-plus",
        text: "  last-column-plus N
",
    },
    Entry {
        word: "rows",
        text: "  rows A B
",
    },
    Entry {
        word: "columns",
        text: "  columns A B
",
    },
    Entry {
        word: "segment",
        text: "  segment A B C D               the cells in rows A B and columns C D
",
    },
    Entry {
        word: "content",
        text: "  content T                     the cells with this text
",
    },
    Entry {
        word: "name",
        text: "  name T                        the columns with it in the first row
",
    },
    Entry {
        word: "and",
        text: "  and SEL SEL                   the cells of both, each once
",
    },
    Entry {
        word: "not",
        text: "  not SEL SEL                   those of the first that the second doesn't name
",
    },
    Entry {
        word: "intersect",
        text: "  intersect SEL SEL             those of the first that the second names
",
    },
    Entry {
        word: "inverse",
        text: "  inverse SEL                   all cells that it doesn't name, row by row
",
    },
    Entry {
        word: "skip",
        text: "  skip N SEL                    all but the first N
",
    },
    Entry {
        word: "step",
        text: "  step N SEL                    the first, and then each Nth; none for 0
",
    },
];

/// Words of other tools, and what is written in their place.
pub const WAYS: [Way; 20] = [
    Way {
        word: "transpose",
        way: "rotate left, then rotate top",
    },
    Way {
        word: "delete",
        way: "remove",
    },
    Way {
        word: "drop",
        way: "remove",
    },
    Way {
        word: "insert",
        way: "concat adds rows or columns, hpanel and vpanel one with a single text",
    },
    Way {
        word: "append",
        way: "concat adds rows or columns, hpanel and vpanel one with a single text",
    },
    Way {
        word: "flip",
        way: "reverse",
    },
    Way {
        word: "cut",
        way: "keep",
    },
    Way {
        word: "select",
        way: "keep",
    },
    Way {
        word: "head",
        way: "keep",
    },
    Way {
        word: "tail",
        way: "keep",
    },
    Way {
        word: "filter",
        way: "keep",
    },
    Way {
        word: "order",
        way: "sort",
    },
    Way {
        word: "rename",
        way: "set",
    },
    Way {
        word: "fill",
        way: "set",
    },
    Way {
        word: "title",
        way: "header",
    },
    Way {
        word: "uniq",
        way: "not of this layer: that is done before, to the records",
    },
    Way {
        word: "join",
        way: "not of this layer: that is done before, to the records",
    },
    Way {
        word: "group",
        way: "not of this layer: that is done before, to the records",
    },
    Way {
        word: "count",
        way: "not of this layer: that is done before, to the records",
    },
    Way {
        word: "sum",
        way: "not of this layer: that is done before, to the records",
    },
];

/// What each fault is, by its number from 1 on.
pub const FAULTS: [FaultText; 8] = [
    FaultText {
        title: "an unknown word",
        when: "Spaces for tabs; Row; a comment; a byte order mark; a carriage return after a word; two tabs for one; another word than is asked for (rotate, rows); a selector too few, so that the text is read as one (set, not, all, x).",
        cure: "Write a word that ./tabled_script --help lists, with single tabs around it.",
        example: "    row\tApple\t3
    hide\trow\t0

gives

    line 2: fault 1
",
    },
    FaultText {
        title: "a word is missing, or words are left over",
        when: "A line that ends too soon; a tab in a text, or at the end of a line other than row; more or fewer texts of concat than its rows times columns.",
        cure: "Write as many words as ./tabled_script --help lists for the line, with single tabs between them.",
        example: "    row\tApple\t3
    set\tcell\t0\t1

gives

    line 2: fault 2
",
    },
    FaultText {
        title: "not a number in range",
        when: "A number too few, so that the text is read as one (set, cell, 1, x); a sign, comma or space; above 10000; a minus other than of a size or of keep; behind keep rows a word that is no index, slice or test, or a test by what is no number; 0 rows or columns of concat or span, or a span of one cell.",
        cure: "Write digits alone, as many numbers as ./tabled_script --help lists for the line.",
        example: "    row\tApple\t3
    set\trow\tfirst\tsold

gives

    line 2: fault 3
",
    },
    FaultText {
        title: "a bad escape, or bytes that aren't UTF-8",
        when: "A single backslash (C:\\users is written C:\\\\users; C:\\temp is no fault, and has a tab); a file in Latin-1 or UTF-16.",
        cure: "Write each backslash as \\\\, and save the file as UTF-8.",
        example: "    row\tFile
    row\tC:\\users

gives

    line 2: fault 4
",
    },
    FaultText {
        title: "a selector that stands too deep",
        when: "A selector in 64 others, as in a long list by and.",
        cure: "Do it in more steps, or halve the list.",
        example: "    row\tApple\t3
    set\tinverse\tinverse\t(61 more words)\tinverse\tall\tsold

gives

    line 2: fault 5
",
    },
    FaultText {
        title: "a line out of place",
        when: "A record after a step or a span line (concat adds rows later); a span line after a step (cspan, rspan merge there); a shape line that isn't first, as of two outputs put together.",
        cure: "Put the line where its kind stands: shape, then records, then span lines, then steps.",
        example: "    row\tApple\t3
    set\tall\t-
    row\tPear\t5

gives

    line 3: fault 6
",
    },
    FaultText {
        title: "a merged cell that doesn't fit",
        when: "A span line that reaches out of the table or shares a cell with an earlier one: counted from 1; numbers in another order; rows taken out by hand; a line twice.",
        cure: "Count from 0, so that the merged cell lies inside the table and off the others; or take the line away.",
        example: "    row\t2025\t
    row\tSpring\tAutumn
    span\t1\t1\t1\t2

gives

    line 3: fault 7
",
    },
    FaultText {
        title: "another shape than that of the records",
        when: "Rows or columns added or lost; a tab too many at the end of a row line, which is one more cell.",
        cure: "Write the number of records, and of texts in the longest; or mend the records.",
        example: "    shape\t2\t2
    row\tSpring\tAutumn
    row\t120\t98
    row\t131\t102

gives

    line 1: fault 8
",
    },
];
