//! Pictures of texts and of tables that few users have in mind.

use super::scripts::drawn;
use std::alloc::{AllocError, Global};
use std::test::Fail;

/// Wide characters, such that take no column, emoji of several, control characters, lines, and how columns and rows grow.
pub(crate) const ODD: &str = "row\t漢字\ta
row\tb\t漢
=
+------+----+
| 漢字 | a  |
+------+----+
| b    | 漢 |
+------+----+

row\te\u{301}\to\u{308}o\u{308}\u{200b}
row\tab\tc
=
+----+----+
| e\u{301}  | o\u{308}o\u{308}\u{200b} |
+----+----+
| ab | c  |
+----+----+

row\t\u{26a0}\u{fe0f}\t\u{1f469}\u{1f3fb}\u{200d}\u{1f52c}
row\tabc\t\u{1f1e9}\u{1f1ea}!
=
+-----+-----+
| \u{26a0}\u{fe0f}  | \u{1f469}\u{1f3fb}\u{200d}\u{1f52c}  |
+-----+-----+
| abc | \u{1f1e9}\u{1f1ea}! |
+-----+-----+

row\t\u{1b}[31mred\t\\t\u{0}\r\u{7f}
row\t\u{1f}\u{80}\u{9f}\u{a0}\t漢
=
+----------+------+
| ␛[31mred | ␉␀␍␡ |
+----------+------+
| ␟��\u{a0}     | 漢   |
+----------+------+

row\tone\\ntwo\\n\ta
row\t\tbc\\nd
=
+-----+----+
| one | a  |
| two |    |
|     |    |
+-----+----+
|     | bc |
|     | d  |
+-----+----+

row\tEast\tJan
row\tEast\tJan
vmerge
=
+------+-----+
| East | Jan |
+      +     +
|      |     |
+------+-----+

row\t0\t1\t2
row\t1\t2\t3
row\t4\t5\t6
rspan\t100\tcell\t0\t0
rspan\t2\tcell\t1\t1
rspan\t-1\tcell\t2\t2
=
+---+---+---+
| 0 | 1 | 2 |
+   +---+---+
|   | 2 | 6 |
+   +   +   +
|   |   |   |
+---+---+---+

row\tA title above
row\t1\t2
span\t0\t0\t1\t2
=
+-------+-------+
| A title above |
+-------+-------+
| 1     | 2     |
+-------+-------+

row\tseventeen letters
row\t9 letters\t\tx
row\t1\t2\t3
span\t0\t0\t1\t3
span\t1\t0\t1\t2
=
+-------+------+----+
| seventeen letters |
+-------+------+----+
| 9 letters    | x  |
+-------+------+----+
| 1     | 2    | 3  |
+-------+------+----+

row\t漢字漢字\t\tx
row\ty\tabcdefgh
row\t1\t2\t3
span\t0\t0\t1\t2
span\t1\t1\t1\t2
=
+-----+-----+----+
| 漢字漢字  | x  |
+-----+-----+----+
| y   | abcdefgh |
+-----+-----+----+
| 1   | 2   | 3  |
+-----+-----+----+

row\ta\\nb\\nc\\nd\\ne\t1
row\t\t2
span\t0\t0\t2\t1
=
+---+---+
| a | 1 |
| b |   |
+ c +---+
| d | 2 |
| e |   |
+---+---+

row\t漢\\nbc\\nd\t\tx
row\t\t\ty
row\t1\t2\t3
span\t0\t0\t2\t2
=
+---+---+---+
| 漢    | x |
+ bc    +---+
| d     | y |
+---+---+---+
| 1 | 2 | 3 |
+---+---+---+

row\ta\tb
row\tc\td
span\t0\t0\t2\t2
=
+--+--+
| a   |
+     +
|     |
+--+--+

row\tx
=
+---+
| x |
+---+

row\t
=
+--+
|  |
+--+";

/// Whether the picture of a script's table is empty.
fn has_no_line(alloc: Global, script: &str) -> Result<bool, AllocError> {
    match drawn(alloc, script)? {
        Some(picture) => Ok(picture.is_empty()),
        None => Ok(false),
    }
}

#[test]
fn tables_without_cells_have_no_line(rt: HostRuntime) -> Result<(), Fail> {
    for script in ["", "row", "row\nrow\nset\tall\tx\n"] {
        assert!(rt; has_no_line(rt.alloc(), script)?, "{script:?}");
    }
    Ok(())
}
