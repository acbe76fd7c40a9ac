//! Pictures of merged cells that were carried along, and of those that came apart.

/// A table in which `a` is two columns wide and `f` two rows high.
pub(crate) const TABLE: &str = "row\ta\tb\tc
row\td\te\tf
row\tg\th\ti
span\t0\t0\t1\t2
span\t1\t2\t2\t1
";

/// Each rearrangement of its cells.
pub(crate) const REARRANGED: &str = "=
+---+---+---+
| a     | c |
+---+---+---+
| d | e | f |
+---+---+   +
| g | h |   |
+---+---+---+

rotate\tleft
=
+---+---+---+
| c | f     |
+---+---+---+
| b | e | h |
+   +---+---+
|   | d | g |
+---+---+---+

rotate\tright
=
+---+---+---+
| g | d | a |
+---+---+   +
| h | e |   |
+---+---+---+
| i     | c |
+---+---+---+

reverse\trows\t0\tend\t0
=
+---+---+---+
| g | h | i |
+---+---+   +
| d | e |   |
+---+---+---+
| a     | c |
+---+---+---+

reverse\tcolumns\t0\tend\t0
=
+---+---+---+
| c | b     |
+---+---+---+
| f | e | d |
+   +---+---+
|   | h | g |
+---+---+---+

extract\t1\t3\t1\t3
=
+---+---+
| e | f |
+---+   +
| h |   |
+---+---+

remove\trows\t2\t3
=
+---+---+---+
| a     | c |
+---+---+---+
| d | e | f |
+---+---+---+

concat\thorizontal\t-\t2\t1\tx\tyy
=
+---+---+---+----+
| a     | c | x  |
+---+---+---+----+
| d | e | f | yy |
+---+---+   +----+
| g | h |   |    |
+---+---+---+----+

split\tcolumn\t2\tconcat\tretain
=
+---+---+
| a     |
+---+---+
| d | e |
+---+---+
| g | h |
+---+---+
| c |   |
+---+---+
| f |   |
+   +---+
|   |   |
+---+---+";
