//! Pictures of the original crate's documentation in its default look, of tables that a script makes.

/// In the order of the original's files.
pub(crate) const ORIGINALS: &str = "row\tname\tdesigned_by\tinvented_year
row\tC\tDennis Ritchie\t1972
row\tGo\tRob Pike\t2009
row\tRust\tGraydon Hoare\t2010
=
+------+----------------+---------------+
| name | designed_by    | invented_year |
+------+----------------+---------------+
| C    | Dennis Ritchie | 1972          |
+------+----------------+---------------+
| Go   | Rob Pike       | 2009          |
+------+----------------+---------------+
| Rust | Graydon Hoare  | 2010          |
+------+----------------+---------------+

row\t&str
row\tHello
row\tWorld
row\t!!!
remove\trows\t1\t2
=
+-------+
| &str  |
+-------+
| World |
+-------+
| !!!   |
+-------+

row\tcol1\tcol2\tcol3
row\tHello\tWorld\t1
remove\tnamed\tcol3
=
+-------+-------+
| col1  | col2  |
+-------+-------+
| Hello | World |
+-------+-------+

row\tcol1\tcol2\tcol3
row\tHello\tWorld\t1
remove\trows\t0\t1
=
+-------+-------+---+
| Hello | World | 1 |
+-------+-------+---+

row\t0\t1\t2
row\t1\t2\t3
row\tSome\\nMulti\\nLine\\nText\tand a line\there
row\t4\t5\t6
dup\trow\t1\trow\t2
=
+-------+------------+------+
| 0     | 1          | 2    |
+-------+------------+------+
| Some  | and a line | here |
| Multi |            |      |
| Line  |            |      |
| Text  |            |      |
+-------+------------+------+
| Some  | and a line | here |
| Multi |            |      |
| Line  |            |      |
| Text  |            |      |
+-------+------------+------+
| 4     | 5          | 6    |
+-------+------------+------+

row\twindows\tlinux
row\tSome text which was created on windows \r\\nyes they use these '\\\\r\\\\n'\tSome text which was created on linux \\nyes they use this '\\\\n'
clean\tall
=
+-----------------------------------------+---------------------------------------+
| windows                                 | linux                                 |
+-----------------------------------------+---------------------------------------+
| Some text which was created on windows  | Some text which was created on linux  |
| yes they use these '\\r\\n'               | yes they use this '\\n'                |
+-----------------------------------------+---------------------------------------+

row\t&str
row\tSome\\ttext\\t\\twith \\\\tabs
clean\tall
=
+--------------------+
| &str               |
+--------------------+
| Sometextwith \\tabs |
+--------------------+

row\t&str
row\tSome\\ttext
tabs\t4\tall
=
+--------------+
| &str         |
+--------------+
| Some    text |
+--------------+

row\tlink\tcomment
row\thttps://www.gnu.org/software/grub/manual/multiboot/multiboot.html\ttodo
row\thttps://wiki.debian.org/initramfs\ttodo
row\thttp://jdebp.uk/FGA/efi-boot-process.html\t...
row\thttps://wiki.debian.org/UEFI\t
set\tcontent\ttodo\ttodo-soon
=
+-------------------------------------------------------------------+-----------+
| link                                                              | comment   |
+-------------------------------------------------------------------+-----------+
| https://www.gnu.org/software/grub/manual/multiboot/multiboot.html | todo-soon |
+-------------------------------------------------------------------+-----------+
| https://wiki.debian.org/initramfs                                 | todo-soon |
+-------------------------------------------------------------------+-----------+
| http://jdebp.uk/FGA/efi-boot-process.html                         | ...       |
+-------------------------------------------------------------------+-----------+
| https://wiki.debian.org/UEFI                                      |           |
+-------------------------------------------------------------------+-----------+

row\t0\t1\t2
row\t1\t2\t3
row\t4\t5\t6
vpanel\t1\tS\\np\\nl\\ni\\nt
header\tNumbers
=
+---+---+---+---+
| Numbers       |
+---+---+---+---+
| 0 | S | 1 | 2 |
+---+ p +---+---+
| 1 | l | 2 | 3 |
+---+ i +---+---+
| 4 | t | 5 | 6 |
+---+---+---+---+

row\t0\t1\t2
row\t1\t2\t3
row\t4\t5\t6
vpanel\t1\tTabled Releases
=
+---+-----------------+---+---+
| 0 | Tabled Releases | 1 | 2 |
+---+                 +---+---+
| 1 |                 | 2 | 3 |
+---+                 +---+---+
| 4 |                 | 5 | 6 |
+---+-----------------+---+---+

row\t0\t1\t2
row\t1\t2\t3
row\t4\t5\t6
vpanel\t1\t
=
+---+--+---+---+
| 0 |  | 1 | 2 |
+---+  +---+---+
| 1 |  | 2 | 3 |
+---+  +---+---+
| 4 |  | 5 | 6 |
+---+--+---+---+

row\t0\t1\t2
row\t1\t2\t3
row\t4\t5\t6
rotate\tleft
=
+---+---+---+
| 2 | 3 | 6 |
+---+---+---+
| 1 | 2 | 5 |
+---+---+---+
| 0 | 1 | 4 |
+---+---+---+

row\t0\t1\t2
row\t1\t2\t3
row\t4\t5\t6
rspan\t2\tcell\t0\t0
cspan\t2\tcell\t0\t1
cspan\t1000\tcell\t2\t0
=
+---+---+---+
| 0 | 1     |
+   +---+---+
|   | 2 | 3 |
+---+---+---+
| 4         |
+---+---+---+

row\ta\tb\tc\td\te\tf\tg\th\ti\tj\tk\tl\tm\tn\to\tp\tq\tr\ts\tt\tu\tv\tw\tx\ty\tz
split\tcolumn\t4\tzip\tclean
=
+---+---+---+---+
| a | b | c | d |
+---+---+---+---+
| e | f | g | h |
+---+---+---+---+
| i | j | k | l |
+---+---+---+---+
| m | n | o | p |
+---+---+---+---+
| q | r | s | t |
+---+---+---+---+
| u | v | w | x |
+---+---+---+---+
| y | z |   |   |
+---+---+---+---+

row\ta\tb\tc\td\te
row\tf\tg\th\ti\tj
=
+---+---+---+---+---+
| a | b | c | d | e |
+---+---+---+---+---+
| f | g | h | i | j |
+---+---+---+---+---+

row\ta\tb\tc\td\te
row\tf\tg\th\ti\tj
split\tcolumn\t2\tconcat\tclean
=
+---+---+
| a | b |
+---+---+
| f | g |
+---+---+
| c | d |
+---+---+
| h | i |
+---+---+
| e |   |
+---+---+
| j |   |
+---+---+

row\ta\tb\tc\td\te
row\tf\tg\th\ti\tj
split\tcolumn\t2\tzip\tclean
=
+---+---+
| a | b |
+---+---+
| c | d |
+---+---+
| e |   |
+---+---+
| f | g |
+---+---+
| h | i |
+---+---+
| j |   |
+---+---+

row\ta\tb\tc\td\te
row\tf\tg\th\t\t
=
+---+---+---+---+---+
| a | b | c | d | e |
+---+---+---+---+---+
| f | g | h |   |   |
+---+---+---+---+---+

row\ta\tb\tc\td\te
row\tf\tg\th\t\t
split\tcolumn\t3\tzip\tclean
=
+---+---+---+
| a | b | c |
+---+---+---+
| d | e |   |
+---+---+---+
| f | g | h |
+---+---+---+

row\ta\tb\tc\td\te
row\tf\tg\th\t\t
split\tcolumn\t3\tzip\tretain
=
+---+---+---+
| a | b | c |
+---+---+---+
| d | e |   |
+---+---+---+
| f | g | h |
+---+---+---+
|   |   |   |
+---+---+---+";
