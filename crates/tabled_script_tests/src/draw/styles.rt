//! Pictures in styles, and with texts aligned.

use super::scripts::{drawn_in, has_lines};
use std::test::Fail;
use tabled_draw::{Alignment, Look, Style};

/// Pictures of the original crate's documentation, in the order of its files: a style and alignments, lines of a script,
/// and after a line `=` the lines of the picture, with an empty line before the next case.
const STYLED: &str = "ascii_rounded -
row\tC\tDennis Ritchie\t1972
row\tGo\tRob Pike\t2009
row\tRust\tGraydon Hoare\t2010
=
.------------------------------.
| C    | Dennis Ritchie | 1972 |
| Go   | Rob Pike       | 2009 |
| Rust | Graydon Hoare  | 2010 |
'------------------------------'

extended -
row\tid\ttext
row\t0\tHello World
row\t1\tDo do do something
concat\thorizontal\t\t4\t1\tdepartment\tAdmins\tDevOps\tR&D
=
╔════╦════════════════════╦════════════╗
║ id ║ text               ║ department ║
╠════╬════════════════════╬════════════╣
║ 0  ║ Hello World        ║ Admins     ║
╠════╬════════════════════╬════════════╣
║ 1  ║ Do do do something ║ DevOps     ║
╠════╬════════════════════╬════════════╣
║    ║                    ║ R&D        ║
╚════╩════════════════════╩════════════╝

modern -
row\t0\t1
row\t1\t2
=
┌───┬───┐
│ 0 │ 1 │
├───┼───┤
│ 1 │ 2 │
└───┴───┘

modern -
row\ta\tb\tc\td\te\tf\tg\th\ti\tj\tk\tl\tm\tn\to\tp\tq\tr\ts\tt\tu\tv\tw\tx\ty\tz
=
┌───┬───┬───┬───┬───┬───┬───┬───┬───┬───┬───┬───┬───┬───┬───┬───┬───┬───┬───┬───┬───┬───┬───┬───┬───┬───┐
│ a │ b │ c │ d │ e │ f │ g │ h │ i │ j │ k │ l │ m │ n │ o │ p │ q │ r │ s │ t │ u │ v │ w │ x │ y │ z │
└───┴───┴───┴───┴───┴───┴───┴───┴───┴───┴───┴───┴───┴───┴───┴───┴───┴───┴───┴───┴───┴───┴───┴───┴───┴───┘

modern -
row\ta\tb\tc\td\te\tf\tg\th\ti\tj\tk\tl\tm\tn\to\tp\tq\tr\ts\tt\tu\tv\tw\tx\ty\tz
split\tcolumn\t12\tzip\tclean
=
┌───┬───┬───┬───┬───┬───┬───┬───┬───┬───┬───┬───┐
│ a │ b │ c │ d │ e │ f │ g │ h │ i │ j │ k │ l │
├───┼───┼───┼───┼───┼───┼───┼───┼───┼───┼───┼───┤
│ m │ n │ o │ p │ q │ r │ s │ t │ u │ v │ w │ x │
├───┼───┼───┼───┼───┼───┼───┼───┼───┼───┼───┼───┤
│ y │ z │   │   │   │   │   │   │   │   │   │   │
└───┴───┴───┴───┴───┴───┴───┴───┴───┴───┴───┴───┘

modern -
row\ta\tb\tc\td\te\tf\tg\th\ti\tj\tk\tl\tm\tn\to\tp\tq\tr\ts\tt\tu\tv\tw\tx\ty\tz
split\tcolumn\t12\tzip\tclean
split\trow\t2\tzip\tclean
=
┌───┬───┬───┬───┬───┬───┬───┬───┬───┬───┬───┬───┬───┬───┐
│ a │ y │ b │ z │ c │ d │ e │ f │ g │ h │ i │ j │ k │ l │
├───┼───┼───┼───┼───┼───┼───┼───┼───┼───┼───┼───┼───┼───┤
│ m │   │ n │   │ o │ p │ q │ r │ s │ t │ u │ v │ w │ x │
└───┴───┴───┴───┴───┴───┴───┴───┴───┴───┴───┴───┴───┴───┘

modern -
row\ta\tb\tc\td\te\tf\tg\th\ti\tj\tk\tl\tm\tn\to\tp\tq\tr\ts\tt\tu\tv\tw\tx\ty\tz
split\tcolumn\t25\tzip\tclean
=
┌───┬───┬───┬───┬───┬───┬───┬───┬───┬───┬───┬───┬───┬───┬───┬───┬───┬───┬───┬───┬───┬───┬───┬───┬───┐
│ a │ b │ c │ d │ e │ f │ g │ h │ i │ j │ k │ l │ m │ n │ o │ p │ q │ r │ s │ t │ u │ v │ w │ x │ y │
├───┼───┼───┼───┼───┼───┼───┼───┼───┼───┼───┼───┼───┼───┼───┼───┼───┼───┼───┼───┼───┼───┼───┼───┼───┤
│ z │   │   │   │   │   │   │   │   │   │   │   │   │   │   │   │   │   │   │   │   │   │   │   │   │
└───┴───┴───┴───┴───┴───┴───┴───┴───┴───┴───┴───┴───┴───┴───┴───┴───┴───┴───┴───┴───┴───┴───┴───┴───┘

modern -
row\ta\tb\tc\td\te\tf\tg\th\ti\tj\tk\tl\tm\tn\to\tp\tq\tr\ts\tt\tu\tv\tw\tx\ty\tz
split\tcolumn\t25\tzip\tclean
split\trow\t1\tconcat\tretain
=
┌───┬───┬───┬───┬───┬───┬───┬───┬───┬───┬───┬───┬───┬───┬───┬───┬───┬───┬───┬───┬───┬───┬───┬───┬───┬───┬──┬──┬──┬──┬──┬──┬──┬──┬──┬──┬──┬──┬──┬──┬──┬──┬──┬──┬──┬──┬──┬──┬──┬──┐
│ a │ b │ c │ d │ e │ f │ g │ h │ i │ j │ k │ l │ m │ n │ o │ p │ q │ r │ s │ t │ u │ v │ w │ x │ y │ z │  │  │  │  │  │  │  │  │  │  │  │  │  │  │  │  │  │  │  │  │  │  │  │  │
└───┴───┴───┴───┴───┴───┴───┴───┴───┴───┴───┴───┴───┴───┴───┴───┴───┴───┴───┴───┴───┴───┴───┴───┴───┴───┴──┴──┴──┴──┴──┴──┴──┴──┴──┴──┴──┴──┴──┴──┴──┴──┴──┴──┴──┴──┴──┴──┴──┴──┘

modern -
row\ta\tb\tc\td\te\tf\tg\th\ti\tj\tk\tl\tm\tn\to\tp\tq\tr\ts\tt\tu\tv\tw\tx\ty\tz
split\tcolumn\t25\tzip\tclean
split\trow\t1\tconcat\tclean
=
┌───┬───┬───┬───┬───┬───┬───┬───┬───┬───┬───┬───┬───┬───┬───┬───┬───┬───┬───┬───┬───┬───┬───┬───┬───┬───┐
│ a │ b │ c │ d │ e │ f │ g │ h │ i │ j │ k │ l │ m │ n │ o │ p │ q │ r │ s │ t │ u │ v │ w │ x │ y │ z │
└───┴───┴───┴───┴───┴───┴───┴───┴───┴───┴───┴───┴───┴───┴───┴───┴───┴───┴───┴───┴───┴───┴───┴───┴───┴───┘";

/// One cell of the middle is two by two, and others lie round it.
const NESTED: &str = "row\t0\t1\t2\t3
row\t4\t5\t6\t7
row\t8\t9\t10\t11
row\t12\t13\t14\t15
span\t0\t0\t1\t2
span\t0\t3\t3\t1
span\t1\t1\t2\t2
span\t3\t1\t1\t3
";

/// It in each style, and aligned.
const IN_EACH_STYLE: &str = "ascii -
=
+----+--+---+---+
| 0     | 2 | 3 |
+----+--+---+   +
| 4  | 5    |   |
+----+      +   +
| 8  |      |   |
+----+--+---+---+
| 12 | 13       |
+----+--+---+---+

modern -
=
┌───────┬───┬───┐
│ 0     │ 2 │ 3 │
├────┬──┴───┤   │
│ 4  │ 5    │   │
├────┤      │   │
│ 8  │      │   │
├────┼──────┴───┤
│ 12 │ 13       │
└────┴──────────┘

rounded -
=
╭───────┬───┬───╮
│ 0     │ 2 │ 3 │
├────┬──┴───┤   │
│ 4  │ 5    │   │
│ 8  │      │   │
│ 12 │ 13       │
╰────┴──────────╯

sharp -
=
┌───────┬───┬───┐
│ 0     │ 2 │ 3 │
├────┬──┴───┤   │
│ 4  │ 5    │   │
│ 8  │      │   │
│ 12 │ 13       │
└────┴──────────┘

extended -
=
╔═══════╦═══╦═══╗
║ 0     ║ 2 ║ 3 ║
╠════╦══╩═══╣   ║
║ 4  ║ 5    ║   ║
╠════╣      ║   ║
║ 8  ║      ║   ║
╠════╬══════╩═══╣
║ 12 ║ 13       ║
╚════╩══════════╝

psql -
=
 0     | 2 | 3 
----+--+---+   
 4  | 5    |   
 8  |      |   
 12 | 13       

markdown -
=
| 0     | 2 | 3 |
|----|--|---|   |
| 4  | 5    |   |
| 8  |      |   |
| 12 | 13       |

re_structured_text -
=
======= === ===
 0       2   3 
==== == ===    
 4    5        
 8             
 12   13       
==== ==========

dots -
=
.................
: 0     : 2 : 3 :
:.......:...:   :
: 4  : 5    :   :
:....:      :   :
: 8  :      :   :
:....:......:...:
: 12 : 13       :
:....:..........:

ascii_rounded -
=
.---------------.
| 0     | 2 | 3 |
| 4  | 5    |   |
| 8  |      |   |
| 12 | 13       |
'---------------'

blank -
=
 0       2   3 
 4    5        
 8             
 12   13       

empty -
=
 0     2  3 
 4   5      
 8          
 12  13     

modern rc
=
┌───────┬───┬───┐
│     0 │ 2 │ 3 │
├────┬──┴───┤   │
│  4 │  5   │   │
├────┤      │   │
│  8 │      │   │
├────┼──────┴───┤
│ 12 │    13    │
└────┴──────────┘";

/// Tables of one row, and alignments of which the last one counts for the columns behind it.
const ALONE: &str = "psql -
row\ta\tb
=
 a | b 
---+---

markdown -
row\ta\tb
=
| a | b |
|---|---|

rounded -
row\ta
=
╭───╮
│ a │
╰───╯

modern lrc
row\ta\tb\tc\td
row\t1234\t12\\n1234\t12\t123
=
┌──────┬──────┬────┬─────┐
│ a    │    b │ c  │  d  │
├──────┼──────┼────┼─────┤
│ 1234 │   12 │ 12 │ 123 │
│      │ 1234 │    │     │
└──────┴──────┴────┴─────┘";

/// The alignment that a letter names, or the one before.
fn alignment(letter: Option<char>, before: Alignment) -> Alignment {
    match letter {
        Some('l') => Alignment::left(),
        Some('c') => Alignment::center(),
        Some('r') => Alignment::right(),
        _ => before,
    }
}

/// The alignments that letters name, of which the last one counts for the columns behind it.
pub(crate) fn alignments(letters: &str) -> [Alignment; 3] {
    let mut letters = letters.chars();
    let first = alignment(letters.next(), Alignment::left());
    let second = alignment(letters.next(), first);
    let third = alignment(letters.next(), second);
    [first, second, third]
}

#[test]
fn are_drawn_in_styles(rt: HostRuntime) -> Result<(), Fail> {
    let alloc = rt.alloc();
    for &(before, cases) in &[("", STYLED), (NESTED, IN_EACH_STYLE), ("", ALONE)] {
        for case in cases.split("\n\n") {
            let (given, lines) = case.split_once("=\n").unwrap_or(("", ""));
            let (look, script) = given.split_once('\n').unwrap_or(("", ""));
            let (name, letters) = look.split_once(' ').unwrap_or(("", ""));
            let style = Style::named(name).ok_or("a style")?;
            let aligned = alignments(letters);
            let script = format!(in alloc; "{before}{script}")?;
            let drawn = drawn_in(alloc, script.as_str(), &Look::new(style).align(&aligned))?;
            let picture = drawn.ok_or("a table")?;
            assert!(rt; has_lines(picture.as_str(), lines), "{case}");
        }
    }
    Ok(())
}

/// Says whether a style is that of a name, which is among all names.
fn is_named(style: Style, name: &str) -> bool {
    Style::named(name) == Some(style) && Style::NAMES.contains(&name)
}

#[test]
fn styles_are_those_of_their_names(rt: HostRuntime) -> Result<(), Fail> {
    assert!(rt; is_named(Style::ascii(), "ascii"));
    assert!(rt; is_named(Style::modern(), "modern"));
    assert!(rt; is_named(Style::rounded(), "rounded"));
    assert!(rt; is_named(Style::sharp(), "sharp"));
    assert!(rt; is_named(Style::extended(), "extended"));
    assert!(rt; is_named(Style::psql(), "psql"));
    assert!(rt; is_named(Style::markdown(), "markdown"));
    assert!(rt; is_named(Style::re_structured_text(), "re_structured_text"));
    assert!(rt; is_named(Style::dots(), "dots"));
    assert!(rt; is_named(Style::ascii_rounded(), "ascii_rounded"));
    assert!(rt; is_named(Style::blank(), "blank"));
    assert!(rt; is_named(Style::empty(), "empty"));
    assert!(rt; !is_named(Style::modern(), "Modern"));
    assert!(rt; Style::default() == Style::ascii());
    Ok(())
}
