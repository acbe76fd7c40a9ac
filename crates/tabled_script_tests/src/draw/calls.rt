//! Pictures of tables that calls make: those of the original crate's documentation in its default look, and a calendar.

use super::scripts::has_lines;
use std::alloc::{AllocError, Global};
use std::test::Fail;
use tabled_draw::picture;
use tabled_grid::config::Position;
use tabled_select::location::Locator;
use tabled_select::object::Rows;
use tabled_settings::concat::Concat;
use tabled_settings::extract::Extract;
use tabled_settings::format::Format;
use tabled_settings::split::Split;
use tabled_table::Table;
use tabled_table::builder::Builder;

/// Calls, `row` lines, and after a line `=` the lines of the picture of the table that they make of them, with an
/// empty line before the next calls. In the order of the original's files.
const ORIGINALS: &str = "index
row\t&str
row\tHello
row\tWorld
row\t!
=
+---+-------+
|   | &str  |
+---+-------+
| 0 | Hello |
+---+-------+
| 1 | World |
+---+-------+
| 2 | !     |
+---+-------+

clean
row\t&str
row\tHello
row\tWorld
row\t
=
+-------+
| &str  |
+-------+
| Hello |
+-------+
| World |
+-------+

index
row\ti\tcol-1\tcol-2
row\t0\tvalue-1\tvalue-2
=
+---+---+---------+---------+
|   | i | col-1   | col-2   |
+---+---+---------+---------+
| 0 | 0 | value-1 | value-2 |
+---+---+---------+---------+

index hide
row\ti\tcol-1\tcol-2
row\t0\tvalue-1\tvalue-2
row\t2\tvalue-3\tvalue-4
=
+---+---------+---------+
| i | col-1   | col-2   |
+---+---------+---------+
| 0 | value-1 | value-2 |
+---+---------+---------+
| 2 | value-3 | value-4 |
+---+---------+---------+

index column name
row\ti\tcolumn1\tcolumn2
row\t0\tvalue1\tvalue2
=
+--------+---+---------+
|        | i | column2 |
+--------+---+---------+
| index  |   |         |
+--------+---+---------+
| value1 | 0 | value2  |
+--------+---+---------+

index column
row\ti\tcolumn1\tcolumn2
row\t0\tvalue1\tvalue2
=
+---------+---+---------+
|         | i | column2 |
+---------+---+---------+
| column1 |   |         |
+---------+---+---------+
| value1  | 0 | value2  |
+---------+---+---------+

index column transpose
row\ti\tcolumn-1\tcolumn-2\tcolumn-3
row\t0\tvalue-1\tvalue-2\tvalue-3
row\t1\tvalue-4\tvalue-5\tvalue-6
row\t2\tvalue-7\tvalue-8\tvalue-9
=
+----------+---------+---------+---------+
| column-1 | value-1 | value-4 | value-7 |
+----------+---------+---------+---------+
| i        | 0       | 1       | 2       |
+----------+---------+---------+---------+
| column-2 | value-2 | value-5 | value-8 |
+----------+---------+---------+---------+
| column-3 | value-3 | value-6 | value-9 |
+----------+---------+---------+---------+

content extract
row\ti32\t&str\tbool
row\t0\tGrodno\ttrue
row\t1\tMinsk\ttrue
row\t2\tHamburg\tfalse
row\t3\tBrest\ttrue
=
+------------+----------+
| : Grodno : | : true : |
+------------+----------+
| : Minsk :  | : true : |
+------------+----------+

content
row\ti32\t&str\tbool
row\t0\tGrodno\ttrue
row\t1\tMinsk\ttrue
row\t2\tHamburg\tfalse
row\t3\tBrest\ttrue
=
+-------+-------------+-----------+
| i32   | &str        | bool      |
+-------+-------------+-----------+
| : 0 : | : Grodno :  | : true :  |
+-------+-------------+-----------+
| : 1 : | : Minsk :   | : true :  |
+-------+-------------+-----------+
| : 2 : | : Hamburg : | : false : |
+-------+-------------+-----------+
| : 3 : | : Brest :   | : true :  |
+-------+-------------+-----------+

positioned
row\ti32\t&str\tbool
row\t0\tGrodno\ttrue
row\t1\tMinsk\ttrue
row\t2\tHamburg\tfalse
row\t3\tBrest\ttrue
=
+---+---------+-------+
| 0 | 1       | 2     |
+---+---------+-------+
| 0 | Grodno  | true  |
+---+---------+-------+
| 1 | Minsk   | true  |
+---+---------+-------+
| 2 | Hamburg | false |
+---+---------+-------+
| 3 | Brest   | true  |
+---+---------+-------+

longest
row\tlink\tcomment
row\thttps://www.gnu.org/software/grub/manual/multiboot/multiboot.html\ttodo
row\thttps://wiki.debian.org/initramfs\ttodo
row\thttp://jdebp.uk/FGA/efi-boot-process.html\t...
row\thttps://wiki.debian.org/UEFI\t
=
+-----------------------------------------------------------------------+---------+
| link                                                                  | comment |
+-----------------------------------------------------------------------+---------+
| [ https://www.gnu.org/software/grub/manual/multiboot/multiboot.html ] | todo    |
+-----------------------------------------------------------------------+---------+
| https://wiki.debian.org/initramfs                                     | todo    |
+-----------------------------------------------------------------------+---------+
| http://jdebp.uk/FGA/efi-boot-process.html                             | ...     |
+-----------------------------------------------------------------------+---------+
| https://wiki.debian.org/UEFI                                          |         |
+-----------------------------------------------------------------------+---------+";

/// A diary, and the picture of its calendar.
const CALENDAR: &str = "calendar
row\tDay\tEntry
row\t1\tRent
row\t2\t
row\t3\tDentist
row\t4\t
row\t5\tCinema
row\t6\t
row\t7\t
row\t8\t
row\t9\tLibrary
row\t10\t
row\t11\tCall Ada
row\t12\t
row\t13\tHike
row\t14
row\t15
row\t16
row\t17\tDeadline
=
+------+---------+----------+----------+--------+------+-----+
| Mon  | Tue     | Wed      | Thu      | Fri    | Sat  | Sun |
+------+---------+----------+----------+--------+------+-----+
| 1    | 2       | 3        | 4        | 5      | 6    | 7   |
+------+---------+----------+----------+--------+------+-----+
| Rent |         | Dentist  |          | Cinema |      |     |
+------+---------+----------+----------+--------+------+-----+
| 8    | 9       | 10       | 11       | 12     | 13   | 14  |
+------+---------+----------+----------+--------+------+-----+
|      | Library |          | Call Ada |        | Hike |     |
+------+---------+----------+----------+--------+------+-----+
| 15   | 16      | 17       |          |        |      |     |
+------+---------+----------+----------+--------+------+-----+
|      |         | Deadline |          |        |      |     |
+------+---------+----------+----------+--------+------+-----+";

/// A builder of the records that `row` lines have.
fn builder_of(alloc: Global, records: &str) -> Result<Builder, AllocError> {
    let mut builder = Builder::new(alloc);
    for record in records.split('\n') {
        let texts: Vec<String> = record
            .split('\t')
            .skip(1)
            .map(|text| String::from_str(alloc, text))
            .try_collect(alloc)?;
        builder.push_record(alloc, texts)?;
    }
    Ok(builder)
}

/// What calls make of records.
fn made(alloc: Global, calls: &str, records: &str) -> Result<Table, AllocError> {
    let mut builder = builder_of(alloc, records)?;
    match calls {
        "clean" => {
            builder.clean();
            builder.build(alloc)
        }
        "index" => builder.index(alloc)?.build(alloc),
        "index hide" => builder.index(alloc)?.hide().build(alloc),
        "index column" => builder.index(alloc)?.column(alloc, 1)?.build(alloc),
        "index column name" => {
            let name = String::from_str(alloc, "index")?;
            let index = builder.index(alloc)?.column(alloc, 1)?;
            index.name(Some(name)).build(alloc)
        }
        "index column transpose" => {
            let index = builder.index(alloc)?.column(alloc, 1)?;
            index.transpose(alloc)?.build(alloc)
        }
        "calendar" => calendar(alloc, builder),
        _ => written(alloc, calls, builder.build(alloc)?),
    }
}

/// The weeks of a diary below one another, and above them the names of the days.
fn calendar(alloc: Global, diary: Builder) -> Result<Table, AllocError> {
    let by_day = diary.index(alloc)?.column(alloc, 0)?.transpose(alloc)?;
    let mut weeks = by_day.hide().name(None).build(alloc)?;
    weeks.with(alloc, Split::column(7).concat().retain())?;
    let days = builder_of(alloc, "row\tMon\tTue\tWed\tThu\tFri\tSat\tSun")?;
    let mut calendar = days.build(alloc)?;
    calendar.with(alloc, Concat::vertical(alloc, weeks))?;
    Ok(calendar)
}

/// A text between colons.
fn between_colons(alloc: Global, text: &str) -> Result<String, AllocError> {
    format!(in alloc; ": {text} :")
}

/// What calls that write texts make of a table.
fn written(alloc: Global, calls: &str, mut table: Table) -> Result<Table, AllocError> {
    match calls {
        "content" => table.modify(alloc, Rows::new(1..), Format::content(between_colons))?,
        "content extract" => {
            table.modify(alloc, Rows::new(1..), Format::content(between_colons))?;
            table.with(alloc, Extract::segment(1..=2, 1..))?;
        }
        "positioned" => {
            let column = |alloc: Global, _: &str, pos: Position| {
                let col = pos.col;
                format!(in alloc; "{col}")
            };
            table.modify(alloc, Rows::one(0), Format::positioned(column))?;
        }
        _ => {
            let link = Locator::column(String::from_str(alloc, "link")?);
            let longest = Locator::value(link, |text, held| text.len() > held.len());
            let marked = |alloc: Global, text: &str| format!(in alloc; "[ {text} ]");
            table.modify(alloc, longest, Format::content(marked))?;
        }
    }
    Ok(table)
}

/// Whether the table that calls make of records has the picture behind them.
fn is_drawn(alloc: Global, case: &str) -> Result<bool, AllocError> {
    let (given, lines) = case.split_once("\n=\n").unwrap_or(("", ""));
    let (calls, records) = given.split_once('\n').unwrap_or(("", ""));
    let table = made(alloc, calls, records)?;
    let drawn = picture(alloc, table.get_records(), table.get_config())?;
    Ok(has_lines(drawn.as_str(), lines))
}

#[test]
fn are_drawn_as_in_the_original(rt: HostRuntime) -> Result<(), Fail> {
    for case in ORIGINALS.split("\n\n") {
        assert!(rt; is_drawn(rt.alloc(), case)?, "{case}");
    }
    Ok(())
}

#[test]
fn a_diary_is_drawn_as_a_calendar(rt: HostRuntime) -> Result<(), Fail> {
    assert!(rt; is_drawn(rt.alloc(), CALENDAR)?);
    Ok(())
}
