//! Pictures of at most so many columns.

use std::alloc::Global;
use std::test::Fail;
use tabled_draw::Style;
use tabled_script::{Alignments, Form, Request, answer};
use tabled_width::columns_of;

/// The status of a script whose table is drawn in at most so many columns, and whether no line of its picture is wider.
fn draw_in(alloc: Global, script: &str, width: usize) -> Result<(u8, bool), Fail> {
    let form = Form::NarrowPicture(width, Style::modern(), Alignments::Places(Vec::new(alloc)));
    let mut written = Vec::new(alloc);
    let mut errors = Vec::new(alloc);
    let request = Request::new(alloc, form);
    let status = answer(
        alloc,
        &request,
        script.as_bytes(),
        &mut written,
        &mut errors,
    );
    let picture = String::from_utf8_lossy(alloc, &written)?;
    let is_narrow = picture.lines().all(|line| columns_of(line) <= width);
    Ok((status, is_narrow))
}

#[test]
fn a_table_is_drawn_in_each_width_from_one_on(rt: HostRuntime) -> Result<(), Fail> {
    let alloc = rt.alloc();
    for &(script, least) in &[
        ("row\ta\n", 5),
        ("row\tdisk is nearly full\tx yy\n", 9),
        // Blanks in a column without other texts.
        ("row\t \tabcdef\n", 9),
        ("row\t   \t\n", 8),
        // Two columns for a character.
        ("row\t漢字\n", 6),
        // Emoji of two characters, and of seven.
        ("row\t⚠️ disk is nearly full\n", 6),
        ("row\t1️⃣❤️\t✔️ a\n", 11),
        ("row\t👨‍👩‍👧‍👦👍🏽🇩🇪\n", 6),
        // Merged cells.
        ("row\tabcdefgh\t\nrow\tx y\t\nspan\t0\t0\t1\t2\n", 8),
        (
            "row\t\taaa bbb ccc\t\nrow\taaaaaaaa\t\t\nspan\t0\t1\t1\t2\nspan\t1\t0\t1\t2\n",
            10,
        ),
    ] {
        for width in 0..40 {
            let (status, is_narrow) = draw_in(alloc, script, width)?;
            assert!(rt; is_narrow, "{script}: {width}");
            assert_eq!(rt; status == 0, least <= width, "{script}: {width}");
        }
    }
    Ok(())
}
