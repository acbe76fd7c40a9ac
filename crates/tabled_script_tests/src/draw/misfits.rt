//! Pictures of merged cells of which some don't fit, and of tables whose growth was refused.

use super::scripts::has_lines;
use std::test::Fail;
use tabled_draw::{Style, picture, picture_width};
use tabled_grid::config::SpannedConfig;
use tabled_grid::records::Refusing;
use tabled_options::TableOption;
use tabled_spans::panel::Panel;
use tabled_testing::{flat, merged, nested};

#[test]
fn merged_cells_that_do_not_fit_are_left_out(rt: HostRuntime) -> Result<(), Fail> {
    let alloc = rt.alloc();
    for &(rectangles, lines) in &[
        // One reaches out of the table.
        (
            "0.0:2x1 1.1:1x3",
            "+---+---+---+\n| a | b | c |\n+   +---+---+\n|   | e | f |\n+---+---+---+",
        ),
        (
            "0.1:1x2 1.0:2x1",
            "+---+---+---+\n| a | b     |\n+---+---+---+\n| d | e | f |\n+---+---+---+",
        ),
        // Two share a cell, and neither fits.
        (
            "0.0:2x2 1.1:1x2",
            "+---+---+---+\n| a | b | c |\n+---+---+---+\n| d | e | f |\n+---+---+---+",
        ),
        // One begins outside of the table.
        (
            "0.1:2x2 7.7:2x2",
            "+---+--+--+\n| a | b   |\n+---+     +\n| d |     |\n+---+--+--+",
        ),
    ] {
        let cfg = merged(alloc, rectangles)?;
        let records = flat(alloc, "a b c / d e f /")?;
        let in_one = picture(alloc, &records, &cfg)?;
        assert!(rt; has_lines(in_one.as_str(), lines), "{rectangles}");
        let width = picture_width(alloc, &records, &cfg, &Style::ascii())?;
        assert_eq!(rt; Some(width), lines.find('\n'), "{rectangles}");
        let in_rows = picture(alloc, &nested(alloc, "a b c / d e f /")?, &cfg)?;
        assert!(rt; has_lines(in_rows.as_str(), lines), "{rectangles}");
    }
    Ok(())
}

#[test]
fn what_a_refused_growth_leaves_is_drawn(rt: HostRuntime) -> Result<(), Fail> {
    let alloc = rt.alloc();
    for &(growth, lines) in &[
        (1, "+---+---+\n| a | b |\n+---+---+"),
        (2, "+---+---+\n| Title |\n+---+---+\n| a | b |\n+---+---+"),
    ] {
        let mut records = Refusing::new(flat(alloc, "a b /")?, growth, 0);
        let mut cfg = SpannedConfig::new(alloc);
        let title = Panel::header(String::from_str(alloc, "Title")?);
        assert!(rt;
            title
                .change(alloc, &mut records, &mut cfg, &mut ())
                .is_err()
                == (growth == 1)
        );
        let picture = picture(alloc, &records, &cfg)?;
        assert!(rt; has_lines(picture.as_str(), lines), "growth {growth}");
    }
    Ok(())
}
