//! Steps run on stores of both kinds, and on the table of their script.

use std::alloc::{AllocError, Global};
use std::test::Fail;
use tabled_grid::config::{Position, SpannedConfig};
use tabled_grid::records::{
    CellText, ExactRecords, PeekableRecords, Records, RecordsMut, Resizable,
};
use tabled_language::{Fault, ParseError};
use tabled_testing::{flat, is_word, merged, nested, spelled_merged};
use tabled_uses::language::{does, ends_with, lent_words};
use tabled_uses::steps::runs;

/// How many steps are run, and the height of the second cell after them.
fn run_on<R>(alloc: Global, mut records: R) -> Result<(usize, Option<usize>), AllocError>
where
    R: Records + ExactRecords + PeekableRecords + RecordsMut<String> + Resizable + Drop,
    R::Cell: CellText,
    requires { R.is_well_formed records }
{
    let mut cfg = SpannedConfig::new(alloc);
    let many = runs(alloc, &mut records, &mut cfg)?;
    Ok((many, cfg.get_row_span(Position::new(0, 1))))
}

const BLANKS: &str = "_ _ _ / _ _ _ /";

#[test]
fn steps_run_on_each_kind_of_store(rt: HostRuntime) -> Result<(), Fail> {
    let alloc = rt.alloc();
    assert!(rt; run_on(alloc, flat(alloc, BLANKS)?)? == (3, Some(3)));
    assert!(rt; run_on(alloc, nested(alloc, BLANKS)?)? == (3, Some(3)));
    Ok(())
}

/// Whether the steps of a script make this of a table, or the number of its first faulty line.
fn makes(alloc: Global, script: &str, old: &str, new: &str) -> Result<Option<usize>, AllocError> {
    let mut records = flat(alloc, old)?;
    let mut cfg = merged(alloc, old)?;
    let faulty = does(alloc, script.as_bytes(), &mut records, &mut cfg)?;
    let same = is_word(spelled_merged(alloc, &records, &cfg), new);
    Ok(if same { faulty } else { Some(usize::MAX) })
}

#[test]
fn scripts_change_tables(rt: HostRuntime) -> Result<(), Fail> {
    for &(script, new, faulty) in &[
        (
            "rotate\tleft\nheader\tN\n",
            "N _ / b d / a c / 0.0:1x2",
            None,
        ),
        ("rotate\tleft\nspin\n", "a b / c d /", Some(2)),
    ] {
        assert!(rt;
            makes(rt.alloc(), script, "a b / c d /", new)? == faulty,
            "{script:?}"
        );
    }
    Ok(())
}

#[test]
fn scripts_end_with_their_tables(rt: HostRuntime) -> Result<(), Fail> {
    for &(script, want) in &[
        ("row\ta\nrow\tb\tc\n", Ok((2, 2))),
        ("row\ta\\tb\tc\nset\tcolumn\t1\tx\nheader\tN\n", Ok((2, 2))),
        ("row\ta\tb\tc\nrotate\tleft\n", Ok((3, 1))),
        (
            "row\ta\nspin\n",
            Err(ParseError::Faulty {
                line: 2,
                fault: Fault::UnknownWord,
            }),
        ),
    ] {
        assert!(rt;
            ends_with(rt.alloc(), script.as_bytes()) == want,
            "{script:?}"
        );
    }
    Ok(())
}

#[test]
fn words_without_escapes_are_lent(rt: HostRuntime) -> Result<(), Fail> {
    let alloc = rt.alloc();
    for &(script, want) in &[
        ("row\ta\t\tbc\n", "\ta\t\tbc"),
        ("row\ta\t\\\\\tb\n", "\ta\tb"),
        ("row\t\\t\nrow\ta long text with an escape:\\n\n", ""),
    ] {
        let words = lent_words(alloc, script.as_bytes())?;
        assert!(rt; words.as_str() == want, "{script:?}");
    }
    Ok(())
}
