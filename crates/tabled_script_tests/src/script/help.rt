//! What is told of words and faults.

use std::test::Fail;
use tabled_help::{
    ENTRIES, FAULTS, HELP, WAYS, WORDS, explained, is_within, nearest, said_of, way_of,
};

#[test]
fn words_are_within_some_changes(rt: HostRuntime) -> Result<(), Fail> {
    for &(word, other, changes) in &[
        ("vmerge", "vmerge", 0),
        ("vmrge", "vmerge", 1),
        ("vmmerge", "vmerge", 1),
        ("vnerge", "vmerge", 1),
        ("vmegre", "vmerge", 1),
        ("vmreg", "vmerge", 2),
        ("mvegre", "vmerge", 2),
        ("", "a", 1),
        ("ab", "", 2),
        ("kitten", "sitting", 3),
        // Two bytes each, of which one differs.
        ("ä", "ö", 1),
    ] {
        for n in 0..4 {
            assert_eq!(rt;
                is_within(n, word, other),
                changes <= n,
                "{word} {other} {n}"
            );
            assert_eq!(rt;
                is_within(n, other, word),
                changes <= n,
                "{other} {word} {n}"
            );
        }
    }
    assert_eq!(rt; nearest("vmreg", &WORDS), Some("vmerge"));
    assert_eq!(rt; nearest("colum", &WORDS), Some("column"));
    assert_eq!(rt; nearest("rwo", &WORDS), Some("row"));
    assert_eq!(rt; nearest("wor", &WORDS), None);
    Ok(())
}

#[test]
fn each_word_is_told(rt: HostRuntime) -> Result<(), Fail> {
    let alloc = rt.alloc();
    for word in &[
        "row",
        "set",
        "cspan",
        "vpanelw",
        "concat",
        "last-row-minus",
        "and",
    ] {
        let said = said_of(alloc, word, &ENTRIES)?;
        assert!(rt;
            said.starts_with("  ") && HELP.contains(said.as_str().lines().next().unwrap_or("?")),
            "{word}"
        );
    }
    assert_eq!(rt; said_of(alloc, "hide", &ENTRIES)?.as_str(), "");
    assert_eq!(rt; FAULTS.len(), 8);
    let fault = explained(alloc, 2, &FAULTS[1])?;
    assert!(rt; fault.starts_with("Fault 2: a word is missing, or words are left over\n\n"));
    assert!(rt; fault.ends_with("fault 2\n"));
    assert!(rt; way_of("transpose", &WAYS).is_some_and(|way| way.way.contains("rotate")));
    assert!(rt; way_of("row", &WAYS).is_none());
    Ok(())
}
