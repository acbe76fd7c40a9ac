//! Objects that are skipped into, stepped over and filtered.

use super::named::names;
use tabled_grid::config::Entity;
use tabled_select::object::{Columns, ObjectIterator, Rows};

#[test]
fn skips_and_steps(rt: HostRuntime) {
    let alloc = rt.alloc();
    for &(n, behind, steps) in &[
        (0, "r1 r2 r3 r4", ""),
        (1, "r2 r3 r4", "r1 r2 r3 r4"),
        (2, "r3 r4", "r1 r3"),
        (3, "r4", "r1 r4"),
        (4, "", "r1"),
        (100, "", "r1"),
        (usize::MAX, "", "r1"),
    ] {
        assert!(rt; names(alloc, Rows::new(1..5).skip(n), (10, 10), behind));
        assert!(rt; names(alloc, Rows::new(1..5).step_by(n), (10, 10), steps));
    }
}

#[test]
fn skips_and_steps_over_columns_and_places(rt: HostRuntime) {
    let alloc = rt.alloc();
    for &(n, behind, steps, behind_one, one) in &[
        (0, "c5 c6 c7 c8 c9", "", "1:5", ""),
        (1, "c6 c7 c8 c9", "c5 c6 c7 c8 c9", "", "1:5"),
        (2, "c7 c8 c9", "c5 c7 c9", "", "1:5"),
    ] {
        assert!(rt; names(alloc, Columns::new(5..).skip(n), (10, 10), behind));
        assert!(rt; names(alloc, Columns::new(5..).step_by(n), (10, 10), steps));
        assert!(rt; names(alloc, (1, 5).skip(n), (10, 10), behind_one));
        assert!(rt; names(alloc, (1, 5).step_by(n), (10, 10), one));
    }
}

#[test]
fn filters(rt: HostRuntime) {
    let alloc = rt.alloc();
    let all = Rows::new(1..5).filter(|_| true);
    assert!(rt; names(alloc, all, (10, 10), "r1 r2 r3 r4"));
    let one = Rows::new(1..5).filter(|entity| entity == Entity::Row(3));
    assert!(rt; names(alloc, one, (10, 10), "r3"));
    let none = Rows::new(1..5).filter(|_| false);
    assert!(rt; names(alloc, none, (10, 10), ""));
}
