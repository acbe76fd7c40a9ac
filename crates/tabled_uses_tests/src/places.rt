//! What entities, places, ranges and offsets are, at examples and at the ends of `usize`.

use std::hash::{DefaultHasher, Hash, Hasher};
use std::ops::Bound;
use tabled_grid::config::{Entity, Offset, Position, ToBounds};

const MAX: usize = usize::MAX;

fn hash_of<T: Hash>(value: &T) -> u64 {
    let mut hasher = DefaultHasher::default();
    value.hash(&mut hasher);
    hasher.finish()
}

/// Whether an entity names these places of a table.
fn names(entity: Entity, rows: usize, columns: usize, places: &[(usize, usize)]) -> bool {
    let mut left = places.iter();
    for pos in entity.iter(rows, columns) {
        match left.next() {
            Some((row, col)) if pos == Position::new(*row, *col) => {}
            _ => return false,
        }
    }
    left.next().is_none()
}

#[test]
fn lists_what_an_entity_names(rt: HostRuntime) {
    let all = [(0, 0), (0, 1), (0, 2), (1, 0), (1, 1), (1, 2)];
    let column = [(0, 2), (1, 2)];
    let row = [(1, 0), (1, 1), (1, 2)];
    let cell = [(1, 2)];
    for &(entity, places) in &[
        (Entity::Global, all.as_slice()),
        (Entity::Column(2), column.as_slice()),
        (Entity::Row(1), row.as_slice()),
        (Entity::Cell(1, 2), cell.as_slice()),
        (Entity::Column(3), [].as_slice()),
        (Entity::Row(2), [].as_slice()),
        (Entity::Cell(2, 2), [].as_slice()),
        (Entity::Cell(1, 3), [].as_slice()),
    ] {
        assert!(rt; names(entity, 2, 3, places), "{entity:?}");
    }
}

#[test]
fn names_no_place_outside(rt: HostRuntime) {
    for &(entity, rows, columns) in &[
        (Entity::Global, 0, 0),
        (Entity::Global, 2, 0),
        (Entity::Global, 0, 3),
        (Entity::Row(0), 2, 0),
        (Entity::Column(0), 0, 3),
        (Entity::Cell(MAX, MAX), MAX, MAX),
        (Entity::Row(MAX), MAX, MAX),
        (Entity::Column(MAX), MAX, MAX),
    ] {
        assert!(rt; entity.iter(rows, columns).next().is_none(), "{entity:?}");
    }
}

#[test]
fn goes_to_the_ends_of_usize(rt: HostRuntime) {
    let mut places = Entity::Cell(MAX - 1, MAX - 1).iter(MAX, MAX);
    assert!(rt; places.next() == Some(Position::new(MAX - 1, MAX - 1)));
    assert!(rt; places.next().is_none());
    assert!(rt; places.next().is_none());
    let mut places = Entity::Global.iter(MAX, MAX);
    for col in 0..3 {
        assert!(rt; places.next() == Some(Position::new(0, col)));
    }
}

#[test]
fn compares_places(rt: HostRuntime) {
    let places = [
        Position::new(0, 1),
        Position::from((0, 2)),
        Position::new(1, 0),
        Position::new(1, 1),
    ];
    assert!(rt; places.iter().is_sorted());
    assert!(rt; Position::from((1, 2)) == Position { row: 1, col: 2 });
    let (first, second) = (Position::new(1, 2), Position::new(2, 1));
    assert!(rt; first != second);
    assert!(rt; hash_of(&first) == hash_of(&Position::from((1, 2))));
    assert!(rt; hash_of(&first) != hash_of(&second));
}

#[test]
fn tells_which_places_are_covered(rt: HostRuntime) {
    for &(other, covers) in &[
        ((0, 0), true),
        ((0, 1), false),
        ((1, 0), false),
        ((1, 1), false),
        ((0, 5), false),
    ] {
        let covered = Position::new(1, 1).has_coverage(Position::from(other));
        assert!(rt; covered == covers, "{other:?}");
    }
}

#[test]
fn compares_entities(rt: HostRuntime) {
    let entities = [
        Entity::Global,
        Entity::Column(7),
        Entity::Row(1),
        Entity::Row(2),
        Entity::Cell(0, 1),
        Entity::Cell(1, 0),
    ];
    assert!(rt; entities.iter().is_sorted());
    let cell = Entity::Cell(3, 4);
    assert!(rt; Entity::from(Position::new(3, 4)) == cell);
    assert!(rt; Entity::from((3, 4)) == cell);
    assert!(rt; Entity::Row(3) != Entity::Column(3));
    assert!(rt; hash_of(&Entity::from((3, 4))) == hash_of(&cell));
}

#[test]
fn compares_offsets(rt: HostRuntime) {
    let offsets = [
        Offset::Start(0),
        Offset::Start(7),
        Offset::End(0),
        Offset::End(1),
    ];
    assert!(rt; offsets.iter().is_sorted());
    assert!(rt; Offset::Start(1) != Offset::End(1));
    assert!(rt; hash_of(&Offset::Start(1)) != hash_of(&Offset::End(1)));
}

/// The first index of a range and the one past its last, of 5 where it has no end.
fn ends_of<B: ToBounds>(range: &B) -> (usize, usize) {
    let indexes = range.to_range(5);
    (indexes.start, indexes.end)
}

#[test]
fn tells_the_indexes_of_ranges(rt: HostRuntime) {
    for &(ends, want) in &[
        (ends_of(&(1..3)), (1, 3)),
        (ends_of(&(1..=3)), (1, 4)),
        (ends_of(&(1..)), (1, 5)),
        (ends_of(&(..3)), (0, 3)),
        (ends_of(&(..=3)), (0, 4)),
        (ends_of(&(..)), (0, 5)),
        (ends_of(&(3..1)), (3, 1)),
        (ends_of(&(7..9)), (7, 9)),
    ] {
        assert!(rt; ends == want);
    }
}

#[test]
fn tells_the_indexes_of_ranges_to_the_end_of_usize(rt: HostRuntime) {
    let mut gone_through = 2..=2;
    assert!(rt; gone_through.next() == Some(2));
    for &(ends, want) in &[
        (ends_of(&gone_through), (2, 2)),
        (ends_of(&(0..=MAX)), (0, MAX)),
        (ends_of(&(..=MAX)), (0, MAX)),
        (ends_of(&(MAX..)), (MAX, 5)),
        (ends_of(&(Bound::Included(1), Bound::Included(3))), (1, 4)),
        (ends_of(&(Bound::Excluded(1), Bound::Excluded(3))), (2, 3)),
        (ends_of(&(Bound::Excluded(MAX), Bound::Unbounded)), (MAX, 5)),
        (ends_of(&(Bound::Unbounded, Bound::Unbounded)), (0, 5)),
    ] {
        assert!(rt; ends == want);
    }
}
