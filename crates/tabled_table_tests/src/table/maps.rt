//! Builders of maps and sets.

use super::call::holds;
use std::alloc::{AllocError, Global};
use std::collections::{BTreeMap, BTreeSet, HashMap, HashSet};
use tabled_table::builder::Builder;

pub(crate) fn of_sorted_map(alloc: Global) -> Result<Builder, AllocError> {
    let mut map = BTreeMap::new(alloc);
    for &(key, value) in &[(10, "a"), (9, "b")] {
        map.insert(key, value)?;
    }
    Builder::from_btree_map(alloc, map)
}

pub(crate) fn of_hashed_map(alloc: Global) -> Result<Builder, AllocError> {
    let mut map = HashMap::new(alloc);
    for &(key, value) in &[(9, "b"), (10, "a")] {
        map.insert(key, value)?;
    }
    Builder::from_hash_map(alloc, map)
}

pub(crate) fn of_sorted_set(alloc: Global) -> Result<Builder, AllocError> {
    let mut set = BTreeSet::new(alloc);
    for key in [10, 9] {
        set.insert(key)?;
    }
    Builder::from_btree_set(alloc, set)
}

pub(crate) fn of_hashed_set(alloc: Global) -> Result<Builder, AllocError> {
    let mut set = HashSet::new(alloc);
    for key in [9, 10] {
        set.insert(key)?;
    }
    Builder::from_hash_set(alloc, set)
}

fn of_empty_map(alloc: Global) -> Result<Builder, AllocError> {
    let map: BTreeMap<u8, u8> = BTreeMap::new(alloc);
    Builder::from_btree_map(alloc, map)
}

#[test]
fn lists_maps_and_sets(rt: HostRuntime) {
    let alloc = rt.alloc();
    assert!(rt; holds(alloc, of_sorted_map(alloc), 2, "9 b / 10 a /"));
    assert!(rt; holds(alloc, of_hashed_map(alloc), 2, "10 a / 9 b /"));
    assert!(rt; holds(alloc, of_sorted_set(alloc), 1, "9 / 10 /"));
    assert!(rt; holds(alloc, of_hashed_set(alloc), 1, "10 / 9 /"));
    assert!(rt; holds(alloc, of_empty_map(alloc), 2, ""));
}
