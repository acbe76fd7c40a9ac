//! Builders of maps and sets, with a row an entry.

ghost use Rattle.std.specs.Prelude.{IfOk, OnOk};
ghost use Rattle.std.specs.List.Sorted.{IsPermutation, IsSorted};
ghost use Rattle.tabled_table.specs.Builder.{row_texts};
ghost use Rattle.tabled_table.specs.Given.{GaveEntries, MayBeAsked};
ghost use Rattle.tabled_table.specs.Printed.{HoldsEntries, HoldsSortedEntries, PrintsOne, PrintsPair, row_cmp};

use crate::builder::Builder;
use std::alloc::{AllocError, Global};
use std::collections::{BTreeMap, BTreeSet, HashMap, HashSet};
use std::fmt::Display;
use std::hash::{BuildHasher, Hash};

impl Builder {
    /// A builder of two columns, with a row a pair of key and value, in ascending order of keys.
    ///
    /// Refused where memory runs out.
    ///
    /// Ported from `impl From<BTreeMap> for tabled::builder::Builder`.
    pub fn from_btree_map<K, V>(alloc: Global, map: BTreeMap<K, V>) -> Result<Self, AllocError>
    where
        K: Ord + Display + Drop,
        V: Display + Drop,
        ensures { IfOk result (λ b. HoldsEntries 2 (PrintsPair K.output V.output) map.entries b) }
    {
        let rows = pair_rows(alloc, map)?;
        Builder::of_rows(alloc, 2, rows)
    }

    /// A builder of one column, with a row a key, in ascending order of keys.
    ///
    /// Refused where memory runs out.
    ///
    /// Ported from `impl From<BTreeSet> for tabled::builder::Builder`.
    pub fn from_btree_set<K>(alloc: Global, set: BTreeSet<K>) -> Result<Self, AllocError>
    where
        K: Ord + Display + Drop,
        ensures { IfOk result (λ b. HoldsEntries 1 (PrintsOne K.output) set.keys b) }
    {
        let rows = single_rows(alloc, set)?;
        Builder::of_rows(alloc, 1, rows)
    }

    /// A builder of two columns, with a row a pair of key and value, in ascending order of the bytes
    /// of their texts, that of the key first.
    ///
    /// Refused where memory runs out.
    ///
    /// Ported from `impl From<HashMap> for tabled::builder::Builder`.
    pub fn from_hash_map<K, V, S>(alloc: Global, map: HashMap<K, V, S>) -> Result<Self, AllocError>
    where
        K: Eq + Hash + Display + Drop,
        V: Display + Drop,
        S: BuildHasher + Drop,
        ensures { IfOk result (λ b. HoldsSortedEntries 2 (PrintsPair K.output V.output) map.entries b) }
    {
        let mut rows = pair_rows(alloc, map)?;
        sort_rows(&mut rows)?;
        Builder::of_rows(alloc, 2, rows)
    }

    /// A builder of one column, with a row a key, in ascending order of the bytes of their texts.
    ///
    /// Refused where memory runs out.
    ///
    /// Ported from `impl From<HashSet> for tabled::builder::Builder`.
    pub fn from_hash_set<K, S>(alloc: Global, set: HashSet<K, S>) -> Result<Self, AllocError>
    where
        K: Eq + Hash + Display + Drop,
        S: BuildHasher + Drop,
        ensures { IfOk result (λ b. HoldsSortedEntries 1 (PrintsOne K.output) set.keys b) }
    {
        let mut rows = single_rows(alloc, set)?;
        sort_rows(&mut rows)?;
        Builder::of_rows(alloc, 1, rows)
    }
}

/// A row of two texts for each entry.
fn pair_rows<K, V, I>(alloc: Global, entries: I) -> Result<Vec<Vec<String>>, AllocError>
where
    K: Display + Drop,
    V: Display + Drop,
    I: IntoIterator<Item = (K, V)>,
    requires { MayBeAsked I.IntoIterator I.IntoIter.Iterator entries }
    ensures { IfOk result (λ all. GaveEntries I.IntoIterator I.IntoIter.Iterator (PrintsPair K.output V.output) entries (row_texts all.items)) }
{
    let mut all = Vec::new(alloc);
    for (key, value) in entries {
        let mut row = Vec::with_capacity(alloc, 2)?;
        row.push(key.to_string(alloc)?)?;
        row.push(value.to_string(alloc)?)?;
        all.push(row)?;
    }
    Ok(all)
}

/// A row of one text for each key.
fn single_rows<K, I>(alloc: Global, keys: I) -> Result<Vec<Vec<String>>, AllocError>
where
    K: Display + Drop,
    I: IntoIterator<Item = K>,
    requires { MayBeAsked I.IntoIterator I.IntoIter.Iterator keys }
    ensures { IfOk result (λ all. GaveEntries I.IntoIterator I.IntoIter.Iterator (PrintsOne K.output) keys (row_texts all.items)) }
{
    let mut all = Vec::new(alloc);
    for key in keys {
        let mut row = Vec::with_capacity(alloc, 1)?;
        row.push(key.to_string(alloc)?)?;
        all.push(row)?;
    }
    Ok(all)
}

/// Sorts rows by the bytes of their texts, the first text first.
fn sort_rows(rows: &mut Vec<Vec<String>>) -> Result<(), AllocError>
    ensures same { IsPermutation (row_texts rows.old.items) (row_texts rows.new.items) }
    ensures sorted { OnOk result (IsSorted row_cmp (row_texts rows.new.items)) }
{
    rows.sort()
}
