//! Keys, each once.

ghost use Rattle.std.specs.Prelude.{◌≡◌, [], IfOk};
ghost use Rattle.tabled_json.specs.Tables.{AreListed, find_key, with_key};
ghost use Rattle.tabled_texts.specs.Texts.{texts_of};

use std::alloc::{AllocError, Global};
use std::collections::BTreeMap;

/// Keys in the order in which they came, each once, and their columns.
#[derive(Drop)]
pub(crate) struct Keys<'a> {
    pub(crate) texts: Vec<&'a str>,
    columns: BTreeMap<&'a str, usize>,
}

impl<'a> Keys<'a> {
    /// No keys.
    pub(crate) fn new(alloc: Global) -> Self
        ensures none { texts_of result.texts ≡ [] }
        ensures listed { AreListed result }
    {
        Keys {
            texts: Vec::new(alloc),
            columns: BTreeMap::new(alloc),
        }
    }

    /// The column of a key.
    pub(crate) fn column(&self, key: &str) -> Option<usize>
        requires { AreListed self.now }
        ensures { result ≡ find_key key.now (texts_of self.now.texts) }
    {
        self.columns.get(key).copied()
    }

    /// Adds a key, unless it is there: then its column is given.
    pub(crate) fn add(&mut self, key: &'a str) -> Result<Option<usize>, AllocError>
        requires { AreListed self.old }
        ensures found { IfOk result (λ found. found ≡ find_key key.now (texts_of self.old.texts)) }
        ensures with { IfOk result (λ _. texts_of self.new.texts ≡ with_key (texts_of self.old.texts) key.now) }
        ensures listed { IfOk result (λ _. AreListed self.new) }
    {
        let found = self.column(key);
        if found.is_none() {
            self.columns.insert(key, self.texts.len())?;
            self.texts.push(key)?;
        }
        Ok(found)
    }
}
