// An index from lists of numbers to numbers.

ghost use Rattle.std.specs.Prelude.{◌≡◌, ℕ, List, Some, None, IsTrue, OnOk, OnErr, OnSome};
ghost use Rattle.c_types.specs.Index.{number_at};

use crate::term::OutOfMemory;
use std::alloc::Global;
use std::collections::BTreeMap;
use std::marker::Model;

/// Lists of numbers, each with a number.
#[derive(Drop)]
pub(crate) struct KeyIndex {
    numbers: BTreeMap<Vec<u64>, u32>,
}

impl Model for KeyIndex {
    ghost use Rattle.std.specs.Prelude.{List, ℕ, map};

    ghost Value = { List (List ℕ × ℕ) };

    ghost view = { λ a. map (λ e. (e.0.items, e.1)) a.numbers.entries };
}

impl KeyIndex {
    /// No list yet.
    pub(crate) fn new(alloc: Global) -> KeyIndex
        ensures { (q : List ℕ) → number_at result q ≡ None }
    {
        KeyIndex {
            numbers: BTreeMap::new(alloc),
        }
    }

    /// The number of a list.
    pub(crate) fn find(&self, key: &[u64]) -> Option<u32>
        ensures { result ≡ number_at self.now key.now }
    {
        self.numbers.get(key).copied()
    }

    /// A number for a list that has none.
    pub(crate) fn insert(&mut self, key: Vec<u64>, number: u32) -> Result<(), OutOfMemory>
        ensures here { OnOk result (number_at self.new key.items ≡ Some number) }
        ensures others { OnOk result ((q : List ℕ) → (key.items ≡ q → ⊥) → number_at self.new q ≡ number_at self.old q) }
        ensures err { OnErr result ((q : List ℕ) → number_at self.new q ≡ number_at self.old q) }
    {
        match self.numbers.insert(key, number) {
            Ok(_) => Ok(()),
            Err(_) => Err(OutOfMemory),
        }
    }
}
