//! Things that are one where they have one key: a list of numbers.

ghost use Rattle.std.specs.Prelude.{◌≡◌, ◌<◌, ◌^◌, ℕ, List, None, Some, IfOk, OnOk, length, map};
ghost use Rattle.c_types.specs.Index.{number_at};
ghost use Rattle.link_names.specs.Firsts.{first_or, known_after};
ghost use Rattle.link_model.specs.link_types.Leaders.{AreLeaders};
ghost use Rattle.unit_link.specs.link_program.Alike.{AreAlike, first_labelled, known_with};
ghost use Rattle.link_merge.specs.Keys.{key_of, keys_of};

use pta_base::OutOfMemory;
use std::alloc::Global;
use std::collections::BTreeMap;
use std::marker::Model;

/// The first thing of each key.
#[derive(Drop)]
pub(crate) struct Index {
    positions: BTreeMap<Vec<u64>, u32>,
}

impl Model for Index {
    ghost use Rattle.std.specs.Prelude.{List, ℕ, map};

    ghost Value = { List (List ℕ × ℕ) };

    ghost view = { λ a. map (λ e. (e.0.items, e.1)) a.positions.entries };
}

impl Index {
    // No key yet.
    fn new(alloc: Global) -> Index
        ensures { (key : List ℕ) → number_at result key ≡ None }
    {
        Index {
            positions: BTreeMap::new(alloc),
        }
    }

    // The position that is kept for a key.
    fn find(&self, key: &[u64]) -> Option<u32>
        ensures { result ≡ number_at self.now key.now }
    {
        self.positions.get(key).copied()
    }

    // A position for a key.
    fn insert(&mut self, key: Vec<u64>, position: u32) -> Result<(), OutOfMemory>
        ensures here { OnOk result (number_at self.new key.items ≡ Some position) }
        ensures others { OnOk result ((other : List ℕ) → (key.items ≡ other → ⊥) → number_at self.new other ≡ number_at self.old other) }
    {
        match self.positions.insert(key, position) {
            Ok(_) => Ok(()),
            Err(_) => Err(OutOfMemory),
        }
    }
}

// The position of the first thing with a key; it is this one where there was none before.
fn first_of_key(
    alloc: Global,
    index: &mut Index,
    key: &[u64],
    here: u32,
) -> Result<u32, OutOfMemory>
    ensures first { IfOk result (λ first. first ≡ first_or (number_at index.old key.now) here) }
    ensures known { OnOk result ((other : List ℕ) →
        number_at index.new other ≡ known_after (number_at index.old) key.now here other) }
{
    match index.find(key) {
        Some(first) => Ok(first),
        None => {
            let owned = Vec::from_slice(alloc, key)?;
            index.insert(owned, here)?;
            Ok(here)
        }
    }
}

// The first thing with the key of this one, by the keys of those before; a thing without a key is its own first.
fn first_keyed(
    alloc: Global,
    index: &mut Index,
    key: &Option<Vec<u64>>,
    here: u32,
) -> Result<u32, OutOfMemory>
    ensures first { IfOk result (λ first. first ≡ first_labelled (number_at index.old) (key_of key.now) here) }
    ensures known { OnOk result ((other : List ℕ) →
        number_at index.new other ≡ known_with (number_at index.old) (key_of key.now) here other) }
{
    match key {
        Some(key) => first_of_key(alloc, index, key.as_slice(), here),
        None => Ok(here),
    }
}

/// For each thing the first one that is the same or has the same key, given the keys of those that have one.
pub fn leaders_of_keys(alloc: Global, keys: &[Option<Vec<u64>>]) -> Result<Vec<u32>, OutOfMemory>
    requires { length keys.now < 2 ^ 32 }
    ensures alike { IfOk result (λ list. AreAlike (keys_of keys.now) list.items) }
    ensures leaders { IfOk result (λ list. AreLeaders list.items) }
{
    let mut index = Index::new(alloc);
    let mut list = Vec::new(alloc);
    for (here, key) in keys.iter().enumerate() {
        let leader = first_keyed(alloc, &mut index, key, here as u32)?;
        list.push(leader)?;
    }
    Ok(list)
}
