// The names of locations are kept one after another until one comes again.

ghost use Rattle.std.specs.Prelude.{◌≡◌, ◌↔◌, ℕ, List, Some, None, IsTrue, IfOk, OnOk};
ghost use Rattle.c_types.specs.Index.{number_at};
ghost use Rattle.obj_space.specs.Space.{DistinctNames};

use crate::Space;
use pta_base::OutOfMemory;
use std::alloc::Global;
use std::collections::BTreeMap;
use std::marker::Model;

/// Names, each with its location.
#[derive(Drop)]
struct Seen {
    locations: BTreeMap<Vec<u8>, u32>,
}

impl Model for Seen {
    ghost use Rattle.std.specs.Prelude.{List, ℕ, map};

    ghost Value = { List (List ℕ × ℕ) };

    ghost view = { λ a. map (λ e. (e.0.items, e.1)) a.locations.entries };
}

impl Seen {
    // No name yet.
    fn new(alloc: Global) -> Seen
        ensures { (q : List ℕ) → number_at result q ≡ None }
    {
        Seen {
            locations: BTreeMap::new(alloc),
        }
    }

    // The location that is kept for a name.
    fn find(&self, name: &[u8]) -> Option<u32>
        ensures { result ≡ number_at self.now name.now }
    {
        self.locations.get(name).copied()
    }

    // A location for a name.
    fn insert(&mut self, name: Vec<u8>, location: u32) -> Result<(), OutOfMemory>
        ensures here { OnOk result (number_at self.new name.items ≡ Some location) }
        ensures others { OnOk result ((q : List ℕ) → (name.items ≡ q → ⊥) → number_at self.new q ≡ number_at self.old q) }
    {
        match self.locations.insert(name, location) {
            Ok(_) => Ok(()),
            Err(_) => Err(OutOfMemory),
        }
    }
}

// A copy of a name's bytes.
fn bytes_of(alloc: Global, name: &str) -> Result<Vec<u8>, OutOfMemory>
    ensures { IfOk result (λ copy. copy.items ≡ name.now) }
{
    Ok(Vec::from_slice(alloc, name.as_bytes())?)
}

/// Whether no two locations have one name. Questions that name locations need that none do. It copies each name once and looks
/// it up twice; its only error is want of memory.
pub fn names_differ(alloc: Global, space: &Space) -> Result<bool, OutOfMemory>
    ensures { IfOk result (λ differ. IsTrue differ ↔ DistinctNames space.now) }
{
    let mut seen = Seen::new(alloc);
    for location in 0..space.count() {
        let name = bytes_of(alloc, space.name(location))?;
        if seen.find(name.as_slice()).is_some() {
            return Ok(false);
        }
        seen.insert(name, location)?;
    }
    Ok(true)
}
