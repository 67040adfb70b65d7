// Numbers by leaves.
ghost use Rattle.std.specs.Prelude.{◌≡◌, ◌<◌, ℕ, Some, None, ◌-◌, true, length, get_or, IfOk, OnOk};
ghost use Rattle.c_senses.specs.Tree.{paired};
ghost use Rattle.c_senses.specs.World.{or_else};
ghost use Rattle.tree_reads.specs.leaf_maps.Numbers.{number_at};

use std::alloc::{AllocError, Global};
use std::collections::BTreeMap;
use std::marker::Model;

/// Numbers by leaves: at most one for each. Leaves that come in rising order, as in a text, take eight bytes each; others are kept in an
/// ordered map.
#[derive(Drop)]
pub struct LeafMap {
    leaves: Vec<u32>,
    numbers: Vec<u32>,
    others: BTreeMap<u32, u32>,
}

impl Model for LeafMap {
    ghost use Rattle.std.specs.Prelude.{List, ℕ, ◌++◌};

    ghost Value = { List (ℕ × ℕ) };

    ghost use Rattle.tree_reads.specs.leaf_maps.Rising.{pairs_of, AreRising};

    ghost view = { λ m. pairs_of m.leaves.items m.numbers.items ++ m.others.entries };

    ghost invariant = { λ m. AreRising m.leaves.items m.numbers.items };
}

// Whether a leaf comes behind some leaves.
fn is_behind(leaves: &[u32], leaf: u32) -> bool
    ensures { result ≡ true → 0 < length leaves.now → get_or leaves.now (length leaves.now - 1) 0 < leaf }
{
    match leaves.last() {
        Some(last) => *last < leaf,
        None => true,
    }
}

impl LeafMap {
    /// No number yet.
    pub fn new(alloc: Global) -> LeafMap
        ensures { (q : ℕ) → number_at result q ≡ None }
    {
        LeafMap {
            leaves: Vec::new(alloc),
            numbers: Vec::new(alloc),
            others: BTreeMap::new(alloc),
        }
    }

    /// The number of a leaf.
    pub fn get(&self, leaf: u32) -> Option<u32>
        ensures { result ≡ number_at self.now leaf }
    {
        if is_behind(self.leaves.as_slice(), leaf) {
            return self.others.get(&leaf).copied();
        }
        match self.leaves.binary_search(&leaf) {
            Ok(place) => Some(self.numbers[place]),
            Err(_) => self.others.get(&leaf).copied(),
        }
    }

    // Puts a number for a leaf behind all that came in rising order.
    fn push(&mut self, leaf: u32, number: u32) -> Result<(), AllocError>
        requires { number_at self.old leaf ≡ None }
        ensures here { OnOk result (number_at self.new leaf ≡ Some number) }
        ensures others { OnOk result ((q : ℕ) → (leaf ≡ q → ⊥) → number_at self.new q ≡ number_at self.old q) }
    {
        let rising = self.leaves.len() == self.numbers.len();
        if rising && is_behind(self.leaves.as_slice(), leaf) {
            self.numbers.push(number)?;
            self.leaves.push(leaf)?;
            return Ok(());
        }
        self.others.insert(leaf, number)?;
        Ok(())
    }

    /// A number for a leaf that has none; one that it has stays.
    pub fn add(&mut self, leaf: u32, number: u32) -> Result<(), AllocError>
        ensures here { OnOk result (number_at self.new leaf ≡ or_else (number_at self.old leaf) (Some number)) }
        ensures others { OnOk result ((q : ℕ) → (leaf ≡ q → ⊥) → number_at self.new q ≡ number_at self.old q) }
    {
        if self.get(leaf).is_some() {
            return Ok(());
        }
        self.push(leaf, number)
    }

    /// The numbers of some pairs of a leaf and a number; of several pairs of one leaf the first counts.
    pub fn of_pairs(alloc: Global, pairs: &[(u32, u32)]) -> Result<LeafMap, AllocError>
        ensures { IfOk result (λ map. (q : ℕ) → number_at map q ≡ paired pairs.now q) }
    {
        let mut map = LeafMap::new(alloc);
        for pair in pairs {
            map.add(pair.0, pair.1)?;
        }
        Ok(map)
    }
}
