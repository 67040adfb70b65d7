//! Sets of pairs of numbers.
ghost use Rattle.std.specs.Prelude.{◌≡◌, ◌++◌, [], ◌∷◌, length, Contains, slice_get, OnErr, IfOk, MatchBool};
ghost use Rattle.edge_book.specs.Edges.{AreApart};

use indexmap::IndexSet;
use pta_base::OutOfMemory;
use std::alloc::Global;
use std::marker::Model;

/// Pairs of numbers, each once, in order of arrival. Contracts see a set as the list of its pairs.
#[derive(Drop)]
pub struct PairSet {
    pairs: IndexSet<(u32, u32)>,
}

impl Model for PairSet {
    ghost use Rattle.std.specs.Prelude.{List, ℕ};
    ghost use Rattle.edge_book.specs.Edges.{AreApart};

    ghost Value = { List (ℕ × ℕ) };

    ghost view = { λ s. s.pairs.keys };

    ghost invariant = { λ s. AreApart s.pairs.keys };
}

impl PairSet {
    /// A set with no pair.
    pub fn new(alloc: Global) -> PairSet
        ensures { result ≡ [] }
    {
        PairSet {
            pairs: IndexSet::new(alloc),
        }
    }

    /// Adds a pair at the end if the set doesn't have it, and answers whether it is new. No pair stands twice. After want
    /// of memory the set is as it was.
    pub fn add(&mut self, one: u32, other: u32) -> Result<bool, OutOfMemory>
        ensures added { IfOk result (λ new. MatchBool new (self.new ≡ self.old ++ (one, other) ∷ []) (self.new ≡ self.old)) }
        ensures new { IfOk result (λ new. MatchBool new (Contains self.old (one, other) → ⊥) (Contains self.old (one, other))) }
        ensures once { AreApart self.new }
        ensures err { OnErr result (self.new ≡ self.old) }
    {
        if !self.pairs.insert((one, other))? {
            return Ok(false);
        }
        Ok(true)
    }

    /// How many pairs the set has. No pair stands twice.
    pub fn len(&self) -> usize
        ensures len { result ≡ length self.now }
        ensures once { AreApart self.now }
    {
        self.pairs.len()
    }

    /// The pair of a number, counted from 0 in order of arrival; none exactly past the end.
    pub fn get(&self, index: usize) -> Option<(u32, u32)>
        ensures { result ≡ slice_get self.now index }
    {
        self.pairs.get_index(index).copied()
    }
}
