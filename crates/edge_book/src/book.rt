//! Books of pairs.
ghost use Rattle.std.specs.Prelude.{◌≡◌, ◌+◌, ◌++◌, ◌<◌, [], ◌∷◌, Some, length, take, Contains, slice_get, OnErr, IfOk, MatchBool};
ghost use Rattle.std.specs.List.Sorted.{IsStrictlySortedBy};
ghost use Rattle.edge_book.specs.Edges.{AreApart, pair_order, with_pairs};
ghost use Rattle.edge_book.specs.Leaving.{targets_of};

use crate::leaving::Leaving;
use crate::set::PairSet;
use pta_base::OutOfMemory;
use std::alloc::Global;
use std::marker::Model;

/// Pairs of numbers, each once, in order of arrival, and by their first number: edges between rows, where an edge `(a, b)`
/// says that the set of row `a` is included in that of row `b`, or rows with the constraints that read them. Contracts see a
/// book as the list of its pairs.
#[derive(Drop)]
pub struct PairBook {
    pairs: PairSet,
    leaving: Leaving,
    alloc: Global,
}

impl Model for PairBook {
    ghost use Rattle.std.specs.Prelude.{List, ℕ};
    ghost use Rattle.edge_book.specs.Edges.{AreApart};
    ghost use Rattle.edge_book.specs.Leaving.{IsIndexed};

    ghost Value = { List (ℕ × ℕ) };

    ghost view = { λ b. b.pairs };

    ghost invariant = { λ b. AreApart b.pairs × IsIndexed b.leaving.lists.items b.pairs };
}

/// One pair of a list.
fn pair_at(pairs: &[(u32, u32)], i: usize) -> (u32, u32)
    requires { i < length pairs.now }
    ensures { slice_get pairs.now i ≡ Some result }
{
    pairs[i]
}

impl PairBook {
    /// A book with no edge.
    pub fn new(alloc: Global) -> PairBook
        ensures { result ≡ [] }
    {
        PairBook {
            pairs: PairSet::new(alloc),
            leaving: Leaving::new(alloc),
            alloc,
        }
    }

    /// Adds an edge at the end if the book doesn't have it, and answers whether it is new. No edge stands twice. After
    /// want of memory the book is as it was.
    pub fn add(&mut self, from: u32, to: u32) -> Result<bool, OutOfMemory>
        ensures added { IfOk result (λ new. MatchBool new (self.new ≡ self.old ++ (from, to) ∷ []) (self.new ≡ self.old)) }
        ensures new { IfOk result (λ new. MatchBool new (Contains self.old (from, to) → ⊥) (Contains self.old (from, to))) }
        ensures once { AreApart self.new }
        ensures err { OnErr result (self.new ≡ self.old) }
    {
        self.leaving.reserve(from)?;
        if !self.pairs.add(from, to)? {
            return Ok(false);
        }
        self.leaving.push_reserved(from, to);
        Ok(true)
    }

    /// Adds an edge, and answers how many edges are new: 1 or 0.
    pub(crate) fn add_one(&mut self, from: u32, to: u32) -> Result<u32, OutOfMemory>
        ensures ok { IfOk result (λ new. (self.new ≡ with_pairs self.old ((from, to) ∷ [])) × (length self.new ≡ length self.old + new)) }
        ensures err { OnErr result (self.new ≡ self.old) }
    {
        if self.add(from, to)? { Ok(1) } else { Ok(0) }
    }

    /// How many edges the book has. No edge stands twice.
    pub fn len(&self) -> usize
        ensures len { result ≡ length self.now }
        ensures once { AreApart self.now }
    {
        self.pairs.len()
    }

    /// The edge of a number, counted from 0 in order of arrival; none exactly past the end.
    pub fn get(&self, index: usize) -> Option<(u32, u32)>
        ensures { result ≡ slice_get self.now index }
    {
        self.pairs.get(index)
    }

    /// The rows to which edges lead from a row, each once, in order of their arrival.
    pub fn targets(&self, from: u32) -> &[u32]
        ensures { result.now ≡ targets_of from self.now }
    {
        self.leaving.of(from)
    }

    /// An empty list of pairs, in the book's memory.
    pub(crate) fn no_pairs(&self) -> Vec<(u32, u32)>
        ensures { result.items ≡ [] }
    {
        Vec::new(self.alloc)
    }

    /// Adds pairs in their order, and answers how many of them are new.
    pub(crate) fn add_all(&mut self, pairs: &[(u32, u32)]) -> Result<u32, OutOfMemory>
        requires { IsStrictlySortedBy pair_order pairs.now }
        ensures ok { IfOk result (λ new. (self.new ≡ with_pairs self.old pairs.now) × (length self.new ≡ length self.old + new)) }
        ensures err { OnErr result ((count : _) × (self.new ≡ with_pairs self.old (take count pairs.now))) }
    {
        let mut new = 0u32;
        for i in 0..pairs.len() {
            let (from, to) = pair_at(pairs, i);
            let more = self.add_one(from, to)?;
            new = new.checked_add(more).ok_or(OutOfMemory)?;
        }
        Ok(new)
    }
}
