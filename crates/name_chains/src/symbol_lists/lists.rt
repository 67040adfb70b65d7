// The declarations of each symbol.
ghost use Rattle.std.specs.Prelude.{◌≡◌, ◌++◌, ◌∷◌, [], ℕ, List, length, option_map, slice_get, IfOk};
ghost use Rattle.c_scope.specs.declared.kinds.Declared.{Declared as DeclaredSpec};
ghost use Rattle.name_chains.specs.symbol_lists.Symbols as spec;
ghost use Rattle.name_chains.specs.symbol_lists.Symbols.{Say};
ghost use Rattle.name_chains.specs.symbol_lists.Lists.{AreOf};

use crate::symbol_lists::maps::{Counts, Leaves, count_of, leaf_of, put_count, put_leaf};
use c_scope::Declared;
use pta_base::OutOfMemory;
use std::alloc::Global;
use std::collections::BTreeMap;

/// The declarations of each symbol, by their leaves.
#[derive(Drop)]
pub struct SymbolLists {
    pub(in crate::symbol_lists) counts: Counts,
    pub(in crate::symbol_lists) leaves: Leaves,
}

// Adds a declaration behind those of its symbol.
fn add(counts: &mut Counts, leaves: &mut Leaves, declared: Declared) -> Result<(), OutOfMemory>
    ensures { IfOk result (λ done. (ds : List DeclaredSpec) →
        Say ds counts.old leaves.old → Say (ds ++ declared ∷ []) counts.new leaves.new) }
{
    let count = count_of(counts, declared.symbol);
    if count == u32::MAX {
        return Err(OutOfMemory);
    }
    put_leaf(leaves, declared.symbol, count, declared.node)?;
    put_count(counts, declared.symbol, count + 1)
}

impl SymbolLists {
    /// The lists of some declarations. Only memory may want, or there are 2^32 of one symbol.
    pub fn new(alloc: Global, declarations: &[Declared]) -> Result<SymbolLists, OutOfMemory>
        ensures { IfOk result (λ lists. AreOf declarations.now lists) }
    {
        let mut counts = BTreeMap::new(alloc);
        let mut leaves = BTreeMap::new(alloc);
        for declared in declarations {
            add(&mut counts, &mut leaves, *declared)?;
        }
        Ok(SymbolLists { counts, leaves })
    }

    /// How many declarations a symbol has.
    pub fn count(&self, symbol: u32) -> u32
        ensures { (ds : List DeclaredSpec) → AreOf ds self.now → result ≡ length (spec.of_symbol symbol ds) }
    {
        count_of(&self.counts, symbol)
    }

    /// The leaf of the declaration of a symbol at a place among them.
    pub fn get(&self, symbol: u32, place: u32) -> Option<u32>
        ensures { (ds : List DeclaredSpec) →
            AreOf ds self.now → result ≡ option_map spec.leaf_of (slice_get (spec.of_symbol symbol ds) place) }
    {
        leaf_of(&self.leaves, symbol, place)
    }
}
