// Numbers by symbols.
ghost use Rattle.std.specs.Prelude.{◌≡◌, ◌==◌, ◌&&◌, ℕ, Some, IfOk, if◌then◌else◌};
ghost use Rattle.name_chains.specs.symbol_lists.Symbols.{kept_at, count_at, leaf_at};

use pta_base::OutOfMemory;
use std::collections::BTreeMap;

/// How many declarations each symbol has.
pub(in crate::symbol_lists) type Counts = BTreeMap<u32, u32>;

/// The leaf of each declaration, by its symbol and its place among those of the symbol.
pub(in crate::symbol_lists) type Leaves = BTreeMap<(u32, u32), u32>;

// The number that is kept for a symbol.
fn kept_count(counts: &Counts, symbol: u32) -> Option<u32>
    ensures { result ≡ kept_at counts.now symbol }
{
    counts.get(&symbol).copied()
}

/// How many declarations a symbol has.
pub(in crate::symbol_lists) fn count_of(counts: &Counts, symbol: u32) -> u32
    ensures { result ≡ count_at counts.now symbol }
{
    match kept_count(counts, symbol) {
        Some(count) => count,
        None => 0,
    }
}

/// Puts the number of declarations of a symbol.
pub(in crate::symbol_lists) fn put_count(
    counts: &mut Counts,
    symbol: u32,
    count: u32,
) -> Result<(), OutOfMemory>
    ensures { IfOk result (λ done. (other : ℕ) →
        kept_at counts.new other ≡ (if symbol == other then Some count else kept_at counts.old other)) }
{
    counts.insert(symbol, count)?;
    Ok(())
}

/// The leaf of a declaration of a symbol.
pub(in crate::symbol_lists) fn leaf_of(leaves: &Leaves, symbol: u32, place: u32) -> Option<u32>
    ensures { result ≡ leaf_at leaves.now symbol place }
{
    leaves.get(&(symbol, place)).copied()
}

/// Puts the leaf of a declaration of a symbol.
pub(in crate::symbol_lists) fn put_leaf(
    leaves: &mut Leaves,
    symbol: u32,
    place: u32,
    leaf: u32,
) -> Result<(), OutOfMemory>
    ensures { IfOk result (λ done. (other k : ℕ) →
        leaf_at leaves.new other k ≡ (if (symbol == other) && (place == k) then Some leaf else leaf_at leaves.old other k)) }
{
    leaves.insert((symbol, place), leaf)?;
    Ok(())
}
