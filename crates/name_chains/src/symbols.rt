// The declarations of each symbol in all scopes.
ghost use Rattle.std.specs.Prelude.{◌≡◌, ◌++◌, ◌∷◌, [], ◌<◌, ℕ, List, All, Some, IfOk, OnOk};
ghost use Rattle.c_scope.specs.declared.kinds.Declared.{Declared as DeclaredSpec};
ghost use Rattle.name_chains.specs.Symbols as spec;
ghost use Rattle.name_chains.specs.Symbols.{AreSymbols, Last};

use crate::links::{Link, Links};
use c_mentions::settings::place_of;
use c_scope::Declared;
use pta_base::OutOfMemory;
use std::alloc::Global;
use std::collections::BTreeMap;

/// The last link of each symbol.
pub(crate) type Symbols = BTreeMap<u32, u32>;

/// The last link of a symbol.
fn last_of(symbols: &Symbols, symbol: u32) -> Option<u32>
    ensures { result ≡ spec.last_at symbols.now symbol }
{
    symbols.get(&symbol).copied()
}

/// Puts the last link of a symbol.
fn put(symbols: &mut Symbols, symbol: u32, link: u32) -> Result<(), OutOfMemory>
    ensures here { OnOk result (spec.last_at symbols.new symbol ≡ Some link) }
    ensures others { OnOk result ((q : ℕ) → (symbol ≡ q → ⊥) → spec.last_at symbols.new q ≡ spec.last_at symbols.old q) }
{
    symbols.insert(symbol, link)?;
    Ok(())
}

/// Takes in one more declaration.
fn take_symbol(
    links: &mut Links,
    symbols: &mut Symbols,
    declared: Declared,
) -> Result<(), OutOfMemory>
    ensures { OnOk result ((n : ℕ) (ds : List DeclaredSpec) →
        declared.node < n → Last n ds links.old.items symbols.old → Last n (ds ++ declared ∷ []) links.new.items symbols.new) }
{
    let before = last_of(symbols, declared.symbol);
    let place = place_of(links.len())?;
    links.push(Link { before, declared })?;
    put(symbols, declared.symbol, place)?;
    Ok(())
}

/// For each declaration those of its symbol up to it, in all scopes, as a list that ends with the link of its place.
pub fn symbol_chains(alloc: Global, names: &[Declared]) -> Result<Links, OutOfMemory>
    ensures { IfOk result (λ links. (n : ℕ) → All (λ d. d.node < n) names.now → AreSymbols n names.now links.items) }
{
    let mut links = Vec::new(alloc);
    let mut symbols = BTreeMap::new(alloc);
    for declared in names {
        take_symbol(&mut links, &mut symbols, *declared)?;
    }
    Ok(links)
}
