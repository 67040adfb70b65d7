// What is looked up of a unit's names.
ghost use Rattle.std.specs.Prelude.{◌≡◌, ◌<◌, ◌&&◌, not, ℕ, List, [], All, length, slice_get, Some, IfOk};
ghost use Rattle.core_tree.specs.declared.node.Unit.{Unit as UnitSpec};
ghost use Rattle.c_scope.specs.Resolves.{IsBound};
ghost use Rattle.c_senses.specs.Sense.{Sense};
ghost use Rattle.c_senses.specs.Names as senses;
ghost use Rattle.c_senses.specs.Entities as spec;
ghost use Rattle.tree_reads.specs.Sources.{source_in};
ghost use Rattle.c_meanings.specs.Known.{AreLeaves, AreChained, AreNames, ArePaired};

use c_scope::{Bound, Declared, Kind};
use name_chains::{Link, Links, NameChains, in_scope_link, list_of, name_chains, symbol_chains};
use pta_base::OutOfMemory;
use std::alloc::Global;
use tree_reads::Syntax;
use tree_reads::leaf_maps::LeafMap;

/// The declarations of a unit's names with those that are seen at each, and the pairs of uses and declarations by leaf.
#[derive(Drop)]
pub struct Names {
    pub(crate) chains: NameChains,
    pub(crate) symbols: Links,
    pub(crate) uses: LeafMap,
}

/// What is known of a unit's names before its first node, by how they are bound.
pub fn names_of_unit(alloc: Global, syntax: &Syntax, bound: &Bound) -> Result<Names, OutOfMemory>
    requires bound { IsBound syntax.now.tokens.now syntax.now.tree.now bound.now }
    requires leaves { AreLeaves syntax.now bound.now }
    ensures names { (u : UnitSpec) → IfOk result (AreNames syntax.now u []) }
    ensures uses { IfOk result (λ n. ArePaired n bound.now.uses.items) }
{
    let chains = name_chains(alloc, &bound.settings, bound.names.as_slice())?;
    let symbols = symbol_chains(alloc, bound.names.as_slice())?;
    let uses = LeafMap::of_pairs(alloc, bound.uses.as_slice())?;
    Ok(Names {
        chains,
        symbols,
        uses,
    })
}

/// A link of the lists of declarations.
pub(crate) fn link_at(names: &Names, place: u32) -> Link
    requires { place < length names.now.chains.links.items }
    ensures { slice_get names.now.chains.links.items place ≡ Some result }
{
    names.chains.links[place as usize]
}

/// A link of the lists of a symbol's declarations.
pub(crate) fn symbol_link(names: &Names, place: u32) -> Link
    requires { place < length names.now.symbols.items }
    ensures { slice_get names.now.symbols.items place ≡ Some result }
{
    names.symbols[place as usize]
}

/// The declaration of an ordinary name that a leaf makes (C11 6.2.1, 6.2.3).
pub fn declared_at(names: &Names, syntax: &Syntax, leaf: u32) -> Option<Declared>
    requires names { AreChained syntax.now names.now }
    ensures { (uses : List (ℕ × ℕ)) → result ≡ senses.ordinary_at (source_in syntax.now uses) leaf }
{
    name_chains::declared_at(&names.chains, leaf)
}

// Whether a declaration is one of a typedef name.
fn names_type(declared: Declared) -> bool
    ensures { result ≡ senses.names_type declared }
{
    match declared.kind {
        Kind::Typedef => true,
        Kind::Linked | Kind::Plain => false,
    }
}

// Whether a declaration is one of a function.
fn is_of_function(declared: Declared) -> bool
    ensures { result ≡ (declared.is_function && not (senses.names_type declared)) }
{
    declared.is_function && !names_type(declared)
}

// Whether a declaration is one of a name with linkage.
fn has_linkage(declared: Declared) -> bool
    ensures { result ≡ senses.has_linkage declared }
{
    match declared.kind {
        Kind::Linked => true,
        Kind::Typedef | Kind::Plain => false,
    }
}

/// Whether a leaf declares a typedef name (C11 6.7.8).
pub fn is_typedef(names: &Names, syntax: &Syntax, leaf: u32) -> bool
    requires names { AreChained syntax.now names.now }
    ensures { (uses : List (ℕ × ℕ)) (sense : ℕ → Sense) → result ≡ spec.is_typedef (source_in syntax.now uses) sense leaf }
{
    match declared_at(names, syntax, leaf) {
        Some(declared) => names_type(declared),
        None => false,
    }
}

/// Whether a leaf declares a name with linkage (C11 6.2.2).
pub fn is_linked(names: &Names, syntax: &Syntax, leaf: u32) -> bool
    requires names { AreChained syntax.now names.now }
    ensures { (uses : List (ℕ × ℕ)) (sense : ℕ → Sense) → result ≡ spec.is_linked (source_in syntax.now uses) sense leaf }
{
    match declared_at(names, syntax, leaf) {
        Some(declared) => has_linkage(declared),
        None => false,
    }
}

/// Whether a leaf declares a function (C11 6.7.6.3).
pub fn declares_function(names: &Names, syntax: &Syntax, leaf: u32) -> bool
    requires names { AreChained syntax.now names.now }
    ensures { (uses : List (ℕ × ℕ)) (sense : ℕ → Sense) →
        result ≡ spec.declares_function (source_in syntax.now uses) sense leaf }
{
    match declared_at(names, syntax, leaf) {
        Some(declared) => is_of_function(declared),
        None => false,
    }
}

/// The earlier declarations of a name in its own scope, in order.
pub fn before_in_scope(
    alloc: Global,
    names: &Names,
    syntax: &Syntax,
    leaf: u32,
) -> Result<Vec<Declared>, OutOfMemory>
    requires names { AreChained syntax.now names.now }
    ensures list { IfOk result (λ v. (uses : List (ℕ × ℕ)) →
        let s = source_in syntax.now uses in
        v.items ≡ senses.before_in_scope s (senses.ordinary_at s leaf)) }
    ensures leaves { IfOk result (λ v. All (λ d. d.node < length syntax.now.tree.now.nodes.items) v.items) }
{
    let link = in_scope_link(&names.chains, leaf);
    list_of(alloc, names.chains.own.as_slice(), link)
}
