// The first declarations of tags.
ghost use Rattle.std.specs.Prelude.{◌≡◌, ◌++◌, ◌∷◌, [], ℕ, List, Option, Some, IfOk, OnOk};
ghost use Rattle.c_senses.specs.Tree.{Source};
ghost use Rattle.c_senses.specs.Names as names;
ghost use Rattle.c_senses.specs.Tags as spec;
ghost use Rattle.tree_reads.specs.leaf_maps.Numbers.{number_at};
ghost use Rattle.tree_reads.specs.Sources.{source_in};
ghost use Rattle.c_tags.specs.tag_numbers.Firsts.{SaysFirst, Declares, first_for, node_more, or_first};
ghost use Rattle.c_tags.specs.tag_numbers.Firsts as firsts;

use c_scope::{Bound, Declared};
use pta_base::OutOfMemory;
use std::alloc::Global;
use std::collections::BTreeMap;
use tree_reads::leaf_maps::LeafMap;
use tree_reads::{Syntax, Test, children_of, first_where};

// The first declaration's node by the number of the scope and the symbol.
type Places = BTreeMap<(u32, u32), u32>;

/// What each leaf of a tag means: by uses the leaf that declares it, and by that one the first leaf in its scope.
#[derive(Drop)]
pub struct Declaring {
    pub(in crate::tag_numbers) uses: LeafMap,
    pub(in crate::tag_numbers) firsts: LeafMap,
}

// The first declaration of a symbol in a scope.
fn node_at(places: &Places, scope: u32, symbol: u32) -> Option<u32>
    ensures { result ≡ firsts.node_at places.now scope symbol }
{
    places.get(&(scope, symbol)).copied()
}

// Puts a declaration at its place.
fn put(places: &mut Places, d: Declared) -> Result<(), OutOfMemory>
    ensures { OnOk result ((scope symbol : ℕ) → firsts.node_at places.new scope symbol ≡ firsts.node_put places.old d scope symbol) }
{
    places.insert((d.scope, d.symbol), d.node)?;
    Ok(())
}

// The node of the first declaration at the place of one, which is that one itself where there is none yet.
fn first_of(places: &mut Places, d: Declared) -> Result<u32, OutOfMemory>
    ensures first { IfOk result (λ n. Some n ≡ or_first (firsts.node_at places.old d.scope d.symbol) (Some d.node)) }
    ensures more { OnOk result ((scope symbol : ℕ) → firsts.node_at places.new scope symbol ≡ node_more places.old d scope symbol) }
{
    match node_at(places, d.scope, d.symbol) {
        Some(first) => Ok(first),
        None => {
            put(places, d)?;
            Ok(d.node)
        }
    }
}

// The first declaration in its scope for each leaf that declares a tag.
fn firsts(alloc: Global, tags: &[Declared]) -> Result<LeafMap, OutOfMemory>
    ensures { IfOk result (λ map. (leaf : ℕ) → number_at map leaf ≡ first_for tags.now leaf) }
{
    let mut places = BTreeMap::new(alloc);
    let mut map = LeafMap::new(alloc);
    for d in tags {
        let first = first_of(&mut places, *d)?;
        map.add(d.node, first)?;
    }
    Ok(map)
}

/// What each leaf of a tag means, by what its names are bound to.
pub fn meanings(alloc: Global, bound: &Bound) -> Result<Declaring, OutOfMemory>
    ensures { IfOk result (λ d. (s : Source) → s.uses ≡ bound.now.uses.items → s.declared.tags ≡ bound.now.tags.items → Declares s d) }
{
    let uses = LeafMap::of_pairs(alloc, bound.uses.as_slice())?;
    let firsts = firsts(alloc, bound.tags.as_slice())?;
    Ok(Declaring { uses, firsts })
}

// The node by which the tag of a leaf is known.
fn tag_of_leaf(declaring: &Declaring, leaf: u32) -> u32
    ensures { (s : Source) → Declares s declaring.now → result ≡ names.tag_of_leaf s leaf }
{
    let own = match declaring.uses.get(leaf) {
        Some(declared) => declared,
        None => leaf,
    };
    match declaring.firsts.get(own) {
        Some(first) => first,
        None => own,
    }
}

// The leaf of the tag of a specifier, if it has one.
fn tag_leaf(syntax: &Syntax, node: u32) -> Option<u32>
    ensures { (uses : List (ℕ × ℕ)) → result ≡ spec.tag_leaf (source_in syntax.now uses) node }
{
    first_where(syntax, Test::Name, children_of(syntax, node))
}

/// The node by which the tag of a specifier is known: that of its first declaration, or the specifier itself where it has none.
pub fn tag_declared(syntax: &Syntax, declaring: &Declaring, node: u32) -> u32
    ensures { (uses : List (ℕ × ℕ))
        → Declares (source_in syntax.now uses) declaring.now
        → result ≡ spec.tag_declared (source_in syntax.now uses) node }
{
    match tag_leaf(syntax, node) {
        Some(leaf) => tag_of_leaf(declaring, leaf),
        None => node,
    }
}
