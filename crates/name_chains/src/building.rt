// What is seen where each declaration is made, from the first declaration to the last.
ghost use Rattle.std.specs.Prelude.{◌≡◌, ◌++◌, ◌∷◌, [], ◌<◌, ℕ, List, All, length, IfOk};
ghost use Rattle.c_scope.specs.declared.kinds.Declared.{Declared as DeclaredSpec};
ghost use Rattle.c_lexer.specs.declared.Token.{Token};
ghost use Rattle.c_grammar.specs.Reads.{Node};
ghost use Rattle.c_mentions.specs.Settings.{AreSettings};
ghost use Rattle.name_chains.specs.Links.{AreBackward};
ghost use Rattle.name_chains.specs.Chains.{AreWithin};
ghost use Rattle.name_chains.specs.Seen as spec;
ghost use Rattle.name_chains.specs.Seen.{AreChains, Stands, scopes_of};

use crate::chains::{Chains, has_linkage, linked_along, take_in};
use crate::links::{Links, push_link};
use crate::scopes::scopes_at;
use c_mentions::settings::{Settings, place_of};
use c_scope::Declared;
use pta_base::OutOfMemory;
use std::alloc::Global;
use std::collections::BTreeMap;
use tree_reads::leaf_maps::LeafMap;

/// What is seen where a name is declared, in lists by their last links.
#[derive(Clone, Copy, Debug)]
pub struct Seen {
    /// The declaration.
    pub declared: Declared,
    /// The declarations with linkage that are seen there (C11 6.2.2p4), among the links.
    pub linked: Option<u32>,
    /// Those that together give it its type (C11 6.2.7p4), among the links.
    pub typing: Option<u32>,
    /// The earlier ones in its scope, among its scope's own links.
    pub in_scope: Option<u32>,
}

/// The declarations of ordinary names, by their leaves, with those that are seen at each.
#[derive(Drop)]
pub struct NameChains {
    /// The place of the first declaration of each leaf.
    pub positions: LeafMap,
    /// What is seen at each declaration.
    pub seen: Vec<Seen>,
    /// The links of the lists of one scope's declarations.
    pub own: Links,
    /// The links of the other lists.
    pub links: Links,
}

/// The list behind which a declaration stands in the list of those that give its name a type.
fn base_of(declared: Declared, linked: Option<u32>) -> Option<u32>
    ensures { result ≡ spec.base_of declared linked }
{
    if has_linkage(declared) { linked } else { None }
}

/// Takes in one more declaration, that stands in these scopes.
fn note(
    alloc: Global,
    chains: &mut NameChains,
    places: &mut Chains,
    scopes: &[u32],
    declared: Declared,
) -> Result<(), OutOfMemory>
    requires own { AreBackward chains.old.own.items }
    requires links { AreBackward chains.old.links.items }
    requires within { AreWithin chains.old.own.items chains.old.links.items places.old }
    ensures own { IfOk result (λ done. AreBackward chains.new.own.items) }
    ensures links { IfOk result (λ done. AreBackward chains.new.links.items) }
    ensures within { IfOk result (λ done. AreWithin chains.new.own.items chains.new.links.items places.new) }
    ensures stands { IfOk result (λ done. (n : ℕ) (around : ℕ → List ℕ) (ds : List DeclaredSpec) →
        around declared.node ≡ scopes.now →
        declared.node < n →
        Stands n around ds chains.old places.old →
        Stands n around (ds ++ declared ∷ []) chains.new places.new) }
{
    let linked = linked_along(
        alloc,
        chains.own.as_slice(),
        &mut chains.links,
        places,
        scopes,
        declared.symbol,
    )?;
    let typing = push_link(&mut chains.links, base_of(declared, linked), declared)?;
    let in_scope = take_in(
        &mut chains.own,
        &mut chains.links,
        places,
        declared,
        linked,
        typing,
    )?;
    let position = place_of(chains.seen.len())?;
    let seen = Seen {
        declared,
        linked,
        typing,
        in_scope,
    };
    chains.seen.push(seen)?;
    chains.positions.add(declared.node, position)?;
    Ok(())
}

/// What is seen where each ordinary name of a unit is declared, of the declarations in the order in which they are made, by where each
/// node stands (C11 6.2.1, 6.2.2). Only want of memory is refused.
pub fn name_chains(
    alloc: Global,
    settings: &Settings,
    names: &[Declared],
) -> Result<NameChains, OutOfMemory>
    requires leaves { All (λ d. d.node < length settings.now.list) names.now }
    ensures { IfOk result (λ chains. (tokens : List Token) (nodes : List Node) →
        AreSettings tokens nodes settings.now → AreChains (length nodes) (scopes_of tokens nodes) names.now chains) }
{
    let mut places = BTreeMap::new(alloc);
    let mut chains = NameChains {
        positions: LeafMap::new(alloc),
        seen: Vec::new(alloc),
        own: Vec::new(alloc),
        links: Vec::new(alloc),
    };
    for declared in names {
        let scopes = scopes_at(alloc, settings, declared.node)?;
        note(
            alloc,
            &mut chains,
            &mut places,
            scopes.as_slice(),
            *declared,
        )?;
    }
    Ok(chains)
}
