// The declarations of a name before one, without those that give it no more than those before them.
ghost use Rattle.std.specs.Prelude.{◌≡◌, ◌<◌, ℕ, true, List, All, length, IfOk, IfSome, IsOkUnless, None};
ghost use Rattle.core_nodes.specs.declared.fault.CheckFault.TheVariants.{OutOfMemory};
ghost use Rattle.core_tree.specs.declared.node.Unit.{Unit as UnitSpec};
ghost use Rattle.c_senses.specs.World.{World};
ghost use Rattle.c_senses.specs.Sense.{Sense, sense_in};
ghost use Rattle.c_senses.specs.Tree.{Source};
ghost use Rattle.c_senses.specs.Names as senses;
ghost use Rattle.c_senses.specs.Entities as spec;
ghost use Rattle.c_results.specs.Standing.{senses_made};
ghost use Rattle.tree_reads.specs.Sources.{source_in};
ghost use Rattle.c_meanings.specs.Known.{AreChained, AreNamed, nodes_in};
ghost use Rattle.c_meanings.specs.Linkages.{AreLinkages, StaysEntity};
ghost use Rattle.c_meanings.specs.Thinned.{IsThin, StaysThin, StaysTyping, those};
ghost use Rattle.name_chains.specs.Links.{listed, IsLinkOf};

use crate::kept::{Linkages, internal_asked};
use crate::linkage::entity_of;
use crate::names::{Names, link_at, symbol_link};
use crate::thinned::{thin, thinned_list, thinned_now, unknown_in};
use c_results::Results;
use c_scope::Declared;
use core_nodes::CheckFault;
use name_chains::{in_scope_link, list_of, typing_link};
use std::alloc::Global;
use tree_reads::Syntax;

/// The declarations before one of a name in its scope, without those that give it no more than those before them; None where they aren't
/// known. Only memory may want. The contract says that the list is thin and that what is kept stays right, and nothing of how often a
/// declaration is looked at.
pub fn scope_thinned(
    alloc: Global,
    names: &Names,
    syntax: &Syntax,
    results: &Results,
    linkages: &mut Linkages,
    leaf: u32,
) -> Result<Option<Vec<Declared>>, CheckFault>
    requires names { AreNamed syntax.now results.now names.now }
    requires linkages { AreLinkages syntax.now results.now names.now linkages.old }
    ensures linkages { AreLinkages syntax.now results.now names.now linkages.new }
    ensures thin { IfOk result (λ found. IfSome found (λ v. (u : UnitSpec) (uses : List (ℕ × ℕ)) →
        let s = source_in syntax.now uses in
        IsThin s (sense_in (senses_made u results.now)) (senses.before_in_scope s (senses.ordinary_at s leaf)) v.items)) }
    ensures leaves { IfOk result (λ found. IfSome found (λ v. All (λ d. d.node < nodes_in syntax.now) v.items)) }
    ensures memory { IsOkUnless result OutOfMemory }
{
    let last = in_scope_link(&names.chains, leaf);
    let links = names.chains.own.as_slice();
    thinned_now(alloc, syntax, results, &mut linkages.own, links, last)
}

/// The declarations that together give a name its type, without those that give it no more than those before them; None where they aren't
/// known. Only memory may want. The contract says that the list is thin, whatever more is made, and that what is kept stays right, and
/// nothing of how often a declaration is looked at.
pub(crate) fn typing_thinned(
    alloc: Global,
    names: &Names,
    syntax: &Syntax,
    results: &Results,
    linkages: &mut Linkages,
    leaf: u32,
) -> Result<Option<Vec<Declared>>, CheckFault>
    requires names { AreNamed syntax.now results.now names.now }
    requires linkages { AreLinkages syntax.now results.now names.now linkages.old }
    ensures linkages { AreLinkages syntax.now results.now names.now linkages.new }
    ensures thin { IfOk result (λ found. IfSome found (λ v. StaysTyping syntax.now results.now leaf v.items)) }
    ensures leaves { IfOk result (λ found. IfSome found (λ v. All (λ d. d.node < nodes_in syntax.now) v.items)) }
    ensures memory { IsOkUnless result OutOfMemory }
{
    let last = typing_link(&names.chains, leaf);
    let links = names.chains.links.as_slice();
    thinned_now(alloc, syntax, results, &mut linkages.typing, links, last)
}

// Declarations that give together the type that those of a list do, by its last link: without those that give no more than those before
// them, where they are known.
fn typing_before(
    alloc: Global,
    names: &Names,
    syntax: &Syntax,
    results: &Results,
    linkages: &mut Linkages,
    last: Option<u32>,
) -> Result<Vec<Declared>, CheckFault>
    requires names { AreNamed syntax.now results.now names.now }
    requires linkages { AreLinkages syntax.now results.now names.now linkages.old }
    requires last { IsLinkOf names.now.chains.links.items last }
    ensures linkages { AreLinkages syntax.now results.now names.now linkages.new }
    ensures gives { IfOk result (λ v. (u : UnitSpec) (uses : List (ℕ × ℕ)) →
        let s = source_in syntax.now uses in
        let sense = sense_in (senses_made u results.now) in
        spec.all_together None (spec.types_of s sense v.items)
        ≡ spec.all_together None (spec.types_of s sense (listed names.now.chains.links.items last))) }
    ensures leaves { IfOk result (λ v. All (λ d. d.node < nodes_in syntax.now) v.items) }
    ensures memory { IsOkUnless result OutOfMemory }
{
    let links = names.chains.links.as_slice();
    if let Some(list) = thinned_now(alloc, syntax, results, &mut linkages.typing, links, last)? {
        return Ok(list);
    }
    match list_of(alloc, links, last) {
        Ok(list) => Ok(list),
        Err(_) => Err(CheckFault::OutOfMemory),
    }
}

/// Declarations that give together the type of a declared name behind its declaration (C11 6.2.7p4), its own last. Only memory may want.
/// The contract says what they give and that what is kept stays right, and nothing of how often a declaration is looked at: those before
/// its own are without those that give no more than those before them.
pub fn typing_list(
    alloc: Global,
    names: &Names,
    syntax: &Syntax,
    results: &Results,
    linkages: &mut Linkages,
    leaf: u32,
) -> Result<Vec<Declared>, CheckFault>
    requires names { AreNamed syntax.now results.now names.now }
    requires linkages { AreLinkages syntax.now results.now names.now linkages.old }
    ensures linkages { AreLinkages syntax.now results.now names.now linkages.new }
    ensures gives { IfOk result (λ v. (u : UnitSpec) (uses : List (ℕ × ℕ)) →
        let s = source_in syntax.now uses in
        let sense = sense_in (senses_made u results.now) in
        spec.all_together None (spec.types_of s sense v.items) ≡ spec.type_behind s sense leaf) }
    ensures leaves { IfOk result (λ v. All (λ d. d.node < nodes_in syntax.now) v.items) }
    ensures memory { IsOkUnless result OutOfMemory }
{
    let Some(place) = typing_link(&names.chains, leaf) else {
        return Ok(Vec::new(alloc));
    };
    let own = link_at(names, place);
    let mut list = typing_before(alloc, names, syntax, results, linkages, own.before)?;
    list.push(own.declared)?;
    Ok(list)
}

// Thins the list of a symbol's declarations with internal linkage that ends with a link, where it stays known whether that one has it.
fn thin_symbol(
    names: &Names,
    syntax: &Syntax,
    results: &Results,
    linkages: &mut Linkages,
    place: u32,
) -> Result<(), CheckFault>
    requires names { AreNamed syntax.now results.now names.now }
    requires linkages { AreLinkages syntax.now results.now names.now linkages.old }
    requires place { place < length names.now.symbols.items }
    ensures linkages { AreLinkages syntax.now results.now names.now linkages.new }
    ensures memory { IsOkUnless result OutOfMemory }
{
    let leaf = symbol_link(names, place).declared.node;
    let wanted = internal_asked(names, syntax, results, linkages, leaf);
    if !wanted.stays {
        return Ok(());
    }
    thin(
        syntax,
        results,
        &mut linkages.internal,
        names.symbols.as_slice(),
        place,
        wanted.flag,
    )
}

// Thins some lists of a symbol's declarations with internal linkage, by their last links, the last of these first, as far as those before
// them are known.
fn thin_symbols(
    names: &Names,
    syntax: &Syntax,
    results: &Results,
    linkages: &mut Linkages,
    places: &[u32],
) -> Result<(), CheckFault>
    requires names { AreNamed syntax.now results.now names.now }
    requires linkages { AreLinkages syntax.now results.now names.now linkages.old }
    requires places { All (λ place. place < length names.now.symbols.items) places.now }
    ensures linkages { AreLinkages syntax.now results.now names.now linkages.new }
    ensures memory { IsOkUnless result OutOfMemory }
{
    let count = places.len();
    for i in 0..count {
        thin_symbol(names, syntax, results, linkages, places[count - 1 - i])?;
    }
    Ok(())
}

// The link of a symbol's declarations before one of them, by its leaf.
fn symbol_before(names: &Names, syntax: &Syntax, leaf: u32) -> Option<u32>
    requires names { AreChained syntax.now names.now }
    ensures last { IsLinkOf names.now.symbols.items result }
    ensures list { (w : World) (uses : List (ℕ × ℕ)) (sense : ℕ → Sense) →
        let s = source_in syntax.now uses in
        those true s sense (listed names.now.symbols.items result) ≡ spec.internal_before w s sense leaf }
{
    match names.chains.positions.get(leaf) {
        Some(place) => symbol_link(names, place).before,
        None => None,
    }
}

// The declarations of a list of a symbol's that give their name internal linkage, without those that give it no more than those before
// them; None where they aren't known.
fn symbol_thinned(
    alloc: Global,
    names: &Names,
    syntax: &Syntax,
    results: &Results,
    linkages: &mut Linkages,
    last: Option<u32>,
) -> Result<Option<Vec<Declared>>, CheckFault>
    requires names { AreNamed syntax.now results.now names.now }
    requires linkages { AreLinkages syntax.now results.now names.now linkages.old }
    requires last { IsLinkOf names.now.symbols.items last }
    ensures linkages { AreLinkages syntax.now results.now names.now linkages.new }
    ensures thin { IfOk result (λ found. IfSome found (λ v.
        StaysThin syntax.now results.now true (listed names.now.symbols.items last) v.items)) }
    ensures leaves { IfOk result (λ found. IfSome found (λ v. All (λ d. d.node < nodes_in syntax.now) v.items)) }
    ensures memory { IsOkUnless result OutOfMemory }
{
    let links = names.symbols.as_slice();
    let places = unknown_in(alloc, &linkages.internal, links, last)?;
    thin_symbols(names, syntax, results, linkages, places.as_slice())?;
    thinned_list(alloc, syntax, &linkages.internal, last)
}

/// The declarations before one that give its name internal linkage, without those that give it no more than those before them; None
/// where they aren't known. Only memory may want. The contract says what the list gives and that what is kept stays right, and nothing
/// of how often a declaration is looked at.
pub fn internal_thinned(
    alloc: Global,
    names: &Names,
    syntax: &Syntax,
    results: &Results,
    linkages: &mut Linkages,
    leaf: u32,
) -> Result<Option<Vec<Declared>>, CheckFault>
    requires names { AreNamed syntax.now results.now names.now }
    requires linkages { AreLinkages syntax.now results.now names.now linkages.old }
    ensures linkages { AreLinkages syntax.now results.now names.now linkages.new }
    ensures thin { IfOk result (λ found. IfSome found (λ v. (u : UnitSpec) (w : World) (uses : List (ℕ × ℕ)) →
        let s = source_in syntax.now uses in
        let sense = sense_in (senses_made u results.now) in
        IsThin s sense (spec.internal_before w s sense leaf) v.items)) }
    ensures leaves { IfOk result (λ found. IfSome found (λ v. All (λ d. d.node < nodes_in syntax.now) v.items)) }
    ensures memory { IsOkUnless result OutOfMemory }
{
    let last = symbol_before(names, syntax, leaf);
    symbol_thinned(alloc, names, syntax, results, linkages, last)
}

// The leaf of the first of some declarations, or else another one.
fn first_or(list: &[Declared], leaf: u32) -> u32
    ensures { (s : Source) (sense : ℕ → Sense) → result ≡ spec.first_of s sense leaf list.now }
{
    if list.is_empty() {
        return leaf;
    }
    list[0].node
}

/// An entity, by a leaf, and whether it stays that whatever more is made.
#[derive(Clone, Copy)]
pub(crate) struct KeptEntity {
    pub(crate) leaf: u32,
    pub(crate) stays: bool,
}

/// The entity of the object or function that a leaf declares, by a leaf: the first declaration of an internal name in the unit, and of
/// any other name its own (C11 6.2.2p2); and whether it stays that. Only memory may want. The contract says which leaf it is and that
/// what is kept stays right, and nothing of how often a declaration is looked at.
pub(crate) fn entity_kept(
    alloc: Global,
    names: &Names,
    syntax: &Syntax,
    results: &Results,
    linkages: &mut Linkages,
    leaf: u32,
) -> Result<KeptEntity, CheckFault>
    requires names { AreNamed syntax.now results.now names.now }
    requires linkages { AreLinkages syntax.now results.now names.now linkages.old }
    requires leaf { leaf < length syntax.now.tree.now.nodes.items }
    ensures linkages { AreLinkages syntax.now results.now names.now linkages.new }
    ensures entity { IfOk result (λ entity. (u : UnitSpec) (uses : List (ℕ × ℕ)) →
        entity.leaf ≡ spec.entity_of (source_in syntax.now uses) (sense_in (senses_made u results.now)) leaf) }
    ensures stays { IfOk result (λ entity. entity.stays ≡ true → StaysEntity syntax.now results.now leaf entity.leaf) }
    ensures memory { IsOkUnless result OutOfMemory }
{
    let asked = internal_asked(names, syntax, results, linkages, leaf);
    let stays = asked.stays;
    if !asked.flag {
        return Ok(KeptEntity { leaf, stays });
    }
    let Some(place) = names.chains.positions.get(leaf) else {
        return Ok(KeptEntity { leaf, stays: false });
    };
    match symbol_thinned(alloc, names, syntax, results, linkages, Some(place))? {
        Some(list) => Ok(KeptEntity {
            leaf: first_or(list.as_slice(), leaf),
            stays,
        }),
        None => Ok(KeptEntity {
            leaf: entity_of(names, syntax, results, leaf),
            stays: false,
        }),
    }
}
