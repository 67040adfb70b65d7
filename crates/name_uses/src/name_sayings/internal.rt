// The declarations of a name that give it internal linkage (C11 6.2.2p3 to p5).
ghost use Rattle.std.specs.Prelude.{◌≡◌, ◌<◌, ◌++◌, ℕ, true, List, All, length, IfOk, OnOk, IsOkUnless};
ghost use Rattle.core_tree.specs.declared.node.Unit.{Unit as UnitSpec};
ghost use Rattle.c_senses.specs.World.{World};
ghost use Rattle.c_senses.specs.Sense.{sense_in};
ghost use Rattle.c_senses.specs.Entities as spec;
ghost use Rattle.c_results.specs.Standing.{senses_made};
ghost use Rattle.tree_reads.specs.Sources.{source_in};
ghost use Rattle.c_meanings.specs.Known.{AreNamed};
ghost use Rattle.c_meanings.specs.Linkages.{AreLinkages};
ghost use Rattle.c_named.specs.Lists.{leaves_of};
ghost use Rattle.name_uses.specs.name_sayings.Listed.{AreListed, GiveInternal, leaf_if, internal_of};

use crate::name_sayings::leaves::leaves_of;
use c_meanings::{Linkages, Names, declared_at, internal_thinned, is_internal_after, nothing_seen};
use c_results::Results;
use core_nodes::CheckFault;
use name_chains::symbol_lists::SymbolLists;
use std::alloc::Global;
use tree_reads::Syntax;

// Adds a leaf that is wanted.
fn add_if(list: &mut Vec<u32>, wanted: bool, leaf: u32) -> Result<(), CheckFault>
    ensures added { OnOk result (list.new.items ≡ list.old.items ++ leaf_if wanted leaf) }
    ensures memory { IsOkUnless result CheckFault.OutOfMemory }
{
    if wanted {
        list.push(leaf)?;
    }
    Ok(())
}

// The leaves of the declarations of a symbol before one that give it internal linkage, in order. More than there are numbers count as
// want of memory.
fn internal_of(
    alloc: Global,
    names: &Names,
    lists: &SymbolLists,
    syntax: &Syntax,
    results: &Results,
    symbol: u32,
    leaf: u32,
) -> Result<Vec<u32>, CheckFault>
    requires names { AreNamed syntax.now results.now names.now }
    requires lists { AreListed syntax.now lists.now }
    ensures leaves { IfOk result (λ list. (u : UnitSpec) (uses : List (ℕ × ℕ)) →
        list.items ≡ internal_of (source_in syntax.now uses) (sense_in (senses_made u results.now)) symbol leaf) }
    ensures within { IfOk result (λ list. All (λ other. other < length syntax.now.tree.now.nodes.items) list.items) }
    ensures memory { IsOkUnless result CheckFault.OutOfMemory }
{
    let mut list = Vec::new(alloc);
    let mut seen = nothing_seen();
    for place in 0..u32::MAX {
        let Some(other) = lists.get(symbol, place) else {
            return Ok(list);
        };
        if other == leaf {
            return Ok(list);
        }
        let wanted = is_internal_after(names, syntax, results, &mut seen, other);
        add_if(&mut list, wanted, other)?;
    }
    Err(CheckFault::OutOfMemory)
}

// The leaves of all declarations before one of a name that give it internal linkage, in order. It takes as long as there are declarations
// of the symbol before it.
fn all_before(
    alloc: Global,
    names: &Names,
    lists: &SymbolLists,
    syntax: &Syntax,
    results: &Results,
    leaf: u32,
) -> Result<Vec<u32>, CheckFault>
    requires names { AreNamed syntax.now results.now names.now }
    requires lists { AreListed syntax.now lists.now }
    ensures leaves { IfOk result (λ list. (u : UnitSpec) (w : World) (uses : List (ℕ × ℕ)) →
        list.items ≡ leaves_of (spec.internal_before w (source_in syntax.now uses) (sense_in (senses_made u results.now)) leaf)) }
    ensures within { IfOk result (λ list. All (λ other. other < length syntax.now.tree.now.nodes.items) list.items) }
    ensures memory { IsOkUnless result CheckFault.OutOfMemory }
{
    match declared_at(names, syntax, leaf) {
        Some(declared) => internal_of(alloc, names, lists, syntax, results, declared.symbol, leaf),
        None => Ok(Vec::new(alloc)),
    }
}

/// The leaves of declarations before one of a name that give it internal linkage, in order, where it has that itself: they give what all
/// these give. None are asked for otherwise.
pub(in crate::name_sayings) fn internal_before(
    alloc: Global,
    names: &Names,
    lists: &SymbolLists,
    syntax: &Syntax,
    results: &Results,
    linkages: &mut Linkages,
    internal: bool,
    leaf: u32,
) -> Result<Vec<u32>, CheckFault>
    requires names { AreNamed syntax.now results.now names.now }
    requires lists { AreListed syntax.now lists.now }
    requires linkages { AreLinkages syntax.now results.now names.now linkages.old }
    ensures linkages { AreLinkages syntax.now results.now names.now linkages.new }
    ensures gives { IfOk result (λ list. (u : UnitSpec) (w : World) (uses : List (ℕ × ℕ)) →
        internal ≡ true → GiveInternal w (source_in syntax.now uses) (sense_in (senses_made u results.now)) leaf list.items) }
    ensures within { IfOk result (λ list. All (λ other. other < length syntax.now.tree.now.nodes.items) list.items) }
    ensures memory { IsOkUnless result CheckFault.OutOfMemory }
{
    if !internal {
        return Ok(Vec::new(alloc));
    }
    match internal_thinned(alloc, names, syntax, results, linkages, leaf)? {
        Some(list) => leaves_of(alloc, list.as_slice()),
        None => all_before(alloc, names, lists, syntax, results, leaf),
    }
}
