// The declarations of an internal name (C11 6.2.2p2 to p5).
ghost use Rattle.std.specs.Prelude.{◌≡◌, ◌<◌, ◌++◌, ℕ, List, All, length, IfOk, OnOk, IsOkUnless};
ghost use Rattle.core_tree.specs.declared.node.Unit.{Unit as UnitSpec};
ghost use Rattle.c_senses.specs.Sense.{sense_in};
ghost use Rattle.c_senses.specs.Right as right;
ghost use Rattle.c_results.specs.Standing.{senses_made};
ghost use Rattle.tree_reads.specs.Sources.{source_read, source_in};
ghost use Rattle.name_chains.specs.symbol_lists.Lists.{AreOf};
ghost use Rattle.c_meanings.specs.Known.{AreNamed};
ghost use Rattle.c_named.specs.Lists.{leaves_of};
ghost use Rattle.unit_names.specs.Internal.{leaf_if, internal_of};

use c_meanings::{Names, declared_at, is_internal_after, nothing_seen};
use c_results::Results;
use core_nodes::CheckFault;
use name_chains::symbol_lists::SymbolLists;
use std::alloc::Global;
use tree_reads::Syntax;

// Adds a leaf that is wanted.
fn add_if(list: &mut Vec<u32>, wanted: bool, leaf: u32) -> Result<(), CheckFault>
    ensures added { OnOk result (list.new.items ≡ list.old.items ++ leaf_if wanted leaf) }
    ensures memory { IsOkUnless result CheckFault.OutOfMemory }
{
    if !wanted {
        return Ok(());
    }
    list.push(leaf)?;
    Ok(())
}

// The leaves of the declarations of a symbol that give it internal linkage, in order.
fn of_symbol(
    alloc: Global,
    names: &Names,
    lists: &SymbolLists,
    syntax: &Syntax,
    results: &Results,
    symbol: u32,
) -> Result<Vec<u32>, CheckFault>
    requires names { AreNamed syntax.now results.now names.now }
    requires lists { AreOf (source_read syntax.now).declared.ordinary lists.now }
    ensures leaves { (u : UnitSpec) (uses : List (ℕ × ℕ)) →
        IfOk result (λ list. list.items ≡ internal_of (source_in syntax.now uses) (sense_in (senses_made u results.now)) symbol) }
    ensures within { IfOk result (λ list. All (λ leaf. leaf < length syntax.now.tree.now.nodes.items) list.items) }
    ensures memory { IsOkUnless result CheckFault.OutOfMemory }
{
    let mut list = Vec::new(alloc);
    let mut seen = nothing_seen();
    for place in 0..lists.count(symbol) {
        let Some(leaf) = lists.get(symbol, place) else {
            return Ok(list);
        };
        let wanted = is_internal_after(names, syntax, results, &mut seen, leaf);
        add_if(&mut list, wanted, leaf)?;
    }
    Ok(list)
}

/// The leaves of all declarations of the name that a leaf declares which give it internal linkage, in order. It looks at each
/// declaration of its symbol once. Only memory may want.
pub(crate) fn of_internal(
    alloc: Global,
    names: &Names,
    lists: &SymbolLists,
    syntax: &Syntax,
    results: &Results,
    leaf: u32,
) -> Result<Vec<u32>, CheckFault>
    requires names { AreNamed syntax.now results.now names.now }
    requires lists { AreOf (source_read syntax.now).declared.ordinary lists.now }
    ensures leaves { (u : UnitSpec) (uses : List (ℕ × ℕ)) →
        IfOk result (λ list. list.items ≡ leaves_of (right.of_internal (source_in syntax.now uses) (senses_made u results.now) leaf)) }
    ensures within { IfOk result (λ list. All (λ other. other < length syntax.now.tree.now.nodes.items) list.items) }
    ensures memory { IsOkUnless result CheckFault.OutOfMemory }
{
    match declared_at(names, syntax, leaf) {
        Some(declared) => of_symbol(alloc, names, lists, syntax, results, declared.symbol),
        None => Ok(Vec::new(alloc)),
    }
}
