// The declarations by which internal names are known (C11 6.2.2p2).
ghost use Rattle.std.specs.Prelude.{◌≡◌, ◌<◌, ◌==◌, ℕ, List, length, true, Some, IfOk, IsOkUnless, if◌then◌else◌};
ghost use Rattle.core_tree.specs.declared.node.Unit.{Unit as UnitSpec};
ghost use Rattle.core_nodes.specs.declared.fault.CheckFault.TheVariants.{OutOfMemory};
ghost use Rattle.c_results.specs.declared.made.Made.{Made as MadeSpec};
ghost use Rattle.c_results.specs.Standing.{senses_made};
ghost use Rattle.c_senses.specs.Sense.{sense_in};
ghost use Rattle.c_senses.specs.Entities as spec;
ghost use Rattle.name_chains.specs.symbol_lists.Symbols.{kept_at};
ghost use Rattle.tree_reads.specs.declared.syntax.Syntax.{Syntax as SyntaxSpec};
ghost use Rattle.tree_reads.specs.Sources.{source_in};
ghost use Rattle.c_meanings.specs.Known.{AreNamed};
ghost use Rattle.unit_names.specs.Firsts.{AreFirsts};

use c_meanings::{Names, declared_at, entity_of};
use c_results::Results;
use core_nodes::CheckFault;
use std::alloc::Global;
use std::collections::BTreeMap;
use tree_reads::Syntax;

/// The leaves by which internal names are known, by their symbols.
pub(crate) type Firsts = BTreeMap<u32, u32>;

/// None are known.
pub(crate) fn no_firsts(alloc: Global) -> Firsts
    ensures { (syntax : SyntaxSpec) (results : List MadeSpec) → AreFirsts syntax results result }
{
    BTreeMap::new(alloc)
}

// The leaf that is kept for a symbol.
fn kept_first(firsts: &Firsts, symbol: u32) -> Option<u32>
    ensures { result ≡ kept_at firsts.now symbol }
{
    firsts.get(&symbol).copied()
}

// Keeps the leaf of a symbol.
fn keep_first(firsts: &mut Firsts, symbol: u32, leaf: u32) -> Result<(), CheckFault>
    ensures kept { IfOk result (λ done. (other : ℕ) →
        kept_at firsts.new other ≡ (if symbol == other then Some leaf else kept_at firsts.old other)) }
    ensures memory { IsOkUnless result OutOfMemory }
{
    match firsts.insert(symbol, leaf) {
        Ok(_) => Ok(()),
        Err(_) => Err(CheckFault::OutOfMemory),
    }
}

/// The leaf by which an internal name is known: the first of its declarations with internal linkage. It is looked for once for each symbol,
/// and kept. Only memory may want.
pub(crate) fn first_of(
    names: &Names,
    syntax: &Syntax,
    results: &Results,
    firsts: &mut Firsts,
    leaf: u32,
) -> Result<u32, CheckFault>
    requires names { AreNamed syntax.now results.now names.now }
    requires firsts { AreFirsts syntax.now results.now firsts.old }
    requires leaf { leaf < length syntax.now.tree.now.nodes.items }
    requires internal { (u : UnitSpec) (uses : List (ℕ × ℕ)) →
        spec.is_internal (source_in syntax.now uses) (sense_in (senses_made u results.now)) leaf ≡ true }
    ensures firsts { IfOk result (λ first. AreFirsts syntax.now results.now firsts.new) }
    ensures first { IfOk result (λ first. (u : UnitSpec) (uses : List (ℕ × ℕ)) →
        first ≡ spec.entity_of (source_in syntax.now uses) (sense_in (senses_made u results.now)) leaf) }
    ensures memory { IsOkUnless result OutOfMemory }
{
    let Some(declared) = declared_at(names, syntax, leaf) else {
        return Ok(entity_of(names, syntax, results, leaf));
    };
    if let Some(first) = kept_first(firsts, declared.symbol) {
        return Ok(first);
    }
    let first = entity_of(names, syntax, results, leaf);
    keep_first(firsts, declared.symbol, first)?;
    Ok(first)
}
