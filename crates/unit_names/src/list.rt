// What the names of a unit declare (C11 6.7, 6.9).
ghost use Rattle.std.specs.Prelude.{◌≡◌, ◌<◌, ◌++◌, ℕ, List, All, length, IfOk, OnOk, IsOkUnless};
ghost use Rattle.std.specs.Option.{option_to_list};
ghost use Rattle.core_tree.specs.declared.node.Unit.{Unit as UnitSpec};
ghost use Rattle.core_nodes.specs.Standing.{IsReady, Builds};
ghost use Rattle.c_results.specs.Standing.{senses_made, IsWithin};
ghost use Rattle.tree_reads.specs.Sources.{source_read, source_in};
ghost use Rattle.name_places.specs.Named.{IsNamedIn};
ghost use Rattle.name_chains.specs.symbol_lists.Lists.{AreOf};
ghost use Rattle.c_meanings.specs.Known.{AreNamed};
ghost use Rattle.unit_finish.specs.unit_parts.Entities.{bodies_of};
ghost use Rattle.unit_finish.specs.Walked.{AreNames};

use crate::declared::{Asked, declared_at, may_declare};
use c_meanings::Names;
use c_mentions::settings::place_of;
use c_results::Results;
use core_nodes::CheckFault;
use core_tree::node::Unit;
use name_chains::symbol_lists::SymbolLists;
use std::alloc::Global;
use tree_reads::Syntax;
use unit_finish::unit_parts::Declared;

// Adds what is declared, if something is.
fn add_some(list: &mut Vec<Declared>, found: Option<Declared>) -> Result<(), CheckFault>
    ensures added { OnOk result (list.new.items ≡ list.old.items ++ option_to_list found) }
    ensures memory { IsOkUnless result CheckFault.OutOfMemory }
{
    let Some(declared) = found else {
        return Ok(());
    };
    list.push(declared)?;
    Ok(())
}

/// What the names of a unit declare, by all leaves in order: for each that declares an object or a function what it declares, and nothing
/// else (C11 6.7, 6.9). The types that are asked for may be added to the unit; each body is one of its nodes. Only memory may want; a name
/// that is no text, or 2^32 nodes of the syntax tree, count as that too.
pub fn declared_names(
    alloc: Global,
    unit: &mut Unit,
    names: &Names,
    lists: &SymbolLists,
    syntax: &Syntax,
    results: &Results,
) -> Result<Vec<Declared>, CheckFault>
    requires ready { IsReady unit.old }
    requires results { All (IsWithin unit.old) results.now }
    requires named { All (IsNamedIn (length syntax.now.tree.now.nodes.items)) results.now }
    requires names { AreNamed syntax.now results.now names.now }
    requires lists { AreOf (source_read syntax.now).declared.ordinary lists.now }
    ensures ready { IsReady unit.new }
    ensures builds { Builds unit.old unit.new }
    ensures names { IfOk result (λ list. (uses : List (ℕ × ℕ)) →
        AreNames (source_in syntax.now uses) (senses_made unit.old results.now) unit.new list.items) }
    ensures bodies { IfOk result (λ list. All (λ b. b < length unit.new.nodes.items) (bodies_of list.items)) }
    ensures memory { IsOkUnless result CheckFault.OutOfMemory }
{
    let Ok(count) = place_of(syntax.tree.nodes.len()) else {
        return Err(CheckFault::OutOfMemory);
    };
    let mut asked = Asked::new(alloc, names)?;
    let mut list = Vec::new(alloc);
    for leaf in 0..count {
        if !may_declare(names, syntax, results, leaf) {
            continue;
        }
        let found = declared_at(alloc, unit, names, lists, syntax, results, &mut asked, leaf)?;
        add_some(&mut list, found)?;
    }
    Ok(list)
}
