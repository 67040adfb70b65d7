// Rows of declarators.
ghost use Rattle.std.specs.Prelude.{◌≡◌, ◌<◌, ℕ, List, All, length, IfOk, IsOkUnless};
ghost use Rattle.core_tree.specs.declared.node.Unit.{Unit as UnitSpec};
ghost use Rattle.c_senses.specs.Tree.{children_at};
ghost use Rattle.c_senses.specs.World.{World};
ghost use Rattle.c_senses.specs.Sense.{sense_in};
ghost use Rattle.c_senses.specs.Rows.{declarator_row};
ghost use Rattle.core_nodes.specs.Standing.{IsReady, Builds, Knows};
ghost use Rattle.c_declarators.specs.Limited.{AreLimited};
ghost use Rattle.c_meanings.specs.Known.{AreNamed};
ghost use Rattle.c_meanings.specs.Linkages.{AreLinkages};
ghost use Rattle.c_named.specs.Said.{IsSaidIn, AreSaid};
ghost use Rattle.c_results.specs.Standing.{senses_made, IsWithin, Rowed};
ghost use Rattle.name_places.specs.Named.{IsNamedIn};
ghost use Rattle.name_uses.specs.name_sayings.Listed.{AreListed};
ghost use Rattle.tree_reads.specs.Sources.{source_in};
ghost use Rattle.unit_worlds.specs.unit_limits.Unions.{AreUnions};
ghost use Rattle.unit_walk.specs.unit_rows.Standing.{IsKnown, Stand, source_known, nodes_known};

use crate::unit_rows::initials::nothing_said;
use crate::unit_rows::known::Known;
use c_meanings::{Linkages, Names};
use c_named::{Around, Said, declarator_row};
use c_results::{Made, Results};
use core_nodes::CheckFault;
use core_tree::node::Unit;
use name_chains::symbol_lists::SymbolLists;
use name_places::name_in;
use name_uses::name_sayings::{completed_flags, said_of};
use std::alloc::Global;
use tree_reads::{Syntax, children_of};

// What is said of the name of a declarator with those children, if it has one.
fn said_in(
    alloc: Global,
    syntax: &Syntax,
    names: &Names,
    lists: &SymbolLists,
    results: &Results,
    linkages: &mut Linkages,
    children: &[u32],
) -> Result<Said, CheckFault>
    requires named { All (IsNamedIn (length syntax.now.tree.now.nodes.items)) results.now }
    requires names { AreNamed syntax.now results.now names.now }
    requires lists { AreListed syntax.now lists.now }
    requires linkages { AreLinkages syntax.now results.now names.now linkages.old }
    ensures linkages { AreLinkages syntax.now results.now names.now linkages.new }
    ensures said { IfOk result (λ said. (u : UnitSpec) (w : World) (uses : List (ℕ × ℕ)) →
        AreSaid w (source_in syntax.now uses) (sense_in (senses_made u results.now)) children.now said) }
    ensures within { IfOk result (IsSaidIn (length syntax.now.tree.now.nodes.items)) }
    ensures memory { IsOkUnless result CheckFault.OutOfMemory }
{
    match name_in(syntax, results, children) {
        Some(leaf) => said_of(alloc, names, lists, syntax, results, linkages, false, leaf),
        None => Ok(nothing_said(alloc)),
    }
}

/// The row of a declarator (C11 6.7.6), with what its declaration may say of the name that it declares (6.2.2p7, 6.7, 6.9.1), where the
/// types made so far are within the limits. `linkages` is what is kept of the names before it; `unions` are the tags that have a structure
/// that ends in an array without a length.
pub(in crate::unit_rows) fn declared_name(
    alloc: Global,
    unit: &mut Unit,
    known: &Known,
    results: &Results,
    linkages: &mut Linkages,
    unions: &[bool],
    at: u32,
) -> Result<Made, CheckFault>
    requires known { IsKnown known.now }
    requires stand { Stand (nodes_known known.now) unit.old results.now }
    requires linkages { AreLinkages known.now.numbered.now.syntax results.now known.now.names.now linkages.old }
    requires unions { AreUnions unit.old.types unions.now }
    requires at { at < nodes_known known.now }
    ensures linkages { AreLinkages known.now.numbered.now.syntax results.now known.now.names.now linkages.new }
    ensures ready { IsReady unit.new }
    ensures builds { Builds unit.old unit.new }
    ensures within { IfOk result (IsWithin unit.new) }
    ensures named { (w : World) →
        Knows w unit.old →
        AreLimited w (senses_made unit.old results.now) → IfOk result (IsNamedIn (nodes_known known.now)) }
    ensures row { (w : World) →
        Knows w unit.old →
        AreLimited w (senses_made unit.old results.now) →
        let s = source_known known.now in
        let sense = sense_in (senses_made unit.old results.now) in
        Rowed unit.new result (declarator_row w s sense at (children_at s at)) }
{
    // (What every table keeps is told by its count.)
    let _count = unit.types.type_count();
    let syntax = &known.numbered.syntax;
    let children = children_of(syntax, at);
    let said = match said_in(
        alloc,
        syntax,
        known.names,
        known.lists,
        results,
        linkages,
        children,
    ) {
        Ok(said) => said,
        Err(fault) => return Err(fault),
    };
    let around = Around {
        unions,
        completed: completed_flags(&known.numbered.tags),
        said: &said,
    };
    declarator_row(alloc, unit, syntax, results, &around, at, children)
}
