// Rows of initialisers.
ghost use Rattle.std.specs.Prelude.{◌≡◌, ◌<◌, ℕ, Some, IfOk, IsOkUnless, All, true};
ghost use Rattle.core_tree.specs.declared.node.Unit.{Unit as UnitSpec};
ghost use Rattle.c_senses.specs.Tree.{production_at, children_at};
ghost use Rattle.c_senses.specs.World.{World};
ghost use Rattle.c_senses.specs.Sense.{sense_in};
ghost use Rattle.c_senses.specs.Rows.{declaring_row};
ghost use Rattle.core_nodes.specs.Standing.{IsReady, Builds, Knows};
ghost use Rattle.c_results.specs.Standing.{sense_made, senses_made, IsWithin, Rowed};
ghost use Rattle.c_declarators.specs.Limited.{AreLimited};
ghost use Rattle.c_initials.specs.Filling.{Fills};
ghost use Rattle.c_meanings.specs.Linkages.{AreLinkages};
ghost use Rattle.c_named.specs.Said.{IsSaid, IsSaidIn};
ghost use Rattle.init_rows.specs.Around.{object_at};
ghost use Rattle.name_places.specs.Named.{IsNamedIn};
ghost use Rattle.statement_rows.specs.Kept.{HasAllRows};
ghost use Rattle.unit_walk.specs.unit_rows.Built.{is_initial};
ghost use Rattle.unit_walk.specs.unit_rows.Standing.{IsKnown, AreKept, source_known, nodes_known};

use crate::unit_rows::known::Known;
use c_initials::storage::Scope;
use c_meanings::Linkages;
use c_named::Said;
use c_results::{Made, Results};
use core_nodes::CheckFault;
use core_tree::node::Unit;
use init_rows::{initial, initialised_name};
use name_uses::name_sayings::said_of;
use std::alloc::Global;

/// What is said of nothing.
pub(in crate::unit_rows) fn nothing_said(alloc: Global) -> Said
    ensures within { (count : ℕ) → IsSaidIn count result }
    ensures typed { result.is_typed ≡ true }
{
    Said {
        is_typedef: false,
        is_linked: false,
        is_function: false,
        is_internal: false,
        one_linkage: true,
        in_scope: Vec::new(alloc),
        internal_before: Vec::new(alloc),
        is_typed: true,
        typing: Vec::new(alloc),
    }
}

// What is said of the name of the object whose whole initialiser a node is, if it is one.
fn said_at(
    alloc: Global,
    known: &Known,
    results: &Results,
    linkages: &mut Linkages,
    at: u32,
) -> Result<Said, CheckFault>
    requires known { IsKnown known.now }
    requires linkages { AreLinkages known.now.numbered.now.syntax results.now known.now.names.now linkages.old }
    requires named { All (IsNamedIn (nodes_known known.now)) results.now }
    requires at { at < nodes_known known.now }
    ensures linkages { AreLinkages known.now.numbered.now.syntax results.now known.now.names.now linkages.new }
    ensures said { IfOk result (λ said. (u : UnitSpec) (w : World) (leaf : ℕ) →
        let s = source_known known.now in
        let sense = sense_in (senses_made u results.now) in
        object_at s sense at ≡ Some leaf → IsSaid w s sense leaf said) }
    ensures within { IfOk result (IsSaidIn (nodes_known known.now)) }
    ensures typed { IfOk result (λ said. said.is_typed ≡ true) }
    ensures memory { IsOkUnless result CheckFault.OutOfMemory }
{
    let syntax = &known.numbered.syntax;
    match initialised_name(syntax, results, at) {
        Some(leaf) => said_of(
            alloc,
            known.names,
            known.lists,
            syntax,
            results,
            linkages,
            true,
            leaf,
        ),
        None => Ok(nothing_said(alloc)),
    }
}

/// The row of an initialiser, of the list of a compound literal or of a designator (C11 6.5.2.5, 6.7.9), where the types made so far are
/// within the limits.
pub(in crate::unit_rows) fn initial_row(
    alloc: Global,
    unit: &mut Unit,
    known: &Known,
    results: &Results,
    linkages: &mut Linkages,
    at: u32,
) -> Result<Made, CheckFault>
    requires known { IsKnown known.now }
    requires linkages { AreLinkages known.now.numbered.now.syntax results.now known.now.names.now linkages.old }
    requires ready { IsReady unit.old }
    requires results { All (IsWithin unit.old) results.now }
    requires kept { AreKept (nodes_known known.now) unit.old results.now }
    requires at { at < nodes_known known.now }
    requires part { is_initial (production_at (source_known known.now) at) ≡ true }
    ensures linkages { AreLinkages known.now.numbered.now.syntax results.now known.now.names.now linkages.new }
    ensures ready { IsReady unit.new }
    ensures builds { Builds unit.old unit.new }
    ensures within { IfOk result (IsWithin unit.new) }
    ensures kept { IfOk result (λ m. HasAllRows (sense_made unit.new m)) }
    ensures row { (w : World) →
        Knows w unit.old →
        Fills w unit.old →
        AreLimited w (senses_made unit.old results.now) →
        let s = source_known known.now in
        let sense = sense_in (senses_made unit.old results.now) in
        Rowed unit.new result (declaring_row w s sense (production_at s at) at (children_at s at)) }
{
    let scope = Scope {
        syntax: &known.numbered.syntax,
        results,
        functions: known.kinds.functions.as_slice(),
    };
    let said = match said_at(alloc, known, results, linkages, at) {
        Ok(said) => said,
        Err(fault) => return Err(fault),
    };
    initial(alloc, unit, &scope, known.names, &said, at)
}
