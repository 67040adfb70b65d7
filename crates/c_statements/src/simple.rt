// Null statements (C11 6.8.3).
ghost use Rattle.std.specs.Prelude.{◌≡◌, ◌<◌, ℕ, List, length, IfOk, All};
ghost use Rattle.core_tree.specs.declared.node.NodeKind.TheVariants.{Skip};
ghost use Rattle.c_consts.specs.Core.{NoCores};
ghost use Rattle.c_senses.specs.Given.{Fits};
ghost use Rattle.c_senses.specs.Tree.{Source, place_at};
ghost use Rattle.c_senses.specs.Places.{own_place};
ghost use Rattle.c_senses.specs.World.{World};
ghost use Rattle.c_senses.specs.Sense.{sense_in};
ghost use Rattle.c_senses.specs.Statements as spec;
ghost use Rattle.core_nodes.specs.Standing.{IsReady, Builds, Made as CoreMade, Knows};
ghost use Rattle.c_results.specs.Standing.{senses_made, IsWithin};
ghost use Rattle.tree_reads.specs.Sources.{source_in};

use crate::parts::{value_of, void_type};
use c_results::Results;
use core_nodes::CheckFault;
use core_nodes::trees::{push_leaf, push_over};
use core_tree::node::{NodeKind, Unit};
use pta_base::Place;
use std::alloc::Global;
use tree_reads::{Syntax, place_of};

/// The row of a null statement (C11 6.8.3p3), at its semicolon. Only memory may want.
pub fn skip_row(alloc: Global, unit: &mut Unit, syntax: &Syntax, at: u32) -> Result<u32, CheckFault>
    requires ready { IsReady unit.old }
    ensures ready { IsReady unit.new }
    ensures builds { Builds unit.old unit.new }
    ensures within { IfOk result (λ i. i < length unit.new.nodes.items) }
    ensures made { (uses : List (ℕ × ℕ)) →
        CoreMade unit.new result (Fits (spec.statement Skip (place_at (source_in syntax.now uses) at) NoCores)) }
{
    let ty = match void_type(unit) {
        Ok(ty) => ty,
        Err(_) => return Err(CheckFault::OutOfMemory),
    };
    push_leaf(alloc, unit, NodeKind::Skip, place_of(syntax, at), ty)
}

/// The row of an expression statement over its expression (C11 6.8.3p2), at `place`, which is to be that of the expression's
/// own token. An expression that has no value is `operand` at `at`.
pub fn expression_row(
    alloc: Global,
    unit: &mut Unit,
    results: &Results,
    at: u32,
    part: u32,
    place: Place,
) -> Result<u32, CheckFault>
    requires ready { IsReady unit.old }
    requires results { All (IsWithin unit.old) results.now }
    ensures ready { IsReady unit.new }
    ensures builds { Builds unit.old unit.new }
    ensures within { IfOk result (λ i. i < length unit.new.nodes.items) }
    ensures made { (w : World) (s : Source) →
        Knows w unit.old →
        place ≡ own_place s part →
        let sense = sense_in (senses_made unit.old results.now) in
        CoreMade unit.new result (spec.expression_statement w s sense at part) }
{
    let value = match value_of(alloc, unit, results, at, part) {
        Ok(node) => node,
        Err(fault) => return Err(fault),
    };
    let ty = match void_type(unit) {
        Ok(ty) => ty,
        Err(_) => return Err(CheckFault::OutOfMemory),
    };
    push_over(alloc, unit, NodeKind::Expression, place, ty, value)
}
