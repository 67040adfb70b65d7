//! The parts of a row, and what is made of it.
ghost use Rattle.std.specs.Prelude.{◌≡◌, ◌<◌, ℕ, List, drop, length, IfOk, All};
ghost use Rattle.core_tree.specs.declared.node.Unit.{Unit as UnitSpec};
ghost use Rattle.c_consts.specs.Core.{Core};
ghost use Rattle.c_senses.specs.Given.{Given, Fits};
ghost use Rattle.c_senses.specs.World.{World};
ghost use Rattle.c_senses.specs.Sense as spec;
ghost use Rattle.c_senses.specs.Sense.{sense_in, value_in};
ghost use Rattle.c_senses.specs.Expressions.{as_sense};
ghost use Rattle.core_nodes.specs.Standing.{IsReady, Builds, Made as CoreMade, Knows};
ghost use Rattle.c_results.specs.Standing.{senses_made, IsWithin, Rowed};
ghost use Rattle.expression_rows.specs.c_rows.Parts.{TypeGiven};

use c_results::{Made, Results, copied_at, node_at, type_at};
use c_types::term::TypeId;
use core_nodes::CheckFault;
use core_nodes::values::value;
use core_tree::node::Unit;
use std::alloc::Global;

/// The core node of a part, for the row of a node.
pub fn core_of(unit: &Unit, results: &Results, at: u32, part: u32) -> Result<u32, CheckFault>
    requires { All (IsWithin unit.now) results.now }
    ensures made { CoreMade unit.now result (spec.core_of at (sense_in (senses_made unit.now results.now) part)) }
    ensures within { IfOk result (λ i. i < length unit.now.nodes.items) }
{
    match node_at(results, part) {
        Some(node) => Ok(node),
        None => Err(CheckFault::BadOperand(at)),
    }
}

/// The type that a part stands for, for the row of a node.
pub fn type_of(unit: &Unit, results: &Results, at: u32, part: u32) -> Result<TypeId, CheckFault>
    requires { All (IsWithin unit.now) results.now }
    ensures made { TypeGiven unit.now result (spec.type_of_sense at (sense_in (senses_made unit.now results.now) part)) }
    ensures within { IfOk result (λ t. t.0 < length unit.now.types.terms) }
{
    match type_at(results, part) {
        Some(ty) => Ok(ty),
        None => Err(CheckFault::BadOperand(at)),
    }
}

/// The value of a part.
pub fn value_of(
    alloc: Global,
    unit: &mut Unit,
    results: &Results,
    at: u32,
    part: u32,
) -> Result<u32, CheckFault>
    requires ready { IsReady unit.old }
    requires results { All (IsWithin unit.old) results.now }
    ensures ready { IsReady unit.new }
    ensures builds { Builds unit.old unit.new }
    ensures within { IfOk result (λ i. i < length unit.new.nodes.items) }
    ensures made { (w : World) →
        Knows w unit.old →
        CoreMade unit.new result (value_in w at (sense_in (senses_made unit.old results.now) part)) }
{
    match node_at(results, part) {
        Some(node) => value(alloc, unit, at, node),
        None => Err(CheckFault::BadOperand(at)),
    }
}

/// What a part stands for, once more.
pub fn passed_on(alloc: Global, results: &Results, part: u32) -> Result<Made, CheckFault>
    ensures row { (u : UnitSpec) → Rowed u result (Fits (sense_in (senses_made u results.now) part)) }
    ensures within { (u : UnitSpec) → All (IsWithin u) results.now → IfOk result (IsWithin u) }
{
    let copy = copied_at(alloc, results, part)?;
    Ok(copy)
}

/// What is made of a core node, as what a syntax node stands for.
pub fn sensed(made: Result<u32, CheckFault>) -> Result<Made, CheckFault>
    ensures row { (u : UnitSpec) (g : Given Core) → CoreMade u made g → Rowed u result (as_sense g) }
    ensures within { (u : UnitSpec) → IfOk made (λ k. k < length u.nodes.items) → IfOk result (IsWithin u) }
{
    match made {
        Ok(node) => Ok(Made::Node(node)),
        Err(fault) => Err(fault),
    }
}

/// What stands behind the first number of a list.
pub fn behind_first(children: &[u32]) -> &[u32]
    requires { 0 < length children.now }
    ensures { result.now ≡ drop 1 children.now }
{
    let (_, rest) = children.split_at(1);
    rest
}
