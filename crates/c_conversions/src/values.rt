// The value of an expression, with its constants (C11 6.3.2.1).
#![tactic(auto, using(core_nodes::proofs::IntegerTypes::integers))]

ghost use Rattle.std.specs.Prelude.{◌<◌, length, IfOk};
ghost use Rattle.core_nodes.specs.passed.c_senses.World.{World};
ghost use Rattle.core_nodes.specs.passed.c_senses.Conversions.{value_of};
ghost use Rattle.core_nodes.specs.Standing.{core_at, IsReady, Builds, Made, Knows};
ghost use Rattle.c_conversions.specs.Constants.{HasRows};

use core_nodes::CheckFault;
use core_nodes::values::value as value_node;
use core_tree::node::Unit;
use std::alloc::Global;

/// The value of an expression, for the row of a syntax node. The nodes of its constants stand in their rows where those of the
/// expression do.
pub fn value(alloc: Global, unit: &mut Unit, at: u32, node: u32) -> Result<u32, CheckFault>
    requires ready { IsReady unit.old }
    requires node { node < length unit.old.nodes.items }
    requires rows { HasRows (core_at unit.old node) }
    ensures ready { IsReady unit.new }
    ensures builds { Builds unit.old unit.new }
    ensures within { IfOk result (λ i. i < length unit.new.nodes.items) }
    ensures rows { IfOk result (λ i. HasRows (core_at unit.new i)) }
    ensures made { (w : World) → Knows w unit.old → Made unit.new result (value_of w at (core_at unit.old node)) }
{
    value_node(alloc, unit, at, node)
}
