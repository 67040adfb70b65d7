// Parts whose constants stand in their rows.
ghost use Rattle.std.specs.Prelude.{◌≡◌, ◌<◌, length, IfOk, All};
ghost use Rattle.c_senses.specs.World.{World};
ghost use Rattle.c_senses.specs.Sense as spec;
ghost use Rattle.c_senses.specs.Sense.{sense_in, value_in};
ghost use Rattle.core_nodes.specs.Standing.{core_at, IsReady, Builds, Made as CoreMade, Knows};
ghost use Rattle.c_conversions.specs.Constants.{HasRows};
ghost use Rattle.c_results.specs.Standing.{senses_made, IsWithin};
ghost use Rattle.expression_rows.specs.whole_rows.Constants.{HaveRowsMade};

use crate::c_rows::parts::core_of;
use c_conversions::values::value;
use c_results::Results;
use core_nodes::CheckFault;
use core_tree::node::Unit;
use std::alloc::Global;

/// The core node of a part.
pub fn operand_of(unit: &Unit, results: &Results, at: u32, part: u32) -> Result<u32, CheckFault>
    requires within { All (IsWithin unit.now) results.now }
    requires rows { HaveRowsMade unit.now results.now }
    ensures made { CoreMade unit.now result (spec.core_of at (sense_in (senses_made unit.now results.now) part)) }
    ensures within { IfOk result (λ i. i < length unit.now.nodes.items) }
    ensures rows { IfOk result (λ i. HasRows (core_at unit.now i)) }
{
    core_of(unit, results, at, part)
}

/// The value of a part.
pub fn value_of(
    alloc: Global,
    unit: &mut Unit,
    results: &Results,
    at: u32,
    part: u32,
) -> Result<u32, CheckFault>
    requires ready { IsReady unit.old }
    requires within { All (IsWithin unit.old) results.now }
    requires rows { HaveRowsMade unit.old results.now }
    ensures ready { IsReady unit.new }
    ensures builds { Builds unit.old unit.new }
    ensures within { IfOk result (λ i. i < length unit.new.nodes.items) }
    ensures rows { IfOk result (λ i. HasRows (core_at unit.new i)) }
    ensures made { (w : World) →
        Knows w unit.old →
        CoreMade unit.new result (value_in w at (sense_in (senses_made unit.old results.now) part)) }
{
    match operand_of(unit, results, at, part) {
        Ok(node) => value(alloc, unit, at, node),
        Err(fault) => Err(fault),
    }
}
