// A unit out of nodes and of what is declared.
#![tactic(auto)]

ghost use Rattle.std.specs.Prelude.{◌≡◌, MatchResult};
ghost use Rattle.core_nodes.specs.declared.fault.CheckFault.TheVariants.{OutOfMemory};
ghost use Rattle.unit_finish.specs.Complete.{MakesUnits, IsUnitOf};

use crate::unit_parts::{Declared, entities_of, numbering, rename_all};
use c_types::table::TypeTable;
use core_nodes::CheckFault;
use core_tree::node::{Node, Unit};
use pta_base::Text;
use std::alloc::Global;

/// The name and the number of a unit.
#[derive(Drop)]
pub struct Heading {
    pub name: Text,
    pub unit: u32,
}

/// The unit of some nodes, which name entities by their leaves, and of what is declared there: each entity has its position in the list as
/// its number, and the least place of its uses. It is asked that each entity that is named is declared, once, and that whatever unit is
/// made of them is valid, each Initialise there being its entity's body; none of this is tested. Only memory may want.
pub fn complete(
    alloc: Global,
    heading: Heading,
    types: TypeTable,
    keys: Vec<Option<Text>>,
    nodes: Vec<Node>,
    list: Vec<Declared>,
) -> Result<Unit, CheckFault>
    requires { MakesUnits heading.name heading.unit types keys.items nodes.items list.items }
    ensures { MatchResult result
        (λ u. IsUnitOf heading.name heading.unit types keys.items nodes.items list.items u)
        (λ fault. fault ≡ OutOfMemory) }
{
    if list.len() > u32::MAX as usize {
        return Err(CheckFault::OutOfMemory);
    }
    let numbers = numbering(alloc, list.as_slice())?;
    let nodes = rename_all(alloc, &numbers, nodes)?;
    let entities = entities_of(alloc, heading.unit, &numbers, nodes.as_slice(), list)?;
    Ok(Unit {
        name: heading.name,
        types,
        tags: keys,
        nodes,
        entities,
    })
}
