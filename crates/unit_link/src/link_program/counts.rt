//! How many nodes and entities each unit has.

ghost use Rattle.std.specs.Prelude.{◌≡◌, ◌<◌, ◌^◌, All, IfOk, length, map};

use core_tree::Unit;
use pta_base::OutOfMemory;
use std::alloc::Global;

/// How many entities each unit has.
pub fn entity_counts(alloc: Global, units: &[Unit]) -> Result<Vec<u32>, OutOfMemory>
    ensures counts { IfOk result (λ list. list.items ≡ map (λ x. length x.entities.items) units.now) }
    ensures small { IfOk result (λ _. All (λ x. length x.entities.items < 2 ^ 32) units.now) }
{
    let mut list = Vec::new(alloc);
    for unit in units {
        let count = unit.entities.len();
        if count > u32::MAX as usize {
            return Err(OutOfMemory);
        }
        list.push(count as u32)?;
    }
    Ok(list)
}

/// How many nodes each unit has.
pub fn node_counts(alloc: Global, units: &[Unit]) -> Result<Vec<u32>, OutOfMemory>
    ensures counts { IfOk result (λ list. list.items ≡ map (λ x. length x.nodes.items) units.now) }
    ensures small { IfOk result (λ _. All (λ x. length x.nodes.items < 2 ^ 32) units.now) }
{
    let mut list = Vec::new(alloc);
    for unit in units {
        let count = unit.nodes.len();
        if count > u32::MAX as usize {
            return Err(OutOfMemory);
        }
        list.push(count as u32)?;
    }
    Ok(list)
}
