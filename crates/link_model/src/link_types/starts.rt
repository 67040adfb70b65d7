// Where the types and tags of each unit begin among those of all units.

ghost use Rattle.std.specs.Prelude.{◌≡◌, ◌+◌, IfOk, OnOk, List, ℕ, [], ◌∷◌, ◌++◌, length, map, sum};
ghost use Rattle.link_model.specs.link_types.Starts.{AreSums};

use core_tree::Unit;
use pta_base::OutOfMemory;
use std::alloc::Global;

/// The sums of the first so many numbers, for so many up to all of them.
pub fn starts(alloc: Global, counts: &[u32]) -> Result<Vec<u32>, OutOfMemory>
    ensures { IfOk result (λ list. AreSums counts.now list.items) }
{
    let mut list = Vec::new(alloc);
    let mut next = 0u32;
    list.push(next)?;
    for count in counts {
        next = next.checked_add(*count).ok_or(OutOfMemory)?;
        list.push(next)?;
    }
    Ok(list)
}

/// How many types each unit has.
pub fn type_counts(alloc: Global, units: &[Unit]) -> Result<Vec<u32>, OutOfMemory>
    ensures { IfOk result (λ list. list.items ≡ map (λ x. length x.types.terms) units.now) }
{
    let mut list = Vec::new(alloc);
    for unit in units {
        list.push(unit.types.type_count())?;
    }
    Ok(list)
}

/// How many tags each unit has.
pub fn tag_counts(alloc: Global, units: &[Unit]) -> Result<Vec<u32>, OutOfMemory>
    ensures { IfOk result (λ list. list.items ≡ map (λ x. x.types.tags) units.now) }
{
    let mut list = Vec::new(alloc);
    for unit in units {
        list.push(unit.types.tag_count())?;
    }
    Ok(list)
}
