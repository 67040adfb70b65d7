// The smallest systems.
ghost use Rattle.std.specs.Prelude.{◌≡◌, IfOk};
ghost use Rattle.sol_model.specs.Systems.{location_count};

use crate::reading::types;
use pta_base::{Listing, OutOfMemory};
use sol_model::{Constraint, LocationFact, System};
use std::alloc::Global;

const NODE: LocationFact = LocationFact {
    collapsed: false,
    ty: 0,
    function: None,
};

fn list<T: Copy + Drop>(alloc: Global, items: &[T]) -> Result<Listing<T>, OutOfMemory>
    ensures { IfOk result (λ list. list ≡ items.now) }
{
    let mut list = Listing::new(alloc);
    for item in items {
        list.push(*item)?;
    }
    Ok(list)
}

/// A system of three rows and three objects, with these constraints.
pub(crate) fn three(alloc: Global, constraints: &[Constraint]) -> Result<System, OutOfMemory>
    ensures rows { IfOk result (λ system. (system.rows ≡ 3) × (location_count system ≡ 3)) }
    ensures constraints { IfOk result (λ system. system.constraints ≡ constraints.now) }
{
    let locations = list(alloc, &[NODE, NODE, NODE])?;
    let constraints = list(alloc, constraints)?;
    let types = types(alloc)?;
    Ok(System {
        rows: 3,
        locations,
        types,
        constraints,
        calls: Listing::new(alloc),
        functions: Listing::new(alloc),
    })
}
