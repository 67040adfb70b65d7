// The conditions of a valid system, one by one.
ghost use Rattle.std.specs.Prelude.{◌≡◌, ℕ, ◌+◌, ◌*◌, ◌^◌, ◌<◌, ◌≤◌, ◌↔◌, All, Some, length, slice_get, IsTrue, IsFalse};
ghost use Rattle.sol_model.specs.declared.system.Function.{Function};
ghost use Rattle.sol_model.specs.declared.system.LocationFact.{LocationFact};
ghost use Rattle.sol_model.specs.Systems.{IsValid, IsConstraintValid, IsCallValid, IsFunctionValid, width_of, location_count};
ghost use Rattle.sol_model.specs.Places.{nodes_of};
ghost use Rattle.call_graph.specs.system_check.Owners.{IsAt, IsPlaced, IsOwned};

use crate::system_check::calls::are_calls_valid;
use crate::system_check::constraints::are_constraints_valid;
use crate::system_check::facts::{are_functions_valid, are_types_valid};
use sol_model::{Function, LocationFact, System};

/// Whether the function of this number stands at a location.
fn is_at(system: &System, number: u32, location: usize) -> bool
    ensures { IsTrue result ↔ IsAt system.now number location }
{
    match system.functions.as_slice().get(number as usize) {
        Some(function) => function.location as usize == location,
        None => false,
    }
}

/// Whether the nodes under a location are locations.
fn has_nodes(system: &System, location: usize, fact: LocationFact) -> bool
    requires { location < length system.now.locations }
    ensures { IsTrue result
        ↔ ((fact.ty < length system.now.types)
        × (IsFalse fact.collapsed → location + nodes_of system.now fact.ty ≤ location_count system.now)) }
{
    match system.types.as_slice().get(fact.ty as usize) {
        Some(ty) => fact.collapsed || ty.nodes as usize <= system.locations.len() - location,
        None => false,
    }
}

/// Whether what a location is said to be fits it.
fn is_placed(system: &System, location: usize, fact: LocationFact) -> bool
    requires { location < length system.now.locations }
    ensures { IsTrue result ↔ IsPlaced system.now location fact }
{
    has_nodes(system, location, fact)
        && match fact.function {
            Some(number) => is_at(system, number, location),
            None => true,
        }
}

/// What is known of one location.
fn fact_at(system: &System, location: usize) -> LocationFact
    requires { location < length system.now.locations }
    ensures { slice_get system.now.locations location ≡ Some result }
{
    system.locations.as_slice()[location]
}

/// Whether what each location is said to be fits it.
fn are_placed(system: &System) -> bool
    ensures { IsTrue result
        ↔ ((location : ℕ) (fact : LocationFact) → slice_get system.now.locations location ≡ Some fact
        → IsPlaced system.now location fact) }
{
    for location in 0..system.locations.len() {
        let fact = fact_at(system, location);
        if !is_placed(system, location, fact) {
            return false;
        }
    }
    true
}

/// Whether the location of a function knows it.
fn is_owned(system: &System, number: usize, function: &Function) -> bool
    ensures { IsTrue result ↔ IsOwned system.now number function.now }
{
    match system.locations.as_slice().get(function.location as usize) {
        Some(fact) => match fact.function {
            Some(owner) => owner as usize == number,
            None => false,
        },
        None => false,
    }
}

/// Whether the location of each function knows it.
fn are_owned(system: &System) -> bool
    ensures { IsTrue result
        ↔ ((number : ℕ) (function : Function) → slice_get system.now.functions number ≡ Some function
        → IsOwned system.now number function) }
{
    for (number, function) in system.functions.as_slice().iter().enumerate() {
        if !is_owned(system, number, function) {
            return false;
        }
    }
    true
}

/// Whether the rows have at most 2^24 words in all.
fn is_small(system: &System) -> bool
    ensures { IsTrue result ↔ (system.now.rows * width_of system.now ≤ 2 ^ 24) }
{
    let width = system.locations.len().div_ceil(64);
    system.rows == 0 || width <= (1 << 24) / system.rows as usize
}

/// Whether the types, calls and functions are valid.
fn are_parts_valid(system: &System) -> bool
    ensures { IsTrue result
        ↔ (All (λ fact. All (λ position. position < fact.nodes) fact.members) system.now.types
        × All (IsCallValid system.now) system.now.calls × All (IsFunctionValid system.now) system.now.functions) }
{
    if !are_types_valid(system.types.as_slice()) {
        return false;
    }
    if !are_calls_valid(system, system.calls.as_slice()) {
        return false;
    }
    are_functions_valid(system, system.functions.as_slice())
}

/// Whether a system is valid: every number is in range, there are at least as many rows as locations, the nodes under
/// each location are locations, functions and their locations name one another, the new objects of a call belong to
/// distinct functions, the argument number 0 stands in copies alone, and all rows together have at most 2^24 words.
/// It takes no memory.
pub fn is_valid(system: &System) -> bool
    ensures { IsTrue result ↔ IsValid system.now }
{
    if system.locations.len() > system.rows as usize || !is_small(system) {
        return false;
    }
    if !are_constraints_valid(system, system.constraints.as_slice()) {
        return false;
    }
    if !are_placed(system) {
        return false;
    }
    if !are_owned(system) {
        return false;
    }
    are_parts_valid(system)
}
