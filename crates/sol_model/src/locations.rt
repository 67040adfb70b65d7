// Where locations lead: the nodes below them, their members, and the pairs of nodes that a copy of whole objects joins.
ghost use Rattle.std.specs.Prelude.{◌≡◌, ℕ, ◌+◌, ◌^◌, ◌<◌, length, IfSome, Some, slice_get, if◌then◌else◌};
ghost use Rattle.sol_model.specs.Places.{sub_of, field_of, member_position, nodes_of, pairs_of, deep};
ghost use Rattle.sol_model.specs.Systems.{IsValid, IsLocation, IsNodeOf, HasMember};

use crate::{LocationFact, System};

/// What is known of a location: whether it is collapsed, its type, and the function that it is.
pub fn location_fact(system: &System, location: u32) -> LocationFact
    requires valid { IsValid system.now }
    requires location { IsLocation system.now location }
    ensures value { slice_get system.now.locations location ≡ Some result }
    ensures typed { result.ty < length system.now.types }
{
    system.locations.as_slice()[location as usize]
}

/// The location of node `sub` below a location that a pointer to the type `ty` may have: the location itself where it
/// is collapsed, `sub` locations on where it is of that type, and none where it is of another type.
pub fn sub_of(system: &System, location: u32, ty: u32, sub: u32) -> Option<u32>
    requires valid { IsValid system.now }
    requires location { IsLocation system.now location }
    requires node { IsNodeOf system.now ty sub }
    ensures value { result ≡ sub_of system.now location ty sub }
    ensures known { IfSome result (IsLocation system.now) }
{
    let fact = system.locations.as_slice()[location as usize];
    if fact.collapsed {
        Some(location)
    } else if fact.ty == ty {
        Some(location + sub)
    } else {
        None
    }
}

/// The number of the node at which a member of a type stands.
pub fn member_position(system: &System, ty: u32, member: u32) -> u32
    requires valid { IsValid system.now }
    requires member { HasMember system.now ty member }
    ensures value { member_position system.now ty member ≡ Some result }
    ensures known { IsNodeOf system.now ty result }
{
    system.types.as_slice()[ty as usize].members.as_slice()[member as usize]
}

/// The location of a member of a location, as the address of a member is formed (Pearce, Kelly and Hankin 2007,
/// section 3): the location itself where it is collapsed, the member's node where it is of the type `ty`, and none
/// where it is of another type.
pub fn field_of(system: &System, location: u32, ty: u32, member: u32) -> Option<u32>
    requires valid { IsValid system.now }
    requires location { IsLocation system.now location }
    requires member { HasMember system.now ty member }
    ensures value { result ≡ field_of system.now location ty member }
    ensures known { IfSome result (IsLocation system.now) }
{
    sub_of(system, location, ty, member_position(system, ty, member))
}

/// How many nodes a type has.
fn nodes_of(system: &System, ty: u32) -> u32
    requires { ty < length system.now.types }
    ensures { result ≡ nodes_of system.now ty }
{
    system.types.as_slice()[ty as usize].nodes
}

/// How many pairs are joined, from what is known of both sides.
fn count_pairs(
    to_collapsed: bool,
    from_collapsed: bool,
    one_type: bool,
    to_nodes: u32,
    from_nodes: u32,
) -> u32
    ensures { (to from : ℕ) → result ≡ length (pairs_of to_collapsed from_collapsed one_type to from to_nodes from_nodes) }
{
    match (to_collapsed, from_collapsed) {
        (true, true) => 1,
        (true, false) => from_nodes,
        (false, true) => to_nodes,
        (false, false) => if one_type { to_nodes } else { 0 },
    }
}

/// A place so many nodes on, or the place itself where it is collapsed.
fn place_on(collapsed: bool, location: u32, i: u32) -> u32
    requires { (if collapsed then location else (location + i)) < 2 ^ 32 }
    ensures { result ≡ (if collapsed then location else (location + i)) }
{
    if collapsed { location } else { location + i }
}

/// How many pairs of nodes a copy of the object at `from` to the object at `to` joins. The only node under a collapsed
/// location is that location itself, whatever its type.
pub fn pair_count(system: &System, to: u32, from: u32) -> u32
    requires valid { IsValid system.now }
    requires to { IsLocation system.now to }
    requires from { IsLocation system.now from }
    ensures { result ≡ length (deep system.now to from) }
{
    let target = location_fact(system, to);
    let source = location_fact(system, from);
    let to_nodes = nodes_of(system, target.ty);
    let from_nodes = nodes_of(system, source.ty);
    count_pairs(
        target.collapsed,
        source.collapsed,
        target.ty == source.ty,
        to_nodes,
        from_nodes,
    )
}

/// One of these pairs, by its number from 0: first the node that is copied to, then the node that is copied from.
pub fn pair_at(system: &System, to: u32, from: u32, i: u32) -> (u32, u32)
    requires valid { IsValid system.now }
    requires to { IsLocation system.now to }
    requires from { IsLocation system.now from }
    requires i { i < length (deep system.now to from) }
    ensures value { slice_get (deep system.now to from) i ≡ Some result }
    ensures to { IsLocation system.now result.0 }
    ensures from { IsLocation system.now result.1 }
{
    let target = location_fact(system, to);
    let source = location_fact(system, from);
    let at = place_on(target.collapsed, to, i);
    let of = place_on(source.collapsed, from, i);
    (at, of)
}
