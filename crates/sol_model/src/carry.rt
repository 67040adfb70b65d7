// What the rules demand, added a whole row at a time: from rows that are part of each closed family to larger ones.
ghost use Rattle.std.specs.Prelude.{ℕ, ◌<◌, IsFalse, Contains};
ghost use Rattle.sol_model.specs.Families.{Has, members, room_left};
ghost use Rattle.sol_model.specs.Growth.{IsPart, Grows};
ghost use Rattle.sol_model.specs.Rules.{PairEdge};
ghost use Rattle.sol_model.specs.Solutions.{IsEdge, IsGiven};
ghost use Rattle.sol_model.specs.Systems.{IsValid, IsRow, IsLocation, IsNodeOf, HasMember};

use crate::locations::{field_of, pair_at, pair_count, sub_of};
use crate::{Constraint, Rows, System};

/// Adds the set of one row to another's, where a rule demands it.
pub(crate) fn carry(system: &System, rows: &mut Rows, from: u32, to: u32)
    requires valid { IsValid system.now }
    requires part { IsPart system.now rows.old }
    requires edge { IsEdge system.now (members rows.old) from to }
    ensures { Grows system.now rows.old rows.new }
{
    rows.insert_all(from, to);
}

/// Adds a fact that a rule demands and the rows lack.
pub(crate) fn insert_given(system: &System, rows: &mut Rows, row: u32, location: u32)
    requires valid { IsValid system.now }
    requires part { IsPart system.now rows.old }
    requires given { IsGiven system.now (members rows.old) row location }
    requires lacks { IsFalse (members rows.old row location) }
    ensures grows { Grows system.now rows.old rows.new }
    ensures less_room { room_left rows.new < room_left rows.old }
{
    rows.insert(row, location);
}

/// Adds a fact that a rule demands, where it is not there yet.
pub(crate) fn add(system: &System, rows: &mut Rows, row: u32, location: u32)
    requires valid { IsValid system.now }
    requires part { IsPart system.now rows.old }
    requires given { IsGiven system.now (members rows.old) row location }
    ensures { Grows system.now rows.old rows.new }
{
    if !rows.has(row, location) {
        insert_given(system, rows, row, location);
    }
}

/// What the rule of a Load demands.
pub(crate) fn carry_load(system: &System, rows: &mut Rows, pointer: u32, to: u32, ty: u32, sub: u32)
    requires valid { IsValid system.now }
    requires part { IsPart system.now rows.old }
    requires pointer { IsRow system.now pointer }
    requires node { IsNodeOf system.now ty sub }
    requires listed { Contains system.now.constraints (Constraint.Load pointer to ty sub) }
    ensures { Grows system.now rows.old rows.new }
{
    for location in 0..system.locations.len() as u32 {
        if rows.has(pointer, location)
            && let Some(node) = sub_of(system, location, ty, sub)
        {
            carry(system, rows, node, to);
        }
    }
}

/// What the rule of a Store demands.
pub(crate) fn carry_store(
    system: &System,
    rows: &mut Rows,
    pointer: u32,
    from: u32,
    ty: u32,
    sub: u32,
)
    requires valid { IsValid system.now }
    requires part { IsPart system.now rows.old }
    requires pointer { IsRow system.now pointer }
    requires node { IsNodeOf system.now ty sub }
    requires listed { Contains system.now.constraints (Constraint.Store pointer from ty sub) }
    ensures { Grows system.now rows.old rows.new }
{
    for location in 0..system.locations.len() as u32 {
        if rows.has(pointer, location)
            && let Some(node) = sub_of(system, location, ty, sub)
        {
            carry(system, rows, from, node);
        }
    }
}

/// What the rule of a Field demands.
pub(crate) fn carry_field(
    system: &System,
    rows: &mut Rows,
    from: u32,
    to: u32,
    ty: u32,
    member: u32,
)
    requires valid { IsValid system.now }
    requires part { IsPart system.now rows.old }
    requires from { IsRow system.now from }
    requires member { HasMember system.now ty member }
    requires listed { Contains system.now.constraints (Constraint.Field from to ty member) }
    ensures { Grows system.now rows.old rows.new }
{
    for location in 0..system.locations.len() as u32 {
        if rows.has(from, location)
            && let Some(node) = field_of(system, location, ty, member)
        {
            add(system, rows, to, node);
        }
    }
}

/// A copy of one whole object to another.
pub(crate) fn carry_pairs(system: &System, rows: &mut Rows, to: u32, from: u32)
    requires valid { IsValid system.now }
    requires part { IsPart system.now rows.old }
    requires to { IsLocation system.now to }
    requires from { IsLocation system.now from }
    requires edges { (a b : ℕ) → PairEdge system.now to from a b → IsEdge system.now (members rows.old) a b }
    ensures { Grows system.now rows.old rows.new }
{
    for i in 0..pair_count(system, to, from) {
        let (at, of) = pair_at(system, to, from, i);
        carry(system, rows, of, at);
    }
}

/// What the rule of a Contents demands of one object that is copied to.
fn carry_into(system: &System, rows: &mut Rows, to: u32, from: u32, target: u32)
    requires valid { IsValid system.now }
    requires part { IsPart system.now rows.old }
    requires from { IsRow system.now from }
    requires target { IsLocation system.now target }
    requires has { Has (members rows.old) to target }
    requires listed { Contains system.now.constraints (Constraint.Contents to from) }
    ensures { Grows system.now rows.old rows.new }
{
    for source in 0..system.locations.len() as u32 {
        if rows.has(from, source) {
            carry_pairs(system, rows, target, source);
        }
    }
}

/// What the rule of a Contents demands.
pub(crate) fn carry_contents(system: &System, rows: &mut Rows, to: u32, from: u32)
    requires valid { IsValid system.now }
    requires part { IsPart system.now rows.old }
    requires to { IsRow system.now to }
    requires from { IsRow system.now from }
    requires listed { Contains system.now.constraints (Constraint.Contents to from) }
    ensures { Grows system.now rows.old rows.new }
{
    for target in 0..system.locations.len() as u32 {
        if rows.has(to, target) {
            carry_into(system, rows, to, from, target);
        }
    }
}
