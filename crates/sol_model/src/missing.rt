// The first fact that a rule demands and the rows lack, form by form.
ghost use Rattle.std.specs.Prelude.{IfSome, IfNone};
ghost use Rattle.sol_model.specs.Families.{members};
ghost use Rattle.sol_model.specs.Rules.{Satisfies, Misses, IsMet, IsMissing, PairEdge, IntoEdge, Nowhere};
ghost use Rattle.sol_model.specs.Systems.{IsValid, Fits, IsRow, IsLocation, IsNodeOf, HasMember};

use crate::locations::{field_of, pair_at, pair_count, sub_of};
use crate::rows::Fact;
use crate::{Constraint, Rows, System};

/// The rule of an Address.
pub(crate) fn missing_address(system: &System, rows: &Rows, row: u32, location: u32) -> Option<Fact>
    requires valid { IsValid system.now }
    requires fits { Fits system.now rows.now }
    requires row { IsRow system.now row }
    requires location { IsLocation system.now location }
    ensures found { IfSome result (λ fact. Misses system.now (members rows.now) (Constraint.Address row location) fact.row fact.location) }
    ensures none { IfNone result (Satisfies system.now (members rows.now) (Constraint.Address row location)) }
{
    if rows.has(row, location) {
        None
    } else {
        Some(Fact { row, location })
    }
}

/// The rule of a Copy.
pub(crate) fn missing_copy(system: &System, rows: &Rows, from: u32, to: u32) -> Option<Fact>
    requires valid { IsValid system.now }
    requires fits { Fits system.now rows.now }
    requires from { IsRow system.now from }
    requires to { IsRow system.now to }
    ensures found { IfSome result (λ fact. Misses system.now (members rows.now) (Constraint.Copy from to) fact.row fact.location) }
    ensures none { IfNone result (Satisfies system.now (members rows.now) (Constraint.Copy from to)) }
{
    rows.lacking(from, to)
}

/// The rule of a Load.
pub(crate) fn missing_load(
    system: &System,
    rows: &Rows,
    pointer: u32,
    to: u32,
    ty: u32,
    sub: u32,
) -> Option<Fact>
    requires valid { IsValid system.now }
    requires fits { Fits system.now rows.now }
    requires pointer { IsRow system.now pointer }
    requires to { IsRow system.now to }
    requires node { IsNodeOf system.now ty sub }
    ensures found { IfSome result (λ fact. Misses system.now (members rows.now) (Constraint.Load pointer to ty sub) fact.row fact.location) }
    ensures none { IfNone result (Satisfies system.now (members rows.now) (Constraint.Load pointer to ty sub)) }
{
    for location in 0..system.locations.len() as u32 {
        if rows.has(pointer, location)
            && let Some(node) = sub_of(system, location, ty, sub)
            && let Some(fact) = rows.lacking(node, to)
        {
            return Some(fact);
        }
    }
    None
}

/// The rule of a Store.
pub(crate) fn missing_store(
    system: &System,
    rows: &Rows,
    pointer: u32,
    from: u32,
    ty: u32,
    sub: u32,
) -> Option<Fact>
    requires valid { IsValid system.now }
    requires fits { Fits system.now rows.now }
    requires pointer { IsRow system.now pointer }
    requires from { IsRow system.now from }
    requires node { IsNodeOf system.now ty sub }
    ensures found { IfSome result (λ fact. Misses system.now (members rows.now) (Constraint.Store pointer from ty sub) fact.row fact.location) }
    ensures none { IfNone result (Satisfies system.now (members rows.now) (Constraint.Store pointer from ty sub)) }
{
    for location in 0..system.locations.len() as u32 {
        if rows.has(pointer, location)
            && let Some(node) = sub_of(system, location, ty, sub)
            && let Some(fact) = rows.lacking(from, node)
        {
            return Some(fact);
        }
    }
    None
}

/// The rule of a Field.
pub(crate) fn missing_field(
    system: &System,
    rows: &Rows,
    from: u32,
    to: u32,
    ty: u32,
    member: u32,
) -> Option<Fact>
    requires valid { IsValid system.now }
    requires fits { Fits system.now rows.now }
    requires from { IsRow system.now from }
    requires to { IsRow system.now to }
    requires member { HasMember system.now ty member }
    ensures found { IfSome result (λ fact. Misses system.now (members rows.now) (Constraint.Field from to ty member) fact.row fact.location) }
    ensures none { IfNone result (Satisfies system.now (members rows.now) (Constraint.Field from to ty member)) }
{
    for location in 0..system.locations.len() as u32 {
        if rows.has(from, location)
            && let Some(node) = field_of(system, location, ty, member)
            && !rows.has(to, node)
        {
            return Some(Fact {
                row: to,
                location: node,
            });
        }
    }
    None
}

/// A copy of one whole object to another.
pub(crate) fn missing_pairs(system: &System, rows: &Rows, to: u32, from: u32) -> Option<Fact>
    requires valid { IsValid system.now }
    requires fits { Fits system.now rows.now }
    requires to { IsLocation system.now to }
    requires from { IsLocation system.now from }
    ensures found { IfSome result (λ fact. IsMissing (PairEdge system.now to from) Nowhere (members rows.now) fact.row fact.location) }
    ensures none { IfNone result (IsMet (PairEdge system.now to from) Nowhere (members rows.now)) }
{
    for i in 0..pair_count(system, to, from) {
        let (at, of) = pair_at(system, to, from, i);
        if let Some(fact) = rows.lacking(of, at) {
            return Some(fact);
        }
    }
    None
}

/// Copies to one whole object from each that a row has.
pub(crate) fn missing_into(system: &System, rows: &Rows, to: u32, row: u32) -> Option<Fact>
    requires valid { IsValid system.now }
    requires fits { Fits system.now rows.now }
    requires to { IsLocation system.now to }
    requires row { IsRow system.now row }
    ensures found { IfSome result
        (λ fact. IsMissing (IntoEdge system.now (members rows.now) to row) Nowhere (members rows.now) fact.row fact.location) }
    ensures none { IfNone result (IsMet (IntoEdge system.now (members rows.now) to row) Nowhere (members rows.now)) }
{
    for from in 0..system.locations.len() as u32 {
        if rows.has(row, from)
            && let Some(fact) = missing_pairs(system, rows, to, from)
        {
            return Some(fact);
        }
    }
    None
}

/// The rule of a Contents.
pub(crate) fn missing_contents(system: &System, rows: &Rows, to: u32, from: u32) -> Option<Fact>
    requires valid { IsValid system.now }
    requires fits { Fits system.now rows.now }
    requires to { IsRow system.now to }
    requires from { IsRow system.now from }
    ensures found { IfSome result (λ fact. Misses system.now (members rows.now) (Constraint.Contents to from) fact.row fact.location) }
    ensures none { IfNone result (Satisfies system.now (members rows.now) (Constraint.Contents to from)) }
{
    for target in 0..system.locations.len() as u32 {
        if rows.has(to, target)
            && let Some(fact) = missing_into(system, rows, target, from)
        {
            return Some(fact);
        }
    }
    None
}
