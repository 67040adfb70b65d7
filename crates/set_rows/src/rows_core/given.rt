//! Whether the rule of one constraint demands one fact of the rows, form by form.
ghost use Rattle.std.specs.Prelude.{◌≡◌, ℕ, ◌↔◌, ◌<◌, length, IsTrue, Contains};
ghost use Rattle.sol_model.specs.Families.{members};
ghost use Rattle.sol_model.specs.Rules.{Gives, PairEdge, IntoEdge};
ghost use Rattle.sol_model.specs.Solutions.{IsGiven};
ghost use Rattle.sol_model.specs.Systems.{IsValid, Fits, IsRow, IsLocation, IsNodeOf, HasMember, IsConstraintValid};
ghost use Rattle.set_rows.specs.rows_core.Given.{IsCarried};

use crate::rows_core::given_calls::gives_call;
use sol_model::locations::{field_of, pair_at, pair_count, sub_of};
use sol_model::sites::constraint_at;
use sol_model::{Constraint, Rows, System};

/// The rule of an Address.
fn gives_address(system: &System, rows: &Rows, to: u32, what: u32, row: u32, location: u32) -> bool
    ensures { IsTrue result ↔ Gives system.now (members rows.now) (Constraint.Address to what) row location }
{
    row == to && location == what
}

/// The rule of a Copy.
fn gives_copy(system: &System, rows: &Rows, from: u32, to: u32, row: u32, location: u32) -> bool
    requires valid { IsValid system.now }
    requires fits { Fits system.now rows.now }
    requires from { IsRow system.now from }
    requires location { IsLocation system.now location }
    ensures { IsTrue result ↔ Gives system.now (members rows.now) (Constraint.Copy from to) row location }
{
    row == to && rows.has(from, location)
}

/// The rule of a Load.
fn gives_load(
    system: &System,
    rows: &Rows,
    pointer: u32,
    to: u32,
    ty: u32,
    sub: u32,
    row: u32,
    location: u32,
) -> bool
    requires valid { IsValid system.now }
    requires fits { Fits system.now rows.now }
    requires pointer { IsRow system.now pointer }
    requires node { IsNodeOf system.now ty sub }
    requires location { IsLocation system.now location }
    ensures { IsTrue result ↔ Gives system.now (members rows.now) (Constraint.Load pointer to ty sub) row location }
{
    if row != to {
        return false;
    }
    for pointed in 0..system.locations.len() as u32 {
        if rows.has(pointer, pointed)
            && let Some(node) = sub_of(system, pointed, ty, sub)
            && rows.has(node, location)
        {
            return true;
        }
    }
    false
}

/// The rule of a Store.
fn gives_store(
    system: &System,
    rows: &Rows,
    pointer: u32,
    from: u32,
    ty: u32,
    sub: u32,
    row: u32,
    location: u32,
) -> bool
    requires valid { IsValid system.now }
    requires fits { Fits system.now rows.now }
    requires pointer { IsRow system.now pointer }
    requires from { IsRow system.now from }
    requires node { IsNodeOf system.now ty sub }
    requires location { IsLocation system.now location }
    ensures { IsTrue result ↔ Gives system.now (members rows.now) (Constraint.Store pointer from ty sub) row location }
{
    if !rows.has(from, location) {
        return false;
    }
    for pointed in 0..system.locations.len() as u32 {
        if rows.has(pointer, pointed)
            && let Some(node) = sub_of(system, pointed, ty, sub)
            && node == row
        {
            return true;
        }
    }
    false
}

/// The rule of a Field.
fn gives_field(
    system: &System,
    rows: &Rows,
    from: u32,
    to: u32,
    ty: u32,
    member: u32,
    row: u32,
    location: u32,
) -> bool
    requires valid { IsValid system.now }
    requires fits { Fits system.now rows.now }
    requires from { IsRow system.now from }
    requires member { HasMember system.now ty member }
    ensures { IsTrue result ↔ Gives system.now (members rows.now) (Constraint.Field from to ty member) row location }
{
    if row != to {
        return false;
    }
    for whole in 0..system.locations.len() as u32 {
        if rows.has(from, whole)
            && let Some(node) = field_of(system, whole, ty, member)
            && node == location
        {
            return true;
        }
    }
    false
}

/// A copy of one whole object to another.
pub(in crate::rows_core) fn gives_pairs(
    system: &System,
    rows: &Rows,
    to: u32,
    from: u32,
    row: u32,
    location: u32,
) -> bool
    requires valid { IsValid system.now }
    requires fits { Fits system.now rows.now }
    requires to { IsLocation system.now to }
    requires from { IsLocation system.now from }
    requires location { IsLocation system.now location }
    ensures { IsTrue result ↔ IsCarried (PairEdge system.now to from) (members rows.now) row location }
{
    for i in 0..pair_count(system, to, from) {
        let (at, of) = pair_at(system, to, from, i);
        if at == row && rows.has(of, location) {
            return true;
        }
    }
    false
}

/// Copies to one whole object from each that a row has.
fn gives_into(system: &System, rows: &Rows, to: u32, source: u32, row: u32, location: u32) -> bool
    requires valid { IsValid system.now }
    requires fits { Fits system.now rows.now }
    requires to { IsLocation system.now to }
    requires source { IsRow system.now source }
    requires location { IsLocation system.now location }
    ensures { IsTrue result ↔ IsCarried (IntoEdge system.now (members rows.now) to source) (members rows.now) row location }
{
    for from in 0..system.locations.len() as u32 {
        if rows.has(source, from) && gives_pairs(system, rows, to, from, row, location) {
            return true;
        }
    }
    false
}

/// The rule of a Contents.
fn gives_contents(system: &System, rows: &Rows, to: u32, from: u32, row: u32, location: u32) -> bool
    requires valid { IsValid system.now }
    requires fits { Fits system.now rows.now }
    requires to { IsRow system.now to }
    requires from { IsRow system.now from }
    requires location { IsLocation system.now location }
    ensures { IsTrue result ↔ Gives system.now (members rows.now) (Constraint.Contents to from) row location }
{
    for target in 0..system.locations.len() as u32 {
        if rows.has(to, target) && gives_into(system, rows, target, from, row, location) {
            return true;
        }
    }
    false
}

/// The rule of any constraint.
fn gives(system: &System, rows: &Rows, constraint: Constraint, row: u32, location: u32) -> bool
    requires valid { IsValid system.now }
    requires fits { Fits system.now rows.now }
    requires constraint { IsConstraintValid system.now constraint }
    requires location { IsLocation system.now location }
    ensures { IsTrue result ↔ Gives system.now (members rows.now) constraint row location }
{
    match constraint {
        Constraint::Address {
            row: to,
            location: what,
        } => gives_address(system, rows, to, what, row, location),
        Constraint::Copy { from, to } => gives_copy(system, rows, from, to, row, location),
        Constraint::Load {
            pointer,
            to,
            ty,
            sub,
        } => gives_load(system, rows, pointer, to, ty, sub, row, location),
        Constraint::Store {
            pointer,
            from,
            ty,
            sub,
        } => gives_store(system, rows, pointer, from, ty, sub, row, location),
        Constraint::Field {
            from,
            to,
            ty,
            member,
        } => gives_field(system, rows, from, to, ty, member, row, location),
        Constraint::Contents { to, from } => gives_contents(system, rows, to, from, row, location),
        Constraint::Call { call } => gives_call(system, rows, call, row, location),
    }
}

/// Whether some constraint's rule demands a fact from facts of the rows.
pub(in crate::rows_core) fn is_given(system: &System, rows: &Rows, row: u32, location: u32) -> bool
    requires valid { IsValid system.now }
    requires fits { Fits system.now rows.now }
    ensures { IsTrue result ↔ IsGiven system.now (members rows.now) row location }
{
    if location as usize >= system.locations.len() {
        return false;
    }
    for i in 0..system.constraints.len() {
        if gives(system, rows, constraint_at(system, i), row, location) {
            return true;
        }
    }
    false
}
