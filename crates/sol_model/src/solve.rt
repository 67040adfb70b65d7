// The least solution, by passes over the constraints.
ghost use Rattle.std.specs.Prelude.{◌<◌, IfOk, IfSome, IfNone, IsFalse, IsTrue, ◌↔◌, Contains, length};
ghost use Rattle.sol_model.specs.Families.{members};
ghost use Rattle.sol_model.specs.Growth.{IsPart, Grows};
ghost use Rattle.sol_model.specs.Rules.{Satisfies, Misses};
ghost use Rattle.sol_model.specs.Solutions.{IsClosed, IsLeast, IsGiven};
ghost use Rattle.sol_model.specs.Systems.{IsValid, Fits, IsConstraintValid};

use crate::rows::Fact;
use crate::sites::constraint_at;
use crate::{Constraint, Rows, System, calls, carry, carry_calls, missing};
use pta_base::OutOfMemory;
use std::alloc::Global;

/// A fact that the rule of a constraint demands and the rows lack; none exactly where the rule is satisfied.
fn missing_of(system: &System, rows: &Rows, constraint: Constraint) -> Option<Fact>
    requires valid { IsValid system.now }
    requires fits { Fits system.now rows.now }
    requires constraint { IsConstraintValid system.now constraint }
    ensures found { IfSome result (λ fact. Misses system.now (members rows.now) constraint fact.row fact.location) }
    ensures none { IfNone result (Satisfies system.now (members rows.now) constraint) }
{
    match constraint {
        Constraint::Address { row, location } => missing::missing_address(
            system, rows, row, location,
        ),
        Constraint::Copy { from, to } => missing::missing_copy(system, rows, from, to),
        Constraint::Load {
            pointer,
            to,
            ty,
            sub,
        } => missing::missing_load(system, rows, pointer, to, ty, sub),
        Constraint::Store {
            pointer,
            from,
            ty,
            sub,
        } => missing::missing_store(system, rows, pointer, from, ty, sub),
        Constraint::Field {
            from,
            to,
            ty,
            member,
        } => missing::missing_field(system, rows, from, to, ty, member),
        Constraint::Contents { to, from } => missing::missing_contents(system, rows, to, from),
        Constraint::Call { call } => calls::missing_call(system, rows, call),
    }
}

/// A fact that some rule demands and the rows lack; none exactly where the rows are closed.
fn first_missing(system: &System, rows: &Rows) -> Option<Fact>
    requires valid { IsValid system.now }
    requires fits { Fits system.now rows.now }
    ensures given { IfSome result (λ fact. IsGiven system.now (members rows.now) fact.row fact.location) }
    ensures lacks { IfSome result (λ fact. IsFalse (members rows.now fact.row fact.location)) }
    ensures none { IfNone result (IsClosed system.now (members rows.now)) }
{
    for constraint in system.constraints.as_slice() {
        if let Some(fact) = missing_of(system, rows, *constraint) {
            return Some(fact);
        }
    }
    None
}

/// Whether the rows satisfy each rule. It takes no memory.
pub fn is_closed(system: &System, rows: &Rows) -> bool
    requires valid { IsValid system.now }
    requires fits { Fits system.now rows.now }
    ensures { IsTrue result ↔ IsClosed system.now (members rows.now) }
{
    match first_missing(system, rows) {
        None => true,
        Some(_) => false,
    }
}

/// Adds what the rule of a call still demands, fact by fact, until it is satisfied.
fn settle(system: &System, rows: &mut Rows, call: u32)
    requires valid { IsValid system.now }
    requires part { IsPart system.now rows.old }
    requires known { call < length system.now.calls }
    requires listed { Contains system.now.constraints (Constraint.Call call) }
    ensures grows { Grows system.now rows.old rows.new }
    ensures satisfied { Satisfies system.now (members rows.new) (Constraint.Call call) }
{
    while let Some(fact) = calls::missing_call(system, rows, call) {
        carry::insert_given(system, rows, fact.row, fact.location);
    }
}

/// Adds what the rule of a constraint demands, a row at a time.
fn carry_constraint(system: &System, rows: &mut Rows, constraint: Constraint)
    requires valid { IsValid system.now }
    requires part { IsPart system.now rows.old }
    requires constraint { IsConstraintValid system.now constraint }
    requires listed { Contains system.now.constraints constraint }
    ensures { Grows system.now rows.old rows.new }
{
    match constraint {
        Constraint::Address { row, location } => carry::add(system, rows, row, location),
        Constraint::Copy { from, to } => carry::carry(system, rows, from, to),
        Constraint::Load {
            pointer,
            to,
            ty,
            sub,
        } => carry::carry_load(system, rows, pointer, to, ty, sub),
        Constraint::Store {
            pointer,
            from,
            ty,
            sub,
        } => carry::carry_store(system, rows, pointer, from, ty, sub),
        Constraint::Field {
            from,
            to,
            ty,
            member,
        } => carry::carry_field(system, rows, from, to, ty, member),
        Constraint::Contents { to, from } => carry::carry_contents(system, rows, to, from),
        Constraint::Call { call } => {
            carry_calls::carry_call(system, rows, call);
            settle(system, rows, call);
        }
    }
}

/// Adds what each rule demands, constraint by constraint.
fn pass(system: &System, rows: &mut Rows)
    requires valid { IsValid system.now }
    requires part { IsPart system.now rows.old }
    ensures { Grows system.now rows.old rows.new }
{
    for i in 0..system.constraints.len() {
        let constraint = constraint_at(system, i);
        carry_constraint(system, rows, constraint);
    }
}

/// The least rows that satisfy each rule: passes over the constraints, repeated while some rule demands a fact that the
/// rows lack (Andersen 1994, section 4.4). The only error is want of memory.
pub fn plain_solve(alloc: Global, system: &System) -> Result<Rows, OutOfMemory>
    requires valid { IsValid system.now }
    ensures fits { IfOk result (Fits system.now) }
    ensures least { IfOk result (λ rows. IsLeast system.now (members rows)) }
{
    let width = (system.locations.len() as u32).div_ceil(64);
    let mut rows = Rows::empty(alloc, system.rows, width)?;
    while let Some(fact) = first_missing(system, &rows) {
        carry::insert_given(system, &mut rows, fact.row, fact.location);
        pass(system, &mut rows);
    }
    Ok(rows)
}
