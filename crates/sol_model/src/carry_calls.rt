// What the rules of calls demand, added a whole row at a time.
ghost use Rattle.std.specs.Prelude.{◌≡◌, ℕ, ◌<◌, All, Some, None, IsSome, length, Contains, zip};
ghost use Rattle.sol_model.specs.Families.{members};
ghost use Rattle.sol_model.specs.Growth.{IsPart, Grows, IsReached, HasEffect};
ghost use Rattle.sol_model.specs.Rules.{AreJoined, IsInArgument};
ghost use Rattle.sol_model.specs.Solutions.{IsEdge};
ghost use Rattle.sol_model.specs.Systems.{IsValid, IsRow, IsLocation, IsCallValid, IsFunctionValid};

use crate::carry::{carry, carry_pairs};
use crate::sites::{
    argument_row, call_at, effect_at, first_row, function_at, is_in_argument, row_at, rows_at,
};
use crate::{CallSite, Constraint, Function, Rows, System};
use pta_base::{Effect, Listing};

/// Rows of two lists, place by place.
fn carry_row_pairs(system: &System, rows: &mut Rows, from: &[u32], to: &[u32])
    requires valid { IsValid system.now }
    requires part { IsPart system.now rows.old }
    requires from { All (IsRow system.now) from.now }
    requires to { All (IsRow system.now) to.now }
    requires edges { (a b : ℕ) → Contains (zip from.now to.now) (a, b) → IsEdge system.now (members rows.old) a b }
    ensures { Grows system.now rows.old rows.new }
{
    for i in 0..from.len().min(to.len()) {
        let source = row_at(system, from, i);
        let target = row_at(system, to, i);
        carry(system, rows, source, target);
    }
}

/// Lists of rows, place by place.
fn carry_joined(system: &System, rows: &mut Rows, from: &[Listing<u32>], to: &[Listing<u32>])
    requires valid { IsValid system.now }
    requires part { IsPart system.now rows.old }
    requires from { All (λ rows. All (IsRow system.now) rows) from.now }
    requires to { All (λ rows. All (IsRow system.now) rows) to.now }
    requires edges { (a b : ℕ) → AreJoined from.now to.now a b → IsEdge system.now (members rows.old) a b }
    ensures { Grows system.now rows.old rows.new }
{
    for i in 0..from.len().min(to.len()) {
        let sources = rows_at(system, from, i);
        let targets = rows_at(system, to, i);
        carry_row_pairs(system, rows, sources, targets);
    }
}

/// What a target demands that is no library function: arguments go into parameters, and the result comes back.
fn carry_plain(
    system: &System,
    rows: &mut Rows,
    call: &CallSite,
    number: usize,
    function: &Function,
)
    requires valid { IsValid system.now }
    requires part { IsPart system.now rows.old }
    requires call { IsCallValid system.now call.now }
    requires function { IsFunctionValid system.now function.now }
    requires reached { IsReached system.now (members rows.old) call.now number function.now }
    requires plain { function.now.library ≡ None }
    ensures { Grows system.now rows.old rows.new }
{
    carry_joined(
        system,
        rows,
        call.arguments.as_slice(),
        function.parameters.as_slice(),
    );
    carry_row_pairs(
        system,
        rows,
        function.result.as_slice(),
        call.result.as_slice(),
    );
}

/// One row into another, where both are there.
fn carry_between(system: &System, rows: &mut Rows, from: Option<u32>, to: Option<u32>)
    requires valid { IsValid system.now }
    requires part { IsPart system.now rows.old }
    requires edges { (a b : ℕ) → (from ≡ Some a) × (to ≡ Some b) → IsEdge system.now (members rows.old) a b }
    ensures { Grows system.now rows.old rows.new }
{
    if let (Some(source), Some(target)) = (from, to) {
        carry(system, rows, source, target);
    }
}

/// The row of one argument into the row of each location that another has.
fn carry_stores(system: &System, rows: &mut Rows, call: &CallSite, number: usize, i: u8, j: u8)
    requires valid { IsValid system.now }
    requires part { IsPart system.now rows.old }
    requires call { IsCallValid system.now call.now }
    requires effect { HasEffect system.now (members rows.old) call.now number (Effect.StoresInto i j) }
    ensures { Grows system.now rows.old rows.new }
{
    let (Some(row), Some(source)) = (argument_row(system, call, i), argument_row(system, call, j))
    else {
        return;
    };
    for location in 0..system.locations.len() as u32 {
        if rows.has(row, location) {
            carry(system, rows, source, location);
        }
    }
}

/// Copies to one object that argument `i` has.
fn carry_into_argument(
    system: &System,
    rows: &mut Rows,
    call: &CallSite,
    number: usize,
    i: u8,
    j: u8,
    target: u32,
)
    requires valid { IsValid system.now }
    requires part { IsPart system.now rows.old }
    requires call { IsCallValid system.now call.now }
    requires effect { HasEffect system.now (members rows.old) call.now number (Effect.Copies i j) }
    requires target { IsLocation system.now target }
    requires has { IsInArgument (members rows.old) call.now number i target }
    ensures { Grows system.now rows.old rows.new }
{
    for source in 0..system.locations.len() as u32 {
        if is_in_argument(system, rows, call, number, j, source) {
            carry_pairs(system, rows, target, source);
        }
    }
}

/// Copies between the objects of two arguments.
fn carry_copies(system: &System, rows: &mut Rows, call: &CallSite, number: usize, i: u8, j: u8)
    requires valid { IsValid system.now }
    requires part { IsPart system.now rows.old }
    requires call { IsCallValid system.now call.now }
    requires effect { HasEffect system.now (members rows.old) call.now number (Effect.Copies i j) }
    ensures { Grows system.now rows.old rows.new }
{
    for target in 0..system.locations.len() as u32 {
        if is_in_argument(system, rows, call, number, i, target) {
            carry_into_argument(system, rows, call, number, i, j, target);
        }
    }
}

/// The edges of one effect. The facts that an effect gives and its call backs are few, and are left to the search for
/// what is missing.
fn carry_effect(system: &System, rows: &mut Rows, call: &CallSite, number: usize, effect: Effect)
    requires valid { IsValid system.now }
    requires part { IsPart system.now rows.old }
    requires call { IsCallValid system.now call.now }
    requires effect { HasEffect system.now (members rows.old) call.now number effect }
    ensures { Grows system.now rows.old rows.new }
{
    match effect {
        Effect::GivesArgument(k) => carry_between(
            system,
            rows,
            argument_row(system, call, k),
            first_row(system, call.result.as_slice()),
        ),
        Effect::Copies(i, j) => carry_copies(system, rows, call, number, i, j),
        Effect::StoresInto(i, j) => carry_stores(system, rows, call, number, i, j),
        Effect::Nothing | Effect::GivesNew | Effect::GivesObject(_) | Effect::CallsBack(_, _) => {}
    }
}

/// The edges of a library function's effects.
fn carry_effects(
    system: &System,
    rows: &mut Rows,
    call: &CallSite,
    number: usize,
    function: &Function,
)
    requires valid { IsValid system.now }
    requires part { IsPart system.now rows.old }
    requires call { IsCallValid system.now call.now }
    requires reached { IsReached system.now (members rows.old) call.now number function.now }
    requires library { IsSome function.now.library }
    ensures { Grows system.now rows.old rows.new }
{
    for i in 0..function.effects.len() {
        let effect = effect_at(function, i);
        carry_effect(system, rows, call, number, effect);
    }
}

/// What one target of a call demands.
fn carry_target(
    system: &System,
    rows: &mut Rows,
    call: &CallSite,
    number: usize,
    function: &Function,
)
    requires valid { IsValid system.now }
    requires part { IsPart system.now rows.old }
    requires call { IsCallValid system.now call.now }
    requires function { IsFunctionValid system.now function.now }
    requires reached { IsReached system.now (members rows.old) call.now number function.now }
    ensures { Grows system.now rows.old rows.new }
{
    match function.library {
        None => carry_plain(system, rows, call, number, function),
        Some(_) => carry_effects(system, rows, call, number, function),
    }
}

/// What the rule of a Call demands.
pub(crate) fn carry_call(system: &System, rows: &mut Rows, number: u32)
    requires valid { IsValid system.now }
    requires part { IsPart system.now rows.old }
    requires known { number < length system.now.calls }
    requires listed { Contains system.now.constraints (Constraint.Call number) }
    ensures { Grows system.now rows.old rows.new }
{
    let call = call_at(system, number as usize);
    for target in 0..system.functions.len() {
        let function = function_at(system, target);
        if rows.has(call.callee, function.location) && function.signature == call.signature {
            carry_target(system, rows, call, target, function);
        }
    }
}
