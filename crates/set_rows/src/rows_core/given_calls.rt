//! Whether the rule of a Call demands one fact of the rows: by what a target's rows, or a library function's effects,
//! give.
ghost use Rattle.std.specs.Prelude.{◌≡◌, ℕ, ◌↔◌, ◌<◌, length, IsTrue, IfSome, All, Some, None, Contains, zip};
ghost use Rattle.sol_model.specs.Families.{Has, members};
ghost use Rattle.sol_model.specs.Rules.{Gives, IsDemanded, AreJoined, IsInArgument, IntoArgumentEdge, EffectEdge};
ghost use Rattle.sol_model.specs.Rules.{EffectFact, TargetEdge, TargetFact, PassesBack};
ghost use Rattle.sol_model.specs.Systems.{IsValid, Fits, IsRow, IsLocation, IsCallValid, IsFunctionValid};
ghost use Rattle.set_rows.specs.rows_core.Given.{IsCarried};

use crate::rows_core::given::gives_pairs;
use pta_base::{Effect, Listing};
use sol_model::sites::{
    argument_row, back_signature, call_at, effect_at, first_row, function_at, is_fresh,
    is_in_argument, parameter_row, row_at, rows_at,
};
use sol_model::{CallSite, Constraint, Function, Rows, System};

/// Rows of two lists, place by place.
fn gives_row_pairs(
    system: &System,
    rows: &Rows,
    from: &[u32],
    to: &[u32],
    row: u32,
    location: u32,
) -> bool
    requires valid { IsValid system.now }
    requires fits { Fits system.now rows.now }
    requires from { All (IsRow system.now) from.now }
    requires to { All (IsRow system.now) to.now }
    requires location { IsLocation system.now location }
    ensures { IsTrue result ↔ IsCarried (λ a b. Contains (zip from.now to.now) (a, b)) (members rows.now) row location }
{
    for i in 0..from.len().min(to.len()) {
        let source = row_at(system, from, i);
        let target = row_at(system, to, i);
        if target == row && rows.has(source, location) {
            return true;
        }
    }
    false
}

/// Lists of rows, place by place.
fn gives_joined(
    system: &System,
    rows: &Rows,
    from: &[Listing<u32>],
    to: &[Listing<u32>],
    row: u32,
    location: u32,
) -> bool
    requires valid { IsValid system.now }
    requires fits { Fits system.now rows.now }
    requires from { All (λ rows. All (IsRow system.now) rows) from.now }
    requires to { All (λ rows. All (IsRow system.now) rows) to.now }
    requires location { IsLocation system.now location }
    ensures { IsTrue result ↔ IsCarried (AreJoined from.now to.now) (members rows.now) row location }
{
    for i in 0..from.len().min(to.len()) {
        let sources = rows_at(system, from, i);
        let targets = rows_at(system, to, i);
        if gives_row_pairs(system, rows, sources, targets, row, location) {
            return true;
        }
    }
    false
}

/// One row into another, where both are there.
fn gives_between(
    system: &System,
    rows: &Rows,
    from: Option<u32>,
    to: Option<u32>,
    row: u32,
    location: u32,
) -> bool
    requires valid { IsValid system.now }
    requires fits { Fits system.now rows.now }
    requires from { IfSome from (IsRow system.now) }
    requires location { IsLocation system.now location }
    ensures { IsTrue result ↔ IsCarried (λ a b. (from ≡ Some a) × (to ≡ Some b)) (members rows.now) row location }
{
    match (from, to) {
        (Some(source), Some(target)) => target == row && rows.has(source, location),
        _ => false,
    }
}

/// A row into the row of each member of another.
fn gives_stores(
    system: &System,
    rows: &Rows,
    into: Option<u32>,
    from: Option<u32>,
    row: u32,
    location: u32,
) -> bool
    requires valid { IsValid system.now }
    requires fits { Fits system.now rows.now }
    requires into { IfSome into (IsRow system.now) }
    requires from { IfSome from (IsRow system.now) }
    requires location { IsLocation system.now location }
    ensures { IsTrue result
        ↔ IsCarried (λ a b. (pointer : ℕ) × (into ≡ Some pointer) × Has (members rows.now) pointer b × (from ≡ Some a))
        (members rows.now) row location }
{
    match (into, from) {
        (Some(pointer), Some(source)) => (row as usize) < system.locations.len()
            && rows.has(pointer, row)
            && rows.has(source, location),
        _ => false,
    }
}

/// The object that a call gets from a library function goes into a row.
fn gives_fresh(system: &System, call: &CallSite, number: usize, row: u32, location: u32) -> bool
    requires call { IsCallValid system.now call.now }
    ensures { IsTrue result ↔ EffectFact call.now number Effect.GivesNew row location }
{
    match first_row(system, call.result.as_slice()) {
        Some(result) => result == row && is_fresh(call, number, location),
        None => false,
    }
}

/// Copies to one whole object from each that an argument has.
fn gives_into_argument(
    system: &System,
    rows: &Rows,
    call: &CallSite,
    number: usize,
    to: u32,
    k: u8,
    row: u32,
    location: u32,
) -> bool
    requires valid { IsValid system.now }
    requires fits { Fits system.now rows.now }
    requires call { IsCallValid system.now call.now }
    requires to { IsLocation system.now to }
    requires location { IsLocation system.now location }
    ensures { IsTrue result
        ↔ IsCarried (IntoArgumentEdge system.now (members rows.now) call.now number to k) (members rows.now) row location }
{
    for from in 0..system.locations.len() as u32 {
        if is_in_argument(system, rows, call, number, k, from)
            && gives_pairs(system, rows, to, from, row, location)
        {
            return true;
        }
    }
    false
}

/// Copies between the objects of two arguments.
fn gives_copies(
    system: &System,
    rows: &Rows,
    call: &CallSite,
    number: usize,
    i: u8,
    j: u8,
    row: u32,
    location: u32,
) -> bool
    requires valid { IsValid system.now }
    requires fits { Fits system.now rows.now }
    requires call { IsCallValid system.now call.now }
    requires location { IsLocation system.now location }
    ensures { IsTrue result
        ↔ IsCarried (EffectEdge system.now (members rows.now) call.now number (Effect.Copies i j)) (members rows.now) row location }
{
    for target in 0..system.locations.len() as u32 {
        if is_in_argument(system, rows, call, number, i, target)
            && gives_into_argument(system, rows, call, number, target, j, row, location)
        {
            return true;
        }
    }
    false
}

/// The arguments of a call back into the parameters of one function.
fn gives_passed(
    system: &System,
    rows: &Rows,
    call: &CallSite,
    passed: Option<(u8, u8)>,
    function: &Function,
    row: u32,
    location: u32,
) -> bool
    requires valid { IsValid system.now }
    requires fits { Fits system.now rows.now }
    requires call { IsCallValid system.now call.now }
    requires function { IsFunctionValid system.now function.now }
    requires location { IsLocation system.now location }
    ensures { IsTrue result ↔ IsCarried (PassesBack call.now passed function.now) (members rows.now) row location }
{
    let Some((first, second)) = passed else {
        return false;
    };
    if function.library.is_some() {
        return false;
    }
    gives_between(
        system,
        rows,
        argument_row(system, call, first),
        parameter_row(system, function, 0),
        row,
        location,
    ) || gives_between(
        system,
        rows,
        argument_row(system, call, second),
        parameter_row(system, function, 1),
        row,
        location,
    )
}

/// The calls back of one argument.
fn gives_backs(
    system: &System,
    rows: &Rows,
    call: &CallSite,
    number: usize,
    k: u8,
    passed: Option<(u8, u8)>,
    row: u32,
    location: u32,
) -> bool
    requires valid { IsValid system.now }
    requires fits { Fits system.now rows.now }
    requires call { IsCallValid system.now call.now }
    requires location { IsLocation system.now location }
    ensures { IsTrue result
        ↔ IsCarried (EffectEdge system.now (members rows.now) call.now number (Effect.CallsBack k passed))
        (members rows.now) row location }
{
    let Some(argument) = argument_row(system, call, k) else {
        return false;
    };
    for back in 0..system.functions.len() {
        let function = function_at(system, back);
        if rows.has(argument, function.location)
            && function.signature == back_signature(passed)
            && gives_passed(system, rows, call, passed, function, row, location)
        {
            return true;
        }
    }
    false
}

/// What one effect of a library function demands.
fn gives_effect(
    system: &System,
    rows: &Rows,
    call: &CallSite,
    number: usize,
    effect: Effect,
    row: u32,
    location: u32,
) -> bool
    requires valid { IsValid system.now }
    requires fits { Fits system.now rows.now }
    requires call { IsCallValid system.now call.now }
    requires location { IsLocation system.now location }
    ensures { IsTrue result
        ↔ IsDemanded (EffectEdge system.now (members rows.now) call.now number effect) (EffectFact call.now number effect)
        (members rows.now) row location }
{
    match effect {
        Effect::Nothing => false,
        Effect::GivesArgument(k) => gives_between(
            system,
            rows,
            argument_row(system, call, k),
            first_row(system, call.result.as_slice()),
            row,
            location,
        ),
        Effect::GivesNew => gives_fresh(system, call, number, row, location),
        Effect::GivesObject(_) => gives_fresh(system, call, number, row, location),
        Effect::Copies(i, j) => gives_copies(system, rows, call, number, i, j, row, location),
        Effect::StoresInto(i, j) => gives_stores(
            system,
            rows,
            argument_row(system, call, i),
            argument_row(system, call, j),
            row,
            location,
        ),
        Effect::CallsBack(k, passed) => gives_backs(
            system, rows, call, number, k, passed, row, location,
        ),
    }
}

/// What a target demands that is no library function.
fn gives_plain(
    system: &System,
    rows: &Rows,
    call: &CallSite,
    number: usize,
    function: &Function,
    row: u32,
    location: u32,
) -> bool
    requires valid { IsValid system.now }
    requires fits { Fits system.now rows.now }
    requires call { IsCallValid system.now call.now }
    requires function { IsFunctionValid system.now function.now }
    requires location { IsLocation system.now location }
    ensures { IsTrue result
        ↔ IsCarried (TargetEdge system.now (members rows.now) call.now number function.now None) (members rows.now) row location }
{
    gives_joined(
        system,
        rows,
        call.arguments.as_slice(),
        function.parameters.as_slice(),
        row,
        location,
    ) || gives_row_pairs(
        system,
        rows,
        function.result.as_slice(),
        call.result.as_slice(),
        row,
        location,
    )
}

/// What a target demands that is a library function.
fn gives_effects(
    system: &System,
    rows: &Rows,
    call: &CallSite,
    number: usize,
    function: &Function,
    library: u32,
    row: u32,
    location: u32,
) -> bool
    requires valid { IsValid system.now }
    requires fits { Fits system.now rows.now }
    requires call { IsCallValid system.now call.now }
    requires location { IsLocation system.now location }
    ensures { IsTrue result
        ↔ IsDemanded (TargetEdge system.now (members rows.now) call.now number function.now (Some library))
        (TargetFact call.now number function.now (Some library)) (members rows.now) row location }
{
    for i in 0..function.effects.len() {
        let effect = effect_at(function, i);
        if gives_effect(system, rows, call, number, effect, row, location) {
            return true;
        }
    }
    false
}

/// What a target demands.
fn gives_target(
    system: &System,
    rows: &Rows,
    call: &CallSite,
    number: usize,
    function: &Function,
    row: u32,
    location: u32,
) -> bool
    requires valid { IsValid system.now }
    requires fits { Fits system.now rows.now }
    requires call { IsCallValid system.now call.now }
    requires function { IsFunctionValid system.now function.now }
    requires location { IsLocation system.now location }
    ensures { IsTrue result
        ↔ IsDemanded (TargetEdge system.now (members rows.now) call.now number function.now function.now.library)
        (TargetFact call.now number function.now function.now.library) (members rows.now) row location }
{
    match function.library {
        None => gives_plain(system, rows, call, number, function, row, location),
        Some(library) => gives_effects(
            system, rows, call, number, function, library, row, location,
        ),
    }
}

/// The rule of a Call.
pub(in crate::rows_core) fn gives_call(
    system: &System,
    rows: &Rows,
    number: u32,
    row: u32,
    location: u32,
) -> bool
    requires valid { IsValid system.now }
    requires fits { Fits system.now rows.now }
    requires known { number < length system.now.calls }
    requires location { IsLocation system.now location }
    ensures { IsTrue result ↔ Gives system.now (members rows.now) (Constraint.Call number) row location }
{
    let call = call_at(system, number as usize);
    for target in 0..system.functions.len() {
        let function = function_at(system, target);
        if rows.has(call.callee, function.location)
            && function.signature == call.signature
            && gives_target(system, rows, call, target, function, row, location)
        {
            return true;
        }
    }
    false
}
