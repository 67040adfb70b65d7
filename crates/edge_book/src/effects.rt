//! The edges that a target of a call demands where the callee's row has that target alone.
ghost use Rattle.std.specs.Prelude.{◌≡◌, ℕ, ◌↔◌, ◌<◌, OnOk, IfSome, Some, None, IsSome, Contains, length, slice_get};
ghost use Rattle.sol_model.specs.Families.{Has};
ghost use Rattle.sol_model.specs.Rules.{argument_row, IsInArgument, EffectEdge, TargetEdge, DemandsEdge};
ghost use Rattle.sol_model.specs.Systems.{IsValid, IsLocation, IsCallValid, IsFunctionValid};
ghost use Rattle.edge_book.specs.Edges.{only, Gains};

use crate::gather::{put_between, put_joined, put_objects, put_row_pairs};
use pta_base::{Effect, OutOfMemory};
use sol_model::locations::location_fact;
use sol_model::sites::{argument_row, call_at, effect_at, first_row, function_at};
use sol_model::{CallSite, Constraint, Function, System};

/// One of the objects that a call gets, with its library function.
fn fresh_at(call: &CallSite, i: usize) -> (u32, u32)
    requires { i < length call.now.fresh }
    ensures { slice_get call.now.fresh i ≡ Some result }
{
    call.fresh.as_slice()[i]
}

/// The object that a call gets from a library function.
fn fresh_of(system: &System, call: &CallSite, number: usize) -> Option<u32>
    requires { IsCallValid system.now call.now }
    ensures value { (object : ℕ) → (Contains call.now.fresh (number, object) ↔ (result ≡ Some object)) }
    ensures known { IfSome result (IsLocation system.now) }
{
    for i in 0..call.fresh.len() {
        let (function, object) = fresh_at(call, i);
        if function as usize == number {
            return Some(object);
        }
    }
    None
}

/// What an argument has in its row, where the callee's row has one location and no other row has any.
fn reached_of(system: &System, call: &CallSite, k: u8, location: u32) -> Option<u32>
    requires call { IsCallValid system.now call.now }
    requires location { IsLocation system.now location }
    ensures value { (object : ℕ)
        → (((row : ℕ) × (argument_row call.now k ≡ Some row) × Has (only call.now.callee location) row object)
        ↔ (result ≡ Some object)) }
    ensures known { IfSome result (IsLocation system.now) }
{
    if argument_row(system, call, k) == Some(call.callee) {
        Some(location)
    } else {
        None
    }
}

/// The one object that an argument has, in the same case. Number 0 stands for the object that the call gets.
fn object_of(system: &System, call: &CallSite, number: usize, k: u8, location: u32) -> Option<u32>
    requires call { IsCallValid system.now call.now }
    requires location { IsLocation system.now location }
    ensures value { (object : ℕ) → (IsInArgument (only call.now.callee location) call.now number k object ↔ (result ≡ Some object)) }
    ensures known { IfSome result (IsLocation system.now) }
{
    if k == 0 {
        fresh_of(system, call, number)
    } else {
        reached_of(system, call, k, location)
    }
}

/// The edges that one effect of a library function demands. A call back demands none: the only function that it may
/// reach is the library function itself, and a library function that is called back passes nothing on.
fn put_effect(
    pairs: &mut Vec<(u32, u32)>,
    system: &System,
    call: &CallSite,
    number: usize,
    function: &Function,
    library: u32,
    effect: Effect,
    location: u32,
) -> Result<(), OutOfMemory>
    requires valid { IsValid system.now }
    requires call { IsCallValid system.now call.now }
    requires function { slice_get system.now.functions number ≡ Some function.now }
    requires location { IsLocation system.now location × (function.now.location ≡ location) }
    requires library { function.now.library ≡ Some library }
    ensures { OnOk result
        (Gains pairs.old.items pairs.new.items (EffectEdge system.now (only call.now.callee location) call.now number effect)) }
{
    match effect {
        Effect::Nothing => {}
        Effect::GivesArgument(k) => {
            let from = argument_row(system, call, k);
            let to = first_row(system, call.result.as_slice());
            put_between(pairs, from, to)?;
        }
        Effect::GivesNew => {}
        Effect::GivesObject(_) => {}
        Effect::Copies(i, j) => {
            let to = object_of(system, call, number, i, location);
            let from = object_of(system, call, number, j, location);
            put_objects(pairs, system, to, from)?;
        }
        Effect::StoresInto(i, j) => {
            let from = argument_row(system, call, j);
            let to = reached_of(system, call, i, location);
            put_between(pairs, from, to)?;
        }
        Effect::CallsBack(_, _) => {}
    }
    Ok(())
}

/// The edges that a target demands that is no library function.
fn put_plain(
    pairs: &mut Vec<(u32, u32)>,
    system: &System,
    call: &CallSite,
    number: usize,
    function: &Function,
    location: u32,
) -> Result<(), OutOfMemory>
    requires call { IsCallValid system.now call.now }
    requires known { IsFunctionValid system.now function.now }
    ensures { OnOk result
        (Gains pairs.old.items pairs.new.items
        (TargetEdge system.now (only call.now.callee location) call.now number function.now None)) }
{
    put_joined(
        pairs,
        system,
        call.arguments.as_slice(),
        function.parameters.as_slice(),
    )?;
    put_row_pairs(
        pairs,
        system,
        function.result.as_slice(),
        call.result.as_slice(),
    )?;
    Ok(())
}

/// The edges that a target demands that is a library function.
fn put_effects(
    pairs: &mut Vec<(u32, u32)>,
    system: &System,
    call: &CallSite,
    number: usize,
    function: &Function,
    library: u32,
    location: u32,
) -> Result<(), OutOfMemory>
    requires valid { IsValid system.now }
    requires call { IsCallValid system.now call.now }
    requires function { slice_get system.now.functions number ≡ Some function.now }
    requires location { IsLocation system.now location × (function.now.location ≡ location) }
    requires library { function.now.library ≡ Some library }
    ensures { OnOk result
        (Gains pairs.old.items pairs.new.items
        (TargetEdge system.now (only call.now.callee location) call.now number function.now (Some library))) }
{
    for i in 0..function.effects.len() {
        let effect = effect_at(function, i);
        put_effect(
            pairs, system, call, number, function, library, effect, location,
        )?;
    }
    Ok(())
}

/// The edges that a target demands.
fn put_target(
    pairs: &mut Vec<(u32, u32)>,
    system: &System,
    call: &CallSite,
    number: usize,
    function: &Function,
    location: u32,
) -> Result<(), OutOfMemory>
    requires valid { IsValid system.now }
    requires call { IsCallValid system.now call.now }
    requires function { slice_get system.now.functions number ≡ Some function.now }
    requires known { IsFunctionValid system.now function.now }
    requires location { IsLocation system.now location × (function.now.location ≡ location) }
    ensures { OnOk result
        (Gains pairs.old.items pairs.new.items
        (TargetEdge system.now (only call.now.callee location) call.now number function.now function.now.library)) }
{
    match function.library {
        None => put_plain(pairs, system, call, number, function, location),
        Some(library) => put_effects(pairs, system, call, number, function, library, location),
    }
}

/// The edges that a call demands where its callee's row has one location and no other row has any.
pub(crate) fn put_call(
    pairs: &mut Vec<(u32, u32)>,
    system: &System,
    call: u32,
    location: u32,
) -> Result<(), OutOfMemory>
    requires valid { IsValid system.now }
    requires call { call < length system.now.calls }
    requires location { IsLocation system.now location }
    ensures { (site : CallSite)
        → slice_get system.now.calls call ≡ Some site
        → OnOk result
        (Gains pairs.old.items pairs.new.items (DemandsEdge system.now (only site.callee location) (Constraint.Call call))) }
{
    let site = call_at(system, call as usize);
    let Some(number) = location_fact(system, location).function else {
        return Ok(());
    };
    let function = function_at(system, number as usize);
    if function.location == location && function.signature == site.signature {
        put_target(pairs, system, site, number as usize, function, location)?;
    }
    Ok(())
}
