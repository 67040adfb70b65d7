// The parts of call sites and functions that the rule of a call reads.
ghost use Rattle.std.specs.Prelude.{◌≡◌, ◌<◌, option_and_then, All, Some, length, IfSome, IsTrue, ◌↔◌, Contains, slice_get};
ghost use Rattle.sol_model.specs.Families.{members};
ghost use Rattle.sol_model.specs.Rules.{first_row, argument_row, parameter_row, back_signature, IsInArgument};
ghost use Rattle.sol_model.specs.Systems.{IsValid, Fits, IsRow, IsLocation, IsConstraintValid, IsCallValid, IsFunctionValid};

use crate::{CallSite, Constraint, Function, Rows, System};
use pta_base::{Effect, Listing};

/// One row of a list of rows.
pub fn row_at(system: &System, list: &[u32], i: usize) -> u32
    requires rows { All (IsRow system.now) list.now }
    requires i { i < length list.now }
    ensures value { slice_get list.now i ≡ Some result }
    ensures known { IsRow system.now result }
{
    list[i]
}

/// One of several lists of rows, as those of one argument or parameter.
pub fn rows_at<'a>(system: &System, lists: &'a [Listing<u32>], i: usize) -> &'a [u32]
    requires rows { All (λ rows. All (IsRow system.now) rows) lists.now }
    requires i { i < length lists.now }
    ensures value { slice_get lists.now i ≡ Some result.now }
    ensures known { All (IsRow system.now) result.now }
{
    lists[i].as_slice()
}

/// The first row of a list of rows; none where the list is empty.
pub fn first_row(system: &System, rows: &[u32]) -> Option<u32>
    requires rows { All (IsRow system.now) rows.now }
    ensures value { result ≡ first_row rows.now }
    ensures known { IfSome result (IsRow system.now) }
{
    if rows.is_empty() {
        return None;
    }
    Some(row_at(system, rows, 0))
}

/// The first row of one of several lists of rows.
fn first_row_of(system: &System, lists: &[Listing<u32>], k: usize) -> Option<u32>
    requires rows { All (λ rows. All (IsRow system.now) rows) lists.now }
    ensures value { result ≡ option_and_then first_row (slice_get lists.now k) }
    ensures known { IfSome result (IsRow system.now) }
{
    if k >= lists.len() {
        return None;
    }
    first_row(system, rows_at(system, lists, k))
}

/// The row of an argument, numbered from 1; none where the call has no such argument.
pub fn argument_row(system: &System, call: &CallSite, k: u8) -> Option<u32>
    requires call { IsCallValid system.now call.now }
    ensures value { result ≡ argument_row call.now k }
    ensures known { IfSome result (IsRow system.now) }
{
    if k == 0 {
        return None;
    }
    first_row_of(system, call.arguments.as_slice(), k as usize - 1)
}

/// The row of a parameter, numbered from 0; none where the function has no such parameter.
pub fn parameter_row(system: &System, function: &Function, k: usize) -> Option<u32>
    requires function { IsFunctionValid system.now function.now }
    ensures value { result ≡ parameter_row function.now k }
    ensures known { IfSome result (IsRow system.now) }
{
    first_row_of(system, function.parameters.as_slice(), k)
}

/// One function of the system.
pub fn function_at(system: &System, number: usize) -> &Function
    requires valid { IsValid system.now }
    requires known { number < length system.now.functions }
    ensures value { slice_get system.now.functions number ≡ Some result.now }
    ensures known { IsFunctionValid system.now result.now }
{
    &system.functions.as_slice()[number]
}

/// One call of the system.
pub fn call_at(system: &System, number: usize) -> &CallSite
    requires valid { IsValid system.now }
    requires known { number < length system.now.calls }
    ensures value { slice_get system.now.calls number ≡ Some result.now }
    ensures known { IsCallValid system.now result.now }
{
    &system.calls.as_slice()[number]
}

/// One constraint of the system.
pub fn constraint_at(system: &System, i: usize) -> Constraint
    requires valid { IsValid system.now }
    requires known { i < length system.now.constraints }
    ensures value { slice_get system.now.constraints i ≡ Some result }
    ensures known { IsConstraintValid system.now result }
{
    system.constraints.as_slice()[i]
}

/// One effect of a function.
pub fn effect_at(function: &Function, i: usize) -> Effect
    requires { i < length function.now.effects }
    ensures { slice_get function.now.effects i ≡ Some result }
{
    function.effects.as_slice()[i]
}

/// The signature of a call back: 0 where it passes two arguments, as `qsort` does (C11 7.22.5.2), and 1 where it
/// passes none, as `atexit` does (C11 7.22.4.2).
pub fn back_signature(passed: Option<(u8, u8)>) -> u32
    ensures { result ≡ back_signature passed }
{
    match passed {
        None => 1,
        Some(_) => 0,
    }
}

/// Whether a call gets the object at a location from the library function of this number.
pub fn is_fresh(call: &CallSite, number: usize, location: u32) -> bool
    ensures { IsTrue result ↔ Contains call.now.fresh (number, location) }
{
    for pair in call.fresh.as_slice() {
        if pair.0 as usize == number && pair.1 == location {
            return true;
        }
    }
    false
}

/// Whether an argument has a location. Number 0 stands for the object that the call gets from the library function of
/// this number; an argument that the call doesn't have has nothing.
pub fn is_in_argument(
    system: &System,
    rows: &Rows,
    call: &CallSite,
    number: usize,
    k: u8,
    location: u32,
) -> bool
    requires valid { IsValid system.now }
    requires fits { Fits system.now rows.now }
    requires call { IsCallValid system.now call.now }
    requires location { IsLocation system.now location }
    ensures { IsTrue result ↔ IsInArgument (members rows.now) call.now number k location }
{
    if k == 0 {
        return is_fresh(call, number, location);
    }
    match argument_row(system, call, k) {
        Some(row) => rows.has(row, location),
        None => false,
    }
}
