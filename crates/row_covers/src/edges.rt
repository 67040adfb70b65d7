// The edges of the call graph, one at a time and without memory.

ghost use Rattle.std.specs.Prelude.{◌≡◌, ◌↔◌, IsTrue, Contains};
ghost use Rattle.sol_model.specs.declared.system.CallSite.{CallSite as Site};
ghost use Rattle.sol_model.specs.Families.{Has, members};
ghost use Rattle.sol_model.specs.Rules.{argument_row, back_signature};
ghost use Rattle.sol_model.specs.Systems.{Fits};
ghost use Rattle.sol_model.specs.Targets.{IsTargetOf, IsGraphEdge, CallsBackIn};
ghost use Rattle.row_covers.specs.Edges.{TakesBack, EffectTakes, Reaches, IsBackBy, HasBack, ReachesBack, IsBackOf, HasCall};

use pta_base::Effect;
use sol_model::sites::back_signature;
use sol_model::{CallSite, Function, Rows, System};

/// Whether a row's set has a location; none where there is no such row or location. It takes no memory.
pub fn has(system: &System, rows: &Rows, row: u64, location: u32) -> bool
    requires { Fits system.now rows.now }
    ensures { IsTrue result ↔ Has (members rows.now) row location }
{
    if row >= u64::from(system.rows) || location as usize >= system.locations.len() {
        return false;
    }
    rows.has(row as u32, location)
}

// The row of an argument, numbered from 1; none where the call has no such argument.
fn argument_row(call: &CallSite, k: u8) -> Option<u32>
    ensures { result ≡ argument_row call.now k }
{
    if k == 0 {
        return None;
    }
    let rows = call.arguments.as_slice().get(k as usize - 1)?;
    rows.as_slice().first().copied()
}

// Whether an argument has a function, of the signature by which it is called back.
fn takes_back(
    system: &System,
    rows: &Rows,
    call: &CallSite,
    back: &Function,
    k: u8,
    passed: Option<(u8, u8)>,
) -> bool
    requires { Fits system.now rows.now }
    ensures { IsTrue result ↔ TakesBack (members rows.now) call.now back.now k passed }
{
    match argument_row(call, k) {
        Some(row) => {
            has(system, rows, u64::from(row), back.location)
                && back.signature == back_signature(passed)
        }
        None => false,
    }
}

// Whether an effect calls a function back.
fn effect_takes(
    system: &System,
    rows: &Rows,
    call: &CallSite,
    back: &Function,
    effect: Effect,
) -> bool
    requires { Fits system.now rows.now }
    ensures { IsTrue result ↔ EffectTakes (members rows.now) call.now back.now effect }
{
    match effect {
        Effect::CallsBack(k, passed) => takes_back(system, rows, call, back, k, passed),
        Effect::Nothing | Effect::GivesArgument(_) | Effect::GivesNew => false,
        Effect::GivesObject(_) | Effect::Copies(_, _) | Effect::StoresInto(_, _) => false,
    }
}

// Whether the effects of a function of the library call a function back.
fn is_back_by(
    system: &System,
    rows: &Rows,
    call: &CallSite,
    library: &Function,
    back: &Function,
) -> bool
    requires { Fits system.now rows.now }
    ensures { IsTrue result ↔ IsBackBy (members rows.now) call.now library.now back.now }
{
    library
        .effects
        .as_slice()
        .iter()
        .any(|effect| effect_takes(system, rows, call, back, *effect))
}

// Whether a call's row of functions has a function, and both have one signature.
fn reaches(system: &System, rows: &Rows, call: &CallSite, function: &Function) -> bool
    requires { Fits system.now rows.now }
    ensures { IsTrue result ↔ Reaches (members rows.now) call.now function.now }
{
    has(system, rows, u64::from(call.callee), function.location)
        && function.signature == call.signature
}

// Whether a call reaches a function of the library that calls a function back.
fn has_back(
    system: &System,
    rows: &Rows,
    library: &Function,
    back: &Function,
    call: &CallSite,
) -> bool
    requires { Fits system.now rows.now }
    ensures { IsTrue result ↔ HasBack (members rows.now) library.now back.now call.now }
{
    library.library.is_some()
        && reaches(system, rows, call, library)
        && is_back_by(system, rows, call, library, back)
}

// Whether some call reaches a function of the library that calls a function back.
fn some_back(system: &System, rows: &Rows, library: &Function, back: &Function) -> bool
    requires { Fits system.now rows.now }
    ensures { IsTrue result ↔ ((call : Site) × Contains system.now.calls call × HasBack (members rows.now) library.now back.now call) }
{
    system
        .calls
        .as_slice()
        .iter()
        .any(|call| has_back(system, rows, library, back, call))
}

/// Whether a function of the library calls a function back; both are told by their numbers, and where there is no such
/// number it is false. It takes no memory.
pub fn calls_back(system: &System, rows: &Rows, library: u32, back: u32) -> bool
    requires { Fits system.now rows.now }
    ensures { IsTrue result ↔ CallsBackIn system.now (members rows.now) library back }
{
    let functions = system.functions.as_slice();
    let Some(from) = functions.get(library as usize) else {
        return false;
    };
    let Some(to) = functions.get(back as usize) else {
        return false;
    };
    some_back(system, rows, from, to)
}

// Whether a call reaches a function of the library that calls a function back.
fn reaches_back(
    system: &System,
    rows: &Rows,
    call: &CallSite,
    back: &Function,
    library: &Function,
) -> bool
    requires { Fits system.now rows.now }
    ensures { IsTrue result ↔ ReachesBack system.now (members rows.now) call.now back.now library.now }
{
    reaches(system, rows, call, library) && some_back(system, rows, library, back)
}

/// Whether a call reaches some function of the library that calls a function back. It takes no memory.
pub fn is_back_of(system: &System, rows: &Rows, call: &CallSite, back: &Function) -> bool
    requires { Fits system.now rows.now }
    ensures { IsTrue result ↔ IsBackOf system.now (members rows.now) call.now back.now }
{
    system
        .functions
        .as_slice()
        .iter()
        .any(|library| reaches_back(system, rows, call, back, library))
}

// Whether a call is a function's, and reaches a function.
fn has_call(system: &System, rows: &Rows, caller: u32, callee: &Function, call: &CallSite) -> bool
    requires { Fits system.now rows.now }
    ensures { IsTrue result ↔ HasCall (members rows.now) caller callee.now call.now }
{
    call.caller == caller && reaches(system, rows, call, callee)
}

// Whether some call of a function reaches a function.
fn some_call(system: &System, rows: &Rows, caller: u32, callee: &Function) -> bool
    requires { Fits system.now rows.now }
    ensures { IsTrue result ↔ ((call : Site) × Contains system.now.calls call × HasCall (members rows.now) caller callee.now call) }
{
    system
        .calls
        .as_slice()
        .iter()
        .any(|call| has_call(system, rows, caller, callee, call))
}

/// Whether the call of that number reaches the function of that number; false where there is no such number. It takes no
/// memory.
pub fn is_target(system: &System, rows: &Rows, call: usize, function: u32) -> bool
    requires { Fits system.now rows.now }
    ensures { IsTrue result ↔ IsTargetOf system.now (members rows.now) call function }
{
    let Some(from) = system.calls.as_slice().get(call) else {
        return false;
    };
    let Some(to) = system.functions.as_slice().get(function as usize) else {
        return false;
    };
    reaches(system, rows, from, to)
}

/// Whether an edge stands in the call graph: a function has a call that reaches the other one, or it is of the library
/// and calls the other one back. Both are told by their numbers. It takes no memory.
pub fn is_edge(system: &System, rows: &Rows, caller: u32, callee: u32) -> bool
    requires { Fits system.now rows.now }
    ensures { IsTrue result ↔ IsGraphEdge system.now (members rows.now) caller callee }
{
    let Some(to) = system.functions.as_slice().get(callee as usize) else {
        return false;
    };
    some_call(system, rows, caller, to) || calls_back(system, rows, caller, callee)
}
