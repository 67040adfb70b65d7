// Which functions a call reaches.
ghost use Rattle.std.specs.Prelude.{◌≡◌, ◌<◌, ◌↔◌, IsTrue, length};
ghost use Rattle.sol_model.specs.Families.{Has, members};
ghost use Rattle.sol_model.specs.Systems.{IsValid, Fits, IsCallValid, IsFunctionValid};
ghost use Rattle.sol_model.specs.Targets.{IsTargetOf};

use sol_model::sites::{call_at, function_at};
use sol_model::{CallSite, Function, Rows, System};

/// Whether a call's row of functions has a function, and both have one signature.
pub(crate) fn reaches(system: &System, rows: &Rows, call: &CallSite, function: &Function) -> bool
    requires valid { IsValid system.now }
    requires fits { Fits system.now rows.now }
    requires call { IsCallValid system.now call.now }
    requires function { IsFunctionValid system.now function.now }
    ensures { IsTrue result
        ↔ (Has (members rows.now) call.now.callee function.now.location × (function.now.signature ≡ call.now.signature)) }
{
    function.signature == call.signature && rows.has(call.callee, function.location)
}

/// Whether the call of this number may call the function of this number: the row of its callee has the function's
/// location, and the function has the call's signature. False where there is no such call or function. It takes no
/// memory.
pub fn is_target(system: &System, rows: &Rows, call: u32, function: u32) -> bool
    requires valid { IsValid system.now }
    requires fits { Fits system.now rows.now }
    ensures { IsTrue result ↔ IsTargetOf system.now (members rows.now) call function }
{
    if call as usize >= system.calls.len() {
        return false;
    }
    if function as usize >= system.functions.len() {
        return false;
    }
    reaches(
        system,
        rows,
        call_at(system, call as usize),
        function_at(system, function as usize),
    )
}
