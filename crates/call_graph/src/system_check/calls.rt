// Calls of a valid system.
ghost use Rattle.std.specs.Prelude.{◌≢◌, ℕ, ◌<◌, ◌↔◌, All, AllPairs, length, IsTrue};
ghost use Rattle.std.specs.List.{slice_index_or};
ghost use Rattle.sol_model.specs.Systems.{IsLocation, IsCallValid};

use crate::system_check::facts::{are_lists_of_rows, are_rows};
use sol_model::{CallSite, System};

/// Whether each pair names a function, and the location of an object.
fn are_fresh_known(system: &System, fresh: &[(u32, u32)]) -> bool
    ensures { IsTrue result ↔ All (λ pair. (pair.0 < length system.now.functions) × IsLocation system.now pair.1) fresh.now }
{
    fresh.iter().all(|pair| {
        (pair.0 as usize) < system.functions.len() && (pair.1 as usize) < system.locations.len()
    })
}

/// Whether no later pair names the same function.
fn is_last_of_its_name(fresh: &[(u32, u32)], i: usize) -> bool
    requires { i < length fresh.now }
    ensures { IsTrue result
        ↔ ((j : ℕ) (d : ℕ × ℕ) → i < j → j < length fresh.now
        → (slice_index_or fresh.now i d).0 ≢ (slice_index_or fresh.now j d).0) }
{
    for j in i + 1..fresh.len() {
        if fresh[i].0 == fresh[j].0 {
            return false;
        }
    }
    true
}

/// Whether the pairs name each function at most once.
fn are_fresh_once(fresh: &[(u32, u32)]) -> bool
    ensures { IsTrue result ↔ AllPairs (λ one other. one.0 ≢ other.0) fresh.now }
{
    for i in 0..fresh.len() {
        if !is_last_of_its_name(fresh, i) {
            return false;
        }
    }
    true
}

/// Whether the new objects of a call are known, and belong to distinct functions.
fn are_fresh_valid(system: &System, fresh: &[(u32, u32)]) -> bool
    ensures { IsTrue result
        ↔ (All (λ pair. (pair.0 < length system.now.functions) × IsLocation system.now pair.1) fresh.now
        × AllPairs (λ one other. one.0 ≢ other.0) fresh.now) }
{
    if !are_fresh_known(system, fresh) {
        return false;
    }
    are_fresh_once(fresh)
}

/// Whether each number of a call is in range, and its new objects belong to distinct functions.
pub(in crate::system_check) fn is_call_valid(system: &System, call: &CallSite) -> bool
    ensures { IsTrue result ↔ IsCallValid system.now call.now }
{
    if call.caller as usize >= system.functions.len() || call.callee >= system.rows {
        return false;
    }
    if !are_lists_of_rows(system, call.arguments.as_slice()) {
        return false;
    }
    if !are_rows(system, call.result.as_slice()) {
        return false;
    }
    are_fresh_valid(system, call.fresh.as_slice())
}

/// Whether each call is valid.
pub(in crate::system_check) fn are_calls_valid(system: &System, calls: &[CallSite]) -> bool
    ensures { IsTrue result ↔ All (IsCallValid system.now) calls.now }
{
    calls.iter().all(|call| is_call_valid(system, call))
}
