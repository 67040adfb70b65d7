// Types, locations and functions of a valid system.
ghost use Rattle.std.specs.Prelude.{◌≡◌, ◌<◌, ◌↔◌, All, IsTrue};
ghost use Rattle.sol_model.specs.Systems.{IsRow, IsLocation, IsEffectValid, IsFunctionValid};

use pta_base::{Effect, Listing};
use sol_model::{Function, System, TypeFact};

/// Whether each number of a list is a row.
pub(in crate::system_check) fn are_rows(system: &System, rows: &[u32]) -> bool
    ensures { IsTrue result ↔ All (IsRow system.now) rows.now }
{
    rows.iter().all(|row| *row < system.rows)
}

/// Whether each number of several lists is a row.
pub(in crate::system_check) fn are_lists_of_rows(system: &System, lists: &[Listing<u32>]) -> bool
    ensures { IsTrue result ↔ All (λ rows. All (IsRow system.now) rows) lists.now }
{
    lists.iter().all(|rows| are_rows(system, rows.as_slice()))
}

/// Whether each member of a type stands at one of its nodes.
pub(in crate::system_check) fn are_members_valid(fact: &TypeFact) -> bool
    ensures { IsTrue result ↔ All (λ position. position < fact.now.nodes) fact.now.members }
{
    fact.members
        .as_slice()
        .iter()
        .all(|position| *position < fact.nodes)
}

/// Whether the members of each type stand at its nodes.
pub(in crate::system_check) fn are_types_valid(types: &[TypeFact]) -> bool
    ensures { IsTrue result ↔ All (λ fact. All (λ position. position < fact.nodes) fact.members) types.now }
{
    types.iter().all(are_members_valid)
}

/// Whether an effect names the argument number 0 in copies alone.
pub(in crate::system_check) fn is_effect_valid(effect: Effect) -> bool
    ensures { IsTrue result ↔ IsEffectValid effect }
{
    match effect {
        Effect::GivesArgument(k) => k > 0,
        Effect::StoresInto(i, j) => i > 0 && j > 0,
        Effect::CallsBack(k, None) => k > 0,
        Effect::CallsBack(k, Some((first, second))) => k > 0 && first > 0 && second > 0,
        Effect::Nothing | Effect::GivesNew | Effect::GivesObject(_) | Effect::Copies(_, _) => true,
    }
}

/// Whether each effect is valid.
pub(in crate::system_check) fn are_effects_valid(effects: &[Effect]) -> bool
    ensures { IsTrue result ↔ All IsEffectValid effects.now }
{
    effects.iter().all(|effect| is_effect_valid(*effect))
}

/// Whether each number of a function is in range, and its effects are valid.
pub(in crate::system_check) fn is_function_valid(system: &System, function: &Function) -> bool
    ensures { IsTrue result ↔ IsFunctionValid system.now function.now }
{
    (function.location as usize) < system.locations.len()
        && are_lists_of_rows(system, function.parameters.as_slice())
        && are_rows(system, function.result.as_slice())
        && are_effects_valid(function.effects.as_slice())
}

/// Whether each function is valid.
pub(in crate::system_check) fn are_functions_valid(system: &System, functions: &[Function]) -> bool
    ensures { IsTrue result ↔ All (IsFunctionValid system.now) functions.now }
{
    functions
        .iter()
        .all(|function| is_function_valid(system, function))
}
