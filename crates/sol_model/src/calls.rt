// The first fact that the rule of a Call demands and the rows lack.
ghost use Rattle.std.specs.Prelude.{◌≡◌, ℕ, ◌<◌, All, Some, None, length, IfSome, IfNone, Contains, zip};
ghost use Rattle.sol_model.specs.Families.{Has, members};
ghost use Rattle.sol_model.specs.Rules.{Satisfies, Misses, IsMet, IsMissing, Nowhere, AreJoined, IntoArgumentEdge};
ghost use Rattle.sol_model.specs.Rules.{EffectEdge, EffectFact, TargetEdge, TargetFact, PassesBack};
ghost use Rattle.sol_model.specs.Systems.{IsValid, Fits, IsRow, IsLocation, IsCallValid, IsFunctionValid};

use crate::rows::Fact;
use crate::sites::{
    argument_row, back_signature, call_at, effect_at, first_row, function_at, is_fresh,
    is_in_argument, parameter_row, row_at, rows_at,
};
use crate::{CallSite, Constraint, Function, Rows, System, missing};
use pta_base::{Effect, Listing};

/// Rows of two lists, place by place.
fn missing_row_pairs(system: &System, rows: &Rows, from: &[u32], to: &[u32]) -> Option<Fact>
    requires valid { IsValid system.now }
    requires fits { Fits system.now rows.now }
    requires from { All (IsRow system.now) from.now }
    requires to { All (IsRow system.now) to.now }
    ensures found { IfSome result
        (λ fact. IsMissing (λ a b. Contains (zip from.now to.now) (a, b)) Nowhere (members rows.now) fact.row fact.location) }
    ensures none { IfNone result (IsMet (λ a b. Contains (zip from.now to.now) (a, b)) Nowhere (members rows.now)) }
{
    for i in 0..from.len().min(to.len()) {
        let source = row_at(system, from, i);
        let target = row_at(system, to, i);
        if let Some(fact) = rows.lacking(source, target) {
            return Some(fact);
        }
    }
    None
}

/// Lists of rows, place by place.
fn missing_joined(
    system: &System,
    rows: &Rows,
    from: &[Listing<u32>],
    to: &[Listing<u32>],
) -> Option<Fact>
    requires valid { IsValid system.now }
    requires fits { Fits system.now rows.now }
    requires from { All (λ rows. All (IsRow system.now) rows) from.now }
    requires to { All (λ rows. All (IsRow system.now) rows) to.now }
    ensures found { IfSome result (λ fact. IsMissing (AreJoined from.now to.now) Nowhere (members rows.now) fact.row fact.location) }
    ensures none { IfNone result (IsMet (AreJoined from.now to.now) Nowhere (members rows.now)) }
{
    for i in 0..from.len().min(to.len()) {
        if let Some(fact) = missing_row_pairs(
            system,
            rows,
            rows_at(system, from, i),
            rows_at(system, to, i),
        ) {
            return Some(fact);
        }
    }
    None
}

/// One row into another, where both are there.
fn missing_between(system: &System, rows: &Rows, from: Option<u32>, to: Option<u32>) -> Option<Fact>
    requires valid { IsValid system.now }
    requires fits { Fits system.now rows.now }
    requires from { IfSome from (IsRow system.now) }
    requires to { IfSome to (IsRow system.now) }
    ensures found { IfSome result (λ fact. IsMissing (λ a b. (from ≡ Some a) × (to ≡ Some b)) Nowhere (members rows.now) fact.row fact.location) }
    ensures none { IfNone result (IsMet (λ a b. (from ≡ Some a) × (to ≡ Some b)) Nowhere (members rows.now)) }
{
    match (from, to) {
        (Some(source), Some(target)) => rows.lacking(source, target),
        _ => None,
    }
}

/// A row into the row of each member of another.
fn missing_stores(
    system: &System,
    rows: &Rows,
    into: Option<u32>,
    from: Option<u32>,
) -> Option<Fact>
    requires valid { IsValid system.now }
    requires fits { Fits system.now rows.now }
    requires into { IfSome into (IsRow system.now) }
    requires from { IfSome from (IsRow system.now) }
    ensures found { IfSome result
        (λ fact. IsMissing (λ a b. (row : ℕ) × (into ≡ Some row) × Has (members rows.now) row b × (from ≡ Some a)) Nowhere
        (members rows.now) fact.row fact.location) }
    ensures none { IfNone result
        (IsMet (λ a b. (row : ℕ) × (into ≡ Some row) × Has (members rows.now) row b × (from ≡ Some a)) Nowhere (members rows.now)) }
{
    let (Some(row), Some(source)) = (into, from) else {
        return None;
    };
    for location in 0..system.locations.len() as u32 {
        if rows.has(row, location)
            && let Some(fact) = rows.lacking(source, location)
        {
            return Some(fact);
        }
    }
    None
}

/// The object that a call gets from a library function goes into a row.
fn missing_fresh(system: &System, rows: &Rows, call: &CallSite, number: usize) -> Option<Fact>
    requires valid { IsValid system.now }
    requires fits { Fits system.now rows.now }
    requires call { IsCallValid system.now call.now }
    ensures found { IfSome result
        (λ fact. IsMissing Nowhere (EffectFact call.now number Effect.GivesNew) (members rows.now) fact.row fact.location) }
    ensures none { IfNone result (IsMet Nowhere (EffectFact call.now number Effect.GivesNew) (members rows.now)) }
{
    let row = first_row(system, call.result.as_slice())?;
    for location in 0..system.locations.len() as u32 {
        if is_fresh(call, number, location) && !rows.has(row, location) {
            return Some(Fact { row, location });
        }
    }
    None
}

/// Copies to one whole object from each that an argument has.
fn missing_into_argument(
    system: &System,
    rows: &Rows,
    call: &CallSite,
    number: usize,
    to: u32,
    k: u8,
) -> Option<Fact>
    requires valid { IsValid system.now }
    requires fits { Fits system.now rows.now }
    requires call { IsCallValid system.now call.now }
    requires to { IsLocation system.now to }
    ensures found { IfSome result
        (λ fact. IsMissing (IntoArgumentEdge system.now (members rows.now) call.now number to k) Nowhere
        (members rows.now) fact.row fact.location) }
    ensures none { IfNone result (IsMet (IntoArgumentEdge system.now (members rows.now) call.now number to k) Nowhere (members rows.now)) }
{
    for from in 0..system.locations.len() as u32 {
        if is_in_argument(system, rows, call, number, k, from)
            && let Some(fact) = missing::missing_pairs(system, rows, to, from)
        {
            return Some(fact);
        }
    }
    None
}

/// Copies between the objects of two arguments.
fn missing_copies(
    system: &System,
    rows: &Rows,
    call: &CallSite,
    number: usize,
    i: u8,
    j: u8,
) -> Option<Fact>
    requires valid { IsValid system.now }
    requires fits { Fits system.now rows.now }
    requires call { IsCallValid system.now call.now }
    ensures found { IfSome result
        (λ fact. IsMissing (EffectEdge system.now (members rows.now) call.now number (Effect.Copies i j)) Nowhere
        (members rows.now) fact.row fact.location) }
    ensures none { IfNone result
        (IsMet (EffectEdge system.now (members rows.now) call.now number (Effect.Copies i j)) Nowhere (members rows.now)) }
{
    for target in 0..system.locations.len() as u32 {
        if is_in_argument(system, rows, call, number, i, target)
            && let Some(fact) = missing_into_argument(system, rows, call, number, target, j)
        {
            return Some(fact);
        }
    }
    None
}

/// The arguments of a call back into the parameters of one function.
fn missing_passed(
    system: &System,
    rows: &Rows,
    call: &CallSite,
    passed: Option<(u8, u8)>,
    function: &Function,
) -> Option<Fact>
    requires valid { IsValid system.now }
    requires fits { Fits system.now rows.now }
    requires call { IsCallValid system.now call.now }
    requires function { IsFunctionValid system.now function.now }
    ensures found { IfSome result
        (λ fact. IsMissing (PassesBack call.now passed function.now) Nowhere (members rows.now) fact.row fact.location) }
    ensures none { IfNone result (IsMet (PassesBack call.now passed function.now) Nowhere (members rows.now)) }
{
    let (first, second) = passed?;
    if function.library.is_some() {
        return None;
    }
    let missing = missing_between(
        system,
        rows,
        argument_row(system, call, first),
        parameter_row(system, function, 0),
    );
    if missing.is_some() {
        return missing;
    }
    missing_between(
        system,
        rows,
        argument_row(system, call, second),
        parameter_row(system, function, 1),
    )
}

/// The call backs of one argument.
fn missing_backs(
    system: &System,
    rows: &Rows,
    call: &CallSite,
    number: usize,
    k: u8,
    passed: Option<(u8, u8)>,
) -> Option<Fact>
    requires valid { IsValid system.now }
    requires fits { Fits system.now rows.now }
    requires call { IsCallValid system.now call.now }
    ensures found { IfSome result
        (λ fact. IsMissing (EffectEdge system.now (members rows.now) call.now number (Effect.CallsBack k passed)) Nowhere
        (members rows.now) fact.row fact.location) }
    ensures none { IfNone result
        (IsMet (EffectEdge system.now (members rows.now) call.now number (Effect.CallsBack k passed)) Nowhere (members rows.now)) }
{
    let row = argument_row(system, call, k)?;
    for back in 0..system.functions.len() {
        let function = function_at(system, back);
        if rows.has(row, function.location)
            && function.signature == back_signature(passed)
            && let Some(fact) = missing_passed(system, rows, call, passed, function)
        {
            return Some(fact);
        }
    }
    None
}

/// What one effect of a library function demands.
fn missing_effect(
    system: &System,
    rows: &Rows,
    call: &CallSite,
    number: usize,
    effect: Effect,
) -> Option<Fact>
    requires valid { IsValid system.now }
    requires fits { Fits system.now rows.now }
    requires call { IsCallValid system.now call.now }
    ensures found { IfSome result
        (λ fact. IsMissing (EffectEdge system.now (members rows.now) call.now number effect) (EffectFact call.now number effect)
        (members rows.now) fact.row fact.location) }
    ensures none { IfNone result
        (IsMet (EffectEdge system.now (members rows.now) call.now number effect) (EffectFact call.now number effect)
        (members rows.now)) }
{
    match effect {
        Effect::Nothing => None,
        Effect::GivesArgument(k) => missing_between(
            system,
            rows,
            argument_row(system, call, k),
            first_row(system, call.result.as_slice()),
        ),
        Effect::GivesNew => missing_fresh(system, rows, call, number),
        Effect::GivesObject(_) => missing_fresh(system, rows, call, number),
        Effect::Copies(i, j) => missing_copies(system, rows, call, number, i, j),
        Effect::StoresInto(i, j) => missing_stores(
            system,
            rows,
            argument_row(system, call, i),
            argument_row(system, call, j),
        ),
        Effect::CallsBack(k, passed) => missing_backs(system, rows, call, number, k, passed),
    }
}

/// A function's result goes into a call's.
fn missing_results(
    system: &System,
    rows: &Rows,
    call: &CallSite,
    function: &Function,
) -> Option<Fact>
    requires valid { IsValid system.now }
    requires fits { Fits system.now rows.now }
    requires call { IsCallValid system.now call.now }
    requires function { IsFunctionValid system.now function.now }
    ensures found { IfSome result
        (λ fact. IsMissing (λ a b. Contains (zip function.now.result call.now.result) (a, b)) Nowhere
        (members rows.now) fact.row fact.location) }
    ensures none { IfNone result (IsMet (λ a b. Contains (zip function.now.result call.now.result) (a, b)) Nowhere (members rows.now)) }
{
    missing_row_pairs(
        system,
        rows,
        function.result.as_slice(),
        call.result.as_slice(),
    )
}

/// What a target that is no library function demands.
fn missing_plain(
    system: &System,
    rows: &Rows,
    call: &CallSite,
    number: usize,
    function: &Function,
) -> Option<Fact>
    requires valid { IsValid system.now }
    requires fits { Fits system.now rows.now }
    requires call { IsCallValid system.now call.now }
    requires function { IsFunctionValid system.now function.now }
    ensures found { IfSome result
        (λ fact. IsMissing (TargetEdge system.now (members rows.now) call.now number function.now None) Nowhere
        (members rows.now) fact.row fact.location) }
    ensures none { IfNone result
        (IsMet (TargetEdge system.now (members rows.now) call.now number function.now None) Nowhere (members rows.now)) }
{
    if let Some(fact) = missing_joined(
        system,
        rows,
        call.arguments.as_slice(),
        function.parameters.as_slice(),
    ) {
        return Some(fact);
    }
    if let Some(fact) = missing_results(system, rows, call, function) {
        return Some(fact);
    }
    None
}

/// What a target demands that is a library function.
fn missing_effects(
    system: &System,
    rows: &Rows,
    call: &CallSite,
    number: usize,
    function: &Function,
    library: u32,
) -> Option<Fact>
    requires valid { IsValid system.now }
    requires fits { Fits system.now rows.now }
    requires call { IsCallValid system.now call.now }
    ensures found { IfSome result
        (λ fact. IsMissing (TargetEdge system.now (members rows.now) call.now number function.now (Some library))
        (TargetFact call.now number function.now (Some library)) (members rows.now) fact.row fact.location) }
    ensures none { IfNone result
        (IsMet (TargetEdge system.now (members rows.now) call.now number function.now (Some library))
        (TargetFact call.now number function.now (Some library)) (members rows.now)) }
{
    for i in 0..function.effects.len() {
        let effect = effect_at(function, i);
        if let Some(fact) = missing_effect(system, rows, call, number, effect) {
            return Some(fact);
        }
    }
    None
}

/// What a target demands.
fn missing_target(
    system: &System,
    rows: &Rows,
    call: &CallSite,
    number: usize,
    function: &Function,
) -> Option<Fact>
    requires valid { IsValid system.now }
    requires fits { Fits system.now rows.now }
    requires call { IsCallValid system.now call.now }
    requires function { IsFunctionValid system.now function.now }
    ensures found { IfSome result
        (λ fact. IsMissing (TargetEdge system.now (members rows.now) call.now number function.now function.now.library)
        (TargetFact call.now number function.now function.now.library) (members rows.now) fact.row fact.location) }
    ensures none { IfNone result
        (IsMet (TargetEdge system.now (members rows.now) call.now number function.now function.now.library)
        (TargetFact call.now number function.now function.now.library) (members rows.now)) }
{
    match function.library {
        None => missing_plain(system, rows, call, number, function),
        Some(library) => missing_effects(system, rows, call, number, function, library),
    }
}

/// The rule of a Call.
pub(crate) fn missing_call(system: &System, rows: &Rows, number: u32) -> Option<Fact>
    requires valid { IsValid system.now }
    requires fits { Fits system.now rows.now }
    requires known { number < length system.now.calls }
    ensures found { IfSome result (λ fact. Misses system.now (members rows.now) (Constraint.Call number) fact.row fact.location) }
    ensures none { IfNone result (Satisfies system.now (members rows.now) (Constraint.Call number)) }
{
    let call = call_at(system, number as usize);
    for target in 0..system.functions.len() {
        let function = function_at(system, target);
        if rows.has(call.callee, function.location)
            && function.signature == call.signature
            && let Some(fact) = missing_target(system, rows, call, target, function)
        {
            return Some(fact);
        }
    }
    None
}
