//! What the effects of a library function demand of a call: all of it where the call has newly reached the function, and
//! what new members of an argument add where it had.
ghost use Rattle.std.specs.Prelude.{◌≡◌, ℕ, OnOk, All, Some, Contains, slice_get};
ghost use Rattle.pta_base.specs.declared.effect.Effect.{Effect};
ghost use Rattle.edge_book.specs.Edges.{Gains};
ghost use Rattle.sol_model.specs.Families.{members};
ghost use Rattle.sol_model.specs.Rules.{EffectEdge, EffectFact};
ghost use Rattle.sol_model.specs.Systems.{IsValid, Fits, IsLocation, IsCallValid};
ghost use Rattle.new_members.specs.News.{NewEdge};

use crate::lists::{News, argument_members, fresh_members, members_of_any, news_of};
use crate::pairs::{put_backs, put_copies, put_stores};
use edge_book::gather::put_between;
use pta_base::{Effect, OutOfMemory};
use sol_model::sites::{argument_row, effect_at, first_row};
use sol_model::{CallSite, Function, Rows, System};
use std::alloc::Global;

/// The edges that an effect demands of a call.
fn enter_effect(
    alloc: Global,
    pairs: &mut Vec<(u32, u32)>,
    system: &System,
    rows: &Rows,
    call: &CallSite,
    number: usize,
    effect: Effect,
) -> Result<(), OutOfMemory>
    requires valid { IsValid system.now }
    requires fits { Fits system.now rows.now }
    requires call { IsCallValid system.now call.now }
    ensures { OnOk result (Gains pairs.old.items pairs.new.items (EffectEdge system.now (members rows.now) call.now number effect)) }
{
    match effect {
        Effect::Nothing => {}
        Effect::GivesArgument(k) => {
            let from = argument_row(system, call, k);
            let to = first_row(system, call.result.as_slice());
            put_between(pairs, from, to)?;
        }
        Effect::GivesNew => {}
        Effect::GivesObject(_) => {}
        Effect::Copies(i, j) => {
            let tos = argument_members(alloc, system, rows, call, number, i)?;
            let froms = argument_members(alloc, system, rows, call, number, j)?;
            put_copies(pairs, system, tos.as_slice(), froms.as_slice())?;
        }
        Effect::StoresInto(i, j) => {
            let from = argument_row(system, call, j);
            let tos = members_of_any(alloc, system, rows, argument_row(system, call, i))?;
            put_stores(pairs, from, tos.as_slice())?;
        }
        Effect::CallsBack(k, passed) => {
            let backs = members_of_any(alloc, system, rows, argument_row(system, call, k))?;
            put_backs(pairs, system, call, passed, backs.as_slice())?;
        }
    }
    Ok(())
}

/// The fact that an effect demands of a call.
fn enter_fresh(
    alloc: Global,
    facts: &mut Vec<(u32, u32)>,
    system: &System,
    call: &CallSite,
    number: usize,
    effect: Effect,
) -> Result<(), OutOfMemory>
    requires call { IsCallValid system.now call.now }
    ensures { OnOk result (Gains facts.old.items facts.new.items (EffectFact call.now number effect)) }
{
    match effect {
        Effect::Nothing => {}
        Effect::GivesArgument(_) => {}
        Effect::GivesNew => put_fresh(alloc, facts, system, call, number)?,
        Effect::GivesObject(_) => put_fresh(alloc, facts, system, call, number)?,
        Effect::Copies(_, _) => {}
        Effect::StoresInto(_, _) => {}
        Effect::CallsBack(_, _) => {}
    }
    Ok(())
}

/// The object that a call gets from a library function goes into the row of the result.
fn put_fresh(
    alloc: Global,
    facts: &mut Vec<(u32, u32)>,
    system: &System,
    call: &CallSite,
    number: usize,
) -> Result<(), OutOfMemory>
    requires call { IsCallValid system.now call.now }
    ensures { OnOk result (Gains facts.old.items facts.new.items (EffectFact call.now number Effect.GivesNew)) }
{
    let to = first_row(system, call.result.as_slice());
    let objects = fresh_members(alloc, system, call, number)?;
    put_stores(facts, to, objects.as_slice())
}

/// The edges that an effect demands of a call for new members of one row.
fn renew_effect(
    alloc: Global,
    pairs: &mut Vec<(u32, u32)>,
    system: &System,
    rows: &Rows,
    call: &CallSite,
    number: usize,
    news: &News,
    effect: Effect,
) -> Result<(), OutOfMemory>
    requires valid { IsValid system.now }
    requires fits { Fits system.now rows.now }
    requires call { IsCallValid system.now call.now }
    requires new { All (IsLocation system.now) news.now.new.now }
    ensures { OnOk result
        (Gains pairs.old.items pairs.new.items
        (NewEdge system.now (members rows.now) call.now number news.now.row news.now.new.now effect)) }
{
    match effect {
        Effect::Nothing => {}
        Effect::GivesArgument(_) => {}
        Effect::GivesNew => {}
        Effect::GivesObject(_) => {}
        Effect::Copies(i, j) => {
            let new_tos = news_of(argument_row(system, call, i), news);
            let froms = argument_members(alloc, system, rows, call, number, j)?;
            put_copies(pairs, system, new_tos, froms.as_slice())?;
            let tos = argument_members(alloc, system, rows, call, number, i)?;
            let new_froms = news_of(argument_row(system, call, j), news);
            put_copies(pairs, system, tos.as_slice(), new_froms)?;
        }
        Effect::StoresInto(i, j) => {
            let from = argument_row(system, call, j);
            put_stores(pairs, from, news_of(argument_row(system, call, i), news))?;
        }
        Effect::CallsBack(k, passed) => {
            let backs = news_of(argument_row(system, call, k), news);
            put_backs(pairs, system, call, passed, backs)?;
        }
    }
    Ok(())
}

/// The edges that all effects of a function demand of a call.
pub(crate) fn enter_edges(
    alloc: Global,
    pairs: &mut Vec<(u32, u32)>,
    system: &System,
    rows: &Rows,
    call: &CallSite,
    number: usize,
    function: &Function,
) -> Result<(), OutOfMemory>
    requires valid { IsValid system.now }
    requires fits { Fits system.now rows.now }
    requires call { IsCallValid system.now call.now }
    ensures { OnOk result
        (Gains pairs.old.items pairs.new.items
        (λ a b. (effect : Effect) × Contains function.now.effects effect
        × EffectEdge system.now (members rows.now) call.now number effect a b)) }
{
    for i in 0..function.effects.len() {
        enter_effect(
            alloc,
            pairs,
            system,
            rows,
            call,
            number,
            effect_at(function, i),
        )?;
    }
    Ok(())
}

/// The facts that all effects of a function demand of a call.
pub(crate) fn enter_facts(
    alloc: Global,
    facts: &mut Vec<(u32, u32)>,
    system: &System,
    call: &CallSite,
    number: usize,
    function: &Function,
) -> Result<(), OutOfMemory>
    requires call { IsCallValid system.now call.now }
    ensures { OnOk result
        (Gains facts.old.items facts.new.items
        (λ a b. (effect : Effect) × Contains function.now.effects effect × EffectFact call.now number effect a b)) }
{
    for i in 0..function.effects.len() {
        enter_fresh(alloc, facts, system, call, number, effect_at(function, i))?;
    }
    Ok(())
}

/// The edges that all effects of a function demand of a call for new members of one row.
pub(crate) fn renew_edges(
    alloc: Global,
    pairs: &mut Vec<(u32, u32)>,
    system: &System,
    rows: &Rows,
    call: &CallSite,
    number: usize,
    news: &News,
    function: &Function,
) -> Result<(), OutOfMemory>
    requires valid { IsValid system.now }
    requires fits { Fits system.now rows.now }
    requires call { IsCallValid system.now call.now }
    requires new { All (IsLocation system.now) news.now.new.now }
    ensures { OnOk result
        (Gains pairs.old.items pairs.new.items
        (λ a b. (effect : Effect) × Contains function.now.effects effect
        × NewEdge system.now (members rows.now) call.now number news.now.row news.now.new.now effect a b)) }
{
    for i in 0..function.effects.len() {
        let effect = effect_at(function, i);
        renew_effect(alloc, pairs, system, rows, call, number, news, effect)?;
    }
    Ok(())
}
