//! Pairs of rows between which effects of library functions, and copies of whole objects, demand inclusion.
ghost use Rattle.std.specs.Prelude.{◌≡◌, ℕ, ◌⊎◌, OnOk, IfSome, Some, All, Contains, slice_get};
ghost use Rattle.edge_book.specs.Edges.{Gains};
ghost use Rattle.sol_model.specs.Rules.{PairEdge, PassesBack, back_signature};
ghost use Rattle.sol_model.specs.Systems.{IsValid, IsRow, IsLocation, IsCallValid, IsFunctionValid};
ghost use Rattle.new_members.specs.News.{FromEach, PairsOf, BackEdge};

use edge_book::gather::{put, put_between, put_copy};
use pta_base::OutOfMemory;
use sol_model::locations::location_fact;
use sol_model::sites::{argument_row, back_signature, function_at, parameter_row};
use sol_model::{CallSite, Function, System};

/// Copies to one whole object from each of a list.
fn put_into(
    pairs: &mut Vec<(u32, u32)>,
    system: &System,
    to: u32,
    froms: &[u32],
) -> Result<(), OutOfMemory>
    requires valid { IsValid system.now }
    requires to { IsLocation system.now to }
    requires froms { All (IsLocation system.now) froms.now }
    ensures { OnOk result (Gains pairs.old.items pairs.new.items (FromEach system.now to froms.now)) }
{
    for from in froms {
        put_copy(pairs, system, to, *from)?;
    }
    Ok(())
}

/// Copies to each whole object of a list from each of another.
pub(crate) fn put_copies(
    pairs: &mut Vec<(u32, u32)>,
    system: &System,
    tos: &[u32],
    froms: &[u32],
) -> Result<(), OutOfMemory>
    requires valid { IsValid system.now }
    requires tos { All (IsLocation system.now) tos.now }
    requires froms { All (IsLocation system.now) froms.now }
    ensures { OnOk result (Gains pairs.old.items pairs.new.items (PairsOf system.now tos.now froms.now)) }
{
    for to in tos {
        put_into(pairs, system, *to, froms)?;
    }
    Ok(())
}

/// A row, if it is there, into each of a list.
pub(crate) fn put_stores(
    pairs: &mut Vec<(u32, u32)>,
    from: Option<u32>,
    tos: &[u32],
) -> Result<(), OutOfMemory>
    ensures { OnOk result (Gains pairs.old.items pairs.new.items (λ a b. Contains tos.now b × (from ≡ Some a))) }
{
    for to in tos {
        put_between(pairs, from, Some(*to))?;
    }
    Ok(())
}

/// The arguments of a call back into the parameters of one function.
fn put_passed(
    pairs: &mut Vec<(u32, u32)>,
    system: &System,
    call: &CallSite,
    passed: Option<(u8, u8)>,
    function: &Function,
) -> Result<(), OutOfMemory>
    requires call { IsCallValid system.now call.now }
    requires function { IsFunctionValid system.now function.now }
    ensures { OnOk result (Gains pairs.old.items pairs.new.items (PassesBack call.now passed function.now)) }
{
    let Some(both) = passed else {
        return Ok(());
    };
    if function.library.is_some() {
        return Ok(());
    }
    let one = argument_row(system, call, both.0);
    put_between(pairs, one, parameter_row(system, function, 0))?;
    let other = argument_row(system, call, both.1);
    put_between(pairs, other, parameter_row(system, function, 1))
}

/// The calls back of a function that a location may be.
fn put_back(
    pairs: &mut Vec<(u32, u32)>,
    system: &System,
    call: &CallSite,
    passed: Option<(u8, u8)>,
    location: u32,
) -> Result<(), OutOfMemory>
    requires valid { IsValid system.now }
    requires call { IsCallValid system.now call.now }
    requires location { IsLocation system.now location }
    ensures { OnOk result (Gains pairs.old.items pairs.new.items (BackEdge system.now call.now passed location)) }
{
    let Some(number) = location_fact(system, location).function else {
        return Ok(());
    };
    let function = function_at(system, number as usize);
    if function.location == location && function.signature == back_signature(passed) {
        put_passed(pairs, system, call, passed, function)?;
    }
    Ok(())
}

/// The calls back of the functions of a list of locations.
pub(crate) fn put_backs(
    pairs: &mut Vec<(u32, u32)>,
    system: &System,
    call: &CallSite,
    passed: Option<(u8, u8)>,
    locations: &[u32],
) -> Result<(), OutOfMemory>
    requires valid { IsValid system.now }
    requires call { IsCallValid system.now call.now }
    requires locations { All (IsLocation system.now) locations.now }
    ensures { OnOk result
        (Gains pairs.old.items pairs.new.items
        (λ a b. (location : ℕ) × Contains locations.now location × BackEdge system.now call.now passed location a b)) }
{
    for location in locations {
        put_back(pairs, system, call, passed, *location)?;
    }
    Ok(())
}
