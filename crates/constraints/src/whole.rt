// The whole system.

ghost use Rattle.std.specs.Prelude.{◌≡◌, ℕ, ◌+◌, ◌*◌, ◌/◌, ◌<◌, ◌≤◌, ◌^◌, IfOk, IfErr, length};
ghost use Rattle.core_tree.specs.Typed.{trees_in};
ghost use Rattle.core_tree.specs.Range.{InRange};
ghost use Rattle.obj_space.specs.Space.{AreTyped, HasTrees};
ghost use Rattle.obj_space.specs.View.{view_of};
ghost use Rattle.row_numbers.specs.Setting.{row_total};
ghost use Rattle.row_numbers.specs.Frame.{IsNumbered};
ghost use Rattle.row_numbers.specs.Results.{AreResults};
ghost use Rattle.normal_form.specs.SystemOf.{SystemOf, NormalOf, IsWhole};
ghost use Rattle.constraints.specs.Start.{IsScene, trees_of, view_in};
ghost use Rattle.constraints.specs.System.{IsWithin, IsFaultOf, IsSized, AreLocated, AreInOrder, AgreesWith, constraint_list};

use crate::copies::copy_calls;
use crate::facts::location_facts;
use crate::fault::SystemFault;
use crate::functions::function_facts;
use crate::list::{of_nodes, push_calls, push_library};
use crate::owned::owned_parameters;
use crate::start::Scene;
use crate::types::type_facts;
use core_tree::Program;
use normal_form::Normal;
use obj_space::Space;
use pta_base::{Listing, OutOfMemory};
use row_numbers::results::{Results, number_results};
use sol_model::{Constraint, System};
use std::alloc::Global;

// The constraints of a program.
fn constraints(
    alloc: Global,
    scene: &Scene<'_>,
    normal: &Normal,
) -> Result<Listing<Constraint>, OutOfMemory>
    requires scene { IsScene scene.now }
    requires calls { length normal.now.calls < 2 ^ 32 }
    ensures { let u = trees_of scene.now in let s = view_in scene.now in
        IfOk result (λ list. list ≡ constraint_list u s scene.now.program.now.entries.items normal.now) }
{
    let mut list = of_nodes(alloc, normal.assignments.as_slice())?;
    push_calls(normal.calls.len() as u32, &mut list)?;
    push_library(scene.space, &mut list)?;
    scene.push_start(alloc, &mut list)?;
    Ok(Listing::of(list))
}

// The system of a program whose functions' rows are numbered.
fn numbered(
    alloc: Global,
    program: &Program,
    space: &Space,
    normal: &Normal,
    results: &Results,
) -> Result<System, OutOfMemory>
    requires range { InRange (trees_in program.now) }
    requires numbered { IsNumbered program.now }
    requires results { AreResults (trees_in program.now) (view_of space.now) results.now }
    requires normal { IsWhole program.now (view_of space.now) normal.now }
    ensures { IfOk result (λ system. SystemOf program.now (view_of space.now) system) }
{
    let owned = owned_parameters(alloc, program, space)?;
    let scene = Scene {
        program,
        space,
        results,
        owned: &owned,
    };
    Ok(System {
        rows: results.none + 1,
        locations: location_facts(alloc, program, space, results)?,
        types: type_facts(alloc, &program.types)?,
        constraints: constraints(alloc, &scene, normal)?,
        calls: copy_calls(alloc, &normal.calls)?,
        functions: function_facts(alloc, program, space, results, &owned)?,
    })
}

// The system of a program within the limits.
fn within(
    alloc: Global,
    program: &Program,
    space: &Space,
    normal: &Normal,
) -> Result<System, OutOfMemory>
    requires range { InRange (trees_in program.now) }
    requires numbered { IsNumbered program.now }
    requires normal { NormalOf program.now (view_of space.now) normal.now }
    requires few { row_total (trees_in program.now) (view_of space.now) ≤ 2 ^ 24 }
    ensures { IfOk result (λ system. SystemOf program.now (view_of space.now) system) }
{
    let results = number_results(alloc, program, space, normal.rows)?;
    numbered(alloc, program, space, normal, &results)
}

// Rows times words per row.
fn word_total(space: &Space, normal: &Normal) -> u128
    ensures { result ≡ normal.now.rows * (((view_of space.now).count + 63) / 64) }
{
    u128::from(normal.rows) * u128::from((u64::from(space.count()) + 63) / 64)
}

/// The system of a program, in which every type, node and entity that is named is in range, from its normal form, which
/// tells that their numbers have 32 bits. `Nodes` comes exactly where the program has over 2^24 nodes, and then `Words`
/// exactly where its rows have over 2^24 words; want of memory is an allocation that failed. A program has a location,
/// that of the function at which it begins or is entered. The system's functions stand in the order of their locations,
/// and what it knows of its locations is what the space says.
pub fn system(
    alloc: Global,
    program: &Program,
    space: &Space,
    normal: &Normal,
) -> Result<System, SystemFault>
    requires range { InRange (trees_in program.now) }
    requires numbered { IsNumbered program.now }
    requires located { 0 < (view_of space.now).count }
    requires normal { NormalOf program.now (view_of space.now) normal.now }
    ensures system { IfOk result (λ system. SystemOf program.now (view_of space.now) system) }
    ensures within { IfOk result (λ system. IsWithin program.now (view_of space.now)) }
    ensures sized { IfOk result (λ system. IsSized system) }

    // What the space promises of its locations is kept by the system's.
    ensures located { IfOk result (λ system.
        AreTyped program.now.types space.now → HasTrees program.now.types space.now → AreLocated system) }
    ensures ordered { IfOk result AreInOrder }
    ensures agrees { IfOk result (AgreesWith (view_of space.now)) }
    ensures fault { IfErr result (λ fault. IsFaultOf program.now (view_of space.now) fault) }
{
    let nodes = program.nodes.as_slice().len();
    if nodes > 1 << 24 {
        return Err(SystemFault::Nodes(nodes as u64));
    }
    let words = word_total(space, normal);
    if words > 1 << 24 {
        return Err(SystemFault::Words(words));
    }
    match within(alloc, program, space, normal) {
        Ok(system) => Ok(system),
        Err(_) => Err(SystemFault::OutOfMemory),
    }
}
