// What is known of locations.

ghost use Rattle.std.specs.Prelude.{◌≡◌, ℕ, ◌<◌, ◌^◌, IfOk, length, map};
ghost use Rattle.std.specs.List.{range_with_len};
ghost use Rattle.core_tree.specs.Typed.{trees_in};
ghost use Rattle.obj_space.specs.View.{view_of};
ghost use Rattle.row_numbers.specs.Functions.{function_at, function_keys, number_at, objects_at};
ghost use Rattle.row_numbers.specs.Results.{AreResults};
ghost use Rattle.normal_form.specs.Facts.{number_if, location_fact, location_facts};

use c_types::key::ObjectKey;
use core_tree::Program;
use obj_space::Space;
use pta_base::{Listing, OutOfMemory};
use row_numbers::results::Results;
use sol_model::LocationFact;
use std::alloc::Global;

// The number of the function at a location, if there is one.
fn number_if(at: Option<ObjectKey>, before: u32) -> Option<u32>
    ensures { result ≡ number_if at before }
{
    match at {
        Some(_) => Some(before),
        None => None,
    }
}

// What is known of a location.
fn location_fact(
    program: &Program,
    space: &Space,
    at: &[Option<ObjectKey>],
    before: &[u32],
    l: u32,
) -> LocationFact
    requires location { l < (view_of space.now).count }
    requires at { at.now ≡ objects_at (view_of space.now) (function_keys (trees_in program.now)) (view_of space.now).count }
    requires before { before.now ≡ map (number_at (trees_in program.now) (view_of space.now)) (range_with_len 0 (view_of space.now).count) }
    ensures { result ≡ location_fact (trees_in program.now) (view_of space.now) l }
{
    LocationFact {
        collapsed: space.collapsed(l),
        ty: space.node_type(l),
        function: number_if(at[l as usize], before[l as usize]),
    }
}

/// What is known of each location.
pub(crate) fn location_facts(
    alloc: Global,
    program: &Program,
    space: &Space,
    results: &Results,
) -> Result<Listing<LocationFact>, OutOfMemory>
    requires { AreResults (trees_in program.now) (view_of space.now) results.now }
    ensures { IfOk result (λ facts. facts ≡ location_facts (trees_in program.now) (view_of space.now)) }
{
    let at = results.at.as_slice();
    let before = results.before.as_slice();
    let mut facts = Listing::new(alloc);
    for l in 0..space.count() {
        facts.push(location_fact(program, space, at, before, l))?;
    }
    Ok(facts)
}
