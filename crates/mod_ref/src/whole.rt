//! What each function may read and write.
ghost use Rattle.std.specs.Prelude.{◌≡◌, ◌+◌, ◌<◌, ◌^◌, ℕ, List, IfOk, IsTrue, length};
ghost use Rattle.core_tree.specs.Range.{InRange};
ghost use Rattle.core_tree.specs.Typed.{trees_in};
ghost use Rattle.sol_model.specs.Families.{Has, members};
ghost use Rattle.sol_model.specs.Systems.{IsValid, Fits};
ghost use Rattle.obj_space.specs.View.{view_of};
ghost use Rattle.normal_form.specs.SystemOf.{SystemOf};
ghost use Rattle.call_graph.specs.Graph.{IsGraph};
ghost use Rattle.mod_ref.specs.Gains.{HasRowsFor};
ghost use Rattle.mod_ref.specs.Ground.{IsGround, setting_in};
ghost use Rattle.mod_ref.specs.Touch.{AreEffects, IsTouch};
ghost use Rattle.mod_ref.specs.Ways.{AreKeyedBelow, AreWays};

use crate::access::Access;
use crate::bodies::add_bodies;
use crate::effect_rows::Effects;
use crate::ground::{Ground, first_rows};
use crate::library_calls::add_calls;
use crate::spreading::spread;
use crate::ways::ways;
use call_graph::graph;
use core_tree::Program;
use obj_space::Space;
use pta_base::OutOfMemory;
use row_numbers::around::owners_of;
use sol_model::{Rows, System};
use std::alloc::Global;

/// A row for each function, without a location.
fn no_rows(alloc: Global, system: &System, functions: u32) -> Result<Rows, OutOfMemory>
    requires valid { IsValid system.now }
    requires functions { functions ≡ length system.now.functions }
    ensures rows { IfOk result (HasRowsFor system.now) }
    ensures nothing { IfOk result (λ made. (row location : ℕ) → Has (members made) row location → ⊥) }
{
    let width = (system.locations.len() as u32).div_ceil(64);
    let rows = Rows::empty(alloc, functions, width)?;
    Ok(rows)
}

/// What the functions read, or what they write.
fn touched(
    alloc: Global,
    ground: &Ground<'_>,
    access: Access,
    functions: u32,
    ways: &[(u32, u32, u32)],
) -> Result<Rows, OutOfMemory>
    requires ground { IsGround ground.now }
    requires functions { functions ≡ length ground.now.system.now.functions }
    requires ways { (edges : List (ℕ × ℕ)) × IsGraph ground.now.system.now (members ground.now.rows.now) edges × AreWays edges ways.now }
    requires below { AreKeyedBelow functions ways.now }
    ensures { IfOk result (IsTouch (setting_in ground.now) ground.now.system.now (members ground.now.rows.now) access) }
{
    let mut rows = no_rows(alloc, ground.system, functions)?;
    add_bodies(alloc, ground, access, &mut rows)?;
    add_calls(alloc, ground, access, &mut rows)?;
    spread(ways, functions, &mut rows);
    Ok(rows)
}

/// What the functions read, and what they write.
fn both(alloc: Global, ground: &Ground<'_>, functions: u32) -> Result<Effects, OutOfMemory>
    requires ground { IsGround ground.now }
    requires functions { functions ≡ length ground.now.system.now.functions }
    ensures reads { IfOk result
        (λ made. IsTouch (setting_in ground.now) ground.now.system.now (members ground.now.rows.now) Access.Read made.reads) }
    ensures writes { IfOk result
        (λ made. IsTouch (setting_in ground.now) ground.now.system.now (members ground.now.rows.now) Access.Write made.writes) }
{
    let edges = graph(alloc, ground.system, ground.rows)?;
    let listed = edges.as_slice();
    let keyed = ways(alloc, functions, listed)?;
    let ways = keyed.as_slice();
    let reads = touched(alloc, ground, Access::Read, functions, ways)?;
    let writes = touched(alloc, ground, Access::Write, functions, ways)?;
    Ok(Effects { reads, writes })
}

/// Whether numbers of 32 bits number a program's entities, its types by their tags, the functions of its system, and its nodes.
fn is_numbered(program: &Program, system: &System) -> bool
    ensures { IsTrue result
        → (length program.now.entities.items < 2 ^ 32) × (program.now.types.tags + 8 < 2 ^ 32)
        × (length system.now.functions < 2 ^ 32)
        × (length program.now.nodes.items < 2 ^ 32) }
{
    program.entities.len() <= u32::MAX as usize
        && program.types.tag_count() < u32::MAX - 7
        && system.functions.len() <= u32::MAX as usize
        && program.nodes.len() <= u32::MAX as usize
}

/// What each function of a program's system may read and write, by the rows that solve it: what its own nodes and its calls of library
/// functions do, and what all functions do that it calls or has called back. An access at a place reaches the nodes of its type from
/// each location that the place has, and a library function each node under each location that an argument has, and what it makes.
/// Taking the next argument of a list reads and writes the list, and reads each location that the list may lead to. Callees go first,
/// and functions that call in a ring together, so it takes time by nodes, members of rows, words and calls. The one error is want of
/// memory: an allocation that failed, or nodes, entities, tags or functions past numbers of 32 bits, which take over 2^36 bytes, or
/// over 2^24 rows, which no valid system of a program with a location has.
pub fn effects(
    alloc: Global,
    program: &Program,
    space: &Space,
    system: &System,
    rows: &Rows,
) -> Result<Effects, OutOfMemory>
    requires range { InRange (trees_in program.now) }
    requires system { SystemOf program.now (view_of space.now) system.now }
    requires valid { IsValid system.now }
    requires fits { Fits system.now rows.now }
    ensures { IfOk result (AreEffects program.now (view_of space.now) system.now (members rows.now)) }
{
    if !is_numbered(program, system) {
        return Err(OutOfMemory);
    }
    let listed = owners_of(alloc, program)?;
    let owners = listed.as_slice();
    let numbers = first_rows(alloc, program, space)?;
    let starts = numbers.as_slice();
    let ground = Ground {
        program,
        space,
        system,
        rows,
        owners,
        starts,
    };
    let effects = both(alloc, &ground, system.functions.len() as u32)?;
    Ok(effects)
}
