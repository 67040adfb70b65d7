//! Functions that call one another in a ring have equal sets: they are rows of one class, in a system that has a copy from each callee to
//! its caller.
ghost use Rattle.std.specs.Prelude.{◌≡◌, ◌++◌, [], OnOk, IfOk, map};
ghost use Rattle.std.specs.List.{range_with_len};
ghost use Rattle.sol_model.specs.Systems.{IsValid};
ghost use Rattle.mod_ref.specs.Ways.{AreBelow, AreOneSet, IsGraphSystem, own_copy, call_copy};

use pta_base::{Listing, OutOfMemory};
use row_share::row_classes::representatives;
use sol_model::{Constraint, System};
use std::alloc::Global;

/// Adds a copy from each row to itself, by which no row follows another one.
fn push_own(list: &mut Listing<Constraint>, functions: u32) -> Result<(), OutOfMemory>
    ensures { OnOk result (list.new ≡ list.old ++ map own_copy (range_with_len 0 functions)) }
{
    for row in 0..functions {
        list.push(Constraint::Copy { from: row, to: row })?;
    }
    Ok(())
}

/// Adds a copy from each callee to its caller.
fn push_calls(list: &mut Listing<Constraint>, edges: &[(u32, u32)]) -> Result<(), OutOfMemory>
    ensures { OnOk result (list.new ≡ list.old ++ map call_copy edges.now) }
{
    for edge in edges {
        list.push(Constraint::Copy {
            from: edge.1,
            to: edge.0,
        })?;
    }
    Ok(())
}

/// The system of the graph: a row for each function, and copies alone.
fn graph_system(alloc: Global, functions: u32, edges: &[(u32, u32)]) -> Result<System, OutOfMemory>
    requires { AreBelow functions edges.now }
    ensures system { IfOk result (IsGraphSystem functions edges.now) }
    ensures valid { IfOk result IsValid }
{
    let mut constraints = Listing::new(alloc);
    push_own(&mut constraints, functions)?;
    push_calls(&mut constraints, edges)?;
    Ok(System {
        rows: functions,
        locations: Listing::new(alloc),
        types: Listing::new(alloc),
        constraints,
        calls: Listing::new(alloc),
        functions: Listing::new(alloc),
    })
}

/// For each function one of those with which it calls in a ring, the same for all of these.
pub(crate) fn classes(
    alloc: Global,
    functions: u32,
    edges: &[(u32, u32)],
) -> Result<Vec<u32>, OutOfMemory>
    requires { AreBelow functions edges.now }
    ensures { IfOk result (λ first. AreOneSet functions edges.now first.items) }
{
    let system = graph_system(alloc, functions, edges)?;
    let first = representatives(alloc, &system)?;
    Ok(first)
}
