// The graph of callers and callees.
ghost use Rattle.std.specs.Prelude.{◌≡◌, ℕ, List, IfOk};
ghost use Rattle.sol_model.specs.Families.{members};
ghost use Rattle.sol_model.specs.Systems.{IsValid, Fits};
ghost use Rattle.call_graph.specs.Graph.{IsGraph};

use crate::edges::add_call;
use crate::order::put_in_order;
use pta_base::OutOfMemory;
use sol_model::sites::call_at;
use sol_model::{Rows, System};
use std::alloc::Global;

/// The edges of the call graph, ordered by the number of the caller and then of the callee, each once: the caller of
/// each call with each function that the call may call, and each library function that is called with each function
/// that its effects call back there. The only error is want of memory.
pub fn graph(alloc: Global, system: &System, rows: &Rows) -> Result<Vec<(u32, u32)>, OutOfMemory>
    requires valid { IsValid system.now }
    requires fits { Fits system.now rows.now }
    ensures graph { IfOk result (λ pairs. IsGraph system.now (members rows.now) pairs.items) }

    // There is no other such list.
    ensures only { IfOk result (λ pairs. (others : List (ℕ × ℕ)) → IsGraph system.now (members rows.now) others → others ≡ pairs.items) }
{
    let mut edges = Vec::new(alloc);
    for number in 0..system.calls.len() {
        add_call(alloc, system, rows, call_at(system, number), &mut edges)?;
    }
    put_in_order(&mut edges);
    Ok(edges)
}
