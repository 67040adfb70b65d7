//! In which order a round's rows are dealt out.
ghost use Rattle.std.specs.Prelude.{◌≡◌, ℕ, ◌^◌, ◌<◌, ◌≤◌, ◌↔◌, IfOk, Contains, length};
ghost use Rattle.round_pieces.specs.Rounds.{AreRowsApart};

use pta_base::OutOfMemory;
use std::alloc::Global;

/// The same rows, in an order in which each worker's share is a run of neighbours, the first worker's first: what goes from
/// row to row then goes through a whole share in one round, and through all shares where one thread takes them. Where the
/// rows don't go evenly into runs, the first ones have a row more than the others.
pub fn dealt(alloc: Global, todo: &[u32], workers: u32) -> Result<Vec<u32>, OutOfMemory>
    requires few { length todo.now < 2 ^ 32 }
    requires workers { (0 < workers) × (workers ≤ 64) }
    ensures rows { IfOk result (λ out. (row : ℕ) → (Contains out.items row ↔ Contains todo.now row)) }
    ensures once { AreRowsApart todo.now → IfOk result (λ out. AreRowsApart out.items) }
{
    let count = workers as usize;
    let whole = todo.len() / count;
    let more = todo.len() % count;
    let mut out = Vec::new(alloc);
    for i in 0..todo.len() {
        let worker = i % count;
        out.push(todo[worker * whole + worker.min(more) + i / count])?;
    }
    Ok(out)
}
