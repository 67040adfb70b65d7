//! The plain solver's rows of a system and of what it is reduced to, row by row.
use crate::reading::{line_of, number, system_of};
use crate::systems::{SHARED, SYSTEMS};
use call_graph::system_check::is_valid;
use pta_base::OutOfMemory;
use row_share::{reduce, share};
use sol_model::{System, plain_solve};
use std::alloc::Global;

/// How many rows are left, where each row has the set of its new row; none where one hasn't.
fn shared_rows(alloc: Global, system: &System) -> Result<Option<u32>, OutOfMemory> {
    if !is_valid(system) {
        return Ok(None);
    }
    let reduced = reduce(alloc, system, &share(alloc, system)?)?;
    let old = plain_solve(alloc, system)?;
    let new = plain_solve(alloc, &reduced.system)?;
    for row in 0..system.rows {
        let shared = reduced.row[row as usize];
        if shared >= reduced.system.rows {
            return Ok(None);
        }
        for location in 0..system.locations.len() as u32 {
            if old.has(row, location) != new.has(shared, location) {
                return Ok(None);
            }
        }
    }
    Ok(Some(reduced.system.rows))
}

/// How many rows are left of a text's system.
fn left(alloc: Global, text: &str) -> Result<Option<u32>, OutOfMemory> {
    let case = system_of(alloc, text)?;
    shared_rows(alloc, &case)
}

#[test]
fn shared_rows_keep_their_sets(rt: HostRuntime) -> Result<(), OutOfMemory> {
    for text in SYSTEMS.split("\n\n") {
        let left = left(rt.alloc(), text)?;
        assert!(rt; left.is_some(), "{text}");
    }
    for text in SHARED.split("\n\n") {
        let left = left(rt.alloc(), text)?;
        assert!(rt; left == Some(number(line_of(text, "left"), 1)), "{text}");
    }
    Ok(())
}
