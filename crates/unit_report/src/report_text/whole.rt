// The text of a report.
ghost use Rattle.std.specs.Prelude.{◌≡◌, ℕ, List, length, IfOk};
ghost use Rattle.sol_model.specs.Families.{members};
ghost use Rattle.sol_model.specs.Systems.{IsValid, Fits, location_count};
ghost use Rattle.unit_report.specs.report_text.Report.{IsReport};

use crate::report_text::calls::add_calls;
use crate::report_text::edges::add_edges;
use crate::report_text::sets::add_sets;
use call_graph::graph;
use obj_space::Space;
use pta_base::OutOfMemory;
use sol_model::{Rows, System};
use std::alloc::Global;

/// The report of rows: the set of each location of pointer class or collapsed, the targets of each call that doesn't
/// name its function, and the edges of the call graph, as lines. The names are those of the units, and the space has
/// the names of the system's locations. The only error is want of memory.
pub fn report(
    alloc: Global,
    space: &Space,
    names: &[String],
    system: &System,
    rows: &Rows,
) -> Result<Vec<u8>, OutOfMemory>
    requires valid { IsValid system.now }
    requires fits { Fits system.now rows.now }
    requires count { length space.now ≡ location_count system.now }
    ensures report { IfOk result (λ text. IsReport space.now names.now system.now (members rows.now) text.items) }

    // There is no other report.
    ensures only { IfOk result
        (λ text. (other : List ℕ) → IsReport space.now names.now system.now (members rows.now) other → other ≡ text.items) }
{
    let edges = graph(alloc, system, rows)?;
    let mut text = Vec::new(alloc);
    text.extend_from_slice(b"pta 1\n")?;
    add_sets(alloc, &mut text, space, system, rows)?;
    add_calls(alloc, &mut text, space, names, system, rows)?;
    add_edges(&mut text, space, system, &edges)?;
    text.extend_from_slice(b"end\n")?;
    Ok(text)
}
