// The text of a report as JSON.
ghost use Rattle.std.specs.Prelude.{◌≡◌, ◌++◌, ℕ, List, codes, false, length, IfOk};
ghost use Rattle.serde_json.specs.View.{view};
ghost use Rattle.serde_json.specs.Written.{compact_text, has_float};
ghost use Rattle.sol_model.specs.Families.{members};
ghost use Rattle.sol_model.specs.Systems.{IsValid, Fits, location_count};
ghost use Rattle.call_graph.specs.Graph.{IsGraph};
ghost use Rattle.unit_report.specs.report_json.Json.{report_of, report_value, IsJsonReport};

use crate::report_json::calls::calls_value;
use crate::report_json::edges::edges_value;
use crate::report_json::sets::sets_value;
use call_graph::graph;
use obj_space::Space;
use pta_base::OutOfMemory;
use serde_json::{Value, json};
use sol_model::{Rows, System};
use std::alloc::{AllocError, Global};

/// One object of these calls, edges and sets.
fn report_of(alloc: Global, calls: Value, edges: Value, sets: Value) -> Result<Value, AllocError>
    ensures { IfOk result (λ value. view value ≡ report_of (view calls) (view edges) (view sets)) }
{
    json!(in alloc; {"report": 2u32, "sets": sets, "calls": calls, "edges": edges})
}

/// The report, with the edges of the call graph.
fn report_value(
    alloc: Global,
    space: &Space,
    names: &[String],
    system: &System,
    rows: &Rows,
    edges: &[(u32, u32)],
) -> Result<Value, OutOfMemory>
    requires valid { IsValid system.now }
    requires fits { Fits system.now rows.now }
    requires count { length space.now ≡ location_count system.now }
    ensures { IfOk result (λ value. view value ≡ report_value space.now names.now system.now (members rows.now) edges.now) }
{
    let calls = calls_value(alloc, space, names, system, rows)?;
    let edges = edges_value(alloc, space, system, edges)?;
    let sets = sets_value(alloc, space, system, rows)?;
    Ok(report_of(alloc, calls, edges, sets)?)
}

/// The text of a value without floats, and a line feed.
fn line_of(alloc: Global, value: &Value) -> Result<Vec<u8>, AllocError>
    requires { has_float (view value.now) ≡ false }
    ensures { IfOk result (λ text. text.items ≡ compact_text (view value.now) ++ codes "\n") }
{
    let mut text = value.to_vec(alloc)?;
    text.push(b'\n')?;
    Ok(text)
}

/// The report of rows as one object of JSON without spaces, and a line feed. Its keys are `calls`, `edges`, `report`, which is 2, and
/// `sets`; the rest is what the lines of `report_text` say, in their order. A member of `calls` has `place` and `targets`, one of `sets`
/// has `members` and `name`, and one of `edges` is the list of a caller's and a callee's name. The names are those of the units, and the
/// space has the names of the system's locations. The only error is want of memory.
pub fn json_report(
    alloc: Global,
    space: &Space,
    names: &[String],
    system: &System,
    rows: &Rows,
) -> Result<Vec<u8>, OutOfMemory>
    requires valid { IsValid system.now }
    requires fits { Fits system.now rows.now }
    requires count { length space.now ≡ location_count system.now }
    ensures report { IfOk result (λ text. IsJsonReport space.now names.now system.now (members rows.now) text.items) }

    // There is no other report.
    ensures only { IfOk result (λ text. (other : List ℕ) → IsJsonReport space.now names.now system.now (members rows.now) other
        → other ≡ text.items) }
{
    let edges = graph(alloc, system, rows)?;
    let value = report_value(alloc, space, names, system, rows, &edges)?;
    Ok(line_of(alloc, &value)?)
}
