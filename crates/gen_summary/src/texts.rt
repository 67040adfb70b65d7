//! The text of a summary.
ghost use Rattle.std.specs.Prelude.{◌≡◌, ◌≤◌, ◌<◌, ◌++◌, if◌then◌else◌, length, IfOk, OnOk};
ghost use Rattle.sol_model.specs.Families.{members};
ghost use Rattle.sol_model.specs.Systems.{IsValid, Fits, location_count};
ghost use Rattle.call_graph.specs.row_members.Members.{members_in};
ghost use Rattle.unit_report.specs.report_text.Report.{has_set};
ghost use Rattle.gen_summary.specs.Summary.{count_line, member_count, IsSummary};

use alias_query::has_line;
use call_graph::graph;
use call_graph::row_members::members_of;
use obj_space::Space;
use pta_base::OutOfMemory;
use sol_model::{Rows, System};
use std::alloc::{AllocError, Global};

/// Whether a report prints the set of a location.
fn is_printed(space: &Space, location: u32) -> bool
    requires { location < length space.now }
    ensures { result ≡ has_set space.now location }
{
    has_line(space.location(location))
}

/// How many members the set of a location has where a report prints it; else none.
#[tactic(auto, using(crate::proofs::Counting::chosen_no, crate::proofs::Counting::chosen_yes, crate::proofs::Counting::few_members))]
fn printed_members(
    alloc: Global,
    space: &Space,
    system: &System,
    rows: &Rows,
    location: u32,
) -> Result<u64, AllocError>
    requires valid { IsValid system.now }
    requires fits { Fits system.now rows.now }
    requires count { length space.now ≡ location_count system.now }
    requires within { location < length space.now }
    ensures members { IfOk result (λ n.
        n ≡ (if has_set space.now location then length (members_in system.now (members rows.now) location) else 0)) }
    ensures few { IfOk result (λ n. n ≤ length space.now) }
{
    if !is_printed(space, location) {
        return Ok(0);
    }
    let list = members_of(alloc, system, rows, location)?;
    Ok(list.len() as u64)
}

/// How many members the sets that a report prints have in all.
fn member_count(
    alloc: Global,
    space: &Space,
    system: &System,
    rows: &Rows,
) -> Result<u64, AllocError>
    requires valid { IsValid system.now }
    requires fits { Fits system.now rows.now }
    requires count { length space.now ≡ location_count system.now }
    ensures { IfOk result (λ n. n ≡ member_count space.now system.now (members rows.now)) }
{
    let mut count = 0u64;
    for location in 0..space.count() {
        let more = printed_members(alloc, space, system, rows, location)?;
        count += more;
    }
    Ok(count)
}

/// Adds a line: a title and a number.
fn add_line(alloc: Global, text: &mut Vec<u8>, title: &str, number: u64) -> Result<(), AllocError>
    ensures { OnOk result (text.new.items ≡ text.old.items ++ count_line title.now number) }
{
    let line = format!(in alloc; "{title} {number}\n")?;
    text.extend_from_slice(line.as_bytes())?;
    Ok(())
}

/// The summary of the generated program of a number by rows, as lines: the number, how many locations there are, how many members the sets
/// that a report prints have in all, and how many edges the call graph has. The one error is want of memory.
pub fn summary(
    alloc: Global,
    number: u32,
    space: &Space,
    system: &System,
    rows: &Rows,
) -> Result<Vec<u8>, OutOfMemory>
    requires valid { IsValid system.now }
    requires fits { Fits system.now rows.now }
    requires count { length space.now ≡ location_count system.now }
    ensures { IfOk result (λ text. IsSummary number space.now system.now (members rows.now) text.items) }
{
    let edges = graph(alloc, system, rows)?;
    let count = member_count(alloc, space, system, rows)?;
    let mut text = Vec::new(alloc);
    add_line(alloc, &mut text, "gen", number as u64)?;
    add_line(alloc, &mut text, "locations", space.count() as u64)?;
    add_line(alloc, &mut text, "members", count)?;
    add_line(alloc, &mut text, "edges", edges.len() as u64)?;
    text.extend_from_slice(b"end\n")?;
    Ok(text)
}
