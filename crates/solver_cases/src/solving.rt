//! Systems that are solved, checked, and asked for the targets and edges of calls, against what was worked out on paper.
use crate::reading::{edges_of, name, sets_of, system_of, worked};
use crate::systems::{CHECKED, SYSTEMS};
use call_graph::system_check::is_valid;
use call_graph::{graph, is_target};
use edge_book::PairBook;
use pta_base::OutOfMemory;
use sol_model::{System, is_closed, plain_solve};
use std::alloc::Global;

/// Whether a valid system has these first least sets, and these edges of its call graph.
fn is_solved(
    alloc: Global,
    system: &System,
    sets: &[u64],
    edges: &[(u32, u32)],
) -> Result<bool, OutOfMemory> {
    if !is_valid(system) {
        return Ok(false);
    }
    let solved = plain_solve(alloc, system)?;
    if !is_closed(system, &solved) {
        return Ok(false);
    }
    let pairs = graph(alloc, system, &solved)?;
    Ok(solved.width == 1 && solved.words.as_slice().starts_with(sets) && pairs.as_slice() == edges)
}

/// Whether this is so of a text's system, its sets and its edges.
fn is_worked_out(alloc: Global, text: &str) -> Result<bool, OutOfMemory> {
    let sets = sets_of(alloc, text)?;
    let edges = edges_of(alloc, text)?;
    let case = system_of(alloc, text)?;
    is_solved(alloc, &case, sets.as_slice(), edges.as_slice())
}

#[test]
fn worked_systems(rt: HostRuntime) -> Result<(), OutOfMemory> {
    for text in SYSTEMS.split("\n\n") {
        let holds = is_worked_out(rt.alloc(), text)?;
        assert!(rt; holds, "{text}");
    }
    Ok(())
}

/// Calls and functions of the system of that place, and whether the one leads to the other.
static TARGETS: [(u32, u32, bool); 6] = [
    (0, 0, true),
    (0, 1, false),
    (1, 1, true),
    (1, 2, false),
    (2, 0, false),
    (0, 4, false),
];

#[test]
fn targets_of_calls(rt: HostRuntime) -> Result<(), OutOfMemory> {
    let case = system_of(rt.alloc(), worked("direct and indirect calls"))?;
    assert!(rt; is_valid(&case));
    let solved = plain_solve(rt.alloc(), &case)?;
    for (call, function, wanted) in &TARGETS {
        let is_so = is_target(&case, &solved, *call, *function);
        assert!(rt; is_so == *wanted, "{call} {function}");
    }
    Ok(())
}

#[test]
fn checked_systems(rt: HostRuntime) -> Result<(), OutOfMemory> {
    for text in CHECKED.split("\n\n") {
        let case = system_of(rt.alloc(), text)?;
        assert!(rt; is_valid(&case) == (name(text) == "valid"), "{text}");
    }
    Ok(())
}

/// How many edges the first call of a system adds to a book for one location; none where the system isn't valid, or has no call or no
/// such location.
fn new_edges(
    book: &mut PairBook,
    system: &System,
    location: u32,
) -> Result<Option<u32>, OutOfMemory> {
    if !is_valid(system) || system.calls.as_slice().is_empty() {
        return Ok(None);
    }
    if location as usize >= system.locations.len() {
        return Ok(None);
    }
    Ok(Some(book.edges_of_call(system, 0, location)?))
}

/// Locations in turn, and how many edges each brings.
static BROUGHT: [(u32, u32); 4] = [(3, 0), (4, 0), (1, 3), (1, 0)];

#[test]
fn edges_of_a_call_for_one_target(rt: HostRuntime) -> Result<(), OutOfMemory> {
    let case = system_of(rt.alloc(), worked("one call"))?;
    let mut book = PairBook::new(rt.alloc());
    for (location, new) in &BROUGHT {
        let added = new_edges(&mut book, &case, *location)?;
        assert!(rt; added == Some(*new), "for {location}");
    }
    let edges = [book.get(0), book.get(1), book.get(2)];
    assert!(rt; edges == [Some((6, 11)), Some((8, 2)), Some((9, 5))]);
    Ok(())
}
