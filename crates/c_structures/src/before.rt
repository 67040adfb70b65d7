// The members of the nodes that stand before one in a list.
ghost use Rattle.std.specs.Prelude.{◌≡◌, ◌<◌, ◌≤◌, ◌+◌, ◌-◌, ◌||◌, ℕ, List, true, false, nat_lt, length, take, slice_index, IfOk};
ghost use Rattle.c_senses.specs.Tree.{all_where};
ghost use Rattle.c_results.specs.declared.made.Made.{Made as MadeSpec};
ghost use Rattle.c_structures.specs.Named.{is_among};
ghost use Rattle.c_structures.specs.Before.{Covers, ascends};

use crate::names::MemberNames;
use c_results::{Results, members_at};
use core_nodes::CheckFault;
use std::alloc::Global;

/// How many nodes of a list have been gone through, and the names of their members.
#[derive(Drop)]
pub struct Cursor {
    pub(crate) done: usize,
    pub(crate) names: MemberNames,
}

/// The members before a field in its list: those of the declarations before its own, and those of the fields before it in its own
/// declaration, which is `member`.
#[derive(Drop)]
pub struct MembersBefore {
    pub(crate) whole: Cursor,
    pub(crate) member: u32,
    pub(crate) part: Cursor,
}

/// No node has been gone through.
pub(crate) fn start(alloc: Global) -> Cursor
    ensures covers { (results : List MadeSpec) (nodes : List ℕ) → Covers results nodes result }
    ensures done { result.done ≡ 0 }
{
    Cursor {
        done: 0,
        names: MemberNames::new(alloc),
    }
}

/// Whether each number is above the one before.
pub(crate) fn is_ascending(nodes: &[u32]) -> bool
    ensures { result ≡ ascends nodes.now }
{
    for i in 1..nodes.len() {
        if nodes[i - 1] >= nodes[i] {
            return false;
        }
    }
    true
}

// One node more.
fn with_node(
    alloc: Global,
    cursor: Cursor,
    results: &Results,
    nodes: &[u32],
) -> Result<Cursor, CheckFault>
    requires { cursor.done < length nodes.now }
    ensures done { IfOk result (λ c. c.done ≡ cursor.done + 1) }
    ensures covers { IfOk result (λ c. Covers results.now nodes.now cursor → Covers results.now nodes.now c) }
{
    let node = nodes[cursor.done];
    if node as usize >= results.len() {
        return Err(CheckFault::OutOfMemory);
    }
    let Cursor { done, mut names } = cursor;
    if let Some(members) = members_at(results, node) {
        names.add_all(alloc, members)?;
    }
    Ok(Cursor {
        done: done + 1,
        names,
    })
}

// Whether a cursor has gone past some number.
fn is_past(cursor: &Cursor, nodes: &[u32], below: u32) -> bool
    ensures { result ≡ false
        → 0 < cursor.now.done
        → cursor.now.done ≤ length nodes.now
        → slice_index nodes.now (cursor.now.done - 1) < below }
{
    if cursor.done == 0 {
        return false;
    }
    match nodes.get(cursor.done - 1) {
        Some(last) => *last >= below,
        None => true,
    }
}

/// The cursor with the names of the members of all nodes of an ascending list that are below a number. Only memory may want, or such
/// a node has not been made yet, which no tree of a parsed unit has.
pub(crate) fn advanced(
    alloc: Global,
    cursor: Cursor,
    results: &Results,
    nodes: &[u32],
    below: u32,
) -> Result<Cursor, CheckFault>
    ensures covers { IfOk result (λ c. Covers results.now nodes.now cursor → Covers results.now nodes.now c) }
    ensures below { IfOk result (λ c.
        Covers results.now nodes.now cursor →
        ascends nodes.now ≡ true → take c.done nodes.now ≡ all_where (λ j. nat_lt j below) nodes.now) }
{
    let mut cursor = if is_past(&cursor, nodes, below) {
        start(alloc)
    } else {
        cursor
    };
    while cursor.done < nodes.len() && nodes[cursor.done] < below {
        cursor = with_node(alloc, cursor, results, nodes)?;
    }
    Ok(cursor)
}

impl MembersBefore {
    /// Whether a member has that name.
    pub(crate) fn contains(&self, name: &[u8]) -> bool
        ensures { result ≡ (is_among self.now.whole.names.names name.now || is_among self.now.part.names.names name.now) }
    {
        self.whole.names.contains(name) || self.part.names.contains(name)
    }

    /// Whether there are members.
    pub(crate) fn has_members(&self) -> bool
        ensures { result ≡ (self.now.whole.names.any || self.now.part.names.any) }
    {
        self.whole.names.any || self.part.names.any
    }
}
