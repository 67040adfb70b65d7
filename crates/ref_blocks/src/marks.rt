// The nodes to which jumps go, by the node from which they are found.

ghost use Rattle.std.specs.Prelude.{◌≡◌, ◌<◌, ◌+◌, [], ◌∷◌, ◌++◌, OnOk, length, map, set, slice_index_or};
ghost use Rattle.std.specs.List.{range_with_len};
ghost use Rattle.ref_blocks.specs.Parents.{AreParents};
ghost use Rattle.ref_blocks.specs.Marks.{found_from, marks_to};

use crate::parents::{nearest_at, root_at};
use crate::ways::Sought;
use c_types::term::OutOfMemory;
use core_tree::{Node, NodeKind};
use pta_base::Listing;

// The node from which one is found, where jumps go to it.
fn found_from(parents: &[Option<u32>], nodes: &[Node], n: u32, kind: &NodeKind) -> Option<u32>
    requires { AreParents nodes.now parents.now }
    ensures { result ≡ found_from nodes.now n kind.now }
{
    match kind {
        NodeKind::Case(_) | NodeKind::Default => {
            nearest_at(parents, nodes, n, Sought::SwitchAlone)
        }
        NodeKind::Label(_) => Some(root_at(parents, nodes, n)),
        _ => None,
    }
}

// Puts a number at the end of the list of that number, where there is one.
fn put_behind(lists: &mut Vec<Listing<u32>>, m: u32, n: u32) -> Result<(), OutOfMemory>
    ensures { OnOk result (lists.new.items ≡ set lists.old.items m (slice_index_or lists.old.items m [] ++ n ∷ [])) }
{
    let at = m as usize;
    if at < lists.len() {
        lists[at].push(n)?;
    }
    Ok(())
}

/// Puts a node into the list of the one from which it is found, if jumps go to it.
pub fn put_mark(
    parents: &[Option<u32>],
    nodes: &[Node],
    marks: &mut Vec<Listing<u32>>,
    n: u32,
) -> Result<(), OutOfMemory>
    requires parents { AreParents nodes.now parents.now }
    requires node { n < length nodes.now }
    requires marks { marks.old.items ≡ map (marks_to nodes.now n) (range_with_len 0 (length nodes.now)) }
    ensures { OnOk result (marks.new.items ≡ map (marks_to nodes.now (n + 1)) (range_with_len 0 (length nodes.now))) }
{
    let node = &nodes[n as usize];
    match found_from(parents, nodes, n, &node.kind) {
        Some(m) => put_behind(marks, m, n),
        None => Ok(()),
    }
}
