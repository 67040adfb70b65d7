// What is found once of a program: the node above each node, the objects of each block, and where jumps go.

ghost use Rattle.std.specs.Prelude.{◌≡◌, ◌<◌, [], All, IfOk, IfSome, length, slice_index_or};
ghost use Rattle.core_tree.specs.Seen.{core_of};

use crate::block::Block;
use crate::lists::{empty_lists, listed_lists, put_literal};
use crate::marks::put_mark;
use crate::parents::{above, nearest_at, parent_at, parents_of, root_at};
use crate::ways::{Link, Sought};
use c_types::term::OutOfMemory;
use core_tree::trees::Trees;
use pta_base::Listing;
use std::alloc::Global;

/// The node above each node, and the objects of each block, in order of place: those of a statement by its node, and those
/// of a branch or body by its node. `marks` are the nodes to which jumps go, by the node from which they are found, in order.
#[derive(Drop)]
pub struct Plan {
    parents: Vec<Option<u32>>,
    own: Vec<Listing<u32>>,
    parts: Vec<Listing<u32>>,
    marks: Vec<Listing<u32>>,
}

// The list of that number, or none.
fn list_at(lists: &[Listing<u32>], n: u32) -> &[u32]
    ensures { result.now ≡ slice_index_or lists.now n [] }
{
    let at = n as usize;
    if at < lists.len() {
        lists[at].as_slice()
    } else {
        &[]
    }
}

impl Plan {
    ghost use Rattle.ref_blocks.specs.Ways.{parent_of, above, root_of};
    ghost use Rattle.ref_blocks.specs.Around.{objects_of};
    ghost use Rattle.ref_blocks.specs.Ways.{is_sought, nearest};
    ghost use Rattle.ref_blocks.specs.Marks.{marks_of};
    ghost use Rattle.ref_blocks.specs.Plans.{IsPlan};

    /// The plan of a program. It answers want of memory where there are 2 to the 32 nodes or more, which no numbers name.
    pub fn of(alloc: Global, trees: &Trees<'_>) -> Result<Plan, OutOfMemory>
        ensures { IfOk result (IsPlan (core_of trees.now)) }
    {
        if trees.nodes.len() > u32::MAX as usize {
            return Err(OutOfMemory);
        }
        let parents = parents_of(alloc, trees.nodes)?;
        let mut own = listed_lists(alloc, trees)?;
        let mut parts = empty_lists(alloc, trees)?;
        let mut marks = empty_lists(alloc, trees)?;
        for n in 0..trees.nodes.len() {
            put_literal(
                alloc,
                trees,
                parents.as_slice(),
                &mut own,
                &mut parts,
                n as u32,
            )?;
            put_mark(parents.as_slice(), trees.nodes, &mut marks, n as u32)?;
        }
        Ok(Plan {
            parents,
            own,
            parts,
            marks,
        })
    }

    /// The node above a node.
    pub fn parent_of(&self, trees: &Trees<'_>, n: u32) -> Option<u32>
        requires { IsPlan (core_of trees.now) self.now }
        ensures value { result ≡ parent_of trees.now.nodes.now n }
        ensures above { IfSome result (λ p. n < p) }
        ensures within { IfSome result (λ p. p < length trees.now.nodes.now) }
    {
        parent_at(self.parents.as_slice(), trees.nodes, n)
    }

    /// The nodes above a node, the nearest first, each with its child on the way.
    pub fn above(&self, alloc: Global, trees: &Trees<'_>, n: u32) -> Result<Vec<Link>, OutOfMemory>
        requires { IsPlan (core_of trees.now) self.now }
        ensures value { IfOk result (λ links. links.items ≡ above trees.now.nodes.now n) }
        ensures within { IfOk result (λ links.
            All (λ l. (l.node < length trees.now.nodes.now) × (l.child < length trees.now.nodes.now)) links.items) }
    {
        above(alloc, self.parents.as_slice(), trees.nodes, n)
    }

    /// The topmost node above a node: of a statement the body of its function.
    pub fn root_of(&self, trees: &Trees<'_>, n: u32) -> u32
        requires { IsPlan (core_of trees.now) self.now }
        ensures { result ≡ root_of trees.now.nodes.now n }
    {
        root_at(self.parents.as_slice(), trees.nodes, n)
    }

    /// The nearest statement above a node that is sought.
    pub fn nearest(&self, trees: &Trees<'_>, n: u32, sought: Sought) -> Option<u32>
        requires { IsPlan (core_of trees.now) self.now }
        ensures { result ≡ nearest trees.now.nodes.now (is_sought sought) (above trees.now.nodes.now n) }
    {
        nearest_at(self.parents.as_slice(), trees.nodes, n, sought)
    }

    /// The objects of a block, in order of place.
    pub fn objects_of<'a>(&'a self, trees: &Trees<'_>, block: Block) -> &'a [u32]
        requires { IsPlan (core_of trees.now) self.now }
        ensures { result.now ≡ objects_of (core_of trees.now) block }
    {
        let _ = trees;
        match block {
            Block::Own(n) => list_at(self.own.as_slice(), n),
            Block::Part(n) => list_at(self.parts.as_slice(), n),
        }
    }

    /// The nodes to which jumps go that are found from a node: from a switch its cases and its `default`, from the topmost node
    /// of a body its labels, each list in order.
    pub fn marks_of<'a>(&'a self, trees: &Trees<'_>, m: u32) -> &'a [u32]
        requires { IsPlan (core_of trees.now) self.now }
        ensures { result.now ≡ marks_of trees.now.nodes.now m }
    {
        let _ = trees;
        list_at(self.marks.as_slice(), m)
    }
}
