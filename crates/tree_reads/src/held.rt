// The parents of nodes, as they are held.
ghost use Rattle.std.specs.Prelude.{◌≡◌, ◌<◌, None, Some, length, replicate, get_or, set, IfOk};
ghost use Rattle.tree_reads.specs.Held.{no_parent};

use std::alloc::{AllocError, Global};
use std::marker::Model;

// Stands where a node has no parent.
const NO_PARENT: u32 = 4294967295;

/// The parent of each node, in four bytes a node. Clauses see them as a list.
#[derive(Drop)]
pub(crate) struct ParentList {
    held: Vec<u32>,
}

impl Model for ParentList {
    ghost use Rattle.std.specs.Prelude.{map};
    ghost use Rattle.tree_reads.specs.Held.{Parents, parent_held};

    ghost Value = { Parents };

    ghost view = { λ a. record { items = map parent_held a.held.items } };
}

impl ParentList {
    /// So many nodes of which no parent is known.
    pub(crate) fn unknown(alloc: Global, count: usize) -> Result<ParentList, AllocError>
        ensures { IfOk result (λ list. list.items ≡ replicate count None) }
    {
        let held: Vec<u32> = vec![in alloc; NO_PARENT; count]?;
        Ok(ParentList { held })
    }

    /// How many nodes there are.
    pub(crate) fn len(&self) -> usize
        ensures { result ≡ length self.now.items }
    {
        self.held.len()
    }

    /// The parent of a node, if one is known.
    pub(crate) fn get(&self, node: usize) -> Option<u32>
        requires { node < length self.now.items }
        ensures { result ≡ get_or self.now.items node None }
    {
        let parent = self.held[node];
        if parent == NO_PARENT {
            None
        } else {
            Some(parent)
        }
    }

    /// Gives a node a parent.
    pub(crate) fn put(&mut self, node: usize, parent: u32)
        requires node { node < length self.old.items }
        requires room { parent < no_parent }
        ensures { self.new.items ≡ set self.old.items node (Some parent) }
    {
        self.held[node] = parent;
    }
}
