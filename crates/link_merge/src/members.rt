//! The nodes of each class, in order.

ghost use Rattle.std.specs.Prelude.{◌≡◌, ◌<◌, ◌^◌, ◌++◌, ◌∷◌, [], ℕ, All, IfOk, OnOk, length, replicate, slice_set};
ghost use Rattle.link_merge.specs.Parted.{lists_of, list_of, MembersUpTo};

use pta_base::OutOfMemory;
use std::alloc::Global;

/// So many empty lists.
pub(crate) fn empty_lists(alloc: Global, count: usize) -> Result<Vec<Vec<u32>>, OutOfMemory>
    ensures { IfOk result (λ lists. lists_of lists.items ≡ replicate count []) }
{
    let mut lists = Vec::new(alloc);
    for _ in 0..count {
        lists.push(Vec::new(alloc))?;
    }
    Ok(lists)
}

/// Adds a node to one of the lists.
pub(crate) fn add_node(lists: &mut Vec<Vec<u32>>, at: usize, node: u32) -> Result<(), OutOfMemory>
    requires { at < length lists.old.items }
    ensures { OnOk result
        (lists_of lists.new.items ≡ slice_set (lists_of lists.old.items) at (list_of (lists_of lists.old.items) at ++ node ∷ [])) }
{
    lists[at].push(node)?;
    Ok(())
}

/// The nodes that begin in each class, by the class's number.
pub(crate) fn members_of(alloc: Global, first: &[u32]) -> Result<Vec<Vec<u32>>, OutOfMemory>
    requires few { length first.now < 2 ^ 32 }
    requires within { All (λ l. l < length first.now) first.now }
    ensures { IfOk result (λ lists. MembersUpTo first.now (lists_of lists.items) (length first.now)) }
{
    let mut lists = empty_lists(alloc, first.len())?;
    for (here, class) in first.iter().enumerate() {
        add_node(&mut lists, *class as usize, here as u32)?;
    }
    Ok(lists)
}
