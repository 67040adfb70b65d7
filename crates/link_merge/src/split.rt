//! Nodes of one class, told apart by the classes of their kids.

ghost use Rattle.std.specs.Prelude.{◌≡◌, ◌<◌, ◌^◌, Some, All, IfOk, OnOk, length, map, slice_get, slice_index, slice_set};
ghost use Rattle.link_merge.specs.Keys.{keys_of};
ghost use Rattle.link_merge.specs.Parted.{lists_of, list_of, node_key, AreNodes, IsRenumbered, IsSplit};

use crate::index::leaders_of_keys;
use pta_base::OutOfMemory;
use std::alloc::Global;

// What tells a node from others of its class: its class and those of its kids.
fn node_key(alloc: Global, class: &[u32], kids: &[u32], node: u32) -> Result<Vec<u64>, OutOfMemory>
    requires node { node < length class.now }
    requires kids { All (λ c. c < length class.now) kids.now }
    ensures { IfOk result (λ key. key.items ≡ node_key class.now kids.now node) }
{
    let mut key = Vec::new(alloc);
    key.push(u64::from(class[node as usize]))?;
    for kid in kids {
        key.push(u64::from(class[*kid as usize]))?;
    }
    Ok(key)
}

// The keys of the nodes of a list.
fn node_keys(
    alloc: Global,
    class: &[u32],
    kids: &[Vec<u32>],
    list: &[u32],
) -> Result<Vec<Option<Vec<u64>>>, OutOfMemory>
    requires many { length kids.now ≡ length class.now }
    requires kids { AreNodes (lists_of kids.now) (length class.now) }
    requires nodes { All (λ x. x < length class.now) list.now }
    ensures { IfOk result (λ keys.
        keys_of keys.items ≡ map (λ x. Some (node_key class.now (list_of (lists_of kids.now) x) x)) list.now) }
{
    let mut keys = Vec::new(alloc);
    for node in list {
        let own = kids[*node as usize].as_slice();
        let key = node_key(alloc, class, own, *node)?;
        keys.push(Some(key))?;
    }
    Ok(keys)
}

// Gives a node a class; true where it had another one.
fn set_class(class: &mut Vec<u32>, node: u32, leader: u32) -> bool
    requires { node < length class.old.items }
    ensures { class.new.items ≡ slice_set class.old.items node leader }
{
    let before = class[node as usize];
    class[node as usize] = leader;
    before != leader
}

// Gives the node at each place of a list the node at the place of its leader as its class. The nodes that had another one.
fn renumber(
    alloc: Global,
    class: &mut Vec<u32>,
    list: &[u32],
    leads: &[u32],
) -> Result<Vec<u32>, OutOfMemory>
    requires nodes { All (λ x. x < length class.old.items) list.now }
    requires many { length leads.now ≡ length list.now }
    requires leads { All (λ j. j < length list.now) leads.now }
    ensures { OnOk result (IsRenumbered class.old.items class.new.items list.now leads.now (length list.now)) }
{
    let mut changed = Vec::new(alloc);
    for (here, node) in list.iter().enumerate() {
        let leader = list[leads[here] as usize];
        if set_class(class, *node, leader) {
            changed.push(*node)?;
        }
    }
    Ok(changed)
}

/// Tells the nodes of a list apart by their classes and those of their kids: of those that are alike the first one's number
/// is their class. The nodes that change their class.
pub(crate) fn split(
    alloc: Global,
    class: &mut Vec<u32>,
    kids: &[Vec<u32>],
    list: &[u32],
) -> Result<Vec<u32>, OutOfMemory>
    requires few { length list.now < 2 ^ 32 }
    requires many { length kids.now ≡ length class.old.items }
    requires kids { AreNodes (lists_of kids.now) (length class.old.items) }
    requires nodes { All (λ x. x < length class.old.items) list.now }
    ensures { OnOk result (IsSplit class.old.items class.new.items (lists_of kids.now) list.now) }
{
    let keys = node_keys(alloc, class.as_slice(), kids, list)?;
    let leads = leaders_of_keys(alloc, keys.as_slice())?;
    let changed = renumber(alloc, class, list, leads.as_slice())?;
    Ok(changed)
}
