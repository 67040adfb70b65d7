// Entities out of what is declared.
#![tactic(auto)]

ghost use Rattle.std.specs.Prelude.{◌≡◌, option_and_then, IfOk};
ghost use Rattle.tree_reads.specs.leaf_maps.Numbers.{number_at};
ghost use Rattle.unit_finish.specs.unit_parts.Entities.{entities_from};

use crate::unit_parts::declared::Declared;
use crate::unit_parts::uses::uses_of;
use core_tree::node::{Entity, Node};
use pta_base::Place;
use std::alloc::{AllocError, Global};
use std::collections::VecDeque;
use tree_reads::leaf_maps::LeafMap;

// The number of an owner, if there is one.
fn owner_of(numbers: &LeafMap, owner: Option<u32>) -> Option<u32>
    ensures { result ≡ option_and_then (number_at numbers.now) owner }
{
    match owner {
        Some(leaf) => numbers.get(leaf),
        None => None,
    }
}

/// The entities of a list in order: the owner of each by its number, and the least place of its uses among the nodes.
pub fn entities_of(
    alloc: Global,
    unit: u32,
    numbers: &LeafMap,
    nodes: &[Node],
    list: Vec<Declared>,
) -> Result<Vec<Entity>, AllocError>
    ensures { IfOk result (λ entities. entities.items ≡ entities_from unit (number_at numbers.now) nodes.now 0 list.items) }
{
    let uses = uses_of(alloc, list.len(), nodes)?;
    let mut rest = VecDeque::from_vec(list);
    let mut entities = Vec::new(alloc);
    while let Some(item) = rest.pop_front() {
        let used = uses[entities.len()];
        entities.push(Entity {
            name: item.name,
            unit,
            place: item.place,
            ty: item.ty,
            linkage: item.linkage,
            storage: item.storage,
            owner: owner_of(numbers, item.owner),
            body: item.body,
            used,
        })?;
    }
    Ok(entities)
}
