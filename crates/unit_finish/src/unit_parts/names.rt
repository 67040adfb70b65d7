// The numbers of entities by their leaves, and the bodies of what is declared.
#![tactic(auto)]

ghost use Rattle.std.specs.Prelude.{◌≡◌, ◌<◌, ◌^◌, length, map, IfOk, ℕ};
ghost use Rattle.tree_reads.specs.leaf_maps.Numbers.{number_at};
ghost use Rattle.unit_finish.specs.unit_parts.Entities as spec;
ghost use Rattle.unit_finish.specs.unit_parts.Entities.{leaves_from, numbering_of};

use crate::unit_parts::declared::Declared;
use crate::unit_parts::kept::new_number;
use std::alloc::{AllocError, Global};
use tree_reads::leaf_maps::LeafMap;

// The leaf of each of a list with its position.
fn leaves_of(alloc: Global, list: &[Declared]) -> Result<Vec<(u32, u32)>, AllocError>
    requires { length list.now < 2 ^ 32 }
    ensures { IfOk result (λ pairs. pairs.items ≡ leaves_from 0 list.now) }
{
    let mut pairs = Vec::new(alloc);
    for (i, item) in list.iter().enumerate() {
        pairs.push((item.leaf, i as u32))?;
    }
    Ok(pairs)
}

/// The position of what is declared at each leaf, the first one's where there are several.
pub fn numbering(alloc: Global, list: &[Declared]) -> Result<LeafMap, AllocError>
    requires { length list.now < 2 ^ 32 }
    ensures { IfOk result (λ map. (d : ℕ) → number_at map d ≡ numbering_of list.now d) }
{
    let pairs = leaves_of(alloc, list)?;
    LeafMap::of_pairs(alloc, pairs.as_slice())
}

/// The bodies of what is declared, in order.
pub fn bodies_of(alloc: Global, list: &[Declared]) -> Result<Vec<u32>, AllocError>
    ensures { IfOk result (λ bodies. bodies.items ≡ spec.bodies_of list.now) }
{
    let mut bodies = Vec::new(alloc);
    for item in list {
        if let Some(body) = item.body {
            bodies.push(body)?;
        }
    }
    Ok(bodies)
}

// The same with the new number of its body.
fn with_moved_body(numbers: &[Option<u32>], item: Declared) -> Declared
    ensures { result ≡ spec.with_moved_body numbers.now item }
{
    let body = match item.body {
        Some(node) => Some(new_number(numbers, node)),
        None => None,
    };
    Declared {
        leaf: item.leaf,
        name: item.name,
        place: item.place,
        ty: item.ty,
        linkage: item.linkage,
        storage: item.storage,
        owner: item.owner,
        body,
    }
}

/// The same list with the new numbers of bodies.
pub fn with_moved_bodies(
    alloc: Global,
    numbers: &[Option<u32>],
    list: Vec<Declared>,
) -> Result<Vec<Declared>, AllocError>
    ensures { IfOk result (λ moved. moved.items ≡ map (spec.with_moved_body numbers.now) list.items) }
{
    list.into_iter()
        .map(|item| with_moved_body(numbers, item))
        .collect(alloc)
}
