//! What a round has told apart, spread to all tags that mention such, by their types.

ghost use Rattle.std.specs.Prelude.{◌≡◌, ◌<◌, ◌≤◌, ◌^◌, ◌∷◌, [], ℕ, Some, All, IfOk, length, map, slice_index, take};
ghost use Rattle.link_model.specs.link_types.Leaders.{AreLeaders};
ghost use Rattle.link_merge.specs.Keys.{keys_of};
ghost use Rattle.link_merge.specs.Kids.{begun, IsSpread};
ghost use Rattle.link_merge.specs.Parted.{lists_of};

use crate::index::leaders_of_keys;
use crate::parted::parted;
use pta_base::OutOfMemory;
use std::alloc::Global;

// The class in which each node begins: tags with their leaders, types with the first of the same type.
fn begun(alloc: Global, leaders: &[u32], firsts: &[u32]) -> Result<Vec<u32>, OutOfMemory>
    requires { length leaders.now < 2 ^ 32 }
    ensures { IfOk result (λ list. list.items ≡ begun leaders.now firsts.now) }
{
    let count = leaders.len() as u32;
    let mut list = Vec::from_slice(alloc, leaders)?;
    for first in firsts {
        let class = count.checked_add(*first).ok_or(OutOfMemory)?;
        list.push(class)?;
    }
    Ok(list)
}

// The tags that have another leader than before.
fn changed_tags(alloc: Global, before: &[u32], leaders: &[u32]) -> Result<Vec<u32>, OutOfMemory>
    requires same { length leaders.now ≡ length before.now }
    requires few { length leaders.now < 2 ^ 32 }
{
    let mut list = Vec::new(alloc);
    for (here, leader) in leaders.iter().enumerate() {
        if before[here] != *leader {
            list.push(here as u32)?;
        }
    }
    Ok(list)
}

// The class of each node as a key.
fn class_keys(alloc: Global, class: &[u32]) -> Result<Vec<Option<Vec<u64>>>, OutOfMemory>
    ensures { IfOk result (λ keys. keys_of keys.items ≡ map (λ c. Some (c ∷ [])) class.now) }
{
    let mut keys = Vec::new(alloc);
    for one in class {
        let mut key = Vec::new(alloc);
        key.push(u64::from(*one))?;
        keys.push(Some(key))?;
    }
    Ok(keys)
}

// The first so many numbers of a list.
fn first_part(list: &[u32], count: usize) -> &[u32]
    requires { count ≤ length list.now }
    ensures { result.now ≡ take count list.now }
{
    &list[..count]
}

/// The leaders of tags whose classes are told apart by their kids, given the leaders before and after a round, the first same
/// type for each type of the round's table, and the kids of all nodes.
pub(crate) fn spread(
    alloc: Global,
    kids: &[Vec<u32>],
    before: &[u32],
    leaders: &[u32],
    firsts: &[u32],
) -> Result<Vec<u32>, OutOfMemory>
    requires same { length leaders.now ≡ length before.now }
    requires few { length leaders.now < 2 ^ 32 }
    requires lead { AreLeaders leaders.now }
    requires within { All (λ k. k < length firsts.now) firsts.now }
    requires itself { (k : ℕ) → k < length firsts.now → slice_index firsts.now (slice_index firsts.now k) ≡ slice_index firsts.now k }
    ensures { IfOk result (λ list. IsSpread leaders.now firsts.now (lists_of kids.now) list.items) }
{
    let first = begun(alloc, leaders, firsts)?;
    if first.len() > u32::MAX as usize || kids.len() != first.len() {
        return Err(OutOfMemory);
    }
    let changed = changed_tags(alloc, before, leaders)?;
    let class = parted(alloc, first.as_slice(), kids, changed.as_slice())?;
    let of_tags = first_part(class.as_slice(), leaders.len());
    let keys = class_keys(alloc, of_tags)?;
    let list = leaders_of_keys(alloc, keys.as_slice())?;
    Ok(list)
}
