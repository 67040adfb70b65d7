//! The labels by which units share structures and unions: keyword and key.

ghost use Rattle.std.specs.Prelude.{◌≡◌, ◌<◌, ◌^◌, Some, IfOk, length, slice_get};
ghost use Rattle.link_model.specs.Units.{IsTag, key_at};
ghost use Rattle.link_model.specs.link_types.Leaders.{AreLeaders};
ghost use Rattle.link_model.specs.link_types.Starts.{AreSums};
ghost use Rattle.link_merge.specs.Keys.{key_of, keys_of};
ghost use Rattle.link_merge.specs.Tags.{AreKept, AreTags, AreLabels, AreLabelled, label_with, tag_counts_of};

use crate::index::leaders_of_keys;
use crate::tags::all_unions;
use core_tree::Unit;
use link_model::Item;
use pta_base::{OutOfMemory, Text};
use std::alloc::Global;

// The key of a tag with its keyword, where it has a key.
fn label_key(
    alloc: Global,
    union: bool,
    key: &Option<Text>,
) -> Result<Option<Vec<u64>>, OutOfMemory>
    ensures { IfOk result (λ label. key_of label ≡ label_with union key.now) }
{
    match key {
        Some(key) => {
            let mut list = Vec::new(alloc);
            list.push(if union { 1 } else { 0 })?;
            for byte in key.as_str().as_bytes() {
                list.push(u64::from(*byte))?;
            }
            Ok(Some(list))
        }
        None => Ok(None),
    }
}

// The key of a unit's tag.
fn unit_key(unit: &Unit, tag: u32) -> &Option<Text>
    requires { tag < length unit.now.tags.items }
    ensures { slice_get unit.now.tags.items tag ≡ Some result.now }
{
    &unit.tags[tag as usize]
}

// The key of a tag of one of the units.
fn tag_key_of(units: &[Unit], tag: Item) -> &Option<Text>
    requires tag { IsTag units.now tag }
    requires kept { AreKept units.now }
    ensures { result.now ≡ key_at units.now tag }
{
    unit_key(&units[tag.unit as usize], tag.number)
}

// The labels of all tags.
fn label_keys(
    alloc: Global,
    units: &[Unit],
    starts: &[u32],
    tags: &[Item],
) -> Result<Vec<Option<Vec<u64>>>, OutOfMemory>
    requires tags { AreTags units.now starts.now tags.now }
    requires kept { AreKept units.now }
    requires sums { AreSums (tag_counts_of units.now) starts.now }
    ensures { IfOk result (λ list. AreLabels units.now tags.now (keys_of list.items)) }
{
    let unions = all_unions(alloc, units, starts)?;
    let mut list = Vec::new(alloc);
    for (here, tag) in tags.iter().enumerate() {
        let key = tag_key_of(units, *tag);
        let label = label_key(alloc, unions[here], key)?;
        list.push(label)?;
    }
    Ok(list)
}

/// The first tag that has the same keyword and key as each tag; a tag without a key is its own first.
pub fn label_leaders(
    alloc: Global,
    units: &[Unit],
    starts: &[u32],
    tags: &[Item],
) -> Result<Vec<u32>, OutOfMemory>
    requires tags { AreTags units.now starts.now tags.now }
    requires kept { AreKept units.now }
    requires sums { AreSums (tag_counts_of units.now) starts.now }
    requires few { length tags.now < 2 ^ 32 }
    ensures labelled { IfOk result (λ list. AreLabelled units.now tags.now list.items) }
    ensures leaders { IfOk result (λ list. AreLeaders list.items) }
{
    let keys = label_keys(alloc, units, starts, tags)?;
    leaders_of_keys(alloc, keys.as_slice())
}
