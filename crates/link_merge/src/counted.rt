//! Which member list counts for each tag: its own, else that of the first tag of its label that has one.

ghost use Rattle.std.specs.Prelude.{◌≡◌, ◌<◌, ◌+◌, ◌^◌, ℕ, None, IfOk, OnOk, length, slice_set};
ghost use Rattle.link_merge.specs.Tags.{AreTags};
ghost use Rattle.std.specs.List.{slice_index_or};
ghost use Rattle.link_model.specs.link_types.Leaders.{AreLeaders};
ghost use Rattle.link_merge.specs.Counted.{FirstsUpTo, AreCounted, AreOfTags, AreLeadersOf, kept_first};

use crate::lists::has_list;
use core_tree::Unit;
use link_model::Item;
use pta_base::OutOfMemory;
use std::alloc::Global;

// Keeps a tag as the first with a list of its label, where it has one and there was none before.
fn keep_first(list: &mut Vec<Option<u32>>, leader: u32, has: bool, here: u32)
    requires { leader < length list.old.items }
    ensures { list.new.items ≡ slice_set list.old.items leader (kept_first (slice_index_or list.old.items leader None) has here) }
{
    if has && list[leader as usize].is_none() {
        list[leader as usize] = Some(here);
    }
}

// The first tag of each label that has a list, at the place of the label's first tag.
fn first_lists(
    alloc: Global,
    units: &[Unit],
    tags: &[Item],
    leaders: &[u32],
) -> Result<Vec<Option<u32>>, OutOfMemory>
    requires tags { AreOfTags units.now tags.now }
    requires leaders { AreLeadersOf tags.now leaders.now }
    requires few { length tags.now < 2 ^ 32 }
    ensures { IfOk result (λ list. FirstsUpTo units.now tags.now leaders.now (length tags.now) list.items) }
{
    let mut list = vec![in alloc; None; tags.len()]?;
    for (here, tag) in tags.iter().enumerate() {
        keep_first(&mut list, leaders[here], has_list(units, *tag), here as u32);
    }
    Ok(list)
}

/// The place of the tag whose list counts for each tag, given the first tag of each one's label.
pub fn counted(
    alloc: Global,
    units: &[Unit],
    tags: &[Item],
    leaders: &[u32],
) -> Result<Vec<Option<u32>>, OutOfMemory>
    requires tags { AreOfTags units.now tags.now }
    requires leaders { AreLeadersOf tags.now leaders.now }
    requires few { length tags.now < 2 ^ 32 }
    ensures { IfOk result (λ list. AreCounted units.now tags.now leaders.now list.items) }
{
    let of_label = first_lists(alloc, units, tags, leaders)?;
    let mut list = Vec::new(alloc);
    for (here, tag) in tags.iter().enumerate() {
        let one = if has_list(units, *tag) {
            Some(here as u32)
        } else {
            of_label[leaders[here] as usize]
        };
        list.push(one)?;
    }
    Ok(list)
}
