//! Where each external name is used first.

ghost use Rattle.std.specs.Prelude.{◌≡◌, ◌<◌, None, Option, IfOk, length, slice_set};
ghost use Rattle.std.specs.List.{slice_index_or};
ghost use Rattle.link_names.specs.Externals.{item_of};
ghost use Rattle.link_names.specs.Scene.{IsScene};
ghost use Rattle.link_names.specs.Firsts.{AreFirsts};
ghost use Rattle.link_units.specs.link_entities.Uses.{IsEarlier, AreUses};

use link_names::declared::{Scene, entity_of};
use link_names::is_before;
use pta_base::{OutOfMemory, Place};
use std::alloc::Global;

// The earlier of two places, where there are any.
fn earlier(before: Option<Place>, one: Option<Place>) -> Option<Place>
    ensures { IsEarlier before one result }
{
    match (before, one) {
        (Some(p), Some(q)) => { if is_before(q, p) { Some(q) } else { Some(p) } }
        (Some(p), None) => Some(p),
        (None, q) => q,
    }
}

// Keeps the earlier place at a number.
fn keep_earlier(list: &mut Vec<Option<Place>>, at: usize, one: Option<Place>)
    requires { at < length list.old.items }
    ensures { (kept : Option Place) × (list.new.items ≡ slice_set list.old.items at kept)
        × IsEarlier (slice_index_or list.old.items at None) one kept }
{
    let before = list[at];
    list[at] = earlier(before, one);
}

/// The first place at which each external name is used, at the name's first declaration; None where it is never used.
pub fn first_uses(
    alloc: Global,
    scene: &Scene<'_>,
    firsts: &[u32],
) -> Result<Vec<Option<Place>>, OutOfMemory>
    requires scene { IsScene scene.now }
    requires firsts { AreFirsts scene.now.units.now scene.now.declared.now firsts.now }
    ensures { IfOk result (λ list. AreUses scene.now.units.now scene.now.declared.now scene.now.declared.now list.items) }
{
    let mut list = vec![in alloc; None; firsts.len()]?;
    for (here, d) in scene.declared.iter().enumerate() {
        let first = firsts[here] as usize;
        keep_earlier(&mut list, first, entity_of(scene.units, *d).used);
    }
    Ok(list)
}
