//! The first declaration of each name that passes a test.

ghost use Rattle.std.specs.Prelude.{◌≡◌, ◌<◌, None, IfOk, length, slice_set};
ghost use Rattle.std.specs.List.{slice_index_or};
ghost use Rattle.link_names.specs.Externals.{has_body, is_defined, item_of};
ghost use Rattle.link_names.specs.Scene.{IsScene, joined_of};
ghost use Rattle.link_names.specs.Firsts.{AreFirsts};
ghost use Rattle.link_units.specs.link_makers.Gathered.{AreGathered, first_passing};

use link_names::declared::{Declared, Scene, entity_of};
use link_names::defined::is_defined;
use pta_base::OutOfMemory;
use std::alloc::Global;

// The first declaration that passes, with one more.
fn first_passing(found: Option<Declared>, passes: bool, d: Declared) -> Option<Declared>
    ensures { result ≡ first_passing found passes d }
{
    match found {
        Some(first) => Some(first),
        None => { if passes { Some(d) } else { None } }
    }
}

// Keeps the first declaration that passes at a place.
fn keep_first(list: &mut Vec<Option<Declared>>, at: usize, passes: bool, d: Declared)
    requires { at < length list.old.items }
    ensures { list.new.items ≡ slice_set list.old.items at (first_passing (slice_index_or list.old.items at None) passes d) }
{
    let before = list[at];
    list[at] = first_passing(before, passes, d);
}

/// The first declaration of each name with a body or an initialiser, at the name's first declaration.
pub fn first_bodies(
    alloc: Global,
    scene: &Scene<'_>,
    firsts: &[u32],
) -> Result<Vec<Option<Declared>>, OutOfMemory>
    requires scene { IsScene scene.now }
    requires firsts { AreFirsts scene.now.units.now scene.now.declared.now firsts.now }
    ensures { let ds = scene.now.declared.now in let units = scene.now.units.now in
        IfOk result (λ list. AreGathered units ds (λ o d. first_passing o (has_body units (item_of d)) d) None ds list.items) }
{
    let mut list = vec![in alloc; None; firsts.len()]?;
    for (here, d) in scene.declared.iter().enumerate() {
        let first = firsts[here] as usize;
        let body = entity_of(scene.units, *d).body.is_some();
        keep_first(&mut list, first, body, *d);
    }
    Ok(list)
}

/// The first declaration of each name that defines it, at the name's first declaration.
pub fn first_defined(
    alloc: Global,
    scene: &Scene<'_>,
    firsts: &[u32],
) -> Result<Vec<Option<Declared>>, OutOfMemory>
    requires scene { IsScene scene.now }
    requires firsts { AreFirsts scene.now.units.now scene.now.declared.now firsts.now }
    ensures { let ds = scene.now.declared.now in let units = scene.now.units.now in
        IfOk result
        (λ list. AreGathered units ds
        (λ o d. first_passing o (is_defined (joined_of scene.now) (item_of d)) d) None ds list.items) }
{
    let mut list = vec![in alloc; None; firsts.len()]?;
    for (here, d) in scene.declared.iter().enumerate() {
        let first = firsts[here] as usize;
        let placed = is_defined(scene, *d);
        keep_first(&mut list, first, placed, *d);
    }
    Ok(list)
}
