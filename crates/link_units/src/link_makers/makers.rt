//! The declaration that makes each name's object or function (C11 6.9.2).

ghost use Rattle.std.specs.Prelude.{◌≡◌, Some, IfOk};
ghost use Rattle.std.specs.Option.{option_or};
ghost use Rattle.link_names.specs.Scene.{IsScene, joined_of};
ghost use Rattle.link_names.specs.Firsts.{AreFirsts};
ghost use Rattle.link_units.specs.link_makers.Made.{AreMakers};

use crate::link_makers::gathered::{first_bodies, first_defined};
use link_names::declared::{Declared, Scene};
use pta_base::OutOfMemory;
use std::alloc::Global;

// The declaration that makes a name: the one with a body, else the first one that defines it, else the first one.
fn maker(body: Option<Declared>, defined: Option<Declared>, first: Declared) -> Declared
    ensures { Some result ≡ option_or body (option_or defined (Some first)) }
{
    match body {
        Some(d) => d,
        None => match defined {
            Some(d) => d,
            None => first,
        },
    }
}

/// For each name, at its first declaration, the one that makes its object or function: the one with a body or an
/// initialiser, else the first one that defines it, else the first one.
pub fn makers_of(
    alloc: Global,
    scene: &Scene<'_>,
    firsts: &[u32],
) -> Result<Vec<Declared>, OutOfMemory>
    requires scene { IsScene scene.now }
    requires firsts { AreFirsts scene.now.units.now scene.now.declared.now firsts.now }
    ensures { IfOk result (λ list. AreMakers (joined_of scene.now) scene.now.declared.now list.items) }
{
    let bodies = first_bodies(alloc, scene, firsts)?;
    let defined = first_defined(alloc, scene, firsts)?;
    let mut list = Vec::new(alloc);
    for (here, d) in scene.declared.iter().enumerate() {
        list.push(maker(bodies[here], defined[here], *d))?;
    }
    Ok(list)
}
