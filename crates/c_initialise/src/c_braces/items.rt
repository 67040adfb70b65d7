//! The items of an initialiser that last, and the length that it gives (C11 6.7.9p19, p22).

ghost use Rattle.std.specs.Prelude.{◌≡◌, ◌<◌, length, IfOk, MatchResult};
ghost use Rattle.c_types.specs.Table.{type_of};
ghost use Rattle.c_inits.specs.Initial.{NoPlace};
ghost use Rattle.c_inits.specs.Tables.{shape_in};
ghost use Rattle.c_initialise.specs.c_braces.Tree.{AreInits, init_at};
ghost use Rattle.c_initialise.specs.c_braces.Initialised.{outcome_for, IsGiven};

use crate::c_braces::lengths::given_length;
use crate::c_braces::lists::{Walk, fill, node_at};
use crate::c_braces::shapes::has_shape;
use c_inits::items::{InitItem, lasting_items};
use c_types::term::{OutOfMemory, TypeId};
use std::alloc::Global;

/// What an initialiser gives an object.
#[derive(Drop)]
pub struct Initialised {
    /// The items that last, in order.
    pub items: Vec<InitItem>,
    /// The number of elements that an array without a length gets.
    pub length: Option<u64>,
}

/// What the initialiser in a position of the list gives an object of that type: the items in order, without those that a later item
/// replaces (C11 6.7.9p19), and for an array without a length its length (p22); or the first node, in text order, that has no place:
/// that of the designator that names nothing, or of the initialiser that finds no place or whose braces don't fit. Where the type is
/// neither complete nor an array of complete elements, that is the whole initialiser's node. An error comes for want of memory alone.
pub fn initialise(
    alloc: Global,
    walk: &Walk,
    at: u32,
    id: TypeId,
) -> Result<Result<Initialised, u32>, OutOfMemory>
    requires known { id.0 < length walk.now.types.now.terms }
    requires inits { AreInits walk.now.types.now walk.now.inits.now }
    requires at { at < length walk.now.inits.now }
    ensures { let w = walk.now in
        let outcome = outcome_for (shape_in w.types.now w.limit id.0) (init_at w.types.now w.inits.now at) in
        IfOk result (λ r. MatchResult r
        (λ made. IsGiven (type_of w.types.now id.0) outcome made)
        (λ bad. outcome ≡ NoPlace bad)) }
{
    if !has_shape(walk.types, id) {
        return Ok(Err(node_at(walk.inits, at)));
    }
    let mut actions = Vec::new(alloc);
    match fill(alloc, walk, at, id, &[], &mut actions)? {
        Some(bad) => Ok(Err(bad)),
        None => {
            let length = given_length(walk.types, walk.limit, id, actions.as_slice());
            let items = lasting_items(alloc, actions)?;
            Ok(Ok(Initialised { items, length }))
        }
    }
}
