// The node that initialises an object (C11 6.7.9).
ghost use Rattle.std.specs.Prelude.{◌≡◌, ◌<◌, ℕ, length, map, All, IfOk};
ghost use Rattle.c_types.specs.Table.{type_of};
ghost use Rattle.c_inits.specs.Items.{placed_of};
ghost use Rattle.c_senses.specs.World.{World};
ghost use Rattle.c_senses.specs.Tree.{Source};
ghost use Rattle.c_senses.specs.Sense.{Sense, sense_in};
ghost use Rattle.c_senses.specs.Initialised as spec;
ghost use Rattle.core_nodes.specs.Standing.{core_at, IsReady, Builds, Made as CoreMade};
ghost use Rattle.c_conversions.specs.Constants.{HasRows};
ghost use Rattle.c_conversions.specs.constant_values.Constants.{HasConstants};
ghost use Rattle.c_results.specs.Standing.{senses_made, IsWithin};
ghost use Rattle.tree_reads.specs.Sources.{source_read};
ghost use Rattle.c_initialise.specs.c_braces.Initialised.{IsGiven};
ghost use Rattle.c_inits.specs.Initial.{Outcome};
ghost use Rattle.c_initials.specs.Scope.{IsTold, ObjectMade, initialised};

use crate::placing::placed_values;
use crate::storage::Scope;
use c_entities::with_length;
use c_initialise::c_braces::items::Initialised;
use c_inits::items::InitItem;
use c_types::term::{PathStep, Term, TypeId};
use core_nodes::CheckFault;
use core_nodes::trees::{add_type, push_node};
use core_tree::held::{Children, HeldList};
use core_tree::node::{NodeKind, Unit};
use pta_base::{Listing, Place};
use std::alloc::{AllocError, Global};

// The paths of items, in order.
fn paths_of(alloc: Global, items: &[InitItem]) -> Result<Listing<Listing<PathStep>>, AllocError>
    ensures { (w : World) (s : Source) (sense : ℕ → Sense) →
        IfOk result (λ paths. paths ≡ spec.paths_of w s sense (map placed_of items.now)) }
{
    let mut paths = Listing::new(alloc);
    for item in items {
        let path = Vec::from_slice(alloc, item.path.as_slice())?;
        paths.push(Listing::of(path))?;
    }
    Ok(paths)
}

// The node that gives an object of a type the values of items at their paths, each as one of the type there; where the object is static
// each of them is fixed before the program runs (C11 6.7.9p4). What isn't so is refused at its initialiser.
fn initialised(
    alloc: Global,
    unit: &mut Unit,
    scope: &Scope,
    is_static: bool,
    entity: u32,
    place: Place,
    whole: TypeId,
    items: &[InitItem],
) -> Result<u32, CheckFault>
    requires ready { IsReady unit.old }
    requires results { All (IsWithin unit.old) scope.now.results.now }
    requires rows { All (HasConstants unit.old) scope.now.results.now }
    requires whole { whole.0 < length unit.old.types.terms }
    ensures ready { IsReady unit.new }
    ensures builds { Builds unit.old unit.new }
    ensures within { IfOk result (λ i. i < length unit.new.nodes.items) }
    ensures rows { IfOk result (λ i. HasRows (core_at unit.new i)) }
    ensures made { (w : World) →
        IsTold w unit.old scope.now →
        let s = source_read scope.now.syntax.now in
        let sense = sense_in (senses_made unit.old scope.now.results.now) in
        CoreMade unit.new result
        (initialised w s sense is_static entity place (type_of unit.old.types whole.0) (map placed_of items.now)) }
{
    let values = match placed_values(alloc, unit, scope, is_static, whole, items) {
        Ok(values) => values,
        Err(fault) => return Err(fault),
    };
    let Ok(paths) = paths_of(alloc, items) else {
        return Err(CheckFault::OutOfMemory);
    };
    let Ok(void) = add_type(unit, Term::Void) else {
        return Err(CheckFault::OutOfMemory);
    };
    let paths = HeldList::of(alloc, paths.into_vec())?;
    let values = Children::of(alloc, values.into_vec())?;
    push_node(
        unit,
        NodeKind::Initialise { entity, paths },
        place,
        void,
        values,
    )
}

/// The node that initialises an object of a type as its initialiser says (C11 6.7.9): the items that last, each converted to the type at
/// its place; an array without a length has the one that the initialiser gives. Where the object is static each value is fixed before
/// the program runs (6.7.9p4). What isn't so is refused at its initialiser.
pub fn object_made(
    alloc: Global,
    unit: &mut Unit,
    scope: &Scope,
    is_static: bool,
    entity: u32,
    place: Place,
    ty: TypeId,
    given: &Initialised,
) -> Result<u32, CheckFault>
    requires ready { IsReady unit.old }
    requires results { All (IsWithin unit.old) scope.now.results.now }
    requires rows { All (HasConstants unit.old) scope.now.results.now }
    requires ty { ty.0 < length unit.old.types.terms }
    ensures ready { IsReady unit.new }
    ensures builds { Builds unit.old unit.new }
    ensures within { IfOk result (λ i. i < length unit.new.nodes.items) }
    ensures rows { IfOk result (λ i. HasRows (core_at unit.new i)) }
    ensures made { (w : World) (outcome : Outcome) →
        IsTold w unit.old scope.now →
        let t = type_of unit.old.types ty.0 in
        IsGiven t outcome given.now →
        let s = source_read scope.now.syntax.now in
        let sense = sense_in (senses_made unit.old scope.now.results.now) in
        ObjectMade w s sense unit.new result given.now.length (spec.made_of w s sense is_static entity place t outcome) }
{
    let Ok(whole) = with_length(unit, given.length, ty) else {
        return Err(CheckFault::OutOfMemory);
    };
    initialised(
        alloc,
        unit,
        scope,
        is_static,
        entity,
        place,
        whole,
        given.items.as_slice(),
    )
}
