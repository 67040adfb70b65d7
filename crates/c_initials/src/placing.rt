// Values at their places (C11 6.7.9p4, p11).
ghost use Rattle.std.specs.Prelude.{◌≡◌, ◌<◌, ℕ, length, map, All, IfOk};
ghost use Rattle.core_tree.specs.declared.node.Unit.{Unit as UnitSpec};
ghost use Rattle.c_types.specs.Table.{type_of};
ghost use Rattle.c_inits.specs.Items.{placed_of};
ghost use Rattle.c_senses.specs.World.{World};
ghost use Rattle.c_senses.specs.Sense.{sense_in};
ghost use Rattle.c_senses.specs.Initialised as spec;
ghost use Rattle.core_nodes.specs.Standing.{core_at, cores_at, IsReady, Builds, Made as CoreMade, Knows};
ghost use Rattle.c_conversions.specs.Constants.{HasRows, HaveRows};
ghost use Rattle.c_conversions.specs.constant_values.Constants.{HasConstants};
ghost use Rattle.c_results.specs.Standing.{senses_made, IsWithin};
ghost use Rattle.tree_reads.specs.Sources.{source_read};
ghost use Rattle.c_initials.specs.Fixed.{is_firm as is_firm_base};
ghost use Rattle.c_initials.specs.Scope.{IsTold, CoresMade, item_value, item_given};

use crate::along::type_along;
use crate::fixed::{Base, base_of};
use crate::numbers::are_numbers;
use crate::storage::{Scope, is_automatic};
use crate::values::{character, expression, expression_of};
use c_inits::items::InitItem;
use c_types::term::TypeId;
use core_nodes::CheckFault;
use core_tree::node::Unit;
use pta_base::Listing;
use std::alloc::Global;

// Whether what a pointer rests on is fixed before the program runs.
fn is_held(scope: &Scope, base: Base) -> Result<bool, CheckFault>
    ensures { (u : UnitSpec) (w : World) →
        let s = source_read scope.now.syntax.now in
        let sense = sense_in (senses_made u scope.now.results.now) in
        IsTold w u scope.now → IfOk result (λ known. known ≡ is_firm_base (spec.is_automatic w s sense) base) }
{
    match base {
        Base::Firm => Ok(true),
        Base::Loose => Ok(false),
        Base::Entity(entity) => match is_automatic(scope, entity) {
            Some(automatic) => Ok(!automatic),
            None => Err(CheckFault::OutOfMemory),
        },
    }
}

// Whether a value is fixed before the program runs (C11 6.6p7): a number or a pointer. Only memory may want.
fn is_fixed(alloc: Global, unit: &Unit, scope: &Scope, node: u32) -> Result<bool, CheckFault>
    requires ready { IsReady unit.now }
    requires node { node < length unit.now.nodes.items }
    ensures { (u : UnitSpec) (w : World) →
        let s = source_read scope.now.syntax.now in
        let sense = sense_in (senses_made u scope.now.results.now) in
        IsTold w u scope.now →
        IfOk result (λ fixed. fixed ≡ spec.is_fixed (spec.is_automatic w s sense) (core_at unit.now node)) }
{
    if are_numbers(alloc, unit, &[node])? {
        return Ok(true);
    }
    let base = base_of(alloc, unit, node)?;
    is_held(scope, base)
}

// A value, which has to be fixed where the object has its place for the whole run.
fn fixed_or(
    alloc: Global,
    unit: &Unit,
    scope: &Scope,
    is_static: bool,
    init: u32,
    node: u32,
) -> Result<u32, CheckFault>
    requires ready { IsReady unit.now }
    requires node { node < length unit.now.nodes.items }
    ensures same { IfOk result (λ i. i ≡ node) }
    ensures made { (u : UnitSpec) (w : World) →
        let s = source_read scope.now.syntax.now in
        let sense = sense_in (senses_made u scope.now.results.now) in
        IsTold w u scope.now → CoreMade unit.now result (spec.fixed_or w s sense is_static init (core_at unit.now node)) }
{
    if !is_static {
        return Ok(node);
    }
    match is_fixed(alloc, unit, scope, node) {
        Ok(true) => Ok(node),
        Ok(false) => Err(CheckFault::BadOperand(init)),
        Err(_) => Err(CheckFault::OutOfMemory),
    }
}

// The value of an item as one of a type.
fn value_of_item(
    alloc: Global,
    unit: &mut Unit,
    scope: &Scope,
    item: &InitItem,
    ty: TypeId,
) -> Result<u32, CheckFault>
    requires ready { IsReady unit.old }
    requires results { All (IsWithin unit.old) scope.now.results.now }
    requires rows { All (HasConstants unit.old) scope.now.results.now }
    requires ty { ty.0 < length unit.old.types.terms }
    ensures ready { IsReady unit.new }
    ensures builds { Builds unit.old unit.new }
    ensures within { IfOk result (λ i. i < length unit.new.nodes.items) }
    ensures rows { IfOk result (λ i. HasRows (core_at unit.new i)) }
    ensures made { (w : World) →
        Knows w unit.old →
        let s = source_read scope.now.syntax.now in
        let sense = sense_in (senses_made unit.old scope.now.results.now) in
        CoreMade unit.new result (item_value w s sense (placed_of item.now) (type_of unit.old.types ty.0)) }
{
    match expression_of(scope.syntax, scope.results, item.node) {
        Some(node) => match item.character {
            None => expression(alloc, unit, item.node, node, ty),
            Some(position) => character(alloc, unit, node, position, ty),
        },
        None => match item.character {
            None => Err(CheckFault::BadOperand(item.node)),
            Some(_) => Err(CheckFault::BadOperand(0)),
        },
    }
}

// The value of an item at its place in an object of a type.
fn placed_value(
    alloc: Global,
    unit: &mut Unit,
    scope: &Scope,
    is_static: bool,
    whole: TypeId,
    item: &InitItem,
) -> Result<u32, CheckFault>
    requires ready { IsReady unit.old }
    requires results { All (IsWithin unit.old) scope.now.results.now }
    requires rows { All (HasConstants unit.old) scope.now.results.now }
    requires whole { whole.0 < length unit.old.types.terms }
    ensures ready { IsReady unit.new }
    ensures builds { Builds unit.old unit.new }
    ensures within { IfOk result (λ i. i < length unit.new.nodes.items) }
    ensures rows { IfOk result (λ i. HasRows (core_at unit.new i)) }
    ensures made { (w : World) →
        IsTold w unit.old scope.now →
        let s = source_read scope.now.syntax.now in
        let sense = sense_in (senses_made unit.old scope.now.results.now) in
        CoreMade unit.new result (item_given w s sense is_static (type_of unit.old.types whole.0) (placed_of item.now)) }
{
    let Some(ty) = type_along(&unit.types, whole, item.path.as_slice()) else {
        return Err(CheckFault::BadOperand(item.node));
    };
    match value_of_item(alloc, unit, scope, item, ty) {
        Ok(value) => fixed_or(alloc, unit, scope, is_static, item.node, value),
        Err(fault) => Err(fault),
    }
}

/// The values of the items of an initialiser, in order, each as one of the type at its path (C11 6.7.9p11); where the object is static
/// each of them is fixed before the program runs (6.7.9p4). What isn't so is refused at its initialiser.
pub(crate) fn placed_values(
    alloc: Global,
    unit: &mut Unit,
    scope: &Scope,
    is_static: bool,
    whole: TypeId,
    items: &[InitItem],
) -> Result<Listing<u32>, CheckFault>
    requires ready { IsReady unit.old }
    requires results { All (IsWithin unit.old) scope.now.results.now }
    requires rows { All (HasConstants unit.old) scope.now.results.now }
    requires whole { whole.0 < length unit.old.types.terms }
    ensures ready { IsReady unit.new }
    ensures builds { Builds unit.old unit.new }
    ensures within { IfOk result (λ values. All (λ i. i < length unit.new.nodes.items) values) }
    ensures rows { IfOk result (λ values. HaveRows (cores_at unit.new values)) }
    ensures made { (w : World) →
        IsTold w unit.old scope.now →
        let s = source_read scope.now.syntax.now in
        let sense = sense_in (senses_made unit.old scope.now.results.now) in
        CoresMade unit.new result
        (spec.placed_cores w s sense is_static (type_of unit.old.types whole.0) (map placed_of items.now)) }
{
    let mut values = Listing::new(alloc);
    for item in items {
        match placed_value(alloc, unit, scope, is_static, whole, item) {
            Ok(value) => values.push(value)?,
            Err(fault) => return Err(fault),
        }
    }
    Ok(values)
}
