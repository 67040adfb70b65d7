// Rows of initialisers (C11 6.7.9).
ghost use Rattle.std.specs.Prelude.{◌≡◌, ◌<◌, ℕ, List, slice_get, length, All, IfOk, IfSome, Some, true};
ghost use Rattle.core_tree.specs.declared.node.Unit.{Unit as UnitSpec};
ghost use Rattle.c_types.specs.Table.{type_of};
ghost use Rattle.c_grammar.specs.Productions.{p_init};
ghost use Rattle.c_senses.specs.World.{World};
ghost use Rattle.c_senses.specs.Tree.{production_of};
ghost use Rattle.c_senses.specs.Sense.{sense_in};
ghost use Rattle.c_senses.specs.Limits.{within_limits};
ghost use Rattle.c_senses.specs.Initialised as spec;
ghost use Rattle.core_nodes.specs.Standing.{IsReady, Builds};
ghost use Rattle.c_conversions.specs.constant_values.Constants.{HasConstants};
ghost use Rattle.c_results.specs.Standing.{senses_made, sense_made, IsWithin, Rowed};
ghost use Rattle.tree_reads.specs.Sources.{source_in};
ghost use Rattle.c_meanings.specs.Known.{AreNamed};
ghost use Rattle.name_places.specs.Named.{IsNamedIn};
ghost use Rattle.c_named.specs.Said.{IsSaid, IsSaidIn};
ghost use Rattle.statement_rows.specs.Kept.{HasAllRows};
ghost use Rattle.c_initials.specs.Scope.{IsTold};
ghost use Rattle.c_initials.specs.Filling.{Fills};
ghost use Rattle.init_rows.specs.Around.{object_at, IsList, IsInit};
ghost use Rattle.init_rows.specs.Objects.{IsTarget, JudgedAs, known_length};

use crate::agreeing::{initialised_fits, seen_type};
use crate::objects::{Object, Target, object_initialised};
use crate::types::{Declared, declared_type};
use c_grammar::productions::REST;
use c_initials::storage::{Scope, is_static_object};
use c_meanings::{Names, entity_of};
use c_named::Said;
use c_results::{Made, Results};
use c_statements::own_place;
use core_nodes::CheckFault;
use core_tree::node::Unit;
use name_places::{declared_name, initialised_by};
use std::alloc::Global;
use tree_reads::{Syntax, is_a};

/// The name of the object whose whole initialiser a node is (C11 6.7.9p1), by its leaf: None for an initialiser within braces, and where
/// the declarator before it has no name.
pub fn initialised_name(syntax: &Syntax, results: &Results, at: u32) -> Option<u32>
    requires at { at < length syntax.now.tree.now.nodes.items }
    ensures name { (u : UnitSpec) (uses : List (ℕ × ℕ)) →
        result ≡ object_at (source_in syntax.now uses) (sense_in (senses_made u results.now)) at }
    ensures within { (count : ℕ) → All (IsNamedIn count) results.now → IfSome result (λ leaf. leaf < count) }
{
    let Some(parent) = syntax.parent_of(at) else {
        return None;
    };
    if !is_a(syntax, REST, parent) {
        return None;
    }
    match initialised_by(syntax, at) {
        Some(declarator) => declared_name(results, declarator),
        None => None,
    }
}

// What an object is before it is initialised.
fn target_of(scope: &Scope, names: &Names, declared: Declared, leaf: u32, at: u32) -> Target
    requires names { AreNamed scope.now.syntax.now scope.now.results.now names.now }
    requires leaf { leaf < length scope.now.syntax.now.tree.now.nodes.items }
    ensures target { (u : UnitSpec) (uses : List (ℕ × ℕ)) →
        IsTarget (source_in scope.now.syntax.now uses) (sense_in (senses_made u scope.now.results.now)) leaf at result }
    ensures ty { result.ty ≡ declared.ty }
{
    let is_static = is_static_object(scope.syntax, scope.results, leaf);
    let entity = entity_of(names, scope.syntax, scope.results, leaf);
    let place = own_place(scope.syntax, at);
    Target {
        is_static,
        entity,
        place,
        ty: declared.ty,
    }
}

// What an object's initialiser is, by whether the object's type fits with the length that it gives.
fn judged(object: Object, leaf: u32, fits: bool) -> Result<Made, CheckFault>
    ensures judged { JudgedAs result object leaf fits }
    ensures named { (count : ℕ) → IfOk result (IsNamedIn count) }
{
    if fits {
        Ok(Made::Initial {
            node: object.node,
            length: object.length,
        })
    } else {
        Err(CheckFault::BadOperand(leaf))
    }
}

// The row of the whole initialiser of an object of a declared type.
fn object_row(
    alloc: Global,
    unit: &mut Unit,
    scope: &Scope,
    names: &Names,
    said: &Said,
    declared: Declared,
    leaf: u32,
    at: u32,
) -> Result<Made, CheckFault>
    requires ready { IsReady unit.old }
    requires results { All (IsWithin unit.old) scope.now.results.now }
    requires rows { All (HasConstants unit.old) scope.now.results.now }
    requires names { AreNamed scope.now.syntax.now scope.now.results.now names.now }
    requires said { IsSaidIn (length scope.now.syntax.now.tree.now.nodes.items) said.now }
    requires ty { declared.ty.0 < length unit.old.types.terms }
    requires leaf { leaf < length scope.now.syntax.now.tree.now.nodes.items }
    requires init { production_of (slice_get scope.now.syntax.now.tree.now.nodes.items at) ≡ p_init }
    ensures ready { IsReady unit.new }
    ensures builds { Builds unit.old unit.new }
    ensures within { IfOk result (IsWithin unit.new) }
    ensures kept { IfOk result (λ m. HasAllRows (sense_made unit.new m)) }
    ensures named { (count : ℕ) → IfOk result (IsNamedIn count) }
    ensures row { (w : World) (uses : List (ℕ × ℕ)) (declarator : ℕ) →
        IsTold w unit.old scope.now →
        Fills w unit.old →
        let s = source_in scope.now.syntax.now uses in
        let sense = sense_in (senses_made unit.old scope.now.results.now) in
        let t = type_of unit.old.types declared.ty.0 in
        IsSaid w s sense leaf said.now →
        declared.limited ≡ within_limits w t →
        Rowed unit.new result (spec.object_initialiser w s sense at declarator leaf t) }
{
    let target = target_of(scope, names, declared, leaf, at);
    let object = match object_initialised(alloc, unit, scope, target, at) {
        Ok(object) => object,
        Err(fault) => return Err(fault),
    };
    match initialised_fits(
        alloc,
        unit,
        scope.syntax,
        scope.results,
        said,
        object.length,
        declared,
    ) {
        Ok(fits) => judged(object, leaf, fits),
        Err(_) => Err(CheckFault::OutOfMemory),
    }
}

// The length of an array behind its initialiser: the one that this gives, or else the one that is seen.
fn known_length(length: Option<u64>, seen: Option<u64>) -> Option<u64>
    ensures { result ≡ known_length seen length }
{
    match length {
        Some(count) => Some(count),
        None => seen,
    }
}

// The row of an initialiser, where a length was seen of its object's name.
fn with_seen(made: Made, seen: Option<u64>) -> Made
    ensures sense { (u : UnitSpec) → sense_made u result ≡ spec.with_seen seen (sense_made u made) }
    ensures within { (u : UnitSpec) → IsWithin u made → IsWithin u result }
    ensures kept { (u : UnitSpec) → HasAllRows (sense_made u made) → HasAllRows (sense_made u result) }
    ensures named { (count : ℕ) → IsNamedIn count made → IsNamedIn count result }
{
    match made {
        Made::Initial { node, length } => Made::Initial {
            node,
            length: known_length(length, seen),
        },
        other => other,
    }
}

// The row of the whole initialiser of an object of a declared type, which has the length that is seen of its name, if it has none of
// its own (C11 6.2.7p4).
fn object_as(
    alloc: Global,
    unit: &mut Unit,
    scope: &Scope,
    names: &Names,
    said: &Said,
    declared: Declared,
    leaf: u32,
    at: u32,
) -> Result<Made, CheckFault>
    requires ready { IsReady unit.old }
    requires results { All (IsWithin unit.old) scope.now.results.now }
    requires rows { All (HasConstants unit.old) scope.now.results.now }
    requires names { AreNamed scope.now.syntax.now scope.now.results.now names.now }
    requires said { IsSaidIn (length scope.now.syntax.now.tree.now.nodes.items) said.now }
    requires typed { said.now.is_typed ≡ true }
    requires ty { declared.ty.0 < length unit.old.types.terms }
    requires leaf { leaf < length scope.now.syntax.now.tree.now.nodes.items }
    requires init { production_of (slice_get scope.now.syntax.now.tree.now.nodes.items at) ≡ p_init }
    ensures ready { IsReady unit.new }
    ensures builds { Builds unit.old unit.new }
    ensures within { IfOk result (IsWithin unit.new) }
    ensures kept { IfOk result (λ m. HasAllRows (sense_made unit.new m)) }
    ensures named { (count : ℕ) → IfOk result (IsNamedIn count) }
    ensures row { (w : World) (uses : List (ℕ × ℕ)) (declarator : ℕ) →
        IsTold w unit.old scope.now →
        Fills w unit.old →
        let s = source_in scope.now.syntax.now uses in
        let sense = sense_in (senses_made unit.old scope.now.results.now) in
        let t = type_of unit.old.types declared.ty.0 in
        IsSaid w s sense leaf said.now →
        declared.limited ≡ within_limits w t →
        Rowed unit.new result (spec.initialised_as w s sense at declarator leaf t) }
{
    let _count = unit.types.type_count();
    let Ok(lengthened) = seen_type(alloc, unit, scope.syntax, scope.results, said, declared) else {
        return Err(CheckFault::OutOfMemory);
    };
    let _more = unit.types.type_count();
    match object_row(
        alloc,
        unit,
        scope,
        names,
        said,
        lengthened.declared,
        leaf,
        at,
    ) {
        Ok(made) => Ok(with_seen(made, lengthened.seen)),
        Err(fault) => Err(fault),
    }
}

// The row of the whole initialiser of the object that a declarator declares by a leaf.
fn declared_row(
    alloc: Global,
    unit: &mut Unit,
    scope: &Scope,
    names: &Names,
    said: &Said,
    declarator: u32,
    leaf: u32,
    at: u32,
) -> Result<Made, CheckFault>
    requires ready { IsReady unit.old }
    requires results { All (IsWithin unit.old) scope.now.results.now }
    requires rows { All (HasConstants unit.old) scope.now.results.now }
    requires names { AreNamed scope.now.syntax.now scope.now.results.now names.now }
    requires said { IsSaidIn (length scope.now.syntax.now.tree.now.nodes.items) said.now }
    requires typed { said.now.is_typed ≡ true }
    requires leaf { leaf < length scope.now.syntax.now.tree.now.nodes.items }
    requires init { production_of (slice_get scope.now.syntax.now.tree.now.nodes.items at) ≡ p_init }
    ensures ready { IsReady unit.new }
    ensures builds { Builds unit.old unit.new }
    ensures within { IfOk result (IsWithin unit.new) }
    ensures kept { IfOk result (λ m. HasAllRows (sense_made unit.new m)) }
    ensures named { (count : ℕ) → IfOk result (IsNamedIn count) }
    ensures row { (w : World) (uses : List (ℕ × ℕ)) →
        IsList w unit.old scope.now →
        let s = source_in scope.now.syntax.now uses in
        let sense = sense_in (senses_made unit.old scope.now.results.now) in
        IsSaid w s sense leaf said.now →
        Rowed unit.new result (spec.initialised_object w s sense at declarator (Some leaf)) }
{
    let _count = unit.types.type_count();
    let Ok(found) = declared_type(alloc, unit, scope.syntax, scope.results, declarator, leaf) else {
        return Err(CheckFault::OutOfMemory);
    };
    let _more = unit.types.type_count();
    match found {
        Some(declared) => object_as(alloc, unit, scope, names, said, declared, leaf, at),
        None => Err(CheckFault::BadOperand(at)),
    }
}

/// The row of an initialiser (C11 6.7.9): the whole one of an object gives the node that initialises it, with the length that it gives
/// an array without one; one within braces has no sense of its own. An array without a length has the length that is seen of its name,
/// if one is (6.2.7p4). It is refused as an initialiser at the first value that has no
/// place; as an operand at a value that isn't one of the type there, or isn't fixed for a static object (6.7.9p4), and at the object's
/// name where the length makes its type one past the limits, or one that doesn't agree with an earlier declaration of an internal
/// name; and at the initialiser itself where no object is declared.
pub fn init_row(
    alloc: Global,
    unit: &mut Unit,
    scope: &Scope,
    names: &Names,
    said: &Said,
    at: u32,
) -> Result<Made, CheckFault>
    requires ready { IsReady unit.old }
    requires results { All (IsWithin unit.old) scope.now.results.now }
    requires rows { All (HasConstants unit.old) scope.now.results.now }
    requires named { All (IsNamedIn (length scope.now.syntax.now.tree.now.nodes.items)) scope.now.results.now }
    requires names { AreNamed scope.now.syntax.now scope.now.results.now names.now }
    requires said { IsSaidIn (length scope.now.syntax.now.tree.now.nodes.items) said.now }
    requires typed { said.now.is_typed ≡ true }
    requires at { at < length scope.now.syntax.now.tree.now.nodes.items }
    requires init { production_of (slice_get scope.now.syntax.now.tree.now.nodes.items at) ≡ p_init }
    ensures ready { IsReady unit.new }
    ensures builds { Builds unit.old unit.new }
    ensures within { IfOk result (IsWithin unit.new) }
    ensures kept { IfOk result (λ m. HasAllRows (sense_made unit.new m)) }
    ensures named { (count : ℕ) → IfOk result (IsNamedIn count) }
    ensures row { (w : World) (uses : List (ℕ × ℕ)) →
        IsInit w unit.old uses scope.now said.now at →
        let s = source_in scope.now.syntax.now uses in
        let sense = sense_in (senses_made unit.old scope.now.results.now) in
        Rowed unit.new result (spec.init_row w s sense at) }
{
    let Some(parent) = scope.syntax.parent_of(at) else {
        return Ok(Made::Nothing);
    };
    if !is_a(scope.syntax, REST, parent) {
        return Ok(Made::Nothing);
    }
    let Some(declarator) = initialised_by(scope.syntax, at) else {
        return Err(CheckFault::BadOperand(at));
    };
    let Some(leaf) = declared_name(scope.results, declarator) else {
        return Err(CheckFault::BadOperand(at));
    };
    declared_row(alloc, unit, scope, names, said, declarator, leaf, at)
}
