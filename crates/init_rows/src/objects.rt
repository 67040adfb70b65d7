// What an initialiser gives an object (C11 6.7.9).
ghost use Rattle.std.specs.Prelude.{◌≡◌, ◌<◌, ℕ, List, length, slice_get, All, IfOk};
ghost use Rattle.c_types.specs.Trees.{VoidType};
ghost use Rattle.c_types.specs.Table.{type_of};
ghost use Rattle.c_grammar.specs.Productions.{p_init, p_items};
ghost use Rattle.c_inits.specs.Initial.{Outcome};
ghost use Rattle.c_senses.specs.World.{World};
ghost use Rattle.c_senses.specs.Tree.{production_of};
ghost use Rattle.c_senses.specs.Sense.{sense_in};
ghost use Rattle.c_senses.specs.Initialised.{made_of};
ghost use Rattle.core_nodes.specs.Standing.{core_at, IsReady, Builds};
ghost use Rattle.c_conversions.specs.Constants.{HasRows};
ghost use Rattle.c_conversions.specs.constant_values.Constants.{HasConstants};
ghost use Rattle.c_results.specs.Standing.{senses_made, IsWithin};
ghost use Rattle.tree_reads.specs.Sources.{source_read, source_in};
ghost use Rattle.c_initials.specs.Scope.{IsTold};
ghost use Rattle.c_initials.specs.Filling.{Fills};
ghost use Rattle.init_rows.specs.Objects.{object_given, list_given, ObjectGiven, IsOutcome, IsOutcomeOf, OutcomeIs};

use c_initialise::c_braces::items::Initialised;
use c_initialise::facts::Source;
use c_initialise::whole::{initialise_literal, initialise_node};
use c_initials::objects::object_made;
use c_initials::storage::Scope;
use c_types::term::{OutOfMemory, Term, TypeId};
use core_nodes::CheckFault;
use core_nodes::trees::add_type;
use core_tree::node::Unit;
use pta_base::{Kind, Place};
use std::alloc::Global;

// So many elements an array without a length may have.
const MOST_ELEMENTS: u64 = 9223372036854775808;

/// The node that initialises an object, and the number of elements that it gives an array without a length (C11 6.7.9p22).
#[derive(Clone, Copy)]
pub struct Object {
    pub node: u32,
    pub length: Option<u64>,
}

/// An object before it is initialised: whether it is static, by what it is known, the place of its initialiser, and its type.
#[derive(Clone, Copy)]
pub struct Target {
    pub is_static: bool,
    pub entity: u32,
    pub place: Place,
    pub ty: TypeId,
}

// What the initialiser at a node gives an object of a type, as its items.
fn read_init(
    alloc: Global,
    unit: &Unit,
    scope: &Scope,
    void: TypeId,
    at: u32,
    ty: TypeId,
) -> Result<Result<Initialised, u32>, OutOfMemory>
    requires ready { IsReady unit.now }
    requires results { All (IsWithin unit.now) scope.now.results.now }
    requires void { type_of unit.now.types void.0 ≡ VoidType }
    requires there { void.0 < length unit.now.types.terms }
    requires init { production_of (slice_get scope.now.syntax.now.tree.now.nodes.items at) ≡ p_init }
    requires ty { ty.0 < length unit.now.types.terms }
    ensures { (w : World) →
        Fills w unit.now →
        let s = source_read scope.now.syntax.now in
        let sense = sense_in (senses_made unit.now scope.now.results.now) in
        let t = type_of unit.now.types ty.0 in
        IfOk result (λ answer. (o : Outcome) × IsOutcome w s sense t at o × OutcomeIs t o answer) }
{
    let source = Source {
        unit,
        syntax: scope.syntax,
        results: scope.results,
        void,
    };
    initialise_node(alloc, &source, MOST_ELEMENTS, at, ty)
}

// What the list at a node gives the object of a compound literal, as its items.
fn read_list(
    alloc: Global,
    unit: &Unit,
    scope: &Scope,
    void: TypeId,
    brace: u32,
    at: u32,
    ty: TypeId,
) -> Result<Result<Initialised, u32>, OutOfMemory>
    requires ready { IsReady unit.now }
    requires results { All (IsWithin unit.now) scope.now.results.now }
    requires void { type_of unit.now.types void.0 ≡ VoidType }
    requires there { void.0 < length unit.now.types.terms }
    requires list { production_of (slice_get scope.now.syntax.now.tree.now.nodes.items at) ≡ p_items }
    requires ty { ty.0 < length unit.now.types.terms }
    ensures { (w : World) →
        Fills w unit.now →
        let s = source_read scope.now.syntax.now in
        let sense = sense_in (senses_made unit.now scope.now.results.now) in
        let t = type_of unit.now.types ty.0 in
        IfOk result (λ answer. (o : Outcome) × IsOutcomeOf w s sense t brace at o × OutcomeIs t o answer) }
{
    let source = Source {
        unit,
        syntax: scope.syntax,
        results: scope.results,
        void,
    };
    initialise_literal(alloc, &source, MOST_ELEMENTS, at, brace, ty)
}

// The node of what was read of an initialiser, or its refusal.
fn made_with(
    alloc: Global,
    unit: &mut Unit,
    scope: &Scope,
    target: Target,
    answer: Result<Initialised, u32>,
) -> Result<Object, CheckFault>
    requires ready { IsReady unit.old }
    requires results { All (IsWithin unit.old) scope.now.results.now }
    requires rows { All (HasConstants unit.old) scope.now.results.now }
    requires ty { target.ty.0 < length unit.old.types.terms }
    ensures ready { IsReady unit.new }
    ensures builds { Builds unit.old unit.new }
    ensures within { IfOk result (λ o. o.node < length unit.new.nodes.items) }
    ensures rows { IfOk result (λ o. HasRows (core_at unit.new o.node)) }
    ensures made { (w : World) (o : Outcome) →
        IsTold w unit.old scope.now →
        let s = source_read scope.now.syntax.now in
        let sense = sense_in (senses_made unit.old scope.now.results.now) in
        let t = type_of unit.old.types target.ty.0 in
        OutcomeIs t o answer →
        ObjectGiven w s sense unit.new result (made_of w s sense target.is_static target.entity target.place t o) }
{
    let given = match answer {
        Ok(given) => given,
        Err(bad) => return Err(CheckFault::Unsupported(Kind::Initialiser, bad)),
    };
    let length = given.length;
    match object_made(
        alloc,
        unit,
        scope,
        target.is_static,
        target.entity,
        target.place,
        target.ty,
        &given,
    ) {
        Ok(node) => Ok(Object { node, length }),
        Err(fault) => Err(fault),
    }
}

/// The node that gives an object what its initialiser says (C11 6.7.9), where each item has its place. A value that has none is
/// refused as an initialiser, one that can't be converted, or that isn't fixed for a static object (6.7.9p4), as an operand.
pub fn object_initialised(
    alloc: Global,
    unit: &mut Unit,
    scope: &Scope,
    target: Target,
    at: u32,
) -> Result<Object, CheckFault>
    requires ready { IsReady unit.old }
    requires results { All (IsWithin unit.old) scope.now.results.now }
    requires rows { All (HasConstants unit.old) scope.now.results.now }
    requires ty { target.ty.0 < length unit.old.types.terms }
    requires init { production_of (slice_get scope.now.syntax.now.tree.now.nodes.items at) ≡ p_init }
    ensures ready { IsReady unit.new }
    ensures builds { Builds unit.old unit.new }
    ensures within { IfOk result (λ o. o.node < length unit.new.nodes.items) }
    ensures rows { IfOk result (λ o. HasRows (core_at unit.new o.node)) }
    ensures made { (w : World) (uses : List (ℕ × ℕ)) →
        IsTold w unit.old scope.now →
        Fills w unit.old →
        let s = source_in scope.now.syntax.now uses in
        let sense = sense_in (senses_made unit.old scope.now.results.now) in
        let t = type_of unit.old.types target.ty.0 in
        ObjectGiven w s sense unit.new result (object_given w s sense target.is_static target.entity target.place t at) }
{
    let _count = unit.types.type_count();
    let Ok(void) = add_type(unit, Term::Void) else {
        return Err(CheckFault::OutOfMemory);
    };
    let _more = unit.types.type_count();
    let Ok(answer) = read_init(alloc, unit, scope, void, at, target.ty) else {
        return Err(CheckFault::OutOfMemory);
    };
    made_with(alloc, unit, scope, target, answer)
}

/// The same for the list of a compound literal (C11 6.5.2.5), by its opening brace, at which the whole is refused.
pub fn list_initialised(
    alloc: Global,
    unit: &mut Unit,
    scope: &Scope,
    target: Target,
    brace: u32,
    at: u32,
) -> Result<Object, CheckFault>
    requires ready { IsReady unit.old }
    requires results { All (IsWithin unit.old) scope.now.results.now }
    requires rows { All (HasConstants unit.old) scope.now.results.now }
    requires ty { target.ty.0 < length unit.old.types.terms }
    requires list { production_of (slice_get scope.now.syntax.now.tree.now.nodes.items at) ≡ p_items }
    ensures ready { IsReady unit.new }
    ensures builds { Builds unit.old unit.new }
    ensures within { IfOk result (λ o. o.node < length unit.new.nodes.items) }
    ensures rows { IfOk result (λ o. HasRows (core_at unit.new o.node)) }
    ensures made { (w : World) (uses : List (ℕ × ℕ)) →
        IsTold w unit.old scope.now →
        Fills w unit.old →
        let s = source_in scope.now.syntax.now uses in
        let sense = sense_in (senses_made unit.old scope.now.results.now) in
        let t = type_of unit.old.types target.ty.0 in
        ObjectGiven w s sense unit.new result (list_given w s sense target.is_static target.entity target.place t brace at) }
{
    let _count = unit.types.type_count();
    let Ok(void) = add_type(unit, Term::Void) else {
        return Err(CheckFault::OutOfMemory);
    };
    let _more = unit.types.type_count();
    let Ok(answer) = read_list(alloc, unit, scope, void, brace, at, target.ty) else {
        return Err(CheckFault::OutOfMemory);
    };
    made_with(alloc, unit, scope, target, answer)
}
