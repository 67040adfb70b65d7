// Calls (C11 6.5.2.2).
#![tactic(auto, using(core_nodes::proofs::IntegerTypes::integers))]

ghost use Rattle.std.specs.Prelude.{◌≡◌, ◌<◌, ℕ, Bool, length, map, All, IfOk, false};
ghost use Rattle.std.specs.Option.{ForSome};
ghost use Rattle.c_types.specs.Table.{type_of};
ghost use Rattle.c_consts.specs.Core.{ctype_of};
ghost use Rattle.c_senses.specs.World.{World};
ghost use Rattle.c_senses.specs.Conversions.{operand_of};
ghost use Rattle.c_senses.specs.Objects as spec;
ghost use Rattle.core_nodes.specs.Standing.{core_at, IsReady, Builds, Made, Knows};
ghost use Rattle.c_conversions.specs.Constants.{HasRows};
ghost use Rattle.c_conversions.specs.Targets.{type_seen};
ghost use Rattle.value_rows.specs.Calls.{argument_of, passed, call_over, called, parameters_in, CoresMade};

use crate::signatures::{called_function, is_returned, parameter_type, result_type, takes_so_many};
use c_conversions::table::conversion;
use c_conversions::values::value;
use c_operators::operators::sort_of_node;
use c_types::term::{Term, TypeId};
use core_nodes::CheckFault;
use core_nodes::integers::promotion;
use core_nodes::reads::type_of_node;
use core_nodes::sorts::{Operand, is_list};
use core_nodes::trees::push_node;
use core_nodes::values::value as value_node;
use core_tree::held::Children;
use core_tree::node::{NodeKind, Unit};
use pta_base::{Kind, Listing, Place};
use std::alloc::Global;

// An argument past the parameters: an integer is promoted, and void has no value.
fn further(alloc: Global, unit: &mut Unit, at: u32, v: u32) -> Result<u32, CheckFault>
    requires ready { IsReady unit.old }
    requires v { v < length unit.old.nodes.items }
    ensures ready { IsReady unit.new }
    ensures builds { Builds unit.old unit.new }
    ensures within { IfOk result (λ i. i < length unit.new.nodes.items) }
    ensures made { (w : World) →
        Knows w unit.old →
        Made unit.new result (spec.further_value w at (core_at unit.old v)) }
{
    if is_list(&unit.types, type_of_node(unit, v)) {
        return Ok(v);
    }
    match sort_of_node(unit, v) {
        Operand::Whole => promotion(alloc, unit, v),
        Operand::Address(_) => Ok(v),
        Operand::Aggregate(_) => Ok(v),
        Operand::Other => Err(CheckFault::BadOperand(at)),
    }
}

// One argument, for its parameter or past the list.
fn argument(
    alloc: Global,
    unit: &mut Unit,
    at: u32,
    a: u32,
    parameter: Option<TypeId>,
) -> Result<u32, CheckFault>
    requires ready { IsReady unit.old }
    requires a { a < length unit.old.nodes.items }
    requires rows { HasRows (core_at unit.old a) }
    requires parameter { ForSome parameter (λ t. t.0 < length unit.old.types.terms) }
    ensures ready { IsReady unit.new }
    ensures builds { Builds unit.old unit.new }
    ensures within { IfOk result (λ i. i < length unit.new.nodes.items) }
    ensures made { (w : World) →
        Knows w unit.old →
        Made unit.new result (argument_of w at (core_at unit.old a) (type_seen unit.old.types parameter)) }
{
    let v = value(alloc, unit, at, a)?;
    match parameter {
        Some(ty) => conversion(alloc, unit, false, at, v, ty),
        None => further(alloc, unit, at, v),
    }
}

// What is called and its arguments, each converted to its parameter, or promoted past the list; the first that can't be is refused.
fn passed(
    alloc: Global,
    unit: &mut Unit,
    at: u32,
    c: u32,
    function: TypeId,
    arguments: &[u32],
) -> Result<Listing<u32>, CheckFault>
    requires ready { IsReady unit.old }
    requires c { c < length unit.old.nodes.items }
    requires function { function.0 < length unit.old.types.terms }
    requires arguments { All (λ a. a < length unit.old.nodes.items) arguments.now }
    requires rows { All (λ a. HasRows (core_at unit.old a)) arguments.now }
    ensures ready { IsReady unit.new }
    ensures builds { Builds unit.old unit.new }
    ensures within { IfOk result (λ is. All (λ i. i < length unit.new.nodes.items) is) }
    ensures made { (w : World) →
        Knows w unit.old →
        CoresMade unit.new result (passed w at (core_at unit.old c) (parameters_in (type_of unit.old.types function.0))
        (map (λ a. core_at unit.old a) arguments.now)) }
{
    let mut children = Listing::new(alloc);
    children.push(c)?;
    for (k, a) in arguments.iter().enumerate() {
        let parameter = parameter_type(&unit.types, function, k);
        let child = argument(alloc, unit, at, *a, parameter)?;
        children.push(child)?;
    }
    Ok(children)
}

// A call with so many arguments as it takes.
fn call_over(
    alloc: Global,
    unit: &mut Unit,
    place: Place,
    at: u32,
    c: u32,
    function: TypeId,
    arguments: &[u32],
) -> Result<u32, CheckFault>
    requires ready { IsReady unit.old }
    requires c { c < length unit.old.nodes.items }
    requires function { function.0 < length unit.old.types.terms }
    requires arguments { All (λ a. a < length unit.old.nodes.items) arguments.now }
    requires rows { All (λ a. HasRows (core_at unit.old a)) arguments.now }
    ensures ready { IsReady unit.new }
    ensures builds { Builds unit.old unit.new }
    ensures within { IfOk result (λ i. i < length unit.new.nodes.items) }
    ensures made { (w : World) →
        Knows w unit.old →
        Made unit.new result (call_over w place at (core_at unit.old c) (type_of unit.old.types function.0)
        (map (λ a. core_at unit.old a) arguments.now)) }
{
    let children = passed(alloc, unit, at, c, function, arguments)?;
    let ty = result_type(&unit.types, function);
    if !is_returned(unit, ty) {
        return Err(CheckFault::BadOperand(at));
    }
    let children = Children::of(alloc, children.into_vec())?;
    push_node(unit, NodeKind::CallNode, place, ty, children)
}

// A call of a value that points to that function, where calls may stand or not.
fn called(
    alloc: Global,
    unit: &mut Unit,
    may_call: bool,
    place: Place,
    at: u32,
    c: u32,
    function: TypeId,
    arguments: &[u32],
) -> Result<u32, CheckFault>
    requires ready { IsReady unit.old }
    requires c { c < length unit.old.nodes.items }
    requires function { function.0 < length unit.old.types.terms }
    requires arguments { All (λ a. a < length unit.old.nodes.items) arguments.now }
    requires rows { All (λ a. HasRows (core_at unit.old a)) arguments.now }
    ensures ready { IsReady unit.new }
    ensures builds { Builds unit.old unit.new }
    ensures within { IfOk result (λ i. i < length unit.new.nodes.items) }
    ensures made { (w : World) →
        Knows w unit.old →
        Made unit.new result (called w place at may_call (core_at unit.old c) (type_of unit.old.types function.0)
        (map (λ a. core_at unit.old a) arguments.now)) }
{
    let result = result_type(&unit.types, function);
    match unit.types.term(result) {
        Term::Floating => return Err(CheckFault::Unsupported(Kind::Floating, at)),
        _ => {}
    }
    if !may_call {
        return Err(CheckFault::BadOperand(at));
    }
    if !takes_so_many(&unit.types, function, arguments.len()) {
        return Err(CheckFault::BadOperand(at));
    }
    call_over(alloc, unit, place, at, c, function, arguments)
}

// A call of a value, where calls may stand or not.
fn callee_row(
    alloc: Global,
    unit: &mut Unit,
    may_call: bool,
    place: Place,
    at: u32,
    c: u32,
    arguments: &[u32],
) -> Result<u32, CheckFault>
    requires ready { IsReady unit.old }
    requires c { c < length unit.old.nodes.items }
    requires arguments { All (λ a. a < length unit.old.nodes.items) arguments.now }
    requires rows { All (λ a. HasRows (core_at unit.old a)) arguments.now }
    ensures ready { IsReady unit.new }
    ensures builds { Builds unit.old unit.new }
    ensures within { IfOk result (λ i. i < length unit.new.nodes.items) }
    ensures made { (w : World) →
        Knows w unit.old →
        w.may_call ≡ may_call →
        Made unit.new result (spec.callee_row w place at (core_at unit.old c) (map (λ a. core_at unit.old a) arguments.now)
        (ctype_of (core_at unit.old c))) }
{
    let pointer = type_of_node(unit, c);
    match called_function(&unit.types, pointer) {
        Some(function) => called(alloc, unit, may_call, place, at, c, function, arguments),
        None => Err(CheckFault::BadOperand(at)),
    }
}

/// A call (C11 6.5.2.2) of the value of an expression with some arguments, each an expression. The value points to a function, else it is
/// `BadOperand`. A result of floating type is `Floating`. Then, each `BadOperand`: a call that may not stand here, as `may_call` says;
/// another number of arguments than the list asks for, which is as many as it has parameters, with `...` at least as many, and any with
/// `()`. Then the arguments in order: each is converted to its parameter's type, as the table of conversions says; past the list, and
/// with `()`, an integer is promoted, and what is neither a scalar, a variadic list, a structure nor a union is `BadOperand`. Last,
/// `BadOperand` is a result that is neither void nor complete. The nodes of the arguments' constants stand in their rows.
pub fn call_row(
    alloc: Global,
    unit: &mut Unit,
    may_call: bool,
    place: Place,
    at: u32,
    f: u32,
    arguments: &[u32],
) -> Result<u32, CheckFault>
    requires ready { IsReady unit.old }
    requires f { f < length unit.old.nodes.items }
    requires arguments { All (λ a. a < length unit.old.nodes.items) arguments.now }
    requires rows { All (λ a. HasRows (core_at unit.old a)) arguments.now }
    ensures ready { IsReady unit.new }
    ensures builds { Builds unit.old unit.new }
    ensures within { IfOk result (λ i. i < length unit.new.nodes.items) }
    ensures made { (w : World) →
        Knows w unit.old →
        w.may_call ≡ may_call →
        Made unit.new result (spec.call_row w place at (core_at unit.old f) (map (λ a. core_at unit.old a) arguments.now)) }
{
    let c = value_node(alloc, unit, at, f)?;
    callee_row(alloc, unit, may_call, place, at, c, arguments)
}
