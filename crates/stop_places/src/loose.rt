// Whether a program hands on pointers to arrays where no type is known.

ghost use Rattle.std.specs.Prelude.{◌≡◌, ℕ, ◌<◌, ◌↔◌, All, Contains, IfOk, IsTrue, Some, drop, length, slice_get};
ghost use Rattle.c_types.specs.Table.{type_of};
ghost use Rattle.core_tree.specs.Typed.{type_at};
ghost use Rattle.stop_places.specs.Loose.{is_loose, parameter_count, HasLooseType, IsLooseNode, IsSomeLoose, LooseBy, LooseCall, IsLoose};
ghost use Rattle.stop_places.specs.Sight.{IsSight, solution_in, AreLoose};

use crate::sight::Sight;
use c_types::table::TypeTable;
use c_types::term::{Term, TypeId};
use core_tree::{Node, NodeKind};
use pta_base::OutOfMemory;
use std::alloc::Global;

// Whether a type is loose: a pointer type that mentions an array through pointers alone.
fn is_loose(sight: &Sight<'_>, id: TypeId) -> bool
    requires sight { IsSight sight.now }
    requires id { id.0 < length sight.now.program.now.types.terms }
    ensures { result ≡ is_loose (type_of sight.now.program.now.types id.0) }
{
    match sight.program.types.term(id) {
        Term::Pointer(to) => sight.leads[to.0 as usize],
        _ => false,
    }
}

// Whether the type of a node is loose.
fn has_loose_type(sight: &Sight<'_>, n: u32) -> bool
    requires sight { IsSight sight.now }
    requires node { n < length sight.now.program.now.nodes.items }
    ensures { result ≡ is_loose (type_at (solution_in sight.now).trees n) }
{
    is_loose(sight, sight.type_id(n))
}

// Whether one of these nodes has a loose type.
fn any_loose_type(sight: &Sight<'_>, list: &[u32]) -> bool
    requires sight { IsSight sight.now }
    requires nodes { All (λ n. n < length sight.now.program.now.nodes.items) list.now }
    ensures { IsTrue result ↔ ((c : ℕ) × Contains list.now c × HasLooseType (solution_in sight.now).trees c) }
{
    for n in list {
        if has_loose_type(sight, *n) {
            return true;
        }
    }
    false
}

// Whether a node is loose: it, or an operand of it, has a loose type.
fn is_loose_node(sight: &Sight<'_>, n: u32) -> bool
    requires sight { IsSight sight.now }
    requires node { n < length sight.now.program.now.nodes.items }
    ensures { IsTrue result ↔ IsLooseNode (solution_in sight.now).trees n }
{
    has_loose_type(sight, n)
        || any_loose_type(sight, sight.program.nodes[n as usize].children.as_slice())
}

/// Which nodes are loose.
pub(crate) fn loose_nodes(alloc: Global, sight: &Sight<'_>) -> Result<Vec<bool>, OutOfMemory>
    requires { IsSight sight.now }
    ensures { IfOk result (λ list. AreLoose sight.now (length sight.now.program.now.nodes.items) list.items) }
{
    let mut list = Vec::new(alloc);
    for n in 0..sight.program.nodes.len() {
        let loose = is_loose_node(sight, n as u32);
        list.push(loose)?;
    }
    Ok(list)
}

// Whether one of these nodes is loose.
fn some_loose(sight: &Sight<'_>, loose: &[bool], values: &[u32]) -> bool
    requires loose { AreLoose sight.now (length sight.now.program.now.nodes.items) loose.now }
    requires values { All (λ a. a < length sight.now.program.now.nodes.items) values.now }
    ensures { IsTrue result ↔ IsSomeLoose (solution_in sight.now).trees values.now }
{
    for a in values {
        if loose[*a as usize] {
            return true;
        }
    }
    false
}

// How many parameters the type of a callee names.
fn parameter_count(types: &TypeTable, id: TypeId) -> usize
    requires { id.0 < length types.now.terms }
    ensures { result ≡ parameter_count (type_of types.now id.0) }
{
    match types.term(id) {
        Term::Pointer(to) => match types.term(*to) {
            Term::Function { parameters, .. } => parameters.as_slice().len(),
            _ => 0,
        },
        _ => 0,
    }
}

// The arguments past the first so many.
fn past(arguments: &[u32], count: usize) -> &[u32]
    ensures { result.now ≡ drop count arguments.now }
{
    if count <= arguments.len() {
        &arguments[count..]
    } else {
        &[]
    }
}

// Whether a call hands on a loose argument past its last parameter, or to the library, or is loose and reaches the library.
fn is_loose_call(sight: &Sight<'_>, loose: &[bool], n: u32, children: &[u32]) -> bool
    requires sight { IsSight sight.now }
    requires loose { AreLoose sight.now (length sight.now.program.now.nodes.items) loose.now }
    requires node { n < length sight.now.program.now.nodes.items }
    requires children { All (λ a. a < length sight.now.program.now.nodes.items) children.now }
    ensures { IsTrue result ↔ LooseCall (solution_in sight.now) n children.now }
{
    match children {
        [] => false,
        [callee, arguments @ ..] => {
            let named = parameter_count(&sight.program.types, sight.type_id(*callee));
            some_loose(sight, loose, past(arguments, named))
                || (sight.judged_at(n).library
                    && (loose[n as usize] || some_loose(sight, loose, arguments)))
        }
    }
}

// Whether a node makes the program loose.
fn makes_loose(sight: &Sight<'_>, loose: &[bool], n: u32, node: &Node) -> bool
    requires sight { IsSight sight.now }
    requires loose { AreLoose sight.now (length sight.now.program.now.nodes.items) loose.now }
    requires node { slice_get sight.now.program.now.nodes.items n ≡ Some node.now }
    ensures { IsTrue result ↔ LooseBy (solution_in sight.now) n node.now.kind node.now.children }
{
    match node.kind {
        NodeKind::Convert | NodeKind::NextArg => loose[n as usize],
        NodeKind::CallNode => is_loose_call(sight, loose, n, node.children.as_slice()),
        _ => false,
    }
}

/// Whether the program is loose.
pub(crate) fn is_loose_program(sight: &Sight<'_>, loose: &[bool]) -> bool
    requires sight { IsSight sight.now }
    requires loose { AreLoose sight.now (length sight.now.program.now.nodes.items) loose.now }
    ensures { IsTrue result ↔ IsLoose (solution_in sight.now) }
{
    let nodes = sight.program.nodes.as_slice();
    for n in 0..nodes.len() {
        if makes_loose(sight, loose, n as u32, &nodes[n]) {
            return true;
        }
    }
    false
}
