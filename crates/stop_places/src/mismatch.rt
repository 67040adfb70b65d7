// Which nodes stand as a mismatch.

ghost use Rattle.std.specs.Prelude.{◌≡◌, ◌<◌, ◌↔◌, ◌⊎◌, IfOk, IsTrue, Some, length, slice_get};
ghost use Rattle.c_types.specs.Trees.{Ctype};
ghost use Rattle.c_types.specs.Table.{type_of};
ghost use Rattle.core_tree.specs.Typed.{type_at};
ghost use Rattle.normal_form.specs.Assignments.{pointed, is_union_type};
ghost use Rattle.row_numbers.specs.Numbers.{type_number};
ghost use Rattle.stop_places.specs.Fits.{Misfits};
ghost use Rattle.stop_places.specs.Loose.{IsLoose};
ghost use Rattle.stop_places.specs.Stops.{ReadsBadly, PassesBadly, MismatchOver, MismatchBy};
ghost use Rattle.stop_places.specs.Sight.{IsSight, solution_in};

use crate::fits::has_misfit;
use crate::sight::Sight;
use c_types::term::{Class, Term, TypeId};
use core_tree::{Node, NodeKind};
use pta_base::OutOfMemory;
use std::alloc::Global;

// Whether some member of a node's row doesn't fit the type of a number.
fn misfits(alloc: Global, sight: &Sight<'_>, n: u32, number: u32) -> Result<bool, OutOfMemory>
    requires sight { IsSight sight.now }
    requires node { n < length sight.now.program.now.nodes.items }
    ensures { (t : Ctype) → number ≡ type_number t →
        IfOk result (λ found. IsTrue found ↔ Misfits (solution_in sight.now) n t) }
{
    has_misfit(alloc, sight.system, sight.rows, sight.row(n), number)
}

// Whether a place that is read is far and the program loose, or some member of its row doesn't fit the type.
fn reads_badly(
    alloc: Global,
    sight: &Sight<'_>,
    loose: bool,
    p: u32,
    number: u32,
) -> Result<bool, OutOfMemory>
    requires sight { IsSight sight.now }
    requires loose { IsTrue loose ↔ IsLoose (solution_in sight.now) }
    requires place { p < length sight.now.program.now.nodes.items }
    ensures { (t : Ctype) → number ≡ type_number t →
        IfOk result (λ found. IsTrue found ↔ ReadsBadly (solution_in sight.now) p t) }
{
    if loose && sight.is_far(p) {
        return Ok(true);
    }
    misfits(alloc, sight, p, number)
}

// Whether a place is far, and the program loose or some member of its row doesn't fit the type.
fn passes_badly(
    alloc: Global,
    sight: &Sight<'_>,
    loose: bool,
    p: u32,
    number: u32,
) -> Result<bool, OutOfMemory>
    requires sight { IsSight sight.now }
    requires loose { IsTrue loose ↔ IsLoose (solution_in sight.now) }
    requires place { p < length sight.now.program.now.nodes.items }
    ensures { (t : Ctype) → number ≡ type_number t →
        IfOk result (λ found. IsTrue found ↔ PassesBadly (solution_in sight.now) p t) }
{
    if !sight.is_far(p) {
        return Ok(false);
    }
    if loose {
        return Ok(true);
    }
    misfits(alloc, sight, p, number)
}

// The number of the type that a pointer points to, and that of void for any other type.
fn pointed_number(sight: &Sight<'_>, id: TypeId) -> u32
    requires sight { IsSight sight.now }
    requires id { id.0 < length sight.now.program.now.types.terms }
    ensures { result ≡ type_number (pointed (type_of sight.now.program.now.types id.0)) }
{
    match sight.program.types.term(id) {
        Term::Pointer(to) => sight.number(*to),
        _ => 5,
    }
}

// Whether a pointer to a structure is led to the first member (C11 6.7.2.1p15) though the program is loose, or some member of
// its row isn't such a structure.
fn leads_badly(alloc: Global, sight: &Sight<'_>, loose: bool, v: u32) -> Result<bool, OutOfMemory>
    requires sight { IsSight sight.now }
    requires loose { IsTrue loose ↔ IsLoose (solution_in sight.now) }
    requires value { v < length sight.now.program.now.nodes.items }
    ensures { IfOk result (λ found. IsTrue found
        ↔ (Misfits (solution_in sight.now) v (pointed (type_at (solution_in sight.now).trees v)) ⊎ IsLoose (solution_in sight.now))) }
{
    if loose {
        return Ok(true);
    }
    misfits(alloc, sight, v, pointed_number(sight, sight.type_id(v)))
}

// Whether a type is a union.
fn is_union(sight: &Sight<'_>, id: TypeId) -> bool
    requires { id.0 < length sight.now.program.now.types.terms }
    ensures { result ≡ is_union_type (type_of sight.now.program.now.types id.0) }
{
    matches!(sight.program.types.class_of(id), Class::Union)
}

// Whether a node stands as a mismatch, by its kind and its first operand.
fn is_mismatch_over(
    alloc: Global,
    sight: &Sight<'_>,
    loose: bool,
    n: u32,
    node: &Node,
    operand: u32,
) -> Result<bool, OutOfMemory>
    requires sight { IsSight sight.now }
    requires loose { IsTrue loose ↔ IsLoose (solution_in sight.now) }
    requires node { slice_get sight.now.program.now.nodes.items n ≡ Some node.now }
    requires operand { operand < length sight.now.program.now.nodes.items }
    ensures { IfOk result (λ found. IsTrue found
        ↔ MismatchOver (solution_in sight.now) n node.now.kind (type_of sight.now.program.now.types node.now.ty.0) operand) }
{
    match node.kind {
        NodeKind::Fetch => reads_badly(alloc, sight, loose, operand, sight.number(node.ty)),
        NodeKind::Update { .. } => {
            reads_badly(alloc, sight, loose, operand, sight.number(node.ty))
        }
        NodeKind::Assign => passes_badly(alloc, sight, loose, operand, sight.number(node.ty)),
        NodeKind::Decay | NodeKind::Member(_) => passes_badly(
            alloc,
            sight,
            loose,
            operand,
            sight.number(sight.type_id(operand)),
        ),
        NodeKind::Upcast => leads_badly(alloc, sight, loose, operand),
        NodeKind::MemberOfValue(_) => Ok(is_union(sight, sight.type_id(operand))),
        NodeKind::NextArg => Ok(true),
        NodeKind::CallNode => Ok(sight.judged_at(n).mismatch),
        _ => Ok(false),
    }
}

/// Whether a node stands as a mismatch.
pub(crate) fn is_mismatch(
    alloc: Global,
    sight: &Sight<'_>,
    loose: bool,
    n: u32,
    node: &Node,
) -> Result<bool, OutOfMemory>
    requires sight { IsSight sight.now }
    requires loose { IsTrue loose ↔ IsLoose (solution_in sight.now) }
    requires node { slice_get sight.now.program.now.nodes.items n ≡ Some node.now }
    ensures { IfOk result (λ found. IsTrue found
        ↔ MismatchBy (solution_in sight.now) n node.now.kind (type_of sight.now.program.now.types node.now.ty.0) node.now.children) }
{
    match node.children.as_slice() {
        [operand, ..] => is_mismatch_over(alloc, sight, loose, n, node, *operand),
        [] => Ok(false),
    }
}
