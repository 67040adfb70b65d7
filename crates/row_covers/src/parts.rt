// The parts of objects and values at the end of a path, whose indices may be any.

ghost use Rattle.std.specs.Prelude.{◌≡◌, ◌∷◌, ◌<◌, ℕ, Option, Some, false, length};
ghost use Rattle.c_types.specs.Trees.{ArrayOf};
ghost use Rattle.c_types.specs.Table.{type_of};
ghost use Rattle.obj_space.specs.Parts.{is_collapsed};
ghost use Rattle.obj_space.specs.Spots.{reached, step_by, part_at};
ghost use Rattle.ref_cells.specs.Wholes.{IsOver, shape_of};
ghost use Rattle.row_covers.specs.Parts.{near, Follows, is_pointing, IsEnd};

use c_types::table::TypeTable;
use c_types::term::{PathStep, Term, TypeId};
use ref_cells::wholes::Whole;
use type_rules::members::part_of;

// A part: its type, its node among those of the whole, and whether it lies in a union.
#[derive(Clone, Copy)]
struct Part {
    ty: TypeId,
    node: u32,
    inside: bool,
}

/// What stands at the end of a path: its node among those of the whole, and whether it is a pointer or a variadic list.
#[derive(Clone, Copy)]
pub struct End {
    pub node: u32,
    pub pointer: bool,
}

// Whether a type's node stands for all that lies in it.
fn is_union(types: &TypeTable, id: TypeId) -> bool
    requires { id.0 < length types.now.terms }
    ensures { result ≡ is_collapsed (type_of types.now id.0) }
{
    match types.term(id) {
        Term::Union(_) => true,
        _ => false,
    }
}

// A member of a part.
fn into_member(types: &TypeTable, whole: Part, k: u32) -> Option<Part>
    requires { whole.ty.0 < length types.now.terms }
    ensures { (n : ℕ)
        → whole.node ≡ near n
        → Follows types.now result (step_by types.now (type_of types.now whole.ty.0) n whole.inside (PathStep.Member k)) }
{
    let ty = part_of(types, whole.ty, PathStep::Member(k))?;
    if whole.inside {
        return Some(Part { ty, ..whole });
    }
    let place = types.field_node(whole.ty, k).unwrap_or(u32::MAX);
    Some(Part {
        ty,
        node: whole.node.saturating_add(place),
        inside: is_union(types, whole.ty),
    })
}

// An element of a part.
fn into_element(types: &TypeTable, whole: Part, i: u64) -> Option<Part>
    requires { whole.ty.0 < length types.now.terms }
    ensures { (n : ℕ)
        → whole.node ≡ near n
        → Follows types.now result (step_by types.now (type_of types.now whole.ty.0) n whole.inside (PathStep.Index i)) }
{
    match types.term(whole.ty) {
        Term::Array { of, .. } => Some(Part { ty: *of, ..whole }),
        _ => None,
    }
}

// One step from a part.
fn step_from(types: &TypeTable, whole: Part, step: PathStep) -> Option<Part>
    requires { whole.ty.0 < length types.now.terms }
    ensures { (n : ℕ)
        → whole.node ≡ near n
        → Follows types.now result (step_by types.now (type_of types.now whole.ty.0) n whole.inside step) }
{
    match step {
        PathStep::Index(i) => into_element(types, whole, i),
        PathStep::Member(k) => into_member(types, whole, k),
    }
}

// Whether a type is a pointer or a variadic list.
fn is_pointing(types: &TypeTable, id: TypeId) -> bool
    requires { id.0 < length types.now.terms }
    ensures { result ≡ is_pointing (type_of types.now id.0) }
{
    match types.term(id) {
        Term::Pointer(_) => true,
        Term::VaList => true,
        _ => false,
    }
}

/// What stands at the end of a path from a whole of a type of the table.
pub fn end_along(types: &TypeTable, whole: TypeId, path: &[PathStep]) -> Option<End>
    requires { whole.0 < length types.now.terms }
    ensures { IsEnd (part_at types.now (Some (reached (type_of types.now whole.0) 0 false)) path.now) result }
{
    let mut part = Part {
        ty: whole,
        node: 0,
        inside: false,
    };
    for step in path {
        match step_from(types, part, *step) {
            Some(next) => part = next,
            None => return None,
        }
    }
    Some(End {
        node: part.node,
        pointer: is_pointing(types, part.ty),
    })
}

// What stands at the end of a path of one step and more from an array of elements of a type.
fn element_end(types: &TypeTable, of: TypeId, step: PathStep, rest: &[PathStep]) -> Option<End>
    requires { of.0 < length types.now.terms }
    ensures { (n : Option ℕ)
        → IsEnd (part_at types.now (Some (reached (ArrayOf (type_of types.now of.0) n) 0 false)) (step ∷ rest.now)) result }
{
    match step {
        PathStep::Index(_) => end_along(types, of, rest),
        PathStep::Member(_) => None,
    }
}

// What stands at the end of a path from an array of elements of a type.
fn array_end(types: &TypeTable, of: TypeId, path: &[PathStep]) -> Option<End>
    requires { of.0 < length types.now.terms }
    ensures { (n : Option ℕ) → IsEnd (part_at types.now (Some (reached (ArrayOf (type_of types.now of.0) n) 0 false)) path.now) result }
{
    match path {
        [] => Some(End {
            node: 0,
            pointer: false,
        }),
        [step, rest @ ..] => element_end(types, of, *step, rest),
    }
}

/// What stands at the end of a path from a whole; none where the path leaves the tree.
pub fn end_of(types: &TypeTable, whole: Whole, path: &[PathStep]) -> Option<End>
    requires { IsOver (length types.now.terms) whole }
    ensures { IsEnd (part_at types.now (Some (reached (shape_of types.now whole) 0 false)) path.now) result }
{
    match whole {
        Whole::One(id) => end_along(types, id, path),
        Whole::Many(id, _) => array_end(types, id, path),
    }
}
