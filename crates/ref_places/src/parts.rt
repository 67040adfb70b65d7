// The types along a path, whatever its indices.

ghost use Rattle.std.specs.Prelude.{◌≡◌, ℕ, ◌<◌, [], ◌∷◌, IfSome, length};
ghost use Rattle.std.specs.Option.{option_map};
ghost use Rattle.c_types.specs.Table.{type_of};
ghost use Rattle.ref_cells.specs.Wholes.{shape_in, shape_of, IsOver};
ghost use Rattle.ref_cells.specs.Places.{AreKnown};
ghost use Rattle.ref_places.specs.Parts.{step_type, along, type_there};

use c_types::table::TypeTable;
use c_types::term::{PathStep, Term, TypeId};
use ref_cells::cells::Cell;
use ref_cells::instance::Instance;
use ref_cells::wholes::{Whole, one, whole_of};
use type_rules::members::part_of;

// The type of an array's elements.
fn element_of(types: &TypeTable, whole: Whole) -> Option<TypeId>
    requires { IsOver (length types.now.terms) whole }
    ensures part { (i : ℕ) → option_map (λ id. type_of types.now id.0) result
        ≡ step_type types.now (shape_of types.now whole) (PathStep.Index i) }
    ensures known { IfSome result (λ id. id.0 < length types.now.terms) }
{
    match whole {
        Whole::Many(id, _) => Some(id),
        Whole::One(id) => match types.term(id) {
            Term::Array { of, .. } => Some(*of),
            _ => None,
        },
    }
}

// The type one step below a type.
fn step_type(types: &TypeTable, whole: Whole, step: PathStep) -> Option<TypeId>
    requires { IsOver (length types.now.terms) whole }
    ensures part { option_map (λ id. type_of types.now id.0) result ≡ step_type types.now (shape_of types.now whole) step }
    ensures known { IfSome result (λ id. id.0 < length types.now.terms) }
{
    match step {
        PathStep::Index(_) => element_of(types, whole),
        PathStep::Member(_) => match whole {
            Whole::One(id) => part_of(types, id, step),
            Whole::Many(_, _) => None,
        },
    }
}

// The type one step below a type that may not be there.
fn step_below(types: &TypeTable, whole: Option<Whole>, step: PathStep) -> Option<Whole>
    requires { IfSome whole (IsOver (length types.now.terms)) }
    ensures shape { shape_in types.now result ≡ along types.now (shape_in types.now whole) (step ∷ []) }
    ensures known { IfSome result (IsOver (length types.now.terms)) }
{
    match whole {
        Some(found) => one(step_type(types, found, step)),
        None => None,
    }
}

/// The type at the end of a path; None exactly where the path leaves the type.
pub fn along(types: &TypeTable, whole: Option<Whole>, path: &[PathStep]) -> Option<Whole>
    requires { IfSome whole (IsOver (length types.now.terms)) }
    ensures shape { shape_in types.now result ≡ along types.now (shape_in types.now whole) path.now }
    ensures known { IfSome result (IsOver (length types.now.terms)) }
{
    let mut part = whole;
    for step in path {
        part = step_below(types, part, *step);
    }
    part
}

/// The type at a place, where its instance has one.
pub fn type_there(types: &TypeTable, memory: &[Instance], place: &Cell) -> Option<Whole>
    requires { AreKnown (length types.now.terms) memory.now }
    ensures shape { shape_in types.now result ≡ type_there types.now memory.now place.now }
    ensures known { IfSome result (IsOver (length types.now.terms)) }
{
    match place {
        Cell::Pointer { instance, path, .. } => match memory.get(*instance as usize) {
            Some(inst) => along(types, whole_of(types, inst), path.as_slice()),
            None => None,
        },
        Cell::Unset | Cell::Number(_) | Cell::Null | Cell::Function(_) => None,
    }
}
