//! What the types of a program's objects and functions need: signatures with the list `(void)`, and arrays of one element
//! for those without a length (C11 6.7.6.3p14, 6.9.2p5).

ghost use Rattle.std.specs.Prelude.{◌≡◌, ◌<◌, ◌≤◌, ℕ, OnOk, length};
ghost use Rattle.c_types.specs.Table.{type_of};
ghost use Rattle.type_rules.specs.Sizes.{with_one};
ghost use Rattle.unit_link.specs.link_program.Ready.{HasTree, IsReady, AreReady, IsGrown};

use crate::signatures::add_signature;
use c_types::table::TypeTable;
use c_types::term::{Term, TypeId};
use pta_base::OutOfMemory;
use std::alloc::Global;

// Adds the type with one element, for an array without a length.
fn add_one(types: &mut TypeTable, ty: TypeId) -> Result<(), OutOfMemory>
    requires { ty.0 < length types.old.terms }
    ensures grown { OnOk result (IsGrown types.old types.new) }
    ensures one { OnOk result (HasTree types.new (with_one (type_of types.new ty.0))) }
    ensures added { OnOk result ((i : ℕ) → length types.old.terms ≤ i → i < length types.new.terms
        → IsReady types.new (type_of types.new i)) }
{
    match types.term(ty) {
        Term::Array { of, length: None } => {
            let one = Term::Array {
                of: *of,
                length: Some(1),
            };
            match types.add(one) {
                Ok(_) => Ok(()),
                Err(_) => Err(OutOfMemory),
            }
        }
        _ => Ok(()),
    }
}

// Adds what a type needs.
fn add_ready(alloc: Global, types: &mut TypeTable, ty: TypeId) -> Result<(), OutOfMemory>
    requires { ty.0 < length types.old.terms }
    ensures grown { OnOk result (IsGrown types.old types.new) }
    ensures here { OnOk result (IsReady types.new (type_of types.new ty.0)) }
    ensures added { OnOk result ((i : ℕ) → length types.old.terms ≤ i → i < length types.new.terms
        → IsReady types.new (type_of types.new i)) }
{
    add_signature(alloc, types, ty)?;
    add_one(types, ty)
}

/// Adds, for each type of a table, the type with the list `(void)` of a function without parameters, and the type with
/// one element of an array without a length. The types that are there stay.
pub fn ready(alloc: Global, types: &mut TypeTable) -> Result<(), OutOfMemory>
    ensures grown { OnOk result (IsGrown types.old types.new) }
    ensures ready { OnOk result (AreReady types.new) }
{
    let count = types.type_count();
    for id in 0..count {
        add_ready(alloc, types, TypeId(id))?;
    }
    Ok(())
}
