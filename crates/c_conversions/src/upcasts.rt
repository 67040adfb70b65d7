// From a pointer to a structure to pointers to its first members (C11 6.7.2.1p15).
#![tactic(auto, using(core_nodes::proofs::IntegerTypes::integers))]

ghost use Rattle.std.specs.Prelude.{◌≡◌, ◌<◌, length, slice_get, option_map, IfOk, IfSome, IsOkUnless};
ghost use Rattle.c_types.specs.Trees.{PointerTo};
ghost use Rattle.c_types.specs.Table.{type_of};
ghost use Rattle.c_types.specs.declared.term.MemberTerm.{MemberTerm};
ghost use Rattle.core_tree.specs.declared.node.NodeKind.TheVariants.{Upcast};
ghost use Rattle.c_consts.specs.Core.{over, place_of};
ghost use Rattle.core_nodes.specs.passed.c_senses.Given.{Fits};
ghost use Rattle.core_nodes.specs.passed.c_senses.World.{World};
ghost use Rattle.core_nodes.specs.passed.c_senses.Conversions as spec;
ghost use Rattle.core_nodes.specs.Standing.{core_at, IsReady, Builds, Made, Knows};
ghost use Rattle.c_conversions.specs.Targets.{type_seen, UpcastMade, IsUpcastWithin};

use c_types::term::{MemberTerm, Term, TypeId};
use core_nodes::CheckFault;
use core_nodes::reads::place_of_node;
use core_nodes::sorts::same_types;
use core_nodes::trees::{pointer_type, push_over};
use core_tree::node::{NodeKind, Unit};
use std::alloc::Global;

// The type of the first of some members.
fn first_type(members: &[MemberTerm]) -> Option<TypeId>
    ensures { result ≡ option_map (λ (m : MemberTerm). m.ty) (slice_get members.now 0) }
{
    match members {
        [first, ..] => Some(first.ty),
        _ => None,
    }
}

// The type of the first member of a structure.
fn first_member(unit: &Unit, ty: TypeId) -> Option<TypeId>
    requires { ty.0 < length unit.now.types.terms }
    ensures member { (w : World) →
        Knows w unit.now → type_seen unit.now.types result ≡ spec.first_member_type w (type_of unit.now.types ty.0) }
    ensures within { IfSome result (λ t. t.0 < length unit.now.types.terms) }
{
    match unit.types.term(ty) {
        Term::Structure(tag) => match unit.types.members(*tag) {
            Some(members) => first_type(members),
            None => None,
        },
        _ => None,
    }
}

// A pointer to a structure as a pointer to the type that is sought: its first member's, or that one's first member's, and so on.
// None where none of them has that type.
pub(crate) fn upcast(
    alloc: Global,
    unit: &mut Unit,
    node: u32,
    from: TypeId,
    sought: TypeId,
) -> Result<Option<u32>, CheckFault>
    requires ready { IsReady unit.old }
    requires node { node < length unit.old.nodes.items }
    requires from { from.0 < length unit.old.types.terms }
    requires sought { sought.0 < length unit.old.types.terms }
    ensures ready { IsReady unit.new }
    ensures builds { Builds unit.old unit.new }
    ensures within { IfOk result (λ o. IsUpcastWithin unit.new o) }
    ensures made { (w : World) →
        Knows w unit.old →
        UpcastMade unit.new result
        (spec.upcast w (type_of unit.old.types from.0) (type_of unit.old.types sought.0) (core_at unit.old node)) }
{
    let mut next = first_member(unit, from);
    let mut value = node;
    let depth = unit.types.tag_count() as u64 + 1;
    'steps: for _step in 0..depth {
        let Some(ty) = next else {
            return Ok(None);
        };
        value = one_step(alloc, unit, value, ty)?;
        if same_types(&unit.types, ty, sought) {
            return Ok(Some(value));
        }
        next = first_member(unit, ty);
    }
    Ok(None)
}

// One step down: a pointer to the first member, which is of that type.
fn one_step(alloc: Global, unit: &mut Unit, value: u32, ty: TypeId) -> Result<u32, CheckFault>
    requires ready { IsReady unit.old }
    requires value { value < length unit.old.nodes.items }
    requires ty { ty.0 < length unit.old.types.terms }
    ensures ready { IsReady unit.new }
    ensures builds { Builds unit.old unit.new }
    ensures within { IfOk result (λ i. i < length unit.new.nodes.items) }
    ensures made { Made unit.new result
        (Fits
        (over Upcast (place_of (core_at unit.old value)) (PointerTo (type_of unit.old.types ty.0)) (core_at unit.old value))) }
    ensures only_memory { IsOkUnless result CheckFault.OutOfMemory }
{
    let place = place_of_node(unit, value);
    let pointer = pointer_type(unit, ty)?;
    push_over(alloc, unit, NodeKind::Upcast, place, pointer, value)
}
