// New types and nodes in a unit.
ghost use Rattle.std.specs.Prelude.{◌≡◌, ℕ, ◌+◌, ◌<◌, ◌≤◌, [], ◌∷◌, ◌++◌, IfOk, OnOk, OnErr, IsOkUnless, All, length};
ghost use Rattle.c_types.specs.Trees.{Ctype, grow, PointerTo};
ghost use Rattle.c_types.specs.Table.{types_of, type_of, IsAfter, HasTag, IsFirstOf};
ghost use Rattle.c_types.specs.Made.{IsSized, KeepsApart};
ghost use Rattle.core_tree.specs.Rows.{int};
ghost use Rattle.c_senses.specs.passed.c_consts.Core.{Core, Of, leaf, over, over_two, over_three};
ghost use Rattle.c_senses.specs.Given.{Fits};
ghost use Rattle.core_nodes.specs.Once.{HasOnce};
ghost use Rattle.core_nodes.specs.Standing.{core_at, cores_at, IsReady, Builds, Made, TypeMade};

use crate::CheckFault;
use c_types::term::{Term, TypeId};
use core_tree::held::Children;
use core_tree::node::{Node, NodeKind, Unit};
use pta_base::Place;
use std::alloc::Global;

/// One more node, over nodes that there are: the last of the unit. Only memory may want, or there are 2^32 - 1 nodes.
pub fn push_node(
    unit: &mut Unit,
    kind: NodeKind,
    place: Place,
    ty: TypeId,
    children: Children,
) -> Result<u32, CheckFault>
    requires ready { IsReady unit.old }
    requires ty { ty.0 < length unit.old.types.terms }
    requires children { All (λ c. c < length unit.old.nodes.items) children }
    ensures ready { IsReady unit.new }
    ensures builds { Builds unit.old unit.new }
    ensures made { Made unit.new result (Fits (Of kind place (type_of unit.old.types ty.0) (cores_at unit.old children))) }
    ensures added { IfOk result (λ i. (i ≡ length unit.old.nodes.items)
        × (unit.new.nodes.items ≡ unit.old.nodes.items ++ record { kind = kind; place = place; ty = ty; children = children } ∷ [])) }
    ensures types { unit.new.types ≡ unit.old.types }
    ensures only_memory { IsOkUnless result CheckFault.OutOfMemory }
    ensures within { IfOk result (λ i. i < length unit.new.nodes.items) }
{
    if unit.nodes.len() >= u32::MAX as usize {
        return Err(CheckFault::OutOfMemory);
    }
    let i = unit.nodes.len() as u32;
    let node = Node {
        kind,
        place,
        ty,
        children,
    };
    unit.nodes.push(node)?;
    Ok(i)
}

/// A node over nothing.
pub fn push_leaf(
    alloc: Global,
    unit: &mut Unit,
    kind: NodeKind,
    place: Place,
    ty: TypeId,
) -> Result<u32, CheckFault>
    requires ready { IsReady unit.old }
    requires ty { ty.0 < length unit.old.types.terms }
    ensures ready { IsReady unit.new }
    ensures builds { Builds unit.old unit.new }
    ensures made { Made unit.new result (Fits (leaf kind place (type_of unit.old.types ty.0))) }
    ensures within { IfOk result (λ i. i < length unit.new.nodes.items) }
{
    push_node(unit, kind, place, ty, Children::none())
}

/// A node over one other.
pub fn push_over(
    alloc: Global,
    unit: &mut Unit,
    kind: NodeKind,
    place: Place,
    ty: TypeId,
    a: u32,
) -> Result<u32, CheckFault>
    requires ready { IsReady unit.old }
    requires ty { ty.0 < length unit.old.types.terms }
    requires a { a < length unit.old.nodes.items }
    ensures ready { IsReady unit.new }
    ensures builds { Builds unit.old unit.new }
    ensures made { Made unit.new result (Fits (over kind place (type_of unit.old.types ty.0) (core_at unit.old a))) }
    ensures within { IfOk result (λ i. i < length unit.new.nodes.items) }
{
    push_node(unit, kind, place, ty, Children::one(a))
}

/// A node over two others.
pub fn push_over_two(
    alloc: Global,
    unit: &mut Unit,
    kind: NodeKind,
    place: Place,
    ty: TypeId,
    a: u32,
    b: u32,
) -> Result<u32, CheckFault>
    requires ready { IsReady unit.old }
    requires ty { ty.0 < length unit.old.types.terms }
    requires a { a < length unit.old.nodes.items }
    requires b { b < length unit.old.nodes.items }
    ensures ready { IsReady unit.new }
    ensures builds { Builds unit.old unit.new }
    ensures made { Made unit.new result
        (Fits (over_two kind place (type_of unit.old.types ty.0) (core_at unit.old a) (core_at unit.old b))) }
    ensures within { IfOk result (λ i. i < length unit.new.nodes.items) }
{
    push_node(unit, kind, place, ty, Children::two(a, b))
}

/// A node over three others.
pub fn push_over_three(
    alloc: Global,
    unit: &mut Unit,
    kind: NodeKind,
    place: Place,
    ty: TypeId,
    a: u32,
    b: u32,
    c: u32,
) -> Result<u32, CheckFault>
    requires ready { IsReady unit.old }
    requires ty { ty.0 < length unit.old.types.terms }
    requires a { a < length unit.old.nodes.items }
    requires b { b < length unit.old.nodes.items }
    requires c { c < length unit.old.nodes.items }
    ensures ready { IsReady unit.new }
    ensures builds { Builds unit.old unit.new }
    ensures made { Made unit.new result
        (Fits (over_three kind place (type_of unit.old.types ty.0) (core_at unit.old a) (core_at unit.old b) (core_at unit.old c))) }
    ensures within { IfOk result (λ i. i < length unit.new.nodes.items) }
{
    push_node(unit, kind, place, ty, Children::three(a, b, c))
}

/// The type of a term: the first of the unit that is the same, where there is one, and then nothing is added; else one more. So no type
/// stands twice in a unit that is made by it.
pub fn add_type(unit: &mut Unit, term: Term) -> Result<TypeId, CheckFault>
    requires ready { IsReady unit.old }
    requires types { IsAfter (length unit.old.types.terms) term }
    requires tags { HasTag unit.old.types.tags term }
    requires sized { IsSized term }
    requires apart { KeepsApart unit.old.types.terms term }
    ensures ready { IsReady unit.new }
    ensures builds { Builds unit.old unit.new }
    ensures made { TypeMade unit.new result (grow (types_of unit.old.types) term) }
    ensures within { IfOk result (λ id. id.0 < length unit.new.types.terms) }
    ensures once { HasOnce unit.old.types → HasOnce unit.new.types }
    ensures known { (id : ℕ) → IsFirstOf unit.old.types (grow (types_of unit.old.types) term) id →
        IfOk result (λ found. found.0 ≡ id) × OnOk result (unit.new.types ≡ unit.old.types) }
{
    let _count = unit.types.type_count();
    let found = unit.types.find(&term)?;
    match found {
        Some(known) => Ok(known),
        None => {
            let ty = unit.types.add(term)?;
            Ok(ty)
        }
    }
}

/// The type of pointers to a type.
pub fn pointer_type(unit: &mut Unit, to: TypeId) -> Result<TypeId, CheckFault>
    requires ready { IsReady unit.old }
    requires to { to.0 < length unit.old.types.terms }
    ensures ready { IsReady unit.new }
    ensures builds { Builds unit.old unit.new }
    ensures made { TypeMade unit.new result (PointerTo (type_of unit.old.types to.0)) }
    ensures within { IfOk result (λ id. id.0 < length unit.new.types.terms) }
{
    add_type(unit, Term::Pointer(to))
}

/// The type int.
pub fn int_type(unit: &mut Unit) -> Result<TypeId, CheckFault>
    requires ready { IsReady unit.old }
    ensures ready { IsReady unit.new }
    ensures builds { Builds unit.old unit.new }
    ensures made { TypeMade unit.new result int }
    ensures within { IfOk result (λ id. id.0 < length unit.new.types.terms) }
{
    add_type(
        unit,
        Term::Integer {
            size: 4,
            rank: 4,
            signed: true,
        },
    )
}
