// Types that declarators make.
ghost use Rattle.std.specs.Prelude.{◌≡◌, ◌<◌, ℕ, List, length, IfOk, IfSome, All, false, true, get_or, map, ◌||◌};
ghost use Rattle.c_inits.specs.Tables.{part_of};
ghost use Rattle.c_types.specs.Trees.{Ctype};
ghost use Rattle.c_types.specs.Table.{type_of};
ghost use Rattle.core_nodes.specs.passed.c_senses.World.{World};
ghost use Rattle.core_nodes.specs.passed.c_senses.Limits as limits;
ghost use Rattle.core_nodes.specs.passed.c_senses.Declarators as spec;
ghost use Rattle.core_nodes.specs.Standing.{IsReady, Builds, TypeMade, Knows};
ghost use Rattle.c_results.specs.Standing.{derivation_seen, derivations_seen, IsDerivable};
ghost use Rattle.c_declarators.specs.Limited.{AreFlexible, MayJudge, small_once, fits_from};

use c_results::Derivation;
use c_types::table::TypeTable;
use c_types::term::{MemberTerm, Term, TypeId, TypeList};
use core_nodes::CheckFault;
use core_nodes::sorts::has_size;
use core_nodes::trees::{add_type, pointer_type};
use core_tree::node::Unit;
use std::alloc::Global;

/// A type with one derivation more (C11 6.7.6).
pub fn derived_once(
    alloc: Global,
    unit: &mut Unit,
    derivation: &Derivation,
    ty: TypeId,
) -> Result<TypeId, CheckFault>
    requires ready { IsReady unit.old }
    requires derivation { IsDerivable unit.old.types derivation.now }
    requires ty { ty.0 < length unit.old.types.terms }
    ensures ready { IsReady unit.new }
    ensures builds { Builds unit.old unit.new }
    ensures made { TypeMade unit.new result
        (spec.derived_once (derivation_seen unit.old.types derivation.now) (type_of unit.old.types ty.0)) }
    ensures within { IfOk result (λ id. id.0 < length unit.new.types.terms) }
{
    match derivation {
        Derivation::Pointing => pointer_type(unit, ty),
        Derivation::Elements(length) => add_type(
            unit,
            Term::Array {
                of: ty,
                length: *length,
            },
        ),
        Derivation::Returning { parameters, form } => {
            let items = Vec::from_slice(alloc, parameters.as_slice())?;
            add_type(
                unit,
                Term::Function {
                    result: ty,
                    parameters: TypeList::from_items(items),
                    form: *form,
                },
            )
        }
    }
}

/// A type with derivations more, from the outside in.
pub fn derived(
    alloc: Global,
    unit: &mut Unit,
    derivations: &[Derivation],
    ty: TypeId,
) -> Result<TypeId, CheckFault>
    requires ready { IsReady unit.old }
    requires derivations { All (IsDerivable unit.old.types) derivations.now }
    requires ty { ty.0 < length unit.old.types.terms }
    ensures ready { IsReady unit.new }
    ensures builds { Builds unit.old unit.new }
    ensures made { TypeMade unit.new result
        (spec.derived (derivations_seen unit.old.types derivations.now) (type_of unit.old.types ty.0)) }
    ensures within { IfOk result (λ id. id.0 < length unit.new.types.terms) }
{
    let mut made = ty;
    for derivation in derivations {
        made = derived_once(alloc, unit, derivation, made)?;
    }
    Ok(made)
}

/// The type of a parameter: an array or a function is a pointer (C11 6.7.6.3p7, p8).
pub fn adjusted(unit: &mut Unit, ty: TypeId) -> Result<TypeId, CheckFault>
    requires ready { IsReady unit.old }
    requires ty { ty.0 < length unit.old.types.terms }
    ensures ready { IsReady unit.new }
    ensures builds { Builds unit.old unit.new }
    ensures made { TypeMade unit.new result (spec.adjusted (type_of unit.old.types ty.0)) }
    ensures within { IfOk result (λ id. id.0 < length unit.new.types.terms) }
{
    match unit.types.term(ty) {
        Term::Array { of, .. } => {
            let of = *of;
            pointer_type(unit, of)
        }
        Term::Function { .. } => pointer_type(unit, ty),
        _ => Ok(ty),
    }
}

// Whether a type is an array without a length.
fn lacks_length(types: &TypeTable, ty: TypeId) -> bool
    requires { ty.0 < length types.now.terms }
    ensures { result ≡ limits.lacks_a_length (type_of types.now ty.0) }
{
    match types.term(ty) {
        Term::Array { length: None, .. } => true,
        _ => false,
    }
}

// Whether a type is an array or a function.
fn is_array_or_function(types: &TypeTable, ty: TypeId) -> bool
    requires { ty.0 < length types.now.terms }
    ensures { result ≡ (limits.is_function_type (type_of types.now ty.0) || limits.is_array_type (type_of types.now ty.0)) }
{
    match types.term(ty) {
        Term::Array { .. } => true,
        Term::Function { .. } => true,
        _ => false,
    }
}

// Whether the last of some members is an array without a length.
fn last_lacks_length(types: &TypeTable, members: &[MemberTerm]) -> bool
    requires { All (λ m. m.ty.0 < length types.now.terms) members.now }
    ensures { result ≡ limits.last_lacks_length (map (part_of types.now) members.now) }
{
    match members.last() {
        Some(member) => lacks_length(types, member.ty),
        None => false,
    }
}

// Whether a union holds a structure that ends in an array without a length, by what is known of unions.
fn union_flexible(unions: &[bool], tag: u32) -> bool
    ensures { result ≡ get_or unions.now tag false }
{
    match unions.get(tag as usize) {
        Some(flexible) => *flexible,
        None => false,
    }
}

/// Whether a type is a structure that ends in an array without a length, or a union that holds one (C11 6.7.2.1p18).
pub fn ends_flexible(unit: &Unit, unions: &[bool], ty: TypeId) -> bool
    requires { ty.0 < length unit.now.types.terms }
    ensures { (w : World) →
        Knows w unit.now → AreFlexible w unions.now → result ≡ limits.ends_flexible w (type_of unit.now.types ty.0) }
{
    match unit.types.term(ty) {
        Term::Structure(tag) => match unit.types.members(*tag) {
            Some(members) => last_lacks_length(&unit.types, members),
            None => false,
        },
        Term::Union(tag) => union_flexible(unions, *tag),
        _ => false,
    }
}

/// Whether a type may have one derivation more (C11 6.7.6.2p1, 6.7.6.3p1).
pub fn may_derive(unit: &Unit, unions: &[bool], derivation: &Derivation, ty: TypeId) -> bool
    requires { ty.0 < length unit.now.types.terms }
    ensures { (w : World) →
        Knows w unit.now →
        AreFlexible w unions.now →
        result ≡ spec.may_derive w (derivation_seen unit.now.types derivation.now) (type_of unit.now.types ty.0) }
{
    match derivation {
        Derivation::Pointing => true,
        Derivation::Elements(_) => has_size(unit, ty) && !ends_flexible(unit, unions, ty),
        Derivation::Returning { .. } => !is_array_or_function(&unit.types, ty),
    }
}

// Whether a type that a derivation made is small, where the derivation was allowed.
fn stays_small(unit: &Unit, derivation: &Derivation, made: TypeId) -> bool
    requires { made.0 < length unit.now.types.terms }
    ensures { (w : World) (t : Ctype) →
        Knows w unit.now →
        type_of unit.now.types made.0 ≡ spec.derived_once (derivation_seen unit.now.types derivation.now) t →
        spec.may_derive w (derivation_seen unit.now.types derivation.now) t ≡ true →
        result ≡ small_once w (derivation_seen unit.now.types derivation.now) t }
{
    match derivation {
        Derivation::Elements(Some(_)) => {
            unit.types.size_of(made).is_some() && unit.types.nodes(made).is_some()
        }
        Derivation::Elements(None) => true,
        Derivation::Pointing => true,
        Derivation::Returning { .. } => true,
    }
}

/// Whether each type on the way from a type through derivations may be made (C11 6.7.6.2p1, 6.7.6.3p1), and is within the
/// limits, where the first type and those of parameters are. Only memory may want.
pub fn type_fits(
    alloc: Global,
    unit: &mut Unit,
    unions: &[bool],
    derivations: &[Derivation],
    base: TypeId,
) -> Result<bool, CheckFault>
    requires ready { IsReady unit.old }
    requires derivations { All (IsDerivable unit.old.types) derivations.now }
    requires base { base.0 < length unit.old.types.terms }
    ensures ready { IsReady unit.new }
    ensures builds { Builds unit.old unit.new }
    ensures fits { (w : World) →
        MayJudge w unit.old unions.now (type_of unit.old.types base.0) (derivations_seen unit.old.types derivations.now) →
        IfOk result (λ b. b ≡ fits_from w (derivations_seen unit.old.types derivations.now) (type_of unit.old.types base.0)) }
{
    let mut made = base;
    for derivation in derivations {
        if !may_derive(unit, unions, derivation, made) {
            return Ok(false);
        }
        made = derived_once(alloc, unit, derivation, made)?;
        if !stays_small(unit, derivation, made) {
            return Ok(false);
        }
    }
    Ok(true)
}
