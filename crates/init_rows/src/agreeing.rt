// What the declarations of a name that are seen at an initialiser say of its object (C11 6.2.7p2, p4, 6.7.9p22).
ghost use Rattle.std.specs.Prelude.{◌≡◌, ◌<◌, ℕ, List, length, All, IfOk, IfSome, IsOkUnless, None, true, ◌&&◌};
ghost use Rattle.c_types.specs.Trees.{Ctype};
ghost use Rattle.c_types.specs.Table.{type_of};
ghost use Rattle.c_senses.specs.World.{World};
ghost use Rattle.c_senses.specs.Tree.{Source};
ghost use Rattle.c_senses.specs.Sense.{Sense, sense_in};
ghost use Rattle.c_senses.specs.Limits as limits;
ghost use Rattle.c_senses.specs.Entities as spec;
ghost use Rattle.c_senses.specs.Initialised.{initialised_fits};
ghost use Rattle.core_nodes.specs.Standing.{IsReady, Builds, Knows};
ghost use Rattle.c_results.specs.Standing.{senses_made, IsWithin};
ghost use Rattle.tree_reads.specs.Sources.{source_read, source_in};
ghost use Rattle.c_entities.specs.Types.{type_in};
ghost use Rattle.c_named.specs.Said.{IsSaid, IsSaidIn};
ghost use Rattle.c_named.specs.Lists as lists;

use crate::types::{Declared, both, is_small};
use c_entities::{agree, own_type, together, with_length};
use c_named::Said;
use c_results::Results;
use c_types::table::TypeTable;
use c_types::term::{Term, TypeId};
use core_nodes::CheckFault;
use core_tree::node::Unit;
use std::alloc::Global;
use tree_reads::Syntax;

// A type behind those before it.
fn joined(types: &TypeTable, before: Option<TypeId>, found: Option<TypeId>) -> Option<TypeId>
    requires before { IfSome before (λ t. t.0 < length types.now.terms) }
    requires found { IfSome found (λ t. t.0 < length types.now.terms) }
    ensures joined { (rest : List Ctype) →
        spec.all_together (type_in types.now result) rest
        ≡ spec.all_together (type_in types.now before) (lists.with_type (type_in types.now found) rest) }
    ensures within { IfSome result (λ t. t.0 < length types.now.terms) }
{
    let Some(ty) = found else {
        return before;
    };
    match before {
        Some(known) => Some(together(types, known, ty)),
        None => Some(ty),
    }
}

// The type that some declarations give together (C11 6.2.7p4); None where they give none. Only memory may want.
fn types_together(
    alloc: Global,
    unit: &mut Unit,
    syntax: &Syntax,
    results: &Results,
    leaves: &[u32],
) -> Result<Option<TypeId>, CheckFault>
    requires ready { IsReady unit.old }
    requires results { All (IsWithin unit.old) results.now }
    requires leaves { All (λ leaf. leaf < length syntax.now.tree.now.nodes.items) leaves.now }
    ensures ready { IsReady unit.new }
    ensures builds { Builds unit.old unit.new }
    ensures made { let sense = sense_in (senses_made unit.old results.now) in
        IfOk result (λ t.
        type_in unit.new.types t ≡ spec.all_together None (lists.types_at (source_read syntax.now) sense leaves.now)) }
    ensures within { IfOk result (λ t. IfSome t (λ id. id.0 < length unit.new.types.terms)) }
    ensures memory { IsOkUnless result CheckFault.OutOfMemory }
{
    let mut so_far = None;
    for leaf in leaves {
        let found = own_type(alloc, unit, syntax, results, *leaf)?;
        so_far = joined(&unit.types, so_far, found);
    }
    Ok(so_far)
}

// The length of an array, if a type is one that has a length.
fn length_in(types: &TypeTable, ty: Option<TypeId>) -> Option<u64>
    requires { IfSome ty (λ t. t.0 < length types.now.terms) }
    ensures { result ≡ spec.length_in (type_in types.now ty) }
{
    let Some(id) = ty else {
        return None;
    };
    match types.term(id) {
        Term::Array { length, .. } => *length,
        _ => None,
    }
}

/// A type with the length that is seen of an object's name, and that length.
#[derive(Clone, Copy)]
pub(crate) struct Lengthened {
    pub declared: Declared,
    pub seen: Option<u64>,
}

// A type with a length, if it lacks one, and whether it is within the limits.
fn lengthen(
    unit: &mut Unit,
    seen: Option<u64>,
    declared: Declared,
) -> Result<Lengthened, CheckFault>
    requires ready { IsReady unit.old }
    requires ty { declared.ty.0 < length unit.old.types.terms }
    ensures ready { IsReady unit.new }
    ensures builds { Builds unit.old unit.new }
    ensures seen { IfOk result (λ l. l.seen ≡ seen) }
    ensures made { IfOk result (λ l.
        type_of unit.new.types l.declared.ty.0 ≡ spec.with_length l.seen (type_of unit.old.types declared.ty.0)) }
    ensures limited { (w : World) →
        Knows w unit.old →
        declared.limited ≡ limits.within_limits w (type_of unit.old.types declared.ty.0) →
        IfOk result (λ l. l.declared.limited ≡ limits.within_limits w (type_of unit.new.types l.declared.ty.0)) }
    ensures within { IfOk result (λ l. l.declared.ty.0 < length unit.new.types.terms) }
    ensures memory { IsOkUnless result CheckFault.OutOfMemory }
{
    let Ok(ty) = with_length(unit, seen, declared.ty) else {
        return Err(CheckFault::OutOfMemory);
    };
    let small = is_small(unit, ty);
    let limited = both(declared.limited, small);
    Ok(Lengthened {
        declared: Declared { ty, limited },
        seen,
    })
}

/// The type of an object with the length that is seen of its name, if it has none of its own (C11 6.2.7p4). Only memory may want.
pub(crate) fn seen_type(
    alloc: Global,
    unit: &mut Unit,
    syntax: &Syntax,
    results: &Results,
    said: &Said,
    declared: Declared,
) -> Result<Lengthened, CheckFault>
    requires ready { IsReady unit.old }
    requires results { All (IsWithin unit.old) results.now }
    requires ty { declared.ty.0 < length unit.old.types.terms }
    requires said { IsSaidIn (length syntax.now.tree.now.nodes.items) said.now }
    requires typed { said.now.is_typed ≡ true }
    ensures ready { IsReady unit.new }
    ensures builds { Builds unit.old unit.new }
    ensures seen { (w : World) (uses : List (ℕ × ℕ)) (leaf : ℕ) →
        let s = source_in syntax.now uses in
        let sense = sense_in (senses_made unit.old results.now) in
        IsSaid w s sense leaf said.now → IfOk result (λ l. l.seen ≡ spec.length_seen s sense leaf) }
    ensures made { IfOk result (λ l.
        type_of unit.new.types l.declared.ty.0 ≡ spec.with_length l.seen (type_of unit.old.types declared.ty.0)) }
    ensures limited { (w : World) →
        Knows w unit.old →
        declared.limited ≡ limits.within_limits w (type_of unit.old.types declared.ty.0) →
        IfOk result (λ l. l.declared.limited ≡ limits.within_limits w (type_of unit.new.types l.declared.ty.0)) }
    ensures within { IfOk result (λ l. l.declared.ty.0 < length unit.new.types.terms) }
    ensures memory { IsOkUnless result CheckFault.OutOfMemory }
{
    let behind = types_together(alloc, unit, syntax, results, said.typing.as_slice())?;
    let seen = length_in(&unit.types, behind);
    lengthen(unit, seen, declared)
}

// Whether a type agrees with the one before, if there is one.
fn agrees_with(types: &TypeTable, ty: TypeId, before: Option<TypeId>) -> bool
    requires ty { ty.0 < length types.now.terms }
    requires before { IfSome before (λ t. t.0 < length types.now.terms) }
    ensures { (w : World) (s : Source) (sense : ℕ → Sense) →
        result ≡ spec.agrees_with w s sense (type_of types.now ty.0) (type_in types.now before) }
{
    match before {
        Some(known) => agree(types, known, ty),
        None => true,
    }
}

// Whether a type agrees with what the declarations of an internal name before give it. Only memory may want.
fn internal_agrees(
    alloc: Global,
    unit: &mut Unit,
    syntax: &Syntax,
    results: &Results,
    said: &Said,
    ty: TypeId,
) -> Result<bool, CheckFault>
    requires ready { IsReady unit.old }
    requires results { All (IsWithin unit.old) results.now }
    requires ty { ty.0 < length unit.old.types.terms }
    requires said { IsSaidIn (length syntax.now.tree.now.nodes.items) said.now }
    ensures ready { IsReady unit.new }
    ensures builds { Builds unit.old unit.new }
    ensures agrees { (w : World) (uses : List (ℕ × ℕ)) (leaf : ℕ) →
        let s = source_in syntax.now uses in
        let sense = sense_in (senses_made unit.old results.now) in
        IsSaid w s sense leaf said.now →
        IfOk result (λ b. b ≡ spec.internal_agrees w s sense (type_of unit.old.types ty.0) leaf) }
    ensures memory { IsOkUnless result CheckFault.OutOfMemory }
{
    if !said.is_internal {
        return Ok(true);
    }
    let before = types_together(
        alloc,
        unit,
        syntax,
        results,
        said.internal_before.as_slice(),
    )?;
    Ok(agrees_with(&unit.types, ty, before))
}

/// Whether the type of an object, with the length that its initialiser gives it, is within the limits and agrees with what the
/// declarations of an internal name before give it (C11 6.2.7p2, 6.7.9p22). Only memory may want.
pub(crate) fn initialised_fits(
    alloc: Global,
    unit: &mut Unit,
    syntax: &Syntax,
    results: &Results,
    said: &Said,
    count: Option<u64>,
    declared: Declared,
) -> Result<bool, CheckFault>
    requires ready { IsReady unit.old }
    requires results { All (IsWithin unit.old) results.now }
    requires ty { declared.ty.0 < length unit.old.types.terms }
    requires said { IsSaidIn (length syntax.now.tree.now.nodes.items) said.now }
    ensures ready { IsReady unit.new }
    ensures builds { Builds unit.old unit.new }
    ensures fits { (w : World) (uses : List (ℕ × ℕ)) (leaf : ℕ) →
        let s = source_in syntax.now uses in
        let sense = sense_in (senses_made unit.old results.now) in
        let t = type_of unit.old.types declared.ty.0 in
        Knows w unit.old →
        IsSaid w s sense leaf said.now →
        declared.limited ≡ limits.within_limits w t →
        IfOk result (λ b. b ≡ initialised_fits w s sense (spec.with_length count t) leaf) }
    ensures memory { IsOkUnless result CheckFault.OutOfMemory }
{
    let Ok(whole) = with_length(unit, count, declared.ty) else {
        return Err(CheckFault::OutOfMemory);
    };
    let small = is_small(unit, whole);
    let limited = both(declared.limited, small);
    if !limited {
        return Ok(false);
    }
    internal_agrees(alloc, unit, syntax, results, said, whole)
}
