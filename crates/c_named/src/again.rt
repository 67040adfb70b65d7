// Declarations of a name that stand before another one (C11 6.7p3).
ghost use Rattle.std.specs.Prelude.{◌≡◌, ◌<◌, ℕ, List, length, All, IfOk, IfSome, IsOkUnless, None};
ghost use Rattle.c_types.specs.Trees.{Ctype};
ghost use Rattle.c_types.specs.Table.{type_of};
ghost use Rattle.c_senses.specs.World.{World};
ghost use Rattle.c_senses.specs.Sense.{sense_in};
ghost use Rattle.c_senses.specs.Entities as spec;
ghost use Rattle.core_nodes.specs.Standing.{IsReady, Builds};
ghost use Rattle.c_results.specs.Standing.{senses_made, IsWithin};
ghost use Rattle.tree_reads.specs.Sources.{source_read, source_in};
ghost use Rattle.c_entities.specs.Types.{type_in};
ghost use Rattle.c_named.specs.Said.{IsSaid, IsSaidIn};
ghost use Rattle.c_named.specs.Lists as lists;

use crate::said::Said;
use c_entities::{own_type, together};
use c_results::Results;
use c_types::table::TypeTable;
use c_types::term::TypeId;
use core_nodes::CheckFault;
use core_nodes::sorts::same_types;
use core_tree::node::Unit;
use std::alloc::Global;
use tree_reads::Syntax;

// Whether there is a type, and it is the other one.
fn is_of(types: &TypeTable, ty: TypeId, found: Option<TypeId>) -> bool
    requires ty { ty.0 < length types.now.terms }
    requires found { IfSome found (λ t. t.0 < length types.now.terms) }
    ensures { result ≡ lists.is_of (type_of types.now ty.0) (type_in types.now found) }
{
    match found {
        Some(other) => same_types(types, other, ty),
        None => false,
    }
}

// Whether each of some declarations gives its name that type.
fn all_of(
    alloc: Global,
    unit: &mut Unit,
    syntax: &Syntax,
    results: &Results,
    ty: TypeId,
    leaves: &[u32],
) -> Result<bool, CheckFault>
    requires ready { IsReady unit.old }
    requires results { All (IsWithin unit.old) results.now }
    requires ty { ty.0 < length unit.old.types.terms }
    requires leaves { All (λ leaf. leaf < length syntax.now.tree.now.nodes.items) leaves.now }
    ensures ready { IsReady unit.new }
    ensures builds { Builds unit.old unit.new }
    ensures all { let sense = sense_in (senses_made unit.old results.now) in
        IfOk result (λ b. b ≡ lists.all_of (source_read syntax.now) sense (type_of unit.old.types ty.0) leaves.now) }
    ensures memory { IsOkUnless result CheckFault.OutOfMemory }
{
    for leaf in leaves {
        let found = own_type(alloc, unit, syntax, results, *leaf)?;
        if !is_of(&unit.types, ty, found) {
            return Ok(false);
        }
    }
    Ok(true)
}

// A type behind those before it.
fn joined(types: &TypeTable, before: Option<TypeId>, found: Option<TypeId>) -> Option<TypeId>
    requires before { IfSome before (λ t. t.0 < length types.now.terms) }
    requires found { IfSome found (λ t. t.0 < length types.now.terms) }
    ensures joined { (rest : List Ctype) →
        spec.all_together (type_in types.now result) rest
        ≡ spec.all_together (type_in types.now before) (lists.with_type (type_in types.now found) rest) }
    ensures within { IfSome result (λ t. t.0 < length types.now.terms) }
{
    let Some(ty) = found else {
        return before;
    };
    match before {
        Some(known) => Some(together(types, known, ty)),
        None => Some(ty),
    }
}

/// The type that some declarations give together (C11 6.2.7p4); None where they give none. Only memory may want.
pub(crate) fn types_together(
    alloc: Global,
    unit: &mut Unit,
    syntax: &Syntax,
    results: &Results,
    leaves: &[u32],
) -> Result<Option<TypeId>, CheckFault>
    requires ready { IsReady unit.old }
    requires results { All (IsWithin unit.old) results.now }
    requires leaves { All (λ leaf. leaf < length syntax.now.tree.now.nodes.items) leaves.now }
    ensures ready { IsReady unit.new }
    ensures builds { Builds unit.old unit.new }
    ensures made { let sense = sense_in (senses_made unit.old results.now) in
        IfOk result (λ t.
        type_in unit.new.types t ≡ spec.all_together None (lists.types_at (source_read syntax.now) sense leaves.now)) }
    ensures within { IfOk result (λ t. IfSome t (λ id. id.0 < length unit.new.types.terms)) }
    ensures memory { IsOkUnless result CheckFault.OutOfMemory }
{
    let mut so_far = None;
    for leaf in leaves {
        let found = own_type(alloc, unit, syntax, results, *leaf)?;
        so_far = joined(&unit.types, so_far, found);
    }
    Ok(so_far)
}

/// Whether a typedef name that stands there again names the same type (C11 6.7p3). Only memory may want.
pub(crate) fn is_same_again(
    alloc: Global,
    unit: &mut Unit,
    syntax: &Syntax,
    results: &Results,
    said: &Said,
    ty: TypeId,
) -> Result<bool, CheckFault>
    requires ready { IsReady unit.old }
    requires results { All (IsWithin unit.old) results.now }
    requires ty { ty.0 < length unit.old.types.terms }
    requires said { IsSaidIn (length syntax.now.tree.now.nodes.items) said.now }
    ensures ready { IsReady unit.new }
    ensures builds { Builds unit.old unit.new }
    ensures same { (w : World) (uses : List (ℕ × ℕ)) (leaf : ℕ) →
        let s = source_in syntax.now uses in
        let sense = sense_in (senses_made unit.old results.now) in
        IsSaid w s sense leaf said.now →
        IfOk result (λ b. b ≡ spec.is_same_again w s sense (type_of unit.old.types ty.0) leaf) }
    ensures memory { IsOkUnless result CheckFault.OutOfMemory }
{
    if !said.is_typedef {
        return Ok(true);
    }
    all_of(alloc, unit, syntax, results, ty, said.in_scope.as_slice())
}
