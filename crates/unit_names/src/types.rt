// The type of what a name declares (C11 6.2.7, 6.9.2p2).
ghost use Rattle.std.specs.Prelude.{◌≡◌, ◌<◌, ℕ, List, All, length, option_map, IfOk, IfSome, IsOkUnless, None};
ghost use Rattle.c_types.specs.Trees.{Ctype};
ghost use Rattle.c_senses.specs.Sense.{sense_in};
ghost use Rattle.c_senses.specs.Entities as spec;
ghost use Rattle.c_senses.specs.Right as right;
ghost use Rattle.core_tree.specs.declared.node.Unit.{Unit as UnitSpec};
ghost use Rattle.core_nodes.specs.Standing.{IsReady, Builds};
ghost use Rattle.c_results.specs.Standing.{senses_made, IsWithin};
ghost use Rattle.tree_reads.specs.Sources.{source_read, source_in};
ghost use Rattle.c_entities.specs.Types.{type_in};
ghost use Rattle.name_chains.specs.symbol_lists.Lists.{AreOf};
ghost use Rattle.c_meanings.specs.Known.{AreNamed};
ghost use Rattle.c_named.specs.Lists as lists;
ghost use Rattle.unit_names.specs.Typing.{type_of_internal};

use crate::choosing::chosen;
use crate::internal::of_internal;
use c_entities::{is_defined, own_type, together, with_length};
use c_meanings::Names;
use c_results::Results;
use c_types::table::TypeTable;
use c_types::term::TypeId;
use core_nodes::CheckFault;
use core_tree::node::Unit;
use name_chains::symbol_lists::SymbolLists;
use std::alloc::Global;
use tree_reads::Syntax;

// A type behind those before it.
fn joined(types: &TypeTable, before: Option<TypeId>, found: Option<TypeId>) -> Option<TypeId>
    requires before { IfSome before (λ t. t.0 < length types.now.terms) }
    requires found { IfSome found (λ t. t.0 < length types.now.terms) }
    ensures joined { (rest : List Ctype) →
        spec.all_together (type_in types.now result) rest
        ≡ spec.all_together (type_in types.now before) (lists.with_type (type_in types.now found) rest) }
    ensures within { IfSome result (λ t. t.0 < length types.now.terms) }
{
    let Some(ty) = found else {
        return before;
    };
    match before {
        Some(known) => Some(together(types, known, ty)),
        None => Some(ty),
    }
}

// The type that some declarations give together (C11 6.2.7p4); None where they give none.
fn types_together(
    alloc: Global,
    unit: &mut Unit,
    syntax: &Syntax,
    results: &Results,
    leaves: &[u32],
) -> Result<Option<TypeId>, CheckFault>
    requires ready { IsReady unit.old }
    requires results { All (IsWithin unit.old) results.now }
    requires leaves { All (λ leaf. leaf < length syntax.now.tree.now.nodes.items) leaves.now }
    ensures ready { IsReady unit.new }
    ensures builds { Builds unit.old unit.new }
    ensures made { let sense = sense_in (senses_made unit.old results.now) in
        IfOk result (λ t.
        type_in unit.new.types t ≡ spec.all_together None (lists.types_at (source_read syntax.now) sense leaves.now)) }
    ensures within { IfOk result (λ t. IfSome t (λ id. id.0 < length unit.new.types.terms)) }
    ensures memory { IsOkUnless result CheckFault.OutOfMemory }
{
    let mut so_far = None;
    for leaf in leaves {
        let found = own_type(alloc, unit, syntax, results, *leaf)?;
        so_far = joined(&unit.types, so_far, found);
    }
    Ok(so_far)
}

// A type, if there is one, where an array without a length gets one element (C11 6.9.2p5).
fn with_one(unit: &mut Unit, found: Option<TypeId>) -> Result<Option<TypeId>, CheckFault>
    requires ready { IsReady unit.old }
    requires found { IfSome found (λ t. t.0 < length unit.old.types.terms) }
    ensures ready { IsReady unit.new }
    ensures builds { Builds unit.old unit.new }
    ensures made { IfOk result (λ t.
        type_in unit.new.types t ≡ option_map (spec.with_length (Some 1)) (type_in unit.old.types found)) }
    ensures within { IfOk result (λ t. IfSome t (λ id. id.0 < length unit.new.types.terms)) }
    ensures memory { IsOkUnless result CheckFault.OutOfMemory }
{
    let Some(ty) = found else {
        return Ok(None);
    };
    match with_length(unit, Some(1), ty) {
        Ok(whole) => Ok(Some(whole)),
        Err(_) => Err(CheckFault::OutOfMemory),
    }
}

// The type of an internal name, by its declarations and the one at which it has its place.
fn internal_type(
    alloc: Global,
    unit: &mut Unit,
    syntax: &Syntax,
    results: &Results,
    list: &[u32],
    at: u32,
) -> Result<Option<TypeId>, CheckFault>
    requires ready { IsReady unit.old }
    requires results { All (IsWithin unit.old) results.now }
    requires list { All (λ leaf. leaf < length syntax.now.tree.now.nodes.items) list.now }
    requires at { at < length syntax.now.tree.now.nodes.items }
    ensures ready { IsReady unit.new }
    ensures builds { Builds unit.old unit.new }
    ensures made { let sense = sense_in (senses_made unit.old results.now) in
        IfOk result (λ t. type_in unit.new.types t ≡ type_of_internal (source_read syntax.now) sense at list.now) }
    ensures within { IfOk result (λ t. IfSome t (λ id. id.0 < length unit.new.types.terms)) }
    ensures memory { IsOkUnless result CheckFault.OutOfMemory }
{
    if is_defined(syntax, at) {
        return own_type(alloc, unit, syntax, results, at);
    }
    let found = types_together(alloc, unit, syntax, results, list)?;
    with_one(unit, found)
}

/// The type of the object or function that a leaf declares: of an internal name that of its definition as a function, else the type
/// that all its declarations give together, where an array without a length gets one element (C11 6.2.7p4, 6.9.2p5); of any other
/// name that of its own declaration. None where none is made. `internal` says whether the name has internal linkage. Only memory may want.
pub(crate) fn entity_type(
    alloc: Global,
    unit: &mut Unit,
    names: &Names,
    lists: &SymbolLists,
    syntax: &Syntax,
    results: &Results,
    internal: bool,
    leaf: u32,
) -> Result<Option<TypeId>, CheckFault>
    requires ready { IsReady unit.old }
    requires results { All (IsWithin unit.old) results.now }
    requires names { AreNamed syntax.now results.now names.now }
    requires lists { AreOf (source_read syntax.now).declared.ordinary lists.now }
    requires internal { (u : UnitSpec) (uses : List (ℕ × ℕ)) →
        internal ≡ spec.is_internal (source_in syntax.now uses) (sense_in (senses_made u results.now)) leaf }
    requires leaf { leaf < length syntax.now.tree.now.nodes.items }
    ensures ready { IsReady unit.new }
    ensures builds { Builds unit.old unit.new }
    ensures made { IfOk result (λ t. (uses : List (ℕ × ℕ)) →
        type_in unit.new.types t ≡ right.entity_type (source_in syntax.now uses) (senses_made unit.old results.now) leaf) }
    ensures within { IfOk result (λ t. IfSome t (λ id. id.0 < length unit.new.types.terms)) }
    ensures memory { IsOkUnless result CheckFault.OutOfMemory }
{
    if !internal {
        return own_type(alloc, unit, syntax, results, leaf);
    }
    let list = of_internal(alloc, names, lists, syntax, results, leaf)?;
    let at = chosen(names, syntax, results, list.as_slice(), leaf);
    internal_type(alloc, unit, syntax, results, list.as_slice(), at)
}
