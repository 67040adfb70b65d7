// Names with internal linkage (C11 6.2.2, 6.2.7, 6.9p3, 6.9.2).
ghost use Rattle.std.specs.Prelude.{◌≡◌, ◌<◌, ◌||◌, ◌&&◌, not, is_some, ℕ, List, length, All, IfOk, IfSome, IsOkUnless};
ghost use Rattle.core_tree.specs.declared.node.Unit.{Unit as UnitSpec};
ghost use Rattle.c_types.specs.Table.{type_of};
ghost use Rattle.c_senses.specs.Tree.{Source};
ghost use Rattle.c_senses.specs.World.{World};
ghost use Rattle.c_senses.specs.Sense.{Sense, sense_in};
ghost use Rattle.c_senses.specs.Entities as spec;
ghost use Rattle.core_nodes.specs.Standing.{IsReady, Builds};
ghost use Rattle.c_results.specs.Standing.{senses_made, IsWithin};
ghost use Rattle.tree_reads.specs.Sources.{source_read, source_in};
ghost use Rattle.c_entities.specs.Types.{type_in};
ghost use Rattle.c_named.specs.Said.{IsSaid, IsSaidIn};
ghost use Rattle.c_named.specs.Lists as lists;

use crate::again::types_together;
use crate::completeness::either;
use crate::said::Said;
use c_entities::{agree, initialiser_for, is_defined};
use c_results::Results;
use c_types::table::TypeTable;
use c_types::term::TypeId;
use core_nodes::CheckFault;
use core_tree::node::Unit;
use std::alloc::Global;
use tree_reads::Syntax;

// Whether a name has an initialiser.
fn has_initialiser(syntax: &Syntax, leaf: u32) -> bool
    requires { leaf < length syntax.now.tree.now.nodes.items }
    ensures { (sense : ℕ → Sense) → result ≡ is_some (spec.initialiser_for (source_read syntax.now) sense leaf) }
{
    match initialiser_for(syntax, leaf) {
        Some(_) => true,
        None => false,
    }
}

// Whether a declaration defines its name: it has a body or an initialiser.
fn defines(syntax: &Syntax, leaf: u32) -> bool
    requires { leaf < length syntax.now.tree.now.nodes.items }
    ensures { (sense : ℕ → Sense) → result ≡ lists.defines_at (source_read syntax.now) sense leaf }
{
    let body = is_defined(syntax, leaf);
    let initialised = has_initialiser(syntax, leaf);
    either(body, initialised)
}

// Whether one of some declarations defines its name.
fn some_defines(syntax: &Syntax, leaves: &[u32]) -> bool
    requires { All (λ leaf. leaf < length syntax.now.tree.now.nodes.items) leaves.now }
    ensures { (sense : ℕ → Sense) → result ≡ lists.some_defines (source_read syntax.now) sense leaves.now }
{
    for leaf in leaves {
        if defines(syntax, *leaf) {
            return true;
        }
    }
    false
}

// Whether a type agrees with the one before, if there is one.
fn agrees_with(types: &TypeTable, ty: TypeId, before: Option<TypeId>) -> bool
    requires ty { ty.0 < length types.now.terms }
    requires before { IfSome before (λ t. t.0 < length types.now.terms) }
    ensures { (w : World) (s : Source) (sense : ℕ → Sense) →
        result ≡ spec.agrees_with w s sense (type_of types.now ty.0) (type_in types.now before) }
{
    match before {
        Some(known) => agree(types, known, ty),
        None => true,
    }
}

// Whether a name is defined once, by whether it is defined here and whether it was before.
fn is_once(defined: bool, again: bool) -> bool
    ensures { result ≡ not (defined && again) }
{
    !(defined && again)
}

/// Whether a declaration of a name with internal linkage agrees with those before it, and defines it only once (C11 6.2.7p2,
/// 6.9p3). `defined` says whether it has a body or an initialiser. Only memory may want.
pub(crate) fn internal_fits(
    alloc: Global,
    unit: &mut Unit,
    syntax: &Syntax,
    results: &Results,
    said: &Said,
    defined: bool,
    ty: TypeId,
) -> Result<bool, CheckFault>
    requires ready { IsReady unit.old }
    requires results { All (IsWithin unit.old) results.now }
    requires ty { ty.0 < length unit.old.types.terms }
    requires said { IsSaidIn (length syntax.now.tree.now.nodes.items) said.now }
    ensures ready { IsReady unit.new }
    ensures builds { Builds unit.old unit.new }
    ensures fits { (w : World) (uses : List (ℕ × ℕ)) (leaf : ℕ) →
        let s = source_in syntax.now uses in
        let sense = sense_in (senses_made unit.old results.now) in
        IsSaid w s sense leaf said.now →
        IfOk result (λ b. b ≡ spec.internal_fits w s sense defined (type_of unit.old.types ty.0) leaf) }
    ensures memory { IsOkUnless result CheckFault.OutOfMemory }
{
    if !said.is_internal {
        return Ok(true);
    }
    let leaves = said.internal_before.as_slice();
    let before = types_together(alloc, unit, syntax, results, leaves)?;
    if !agrees_with(&unit.types, ty, before) {
        return Ok(false);
    }
    let again = some_defines(syntax, leaves);
    Ok(is_once(defined, again))
}
