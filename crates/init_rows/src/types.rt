// The types that objects are declared with (C11 6.7.6).
ghost use Rattle.std.specs.Prelude.{◌≡◌, ◌<◌, ◌&&◌, true, length, All, IfOk, IfSome, IsOkUnless, Some};
ghost use Rattle.c_types.specs.Trees.{Ctype};
ghost use Rattle.c_types.specs.Table.{type_of, extent_in};
ghost use Rattle.c_senses.specs.World.{World};
ghost use Rattle.c_senses.specs.Sense.{sense_in};
ghost use Rattle.c_senses.specs.Limits as limits;
ghost use Rattle.c_senses.specs.Declarators as declarators;
ghost use Rattle.c_senses.specs.Entities as spec;
ghost use Rattle.core_nodes.specs.Standing.{IsReady, Builds, Knows};
ghost use Rattle.c_results.specs.Standing.{senses_made, derivation_seen, derivations_seen, IsDerivable, IsWithin};
ghost use Rattle.c_declarators.specs.Limited.{AreLimited, parameters_limited, small_once};
ghost use Rattle.tree_reads.specs.Sources.{source_read};
ghost use Rattle.init_rows.specs.Types.{IsDeclaredIn, IsJudged};

use c_declarators::{derived_once, specs_of};
use c_results::{Derivation, Results, declarator_at, specified_at};
use c_types::term::TypeId;
use core_nodes::CheckFault;
use core_tree::node::Unit;
use std::alloc::Global;
use tree_reads::{Above, Syntax, nearest_above};

/// The type that an object is declared with, and whether it is within the limits: each type of which it is made has no size, or one
/// below 2^63 and at most 2^24 nodes.
#[derive(Clone, Copy)]
pub(crate) struct Declared {
    pub ty: TypeId,
    pub limited: bool,
}

/// Whether a type has no size, or one below 2^63 and at most 2^24 nodes.
pub(crate) fn is_small(unit: &Unit, ty: TypeId) -> bool
    requires { ty.0 < length unit.now.types.terms }
    ensures { result ≡ limits.is_small (extent_in unit.now.types (type_of unit.now.types ty.0)) }
{
    unit.types.align_of(ty).is_none()
        || (unit.types.size_of(ty).is_some() && unit.types.nodes(ty).is_some())
}

// Whether a type that a derivation made is small.
fn stays_small(unit: &Unit, derivation: &Derivation, made: TypeId) -> bool
    requires { made.0 < length unit.now.types.terms }
    ensures { (w : World) (t : Ctype) →
        Knows w unit.now →
        type_of unit.now.types made.0 ≡ declarators.derived_once (derivation_seen unit.now.types derivation.now) t →
        result ≡ small_once w (derivation_seen unit.now.types derivation.now) t }
{
    match derivation {
        Derivation::Elements(_) => is_small(unit, made),
        Derivation::Pointing => true,
        Derivation::Returning { .. } => true,
    }
}

/// Whether two things are so.
pub(crate) fn both(first: bool, second: bool) -> bool
    ensures { result ≡ (first && second) }
{
    first && second
}

// A type with derivations more, from the outside in.
fn derived_type(
    alloc: Global,
    unit: &mut Unit,
    derivations: &[Derivation],
    base: TypeId,
) -> Result<Declared, CheckFault>
    requires ready { IsReady unit.old }
    requires derivations { All (IsDerivable unit.old.types) derivations.now }
    requires base { base.0 < length unit.old.types.terms }
    ensures ready { IsReady unit.new }
    ensures builds { Builds unit.old unit.new }
    ensures made { IfOk result (λ d.
        type_of unit.new.types d.ty.0
        ≡ declarators.derived (derivations_seen unit.old.types derivations.now) (type_of unit.old.types base.0)) }
    ensures limited { (w : World) →
        Knows w unit.old →
        limits.within_limits w (type_of unit.old.types base.0) ≡ true →
        All (λ d. parameters_limited w d ≡ true) (derivations_seen unit.old.types derivations.now) →
        IfOk result (λ d. d.limited ≡ limits.within_limits w (type_of unit.new.types d.ty.0)) }
    ensures within { IfOk result (λ d. d.ty.0 < length unit.new.types.terms) }
    ensures memory { IsOkUnless result CheckFault.OutOfMemory }
{
    let mut made = base;
    let mut limited = true;
    for derivation in derivations {
        made = match derived_once(alloc, unit, derivation, made) {
            Ok(more) => more,
            Err(_) => return Err(CheckFault::OutOfMemory),
        };
        let small = stays_small(unit, derivation, made);
        limited = both(limited, small);
    }
    Ok(Declared { ty: made, limited })
}

/// The type that specifiers and a declarator give the name that a leaf declares, without what an initialiser adds; None where they
/// aren't made. Only memory may want.
pub(crate) fn declared_type(
    alloc: Global,
    unit: &mut Unit,
    syntax: &Syntax,
    results: &Results,
    declarator: u32,
    leaf: u32,
) -> Result<Option<Declared>, CheckFault>
    requires ready { IsReady unit.old }
    requires results { All (IsWithin unit.old) results.now }
    requires leaf { leaf < length syntax.now.tree.now.nodes.items }
    ensures ready { IsReady unit.new }
    ensures builds { Builds unit.old unit.new }
    ensures made { let s = source_read syntax.now in
        let sense = sense_in (senses_made unit.old results.now) in
        IfOk result (λ o. IsDeclaredIn unit.new.types o (spec.derived_type s sense (spec.specified_of s sense leaf) (Some declarator))) }
    ensures limited { (w : World) →
        Knows w unit.old → AreLimited w (senses_made unit.old results.now) → IfOk result (IsJudged w unit.new.types) }
    ensures within { IfOk result (λ o. IfSome o (λ d. d.ty.0 < length unit.new.types.terms)) }
    ensures memory { IsOkUnless result CheckFault.OutOfMemory }
{
    let Some(outermost) = nearest_above(syntax, Above::Outermost, leaf) else {
        return Ok(None);
    };
    let Some(specifiers) = specs_of(syntax, outermost) else {
        return Ok(None);
    };
    let Some(base) = specified_at(results, specifiers) else {
        return Ok(None);
    };
    let Some((_, steps)) = declarator_at(results, declarator) else {
        return Ok(None);
    };
    match derived_type(alloc, unit, steps, base) {
        Ok(declared) => Ok(Some(declared)),
        Err(_) => Err(CheckFault::OutOfMemory),
    }
}
