// The types that the declarations of a name give together.
ghost use Rattle.std.specs.Prelude.{◌≡◌, ◌<◌, ℕ, List, All, length, IfOk, IfSome, IsOkUnless, None};
ghost use Rattle.c_senses.specs.Sense.{Sense, sense_in};
ghost use Rattle.c_senses.specs.Tree.{Source};
ghost use Rattle.c_senses.specs.Entities as spec;
ghost use Rattle.core_nodes.specs.Standing.{IsReady, Builds};
ghost use Rattle.c_results.specs.Standing.{senses_made, IsWithin};
ghost use Rattle.tree_reads.specs.Sources.{source_in};
ghost use Rattle.c_entities.specs.Types.{type_in};
ghost use Rattle.c_meanings.specs.Known.{AreChained, AreNames};
ghost use Rattle.c_meanings.specs.Linkages.{AreLinkages};
ghost use Rattle.c_meanings.specs.Joined as joined;

use crate::earlier::typing_thinned;
use crate::kept::Linkages;
use crate::names::Names;
use c_entities::{own_type, together};
use c_results::Results;
use c_scope::Declared;
use c_types::table::TypeTable;
use c_types::term::{Term, TypeId};
use core_nodes::CheckFault;
use core_tree::node::Unit;
use name_chains::{list_of, typing_link};
use std::alloc::Global;
use tree_reads::Syntax;

// The type that declarations give together with one more, of those that give one.
fn with_own(types: &TypeTable, so_far: Option<TypeId>, own: Option<TypeId>) -> Option<TypeId>
    requires so_far { IfSome so_far (λ t. t.0 < length types.now.terms) }
    requires own { IfSome own (λ t. t.0 < length types.now.terms) }
    ensures gives { type_in types.now result ≡ joined.with_own (type_in types.now so_far) (type_in types.now own) }
    ensures within { IfSome result (λ t. t.0 < length types.now.terms) }
{
    match own {
        None => so_far,
        Some(ty) => match so_far {
            None => Some(ty),
            Some(known) => Some(together(types, known, ty)),
        },
    }
}

// The type that declarations give together with that of a leaf.
fn one_more(
    alloc: Global,
    unit: &mut Unit,
    syntax: &Syntax,
    results: &Results,
    so_far: Option<TypeId>,
    leaf: u32,
) -> Result<Option<TypeId>, CheckFault>
    requires ready { IsReady unit.old }
    requires results { All (IsWithin unit.old) results.now }
    requires leaf { leaf < length syntax.now.tree.now.nodes.items }
    requires so_far { IfSome so_far (λ t. t.0 < length unit.old.types.terms) }
    ensures ready { IsReady unit.new }
    ensures builds { Builds unit.old unit.new }
    ensures made { IfOk result (λ t. (uses : List (ℕ × ℕ)) →
        type_in unit.new.types t
        ≡ joined.with_own (type_in unit.old.types so_far)
        (spec.own_type (source_in syntax.now uses) (sense_in (senses_made unit.old results.now)) leaf)) }
    ensures within { IfOk result (λ t. IfSome t (λ id. id.0 < length unit.new.types.terms)) }
    ensures memory { IsOkUnless result CheckFault.OutOfMemory }
{
    let own = own_type(alloc, unit, syntax, results, leaf)?;
    Ok(with_own(&unit.types, so_far, own))
}

// The type that some declarations give together, behind one that is known, if one is.
fn all_of(
    alloc: Global,
    unit: &mut Unit,
    syntax: &Syntax,
    results: &Results,
    before: Option<TypeId>,
    list: &[Declared],
) -> Result<Option<TypeId>, CheckFault>
    requires ready { IsReady unit.old }
    requires results { All (IsWithin unit.old) results.now }
    requires before { IfSome before (λ t. t.0 < length unit.old.types.terms) }
    requires leaves { All (λ d. d.node < length syntax.now.tree.now.nodes.items) list.now }
    ensures ready { IsReady unit.new }
    ensures builds { Builds unit.old unit.new }
    ensures made { IfOk result (λ t. (uses : List (ℕ × ℕ)) →
        let s = source_in syntax.now uses in
        let sense = sense_in (senses_made unit.old results.now) in
        type_in unit.new.types t ≡ spec.all_together (type_in unit.old.types before) (spec.types_of s sense list.now)) }
    ensures within { IfOk result (λ t. IfSome t (λ id. id.0 < length unit.new.types.terms)) }
    ensures memory { IsOkUnless result CheckFault.OutOfMemory }
{
    let mut so_far = before;
    for declared in list {
        so_far = one_more(alloc, unit, syntax, results, so_far, declared.node)?;
    }
    Ok(so_far)
}

/// The type of a declared name behind its declaration (C11 6.2.7p4): of one with linkage the type that the declarations of it that are
/// seen there give together. None where none of them has one yet. Only memory may want.
pub(crate) fn type_behind(
    alloc: Global,
    unit: &mut Unit,
    syntax: &Syntax,
    names: &Names,
    results: &Results,
    leaf: u32,
) -> Result<Option<TypeId>, CheckFault>
    requires ready { IsReady unit.old }
    requires results { All (IsWithin unit.old) results.now }
    requires names { AreNames syntax.now unit.old results.now names.now }
    ensures ready { IsReady unit.new }
    ensures builds { Builds unit.old unit.new }
    ensures made { IfOk result (λ t. (uses : List (ℕ × ℕ)) →
        type_in unit.new.types t ≡ spec.type_behind (source_in syntax.now uses) (sense_in (senses_made unit.old results.now)) leaf) }
    ensures within { IfOk result (λ t. IfSome t (λ id. id.0 < length unit.new.types.terms)) }
    ensures memory { IsOkUnless result CheckFault.OutOfMemory }
{
    let link = typing_link(&names.chains, leaf);
    let Ok(list) = list_of(alloc, names.chains.links.as_slice(), link) else {
        return Err(CheckFault::OutOfMemory);
    };
    all_of(alloc, unit, syntax, results, None, list.as_slice())
}

/// The same with what is kept of earlier declarations. The contract says that the type is the same and that what is kept stays right, and
/// nothing of how often a declaration is looked at.
pub(crate) fn type_thinned(
    alloc: Global,
    unit: &mut Unit,
    syntax: &Syntax,
    names: &Names,
    results: &Results,
    linkages: &mut Linkages,
    leaf: u32,
) -> Result<Option<TypeId>, CheckFault>
    requires ready { IsReady unit.old }
    requires results { All (IsWithin unit.old) results.now }
    requires names { AreNames syntax.now unit.old results.now names.now }
    requires linkages { AreLinkages syntax.now results.now names.now linkages.old }
    ensures linkages { AreLinkages syntax.now results.now names.now linkages.new }
    ensures ready { IsReady unit.new }
    ensures builds { Builds unit.old unit.new }
    ensures made { IfOk result (λ t. (uses : List (ℕ × ℕ)) →
        type_in unit.new.types t ≡ spec.type_behind (source_in syntax.now uses) (sense_in (senses_made unit.old results.now)) leaf) }
    ensures within { IfOk result (λ t. IfSome t (λ id. id.0 < length unit.new.types.terms)) }
    ensures memory { IsOkUnless result CheckFault.OutOfMemory }
{
    match typing_thinned(alloc, names, syntax, results, linkages, leaf)? {
        Some(list) => all_of(alloc, unit, syntax, results, None, list.as_slice()),
        None => type_behind(alloc, unit, syntax, names, results, leaf),
    }
}

/// Whether a type is that of an array without a length, if there is one (C11 6.7.6.2p4).
pub(crate) fn is_open(types: &TypeTable, ty: Option<TypeId>) -> bool
    requires { IfSome ty (λ t. t.0 < length types.now.terms) }
    ensures { (s : Source) (sense : ℕ → Sense) → result ≡ spec.is_open s sense (type_in types.now ty) }
{
    let Some(id) = ty else {
        return false;
    };
    match types.term(id) {
        Term::Array { length, .. } => length.is_none(),
        _ => false,
    }
}
