// Whether what is declared has a complete type (C11 6.7p7, 6.9.2p3).
ghost use Rattle.std.specs.Prelude.{◌≡◌, ◌<◌, ◌||◌, ℕ, List, length, get_or, false};
ghost use Rattle.core_tree.specs.declared.node.Unit.{Unit as UnitSpec};
ghost use Rattle.c_types.specs.Table.{type_of};
ghost use Rattle.c_senses.specs.Tree.{Source};
ghost use Rattle.c_senses.specs.World.{World};
ghost use Rattle.c_senses.specs.Sense.{Sense, sense_in};
ghost use Rattle.c_senses.specs.Entities as spec;
ghost use Rattle.core_nodes.specs.Standing.{Knows};
ghost use Rattle.c_results.specs.Standing.{senses_made};
ghost use Rattle.tree_reads.specs.Sources.{source_read, source_in};
ghost use Rattle.c_named.specs.Said.{IsSaid};
ghost use Rattle.c_named.specs.Completed.{AreCompleted, is_enough};

use crate::said::Said;
use c_entities::has_storage;
use c_results::Results;
use c_types::table::TypeTable;
use c_types::term::{Term, TypeId};
use core_nodes::sorts::has_size;
use core_tree::node::Unit;
use tree_reads::Syntax;

const WORD_EXTERN: u8 = 11;

// Whether some specifier completes a tag.
fn is_completed(completed: &[bool], tag: u32) -> bool
    ensures { result ≡ get_or completed.now tag false }
{
    match completed.get(tag as usize) {
        Some(flag) => *flag,
        None => false,
    }
}

// Whether a type is a structure or a union that is completed somewhere in the unit.
fn will_have_size(types: &TypeTable, completed: &[bool], ty: TypeId) -> bool
    requires { ty.0 < length types.now.terms }
    ensures { (w : World) (s : Source) (sense : ℕ → Sense) →
        AreCompleted w s sense completed.now → result ≡ spec.will_have_size w s sense (type_of types.now ty.0) }
{
    match types.term(ty) {
        Term::Structure(tag) => is_completed(completed, *tag),
        Term::Union(tag) => is_completed(completed, *tag),
        _ => false,
    }
}

// Whether an object of a type may be declared without a size: `void`, a structure or a union.
fn may_stay_open(types: &TypeTable, ty: TypeId) -> bool
    requires { ty.0 < length types.now.terms }
    ensures { (w : World) (s : Source) (sense : ℕ → Sense) →
        result ≡ spec.may_stay_open w s sense (type_of types.now ty.0) }
{
    match types.term(ty) {
        Term::Void => true,
        Term::Structure(_) => true,
        Term::Union(_) => true,
        _ => false,
    }
}

// Whether a type is an array without a length whose elements have a size.
fn element_has_size(unit: &Unit, ty: TypeId) -> bool
    requires { ty.0 < length unit.now.types.terms }
    ensures { (w : World) (s : Source) (sense : ℕ → Sense) →
        Knows w unit.now → result ≡ spec.element_has_size w s sense (type_of unit.now.types ty.0) }
{
    match unit.types.term(ty) {
        Term::Array { of, length: None } => has_size(unit, *of),
        _ => false,
    }
}

/// Whether one of two is so.
pub(crate) fn either(first: bool, second: bool) -> bool
    ensures { result ≡ (first || second) }
{
    first || second
}

/// Whether the type of a parameter of a function that is defined is complete (C11 6.7.6.3p4).
pub(crate) fn is_parameter_complete(unit: &Unit, completed: &[bool], ty: TypeId) -> bool
    requires { ty.0 < length unit.now.types.terms }
    ensures { (w : World) (s : Source) (sense : ℕ → Sense) →
        Knows w unit.now →
        AreCompleted w s sense completed.now → result ≡ spec.is_parameter_complete w s sense (type_of unit.now.types ty.0) }
{
    let sized = has_size(unit, ty);
    let later = will_have_size(&unit.types, completed, ty);
    either(sized, later)
}

// What is asked of a declaration whose name needs a complete type: what it declares, whether it has an initialiser, and what is
// known of its type.
#[derive(Clone, Copy)]
pub(crate) struct Completion {
    is_typedef: bool,
    is_function: bool,
    is_linked: bool,
    is_extern: bool,
    initialised: bool,
    sized: bool,
    element_sized: bool,
    later: bool,
    may_stay: bool,
}

// Whether that is enough.
fn is_enough(asked: Completion) -> bool
    ensures { result ≡ is_enough asked }
{
    asked.is_typedef
        || asked.is_function
        || asked.sized
        || (asked.element_sized && (asked.initialised || asked.is_linked))
        || asked.later
        || (asked.may_stay && asked.is_extern && !asked.initialised)
}

/// Whether what is declared has a complete type, as far as it needs one: typedef names and functions don't, and of an object it is
/// complete at the unit's end, or the object is only declared.
pub(crate) fn is_name_complete(
    unit: &Unit,
    syntax: &Syntax,
    results: &Results,
    said: &Said,
    completed: &[bool],
    initialised: bool,
    ty: TypeId,
    leaf: u32,
) -> bool
    requires ty { ty.0 < length unit.now.types.terms }
    requires leaf { leaf < length syntax.now.tree.now.nodes.items }
    ensures { (u : UnitSpec) (w : World) (uses : List (ℕ × ℕ)) →
        let s = source_in syntax.now uses in
        let sense = sense_in (senses_made u results.now) in
        Knows w unit.now →
        AreCompleted w s sense completed.now →
        IsSaid w s sense leaf said.now →
        result ≡ spec.is_name_complete w s sense initialised (type_of unit.now.types ty.0) leaf }
{
    is_enough(Completion {
        is_typedef: said.is_typedef,
        is_function: said.is_function,
        is_linked: said.is_linked,
        is_extern: has_storage(syntax, results, WORD_EXTERN, leaf),
        initialised,
        sized: has_size(unit, ty),
        element_sized: element_has_size(unit, ty),
        later: will_have_size(&unit.types, completed, ty),
        may_stay: may_stay_open(&unit.types, ty),
    })
}
