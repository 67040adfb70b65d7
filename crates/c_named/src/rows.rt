// Rows of declarators.
ghost use Rattle.std.specs.Prelude.{◌≡◌, ◌<◌, ℕ, List, length, All, IfOk, IfSome, IsOkUnless, Some};
ghost use Rattle.core_tree.specs.declared.node.Unit.{Unit as UnitSpec};
ghost use Rattle.c_types.specs.Table.{type_of};
ghost use Rattle.c_senses.specs.World.{World};
ghost use Rattle.c_senses.specs.Sense.{IsDeclarator, sense_in};
ghost use Rattle.c_senses.specs.Declarators as declarators;
ghost use Rattle.c_senses.specs.Rows as spec;
ghost use Rattle.core_nodes.specs.Standing.{IsReady, Builds, Knows};
ghost use Rattle.c_results.specs.Standing.{sense_made, senses_made, derivations_seen, IsWithin, IsDerivable, Rowed, TypeSeen};
ghost use Rattle.c_results.specs.Parts.{DeclaratorSeen, declarator_in};
ghost use Rattle.c_senses.specs.Given.{Fits};
ghost use Rattle.c_declarators.specs.Limited.{IsAround};
ghost use Rattle.tree_reads.specs.Sources.{source_read, source_in};
ghost use Rattle.name_places.specs.Named.{IsNamedIn};
ghost use Rattle.c_named.specs.Said.{IsSaid, IsSaidIn, AreSaid};
ghost use Rattle.c_named.specs.Completed.{AreCompleted};
ghost use Rattle.c_named.specs.Passing.{Passes};

use crate::named::Declared;
use crate::places::by_place;
use crate::said::Said;
use c_declarators::{derived, plain_declarator_row, specs_of};
use c_results::{Derivation, Made, Results, specified_at};
use c_types::term::TypeId;
use core_nodes::CheckFault;
use core_tree::node::Unit;
use name_places::name_in;
use std::alloc::Global;
use tree_reads::{Syntax, is_outermost};

/// What is known around the row of a declarator: which unions hold a structure that ends in an array without a length, and which
/// tags are completed somewhere in the unit, both by the numbers of tags; and what is said of the name that it declares.
#[derive(Clone, Copy)]
pub struct Around<'a> {
    pub unions: &'a [bool],
    pub completed: &'a [bool],
    pub said: &'a Said,
}

// The type of the specifiers before a declarator.
fn base_of(syntax: &Syntax, results: &Results, at: u32) -> Option<TypeId>
    requires { at < length syntax.now.tree.now.nodes.items }
    ensures seen { (u : UnitSpec) (w : World) →
        TypeSeen u result (declarators.base_type w (source_read syntax.now) (sense_in (senses_made u results.now)) at) }
    ensures within { (u : UnitSpec) → All (IsWithin u) results.now → IfSome result (λ t. t.0 < length u.types.terms) }
{
    match specs_of(syntax, at) {
        Some(specifiers) => specified_at(results, specifiers),
        None => None,
    }
}

// What is asked of a declarator with a name, once its own parts fit.
fn at_its_name(
    alloc: Global,
    unit: &mut Unit,
    syntax: &Syntax,
    results: &Results,
    around: &Around,
    at: u32,
    leaf: u32,
    derivations: &[Derivation],
) -> Result<(), CheckFault>
    requires ready { IsReady unit.old }
    requires results { All (IsWithin unit.old) results.now }
    requires at { at < length syntax.now.tree.now.nodes.items }
    requires leaf { leaf < length syntax.now.tree.now.nodes.items }
    requires derivations { All (IsDerivable unit.old.types) derivations.now }
    requires said { IsSaidIn (length syntax.now.tree.now.nodes.items) around.now.said.now }
    ensures ready { IsReady unit.new }
    ensures builds { Builds unit.old unit.new }
    ensures row { (w : World) (uses : List (ℕ × ℕ)) →
        let s = source_in syntax.now uses in
        let sense = sense_in (senses_made unit.old results.now) in
        Knows w unit.old →
        AreCompleted w s sense around.now.completed.now →
        IsSaid w s sense leaf around.now.said.now →
        Passes result (λ g.
        spec.at_its_name w s sense at g (declarators.base_type w s sense at)
        (IsDeclarator (Some leaf) (derivations_seen unit.old.types derivations.now))) }
{
    if !is_outermost(syntax, at) {
        return Ok(());
    }
    let Some(base) = base_of(syntax, results, at) else {
        return Ok(());
    };
    let ty = derived(alloc, unit, derivations, base)?;
    let declared = Declared { at, leaf, ty };
    by_place(
        alloc,
        unit,
        syntax,
        results,
        around.completed,
        around.said,
        declared,
    )
}

// The name and the derivations of a declarator, if that is what has been made.
fn declarator_made(made: &Made) -> Option<(Option<u32>, &[Derivation])>
    ensures seen { (u : UnitSpec) → DeclaratorSeen u result (declarator_in (sense_made u made.now)) }
    ensures within { (u : UnitSpec) → IsWithin u made.now → IfSome result (λ d. All (IsDerivable u.types) d.1.now) }
{
    match made {
        Made::Declarator { name, derivations } => Some((*name, derivations.as_slice())),
        Made::Nothing | Made::Node(_) | Made::Typed(_) | Made::Specifiers { .. } => None,
        Made::Derived(_) | Made::Parameter { .. } | Made::Members(_) => None,
        Made::Value(_) | Made::Run(_) | Made::Initial { .. } => None,
    }
}

// What is asked of a declarator whose own parts fit, by what has been made of it.
fn judged(
    alloc: Global,
    unit: &mut Unit,
    syntax: &Syntax,
    results: &Results,
    around: &Around,
    at: u32,
    children: &[u32],
    made: &Made,
) -> Result<(), CheckFault>
    requires ready { IsReady unit.old }
    requires results { All (IsWithin unit.old) results.now }
    requires names { All (IsNamedIn (length syntax.now.tree.now.nodes.items)) results.now }
    requires at { at < length syntax.now.tree.now.nodes.items }
    requires said { IsSaidIn (length syntax.now.tree.now.nodes.items) around.now.said.now }
    requires made { IsWithin unit.old made.now }
    ensures ready { IsReady unit.new }
    ensures builds { Builds unit.old unit.new }
    ensures named { (w : World) (uses : List (ℕ × ℕ)) →
        declarators.plain_declarator_row w (source_in syntax.now uses) (sense_in (senses_made unit.old results.now)) at
        children.now
        ≡ Fits (sense_made unit.old made.now) →
        IsNamedIn (length syntax.now.tree.now.nodes.items) made.now }
    ensures row { (w : World) (uses : List (ℕ × ℕ)) →
        let s = source_in syntax.now uses in
        let sense = sense_in (senses_made unit.old results.now) in
        Knows w unit.old →
        AreCompleted w s sense around.now.completed.now →
        AreSaid w s sense children.now around.now.said.now →
        declarators.plain_declarator_row w s sense at children.now ≡ Fits (sense_made unit.old made.now) →
        Passes result (λ g.
        spec.at_its_name w s sense at g (declarators.base_type w s sense at) (sense_made unit.old made.now)) }
{
    let Some(leaf) = name_in(syntax, results, children) else {
        return Ok(());
    };
    match declarator_made(made) {
        Some((_, steps)) => at_its_name(alloc, unit, syntax, results, around, at, leaf, steps),
        None => Ok(()),
    }
}

/// The row of a declarator (C11 6.7.6), with what its declaration may say of the name that it declares (6.2.2p7, 6.7, 6.9.1): what
/// doesn't fit is `operand` at the declarator by its parts, and at the name by its declaration; a function that is defined `inline`
/// and not `static`, or with `...`, isn't taken. `around.said` is what is said of the name, if the declarator has one.
pub fn declarator_row(
    alloc: Global,
    unit: &mut Unit,
    syntax: &Syntax,
    results: &Results,
    around: &Around,
    at: u32,
    children: &[u32],
) -> Result<Made, CheckFault>
    requires ready { IsReady unit.old }
    requires results { All (IsWithin unit.old) results.now }
    requires names { All (IsNamedIn (length syntax.now.tree.now.nodes.items)) results.now }
    requires at { at < length syntax.now.tree.now.nodes.items }
    requires said { IsSaidIn (length syntax.now.tree.now.nodes.items) around.now.said.now }
    ensures ready { IsReady unit.new }
    ensures builds { Builds unit.old unit.new }
    ensures within { IfOk result (IsWithin unit.new) }
    ensures named { (w : World) →
        IsAround w unit.old around.now.unions.now results.now →
        IfOk result (IsNamedIn (length syntax.now.tree.now.nodes.items)) }
    ensures row { (w : World) (uses : List (ℕ × ℕ)) →
        let s = source_in syntax.now uses in
        let sense = sense_in (senses_made unit.old results.now) in
        IsAround w unit.old around.now.unions.now results.now →
        AreCompleted w s sense around.now.completed.now →
        AreSaid w s sense children.now around.now.said.now →
        Rowed unit.new result (spec.declarator_row w s sense at children.now) }
{
    let made = match plain_declarator_row(
        alloc,
        unit,
        syntax,
        results,
        around.unions,
        at,
        children,
    ) {
        Ok(made) => made,
        Err(fault) => return Err(fault),
    };
    match judged(alloc, unit, syntax, results, around, at, children, &made) {
        Ok(()) => Ok(made),
        Err(fault) => Err(fault),
    }
}
