// The row of a declarator, by where it stands.
ghost use Rattle.std.specs.Prelude.{◌≡◌, ◌<◌, ◌||◌, not, ℕ, List, length, All, IfOk, IfSome, IsOkUnless, Some};
ghost use Rattle.core_tree.specs.declared.node.Unit.{Unit as UnitSpec};
ghost use Rattle.c_types.specs.Table.{type_of};
ghost use Rattle.c_senses.specs.World.{World};
ghost use Rattle.c_senses.specs.Sense.{sense_in};
ghost use Rattle.c_senses.specs.Declarators as declarators;
ghost use Rattle.c_senses.specs.Entities as spec;
ghost use Rattle.core_nodes.specs.Standing.{IsReady, Builds, Knows};
ghost use Rattle.c_results.specs.Standing.{senses_made, IsWithin};
ghost use Rattle.tree_reads.specs.Sources.{source_read, source_in};
ghost use Rattle.c_named.specs.Said.{IsSaid, IsSaidIn};
ghost use Rattle.c_named.specs.Completed.{AreCompleted};
ghost use Rattle.c_named.specs.Passing.{Passes};

use crate::completeness::is_parameter_complete;
use crate::named::{Declared, named_row};
use crate::said::Said;
use c_declarators::adjusted;
use c_grammar::productions::{FIELD, PARAMETER};
use c_results::Results;
use c_types::term::TypeId;
use core_nodes::CheckFault;
use core_tree::node::Unit;
use name_places::is_listed_parameter;
use std::alloc::Global;
use tree_reads::{Syntax, is_a};

// Whether a parameter may stand there, by whether a function is defined that has it and whether its type is complete.
fn may_stand(listed: bool, complete: bool) -> bool
    ensures { result ≡ (not listed || complete) }
{
    !listed || complete
}

// What is asked of a parameter with a name: in the list of a function that is defined it has a complete type (C11 6.7.6.3p4).
fn parameter_named(
    unit: &Unit,
    syntax: &Syntax,
    results: &Results,
    completed: &[bool],
    declared: Declared,
) -> Result<(), CheckFault>
    requires at { declared.at < length syntax.now.tree.now.nodes.items }
    requires ty { declared.ty.0 < length unit.now.types.terms }
    ensures { (u : UnitSpec) (w : World) (uses : List (ℕ × ℕ)) →
        let s = source_in syntax.now uses in
        let sense = sense_in (senses_made u results.now) in
        Knows w unit.now →
        AreCompleted w s sense completed.now →
        Passes result (spec.parameter_named w s sense declared.at declared.leaf (type_of unit.now.types declared.ty.0)) }
{
    let listed = is_listed_parameter(syntax, results, declared.at);
    let complete = is_parameter_complete(unit, completed, declared.ty);
    if !may_stand(listed, complete) {
        return Err(CheckFault::BadOperand(declared.leaf));
    }
    Ok(())
}

/// What is asked of the name that a declarator declares, by where the declarator stands: nothing of a member; of a parameter of a
/// function that is defined, and of each other name, what is said above. The type is the declarator's own.
pub(crate) fn by_place(
    alloc: Global,
    unit: &mut Unit,
    syntax: &Syntax,
    results: &Results,
    completed: &[bool],
    said: &Said,
    declared: Declared,
) -> Result<(), CheckFault>
    requires ready { IsReady unit.old }
    requires results { All (IsWithin unit.old) results.now }
    requires at { declared.at < length syntax.now.tree.now.nodes.items }
    requires leaf { declared.leaf < length syntax.now.tree.now.nodes.items }
    requires ty { declared.ty.0 < length unit.old.types.terms }
    requires said { IsSaidIn (length syntax.now.tree.now.nodes.items) said.now }
    ensures ready { IsReady unit.new }
    ensures builds { Builds unit.old unit.new }
    ensures row { (w : World) (uses : List (ℕ × ℕ)) →
        let s = source_in syntax.now uses in
        let sense = sense_in (senses_made unit.old results.now) in
        let t = type_of unit.old.types declared.ty.0 in
        Knows w unit.old →
        AreCompleted w s sense completed.now →
        IsSaid w s sense declared.leaf said.now →
        Passes result (spec.by_place w s sense declared.at declared.leaf t (declarators.adjusted t)) }
{
    let Some(parent) = syntax.parent_of(declared.at) else {
        return Ok(());
    };
    if is_a(syntax, FIELD, parent) {
        return Ok(());
    }
    if is_a(syntax, PARAMETER, parent) {
        let ty = adjusted(unit, declared.ty)?;
        let Declared { at, leaf, .. } = declared;
        return parameter_named(unit, syntax, results, completed, Declared { at, leaf, ty });
    }
    named_row(alloc, unit, syntax, results, completed, said, declared)
}
