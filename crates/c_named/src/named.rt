// The row of a declarator, at the name that it declares.
ghost use Rattle.std.specs.Prelude.{◌≡◌, ◌<◌, ℕ, List, length, All, IfOk, IsOkUnless};
ghost use Rattle.core_tree.specs.declared.node.Unit.{Unit as UnitSpec};
ghost use Rattle.c_types.specs.Table.{type_of};
ghost use Rattle.c_senses.specs.World.{World};
ghost use Rattle.c_senses.specs.Sense.{sense_in};
ghost use Rattle.c_senses.specs.Entities as spec;
ghost use Rattle.core_nodes.specs.Standing.{IsReady, Builds, Knows};
ghost use Rattle.c_results.specs.Standing.{senses_made, IsWithin};
ghost use Rattle.tree_reads.specs.Sources.{source_read, source_in};
ghost use Rattle.c_named.specs.Said.{IsSaid, IsSaidIn};
ghost use Rattle.c_named.specs.Completed.{AreCompleted};
ghost use Rattle.c_named.specs.Passing.{Passes};
ghost use Rattle.c_named.specs.Named.{agrees_before};

use crate::again::is_same_again;
use crate::completeness::{either, is_name_complete};
use crate::definitions::definition_row;
use crate::internal::internal_fits;
use crate::said::Said;
use crate::words::words_go;
use c_entities::{initialiser_of, is_defined};
use c_results::Results;
use c_types::term::TypeId;
use core_nodes::CheckFault;
use core_tree::node::Unit;
use std::alloc::Global;
use tree_reads::Syntax;

/// A declarator, the name that it declares, and the type that it gives it.
#[derive(Clone, Copy)]
pub(crate) struct Declared {
    pub(crate) at: u32,
    pub(crate) leaf: u32,
    pub(crate) ty: TypeId,
}

// Whether a declaration agrees with those of its name before it: a typedef name is that of the same type, the linkage is the same,
// and a name with internal linkage has one type and one definition.
fn agrees_before(
    alloc: Global,
    unit: &mut Unit,
    syntax: &Syntax,
    results: &Results,
    said: &Said,
    defined: bool,
    ty: TypeId,
) -> Result<bool, CheckFault>
    requires ready { IsReady unit.old }
    requires results { All (IsWithin unit.old) results.now }
    requires ty { ty.0 < length unit.old.types.terms }
    requires said { IsSaidIn (length syntax.now.tree.now.nodes.items) said.now }
    ensures ready { IsReady unit.new }
    ensures builds { Builds unit.old unit.new }
    ensures agrees { (w : World) (uses : List (ℕ × ℕ)) (leaf : ℕ) →
        let s = source_in syntax.now uses in
        let sense = sense_in (senses_made unit.old results.now) in
        IsSaid w s sense leaf said.now →
        IfOk result (λ b. b ≡ agrees_before w s sense defined (type_of unit.old.types ty.0) leaf) }
    ensures memory { IsOkUnless result CheckFault.OutOfMemory }
{
    if !said.one_linkage {
        return Ok(false);
    }
    if !is_same_again(alloc, unit, syntax, results, said, ty)? {
        return Ok(false);
    }
    internal_fits(alloc, unit, syntax, results, said, defined, ty)
}

/// What is asked of a declared name with a type (C11 6.2.2p7, 6.7, 6.9.1): all is `operand` at the name, but for the definitions of
/// functions that aren't taken.
pub(crate) fn named_row(
    alloc: Global,
    unit: &mut Unit,
    syntax: &Syntax,
    results: &Results,
    completed: &[bool],
    said: &Said,
    declared: Declared,
) -> Result<(), CheckFault>
    requires ready { IsReady unit.old }
    requires results { All (IsWithin unit.old) results.now }
    requires at { declared.at < length syntax.now.tree.now.nodes.items }
    requires leaf { declared.leaf < length syntax.now.tree.now.nodes.items }
    requires ty { declared.ty.0 < length unit.old.types.terms }
    requires said { IsSaidIn (length syntax.now.tree.now.nodes.items) said.now }
    ensures ready { IsReady unit.new }
    ensures builds { Builds unit.old unit.new }
    ensures row { (w : World) (uses : List (ℕ × ℕ)) →
        let s = source_in syntax.now uses in
        let sense = sense_in (senses_made unit.old results.now) in
        Knows w unit.old →
        AreCompleted w s sense completed.now →
        IsSaid w s sense declared.leaf said.now →
        Passes result (spec.named_row w s sense declared.at declared.leaf (type_of unit.old.types declared.ty.0)) }
{
    let Declared { at, leaf, ty } = declared;
    let initialised = initialiser_of(syntax, at).is_some();
    if !words_go(syntax, results, said, initialised, leaf) {
        return Err(CheckFault::BadOperand(leaf));
    }
    let body = is_defined(syntax, leaf);
    let defined = either(initialised, body);
    if !agrees_before(alloc, unit, syntax, results, said, defined, ty)? {
        return Err(CheckFault::BadOperand(leaf));
    }
    if !is_name_complete(
        unit,
        syntax,
        results,
        said,
        completed,
        initialised,
        ty,
        leaf,
    ) {
        return Err(CheckFault::BadOperand(leaf));
    }
    definition_row(unit, syntax, results, leaf, ty)
}
