// Definitions of functions (C11 6.9.1).
ghost use Rattle.std.specs.Prelude.{◌≡◌, ◌<◌, ◌||◌, ◌&&◌, not, ℕ, List, length};
ghost use Rattle.c_grammar.specs.Words.{word_inline, word_static};
ghost use Rattle.core_tree.specs.declared.node.Unit.{Unit as UnitSpec};
ghost use Rattle.c_types.specs.Table.{type_of};
ghost use Rattle.c_senses.specs.Tree.{Source};
ghost use Rattle.c_senses.specs.World.{World};
ghost use Rattle.c_senses.specs.World as world;
ghost use Rattle.c_senses.specs.Sense.{Sense, sense_in};
ghost use Rattle.c_senses.specs.Entities as spec;
ghost use Rattle.core_nodes.specs.Standing.{Knows};
ghost use Rattle.c_results.specs.Standing.{senses_made};
ghost use Rattle.tree_reads.specs.Sources.{source_read, source_in};
ghost use Rattle.c_named.specs.Passing.{Passes};

use crate::completeness::either;
use c_entities::{has_function_word, has_storage, is_defined};
use c_results::Results;
use c_types::table::TypeTable;
use c_types::term::{Term, TypeId};
use core_nodes::CheckFault;
use core_nodes::sorts::has_size;
use core_tree::node::Unit;
use name_places::result_of;
use pta_base::Kind;
use tree_reads::Syntax;

const WORD_INLINE: u8 = 16;

const WORD_STATIC: u8 = 25;

// Whether a type is `void`.
fn is_void_type(types: &TypeTable, ty: TypeId) -> bool
    requires { ty.0 < length types.now.terms }
    ensures { (w : World) (s : Source) (sense : ℕ → Sense) →
        result ≡ spec.is_void_type w s sense (type_of types.now ty.0) }
{
    match types.term(ty) {
        Term::Void => true,
        _ => false,
    }
}

// Whether the first is so and the second isn't.
fn without(first: bool, second: bool) -> bool
    ensures { result ≡ (first && not second) }
{
    first && !second
}

// Whether a function of a type may be defined as far as its result goes: it is `void`, or has a size.
fn result_fits(unit: &Unit, ty: TypeId) -> bool
    requires { ty.0 < length unit.now.types.terms }
    ensures { (w : World) (s : Source) (sense : ℕ → Sense) →
        Knows w unit.now →
        let t = spec.result_of w s sense (type_of unit.now.types ty.0) in
        result ≡ (spec.is_void_type w s sense t || world.has_size w t) }
{
    let given = result_of(&unit.types, ty);
    let void = is_void_type(&unit.types, given);
    let sized = has_size(unit, given);
    either(void, sized)
}

// Whether a name is declared `inline` and not `static`.
fn is_inline_alone(syntax: &Syntax, results: &Results, leaf: u32) -> bool
    requires { leaf < length syntax.now.tree.now.nodes.items }
    ensures { (u : UnitSpec) →
        let s = source_read syntax.now in
        let sense = sense_in (senses_made u results.now) in
        result
        ≡ (spec.has_function_word s sense word_inline leaf && not (spec.has_storage s sense word_static leaf)) }
{
    let inline = has_function_word(syntax, results, WORD_INLINE, leaf);
    let is_static = has_storage(syntax, results, WORD_STATIC, leaf);
    without(inline, is_static)
}

/// What is asked of a function that is defined (C11 6.9.1p3): its result is `void` or complete, which is `operand` at its name else.
/// A definition that is `inline` and not `static` isn't taken.
pub(crate) fn definition_row(
    unit: &Unit,
    syntax: &Syntax,
    results: &Results,
    leaf: u32,
    ty: TypeId,
) -> Result<(), CheckFault>
    requires leaf { leaf < length syntax.now.tree.now.nodes.items }
    requires ty { ty.0 < length unit.now.types.terms }
    ensures { (u : UnitSpec) (w : World) (uses : List (ℕ × ℕ)) →
        Knows w unit.now →
        Passes result
        (spec.definition_row w (source_in syntax.now uses) (sense_in (senses_made u results.now)) (type_of unit.now.types ty.0) leaf) }
{
    if !is_defined(syntax, leaf) {
        return Ok(());
    }
    if !result_fits(unit, ty) {
        return Err(CheckFault::BadOperand(leaf));
    }
    if is_inline_alone(syntax, results, leaf) {
        return Err(CheckFault::Unsupported(Kind::InlineDefinition, leaf));
    }
    Ok(())
}
