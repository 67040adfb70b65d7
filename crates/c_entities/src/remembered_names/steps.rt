// What a declaration's own type is made of, whatever more is made.
ghost use Rattle.std.specs.Prelude.{◌≡◌, ◌<◌, ◌++◌, ℕ, List, length, true, false, None, IfSome};
ghost use Rattle.core_tree.specs.declared.node.Unit.{Unit as UnitSpec};
ghost use Rattle.core_nodes.specs.passed.c_senses.Sense.{Sense};
ghost use Rattle.core_nodes.specs.passed.c_senses.Entities as spec;
ghost use Rattle.c_results.specs.declared.made.Made.{Made as MadeSpec};
ghost use Rattle.c_results.specs.Standing.{sense_made};
ghost use Rattle.c_entities.specs.Words.{length_in};
ghost use Rattle.tree_reads.specs.Sources.{source_read};
ghost use Rattle.c_entities.specs.remembered_names.Steps.{StaysTyped, StaysPlain, IsParameterLeaf};

use crate::{declaration_of, initialiser_for, is_parameter};
use c_declarators::specs_of;
use c_results::{Made, Results, made_at, parameter_at, specified_at};
use c_types::term::TypeId;
use tree_reads::{Above, Syntax, nearest_above};

/// What the type that a declaration gives its name is made of (C11 6.7.6): the steps of a declarator, by its node, over a type; or that
/// type itself.
#[derive(Clone, Copy, Debug)]
pub struct TypeSteps {
    pub base: TypeId,
    pub declarator: Option<u32>,
}

// Whether an initialiser that has been made gives an array no length.
fn lacks_length(made: &Made) -> bool
    ensures { result ≡ true → (u : UnitSpec) → length_in (sense_made u made.now) ≡ None }
{
    match made {
        Made::Initial { length, .. } => length.is_none(),
        _ => true,
    }
}

// Whether a name has no initialiser, or one that is made and gives it no length.
fn is_plain(syntax: &Syntax, results: &Results, leaf: u32) -> bool
    requires { leaf < length syntax.now.tree.now.nodes.items }
    ensures { result ≡ true → StaysPlain syntax.now results.now leaf }
{
    let Some(initialiser) = initialiser_for(syntax, leaf) else {
        return true;
    };
    if initialiser as usize >= results.len() {
        return false;
    }
    match made_at(results, initialiser) {
        Some(made) => lacks_length(made),
        None => false,
    }
}

// The type of a parameter that is made.
fn of_parameter(syntax: &Syntax, results: &Results, leaf: u32) -> Option<TypeSteps>
    requires leaf { leaf < length syntax.now.tree.now.nodes.items }
    requires parameter { IsParameterLeaf syntax.now leaf }
    ensures { IfSome result (StaysTyped syntax.now results.now leaf) }
{
    let declaration = declaration_of(syntax, leaf)?;
    if declaration as usize >= results.len() {
        return None;
    }
    let (_, base) = parameter_at(results, declaration)?;
    Some(TypeSteps {
        base,
        declarator: None,
    })
}

// The type of specifiers and the declarator of a name that is no parameter, where both are made.
fn of_declarator(syntax: &Syntax, results: &Results, leaf: u32) -> Option<TypeSteps>
    requires leaf { leaf < length syntax.now.tree.now.nodes.items }
    requires other { (sense : ℕ → Sense) → spec.is_parameter (source_read syntax.now) sense leaf ≡ false }
    requires plain { StaysPlain syntax.now results.now leaf }
    ensures { IfSome result (StaysTyped syntax.now results.now leaf) }
{
    let declarator = nearest_above(syntax, Above::Outermost, leaf)?;
    let specifiers = specs_of(syntax, declarator)?;
    if declarator as usize >= results.len() {
        return None;
    }
    if specifiers as usize >= results.len() {
        return None;
    }
    let base = specified_at(results, specifiers)?;
    Some(TypeSteps {
        base,
        declarator: Some(declarator),
    })
}

/// What the own type of a declaration is made of, whatever more is made; None where that isn't for sure yet, and where an initialiser
/// gives an array its length (C11 6.7.9p22).
pub fn steps_of(syntax: &Syntax, results: &Results, leaf: u32) -> Option<TypeSteps>
    requires leaf { leaf < length syntax.now.tree.now.nodes.items }
    ensures { IfSome result (StaysTyped syntax.now results.now leaf) }
{
    if is_parameter(syntax, leaf) {
        return of_parameter(syntax, results, leaf);
    }
    if is_plain(syntax, results, leaf) {
        of_declarator(syntax, results, leaf)
    } else {
        None
    }
}
