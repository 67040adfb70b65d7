// Declarations that give their name the same as another one does.
ghost use Rattle.std.specs.Prelude.{◌≡◌, ◌<◌, ◌||◌, ℕ, true, length, IfSome};
ghost use Rattle.core_tree.specs.declared.node.Unit.{Unit as UnitSpec};
ghost use Rattle.c_senses.specs.World.{World};
ghost use Rattle.c_senses.specs.Sense.{Sense, sense_in};
ghost use Rattle.c_senses.specs.Entities as spec;
ghost use Rattle.c_results.specs.Standing.{senses_made};
ghost use Rattle.tree_reads.specs.Sources.{source_read};
ghost use Rattle.c_meanings.specs.Thinned.{AreParts, AreMadeAlike, StaysAlike};

use crate::storage::has_initialiser;
use c_declarators::specs_of;
use c_entities::remembered_names::same_ids;
use c_entities::{initialiser_for, is_defined, is_parameter, length_given};
use c_results::{Derivation, Results, declarator_at, specified_at};
use tree_reads::{Above, Syntax, nearest_above};

// The nodes that give a name its type: its specifiers and its declarator, and its initialiser, if it has one.
#[derive(Clone, Copy)]
struct Parts {
    specifiers: u32,
    declarator: u32,
    initialiser: Option<u32>,
}

// Whether two steps of declarators are the same.
fn same_step(one: &Derivation, other: &Derivation) -> bool
    ensures { result ≡ true → one.now ≡ other.now }
{
    match one {
        Derivation::Pointing => matches!(other, Derivation::Pointing),
        Derivation::Elements(length) =>
            matches!(other, Derivation::Elements(there) if *there == *length),
        Derivation::Returning { parameters, form } => match other {
            Derivation::Returning {
                parameters: others,
                form: there,
            } => *form == *there && same_ids(parameters.as_slice(), others.as_slice()),
            _ => false,
        },
    }
}

// Whether the steps of two declarators are the same.
fn same_steps(one: &[Derivation], other: &[Derivation]) -> bool
    ensures { result ≡ true → one.now ≡ other.now }
{
    if one.len() != other.len() {
        return false;
    }
    for i in 0..one.len() {
        if !same_step(&one[i], &other[i]) {
            return false;
        }
    }
    true
}

// Whether a node is among those that have been made, if there is one.
fn is_made(results: &Results, node: Option<u32>) -> bool
    ensures { result ≡ true → IfSome node (λ i. i < length results.now) }
{
    match node {
        Some(i) => (i as usize) < results.len(),
        None => true,
    }
}

// The nodes that give a name its type, of a declaration that is no parameter; None too where they aren't made yet.
fn parts_of(syntax: &Syntax, results: &Results, leaf: u32) -> Option<Parts>
    requires { leaf < length syntax.now.tree.now.nodes.items }
    ensures { IfSome result (AreParts (source_read syntax.now) (length results.now) leaf) }
{
    if is_parameter(syntax, leaf) {
        return None;
    }
    let initialiser = initialiser_for(syntax, leaf);
    if !is_made(results, initialiser) {
        return None;
    }
    let declarator = nearest_above(syntax, Above::Outermost, leaf)?;
    let specifiers = specs_of(syntax, declarator)?;
    if declarator as usize >= results.len() {
        return None;
    }
    if specifiers as usize >= results.len() {
        return None;
    }
    Some(Parts {
        specifiers,
        declarator,
        initialiser,
    })
}

// Whether the same type and the same steps have been made for two declarations.
fn made_alike(results: &Results, one: Parts, other: Parts) -> bool
    ensures { result ≡ true → AreMadeAlike results.now one other }
{
    let Some(base) = specified_at(results, one.specifiers) else {
        return false;
    };
    let Some(second) = specified_at(results, other.specifiers) else {
        return false;
    };
    let Some((_, steps)) = declarator_at(results, one.declarator) else {
        return false;
    };
    let Some((_, others)) = declarator_at(results, other.declarator) else {
        return false;
    };
    base.0 == second.0 && same_steps(steps, others)
}

// Whether two lengths are the same, or both are missing.
fn same_length(first: Option<u64>, second: Option<u64>) -> bool
    ensures { result ≡ true → first ≡ second }
{
    first == second
}

// Whether the initialisers of two declarations have given the same length, or neither has given one.
fn same_lengths(syntax: &Syntax, results: &Results, one: u32, other: u32) -> bool
    requires one { one < length syntax.now.tree.now.nodes.items }
    requires other { other < length syntax.now.tree.now.nodes.items }
    ensures { result ≡ true → (u : UnitSpec) →
        let s = source_read syntax.now in
        let sense = sense_in (senses_made u results.now) in
        spec.length_given_by s sense (spec.initialiser_for s sense one)
        ≡ spec.length_given_by s sense (spec.initialiser_for s sense other) }
{
    let first = length_given(syntax, results, one);
    let second = length_given(syntax, results, other);
    same_length(first, second)
}

// Whether a declaration defines its name, by a body or by an initialiser.
fn defines(syntax: &Syntax, leaf: u32) -> bool
    requires { leaf < length syntax.now.tree.now.nodes.items }
    ensures { (w : World) (sense : ℕ → Sense) → result ≡ spec.defines w (source_read syntax.now) sense leaf }
{
    is_defined(syntax, leaf) || has_initialiser(syntax, leaf)
}

// Whether a declaration defines its name only where another one does.
fn defines_no_more(syntax: &Syntax, one: u32, other: u32) -> bool
    requires one { one < length syntax.now.tree.now.nodes.items }
    requires other { other < length syntax.now.tree.now.nodes.items }
    ensures { result ≡ true → (w : World) (sense : ℕ → Sense) →
        let s = source_read syntax.now in
        (spec.defines w s sense one || spec.defines w s sense other) ≡ spec.defines w s sense one }
{
    defines(syntax, one) || !defines(syntax, other)
}

/// Whether a declaration gives its name for sure the type that another one gives it, whatever more is made, and defines it only where that
/// does.
pub(crate) fn is_alike(syntax: &Syntax, results: &Results, one: u32, other: u32) -> bool
    requires one { one < length syntax.now.tree.now.nodes.items }
    requires other { other < length syntax.now.tree.now.nodes.items }
    ensures { result ≡ true → StaysAlike syntax.now results.now one other }
{
    let Some(first) = parts_of(syntax, results, one) else {
        return false;
    };
    let Some(second) = parts_of(syntax, results, other) else {
        return false;
    };
    if !same_lengths(syntax, results, one, other) {
        return false;
    }
    defines_no_more(syntax, one, other) && made_alike(results, first, second)
}
