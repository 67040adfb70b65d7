// The list of parameters of the function that is defined (C11 6.7.6.3, 6.9.1).
ghost use Rattle.std.specs.Prelude.{◌≡◌, ◌<◌, ℕ, length, IfSome, option_and_then};
ghost use Rattle.core_tree.specs.declared.node.Unit.{Unit as UnitSpec};
ghost use Rattle.c_senses.specs.World.{World};
ghost use Rattle.c_senses.specs.Tree.{Source, parent_of};
ghost use Rattle.c_senses.specs.Sense.{Sense, sense_in};
ghost use Rattle.c_senses.specs.Declarators as spec;
ghost use Rattle.c_senses.specs.Entities.{defined_parameter, is_last_parameter, closes_list};
ghost use Rattle.c_results.specs.Standing.{derivations_seen, senses_made};
ghost use Rattle.tree_reads.specs.Sources.{source_read};
ghost use Rattle.c_entities.specs.PassedOn.{is_definition_of, no_steps};

use crate::levels::is_definition;
use crate::names::inner;
use c_grammar::productions::{PARAMETER, SUFFIX};
use c_results::{Derivation, Results};
use tree_reads::{Above, Syntax, Test, children_of, first_where, last_where, nearest_above};

// Whether there are no derivations.
fn has_none(steps: &[Derivation]) -> bool
    ensures { result ≡ no_steps steps.now }
{
    steps.is_empty()
}

// Whether the declarator within another one derives nothing, if there is one among some nodes.
fn derives_nothing(results: &Results, list: &[u32]) -> bool
    ensures { (u : UnitSpec) (w : World) (s : Source) →
        let sense = sense_in (senses_made u results.now) in
        result ≡ spec.derives_nothing w s sense (spec.inner_derivations w s sense list.now) }
{
    match inner(results, list) {
        Some((_, steps)) => has_none(steps),
        None => true,
    }
}

// Whether a suffix is the first of its declarator.
fn is_first_suffix(syntax: &Syntax, declarator: u32, node: u32) -> bool
    ensures { (w : World) (sense : ℕ → Sense) →
        result ≡ spec.is_first_suffix w (source_read syntax.now) sense declarator node }
{
    match first_where(syntax, Test::IsA(SUFFIX), children_of(syntax, declarator)) {
        Some(first) => first == node,
        None => false,
    }
}

// Whether a suffix stands next to the name of its declarator.
fn is_next_to_name(syntax: &Syntax, results: &Results, node: u32) -> bool
    requires { node < length syntax.now.tree.now.nodes.items }
    ensures { (u : UnitSpec) (w : World) →
        result ≡ spec.is_next_to_name w (source_read syntax.now) (sense_in (senses_made u results.now)) node }
{
    match syntax.parent_of(node) {
        Some(declarator) => {
            is_first_suffix(syntax, declarator, node)
                && derives_nothing(results, children_of(syntax, declarator))
        }
        None => false,
    }
}

// The node in which the declarators around a node stand.
fn behind_declarators(syntax: &Syntax, node: u32) -> Option<u32>
    requires { node < length syntax.now.tree.now.nodes.items }
    ensures { result ≡ spec.behind_declarators (source_read syntax.now) node }
{
    let outermost = nearest_above(syntax, Above::Outermost, node)?;
    syntax.parent_of(outermost)
}

// Whether the declarators around a node stand in the definition of a function.
fn stands_in_definition(syntax: &Syntax, node: u32) -> bool
    requires { node < length syntax.now.tree.now.nodes.items }
    ensures { (w : World) (sense : ℕ → Sense) →
        result
        ≡ is_definition_of w (source_read syntax.now) sense (spec.behind_declarators (source_read syntax.now) node) }
{
    match behind_declarators(syntax, node) {
        Some(there) => is_definition(syntax, there),
        None => false,
    }
}

/// Whether a suffix is the list of parameters of the function that is defined.
pub fn is_defined_list(syntax: &Syntax, results: &Results, node: u32) -> bool
    requires { node < length syntax.now.tree.now.nodes.items }
    ensures { (u : UnitSpec) (w : World) →
        result ≡ spec.is_defined_list w (source_read syntax.now) (sense_in (senses_made u results.now)) node }
{
    stands_in_definition(syntax, node) && is_next_to_name(syntax, results, node)
}

// Whether a parameter is the last one of its list.
fn is_last_parameter(syntax: &Syntax, list: u32, parameter: u32) -> bool
    ensures { (w : World) (sense : ℕ → Sense) →
        result ≡ is_last_parameter w (source_read syntax.now) sense list parameter }
{
    match last_where(syntax, Test::IsA(PARAMETER), children_of(syntax, list)) {
        Some(last) => last == parameter,
        None => false,
    }
}

/// Whether a parameter is the last one of the list of the function that is defined (C11 6.9.1, 7.16.1.4p4).
pub fn closes_list(syntax: &Syntax, results: &Results, parameter: u32) -> bool
    requires { parameter < length syntax.now.tree.now.nodes.items }
    ensures { (u : UnitSpec) (w : World) →
        result ≡ closes_list w (source_read syntax.now) (sense_in (senses_made u results.now)) parameter }
{
    match syntax.parent_of(parameter) {
        Some(list) => {
            is_defined_list(syntax, results, list) && is_last_parameter(syntax, list, parameter)
        }
        None => false,
    }
}

/// Whether a declarator is that of a parameter in the list of the function that is defined.
pub fn is_listed_parameter(syntax: &Syntax, results: &Results, at: u32) -> bool
    requires { at < length syntax.now.tree.now.nodes.items }
    ensures { (u : UnitSpec) (w : World) →
        result ≡ defined_parameter w (source_read syntax.now) (sense_in (senses_made u results.now)) at }
{
    let Some(parameter) = syntax.parent_of(at) else {
        return false;
    };
    match syntax.parent_of(parameter) {
        Some(suffix) => is_defined_list(syntax, results, suffix),
        None => false,
    }
}
