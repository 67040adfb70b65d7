// The names of declarators.
ghost use Rattle.std.specs.Prelude.{◌≡◌, ◌<◌, ℕ, length, All, IfSome};
ghost use Rattle.core_tree.specs.declared.node.Unit.{Unit as UnitSpec};
ghost use Rattle.c_senses.specs.World.{World};
ghost use Rattle.c_senses.specs.Sense.{sense_in};
ghost use Rattle.c_senses.specs.Declarators as spec;
ghost use Rattle.c_results.specs.Standing.{sense_made, senses_made, sense_read};
ghost use Rattle.std.specs.Option.{option_copied};
ghost use Rattle.tree_reads.specs.Sources.{source_read};
ghost use Rattle.c_results.specs.Parts.{DeclaratorSeen, declarator_in};
ghost use Rattle.c_entities.specs.PassedOn.{first_declarator};
ghost use Rattle.name_places.specs.Named.{name_within, IsNamedIn};

use c_results::{Derivation, Made, Results};
use tree_reads::{Syntax, Test, first_where};

// The name of a declarator, if that is what has been made.
fn name_made(made: &Made) -> Option<u32>
    ensures name { (u : UnitSpec) → result ≡ name_within (sense_made u made.now) }
    ensures within { (count : ℕ) → IsNamedIn count made.now → IfSome result (λ leaf. leaf < count) }
{
    match made {
        Made::Declarator { name, .. } => *name,
        Made::Nothing | Made::Node(_) | Made::Typed(_) | Made::Specifiers { .. } => None,
        Made::Derived(_) | Made::Parameter { .. } | Made::Members(_) => None,
        Made::Value(_) | Made::Run(_) | Made::Initial { .. } => None,
    }
}

// What has been made for the node of that number.
fn made_of(results: &Results, node: u32) -> Option<&Made>
    ensures sense { (u : UnitSpec) → sense_read u (option_copied result) ≡ sense_in (senses_made u results.now) node }
    ensures within { (count : ℕ) → All (IsNamedIn count) results.now → IfSome result (λ m. IsNamedIn count m.now) }
{
    results.get(node as usize)
}

/// The name of the declarator that has been made for a node, by its leaf (C11 6.7.6); None where it has none, or where none has
/// been made.
pub fn declared_name(results: &Results, node: u32) -> Option<u32>
    ensures name { (u : UnitSpec) → result ≡ name_within (sense_in (senses_made u results.now) node) }
    ensures within { (count : ℕ) → All (IsNamedIn count) results.now → IfSome result (λ leaf. leaf < count) }
{
    match made_of(results, node) {
        Some(made) => name_made(made),
        None => None,
    }
}

// The name and the derivations of a declarator, if that is what has been made.
fn declarator_made(made: &Made) -> Option<(Option<u32>, &[Derivation])>
    ensures seen { (u : UnitSpec) → DeclaratorSeen u result (declarator_in (sense_made u made.now)) }
    ensures named { (count : ℕ) → IsNamedIn count made.now → IfSome result (λ d. IfSome d.0 (λ leaf. leaf < count)) }
{
    match made {
        Made::Declarator { name, derivations } => Some((*name, derivations.as_slice())),
        Made::Nothing | Made::Node(_) | Made::Typed(_) | Made::Specifiers { .. } => None,
        Made::Derived(_) | Made::Parameter { .. } | Made::Members(_) => None,
        Made::Value(_) | Made::Run(_) | Made::Initial { .. } => None,
    }
}

// The name and the derivations of the declarator that has been made for a node, if one has been.
pub(crate) fn declarator_of(results: &Results, node: u32) -> Option<(Option<u32>, &[Derivation])>
    ensures seen { (u : UnitSpec) → DeclaratorSeen u result (declarator_in (sense_in (senses_made u results.now) node)) }
    ensures named { (count : ℕ) →
        All (IsNamedIn count) results.now → IfSome result (λ d. IfSome d.0 (λ leaf. leaf < count)) }
{
    match made_of(results, node) {
        Some(made) => declarator_made(made),
        None => None,
    }
}

/// The first declarator among some nodes, by its name and its derivations.
pub(crate) fn inner<'a>(
    results: &'a Results,
    list: &[u32],
) -> Option<(Option<u32>, &'a [Derivation])>
    ensures seen { (u : UnitSpec) →
        DeclaratorSeen u result (first_declarator (sense_in (senses_made u results.now)) list.now) }
    ensures named { (count : ℕ) →
        All (IsNamedIn count) results.now → IfSome result (λ d. IfSome d.0 (λ leaf. leaf < count)) }
{
    for node in list {
        if let Some(declarator) = declarator_of(results, *node) {
            return Some(declarator);
        }
    }
    None
}

/// The name that a declarator with those children declares, by its leaf: its own, or that of the declarator in it (C11 6.7.6).
pub fn name_in(syntax: &Syntax, results: &Results, children: &[u32]) -> Option<u32>
    ensures name { (u : UnitSpec) (w : World) →
        result ≡ spec.name_in w (source_read syntax.now) (sense_in (senses_made u results.now)) children.now }
    ensures within { All (IsNamedIn (length syntax.now.tree.now.nodes.items)) results.now →
        IfSome result (λ leaf. leaf < length syntax.now.tree.now.nodes.items) }
{
    match first_where(syntax, Test::Name, children) {
        Some(leaf) => Some(leaf),
        None => match inner(results, children) {
            Some((name, _)) => name,
            None => None,
        },
    }
}
