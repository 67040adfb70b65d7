// Enumerators' values and members that have been made.
ghost use Rattle.std.specs.Prelude.{◌≡◌, ◌<◌, length, IfSome, All};
ghost use Rattle.core_tree.specs.declared.node.Unit.{Unit as UnitSpec};
ghost use Rattle.core_nodes.specs.passed.c_senses.Sense.{sense_in};
ghost use Rattle.c_results.specs.Standing.{sense_made, senses_made, IsWithin};
ghost use Rattle.c_results.specs.Parts as spec;
ghost use Rattle.c_results.specs.Parts.{MembersSeen};

use crate::made::{Made, made_at};
use crate::results::Results;
use c_types::term::MemberTerm;

impl Made {
    // The value of an enumerator, if that is what has been made.
    fn value(&self) -> Option<i128>
        ensures { (u : UnitSpec) → result ≡ spec.number_in (sense_made u self.now) }
    {
        match self {
            Made::Value(value) => Some(value.get()),
            Made::Nothing | Made::Node(_) | Made::Typed(_) | Made::Specifiers { .. } => None,
            Made::Declarator { .. } | Made::Derived(_) | Made::Parameter { .. } => None,
            Made::Members(_) | Made::Run(_) | Made::Initial { .. } => None,
        }
    }

    // The members, if that is what has been made.
    fn members(&self) -> Option<&[MemberTerm]>
        ensures seen { (u : UnitSpec) → MembersSeen u result (spec.parts_in (sense_made u self.now)) }
        ensures within { (u : UnitSpec) →
            IsWithin u self.now → IfSome result (λ ms. All (λ m. m.ty.0 < length u.types.terms) ms.now) }
    {
        match self {
            Made::Members(members) => Some(members.as_slice()),
            Made::Nothing | Made::Node(_) | Made::Typed(_) | Made::Specifiers { .. } => None,
            Made::Declarator { .. } | Made::Derived(_) | Made::Parameter { .. } => None,
            Made::Value(_) | Made::Run(_) | Made::Initial { .. } => None,
        }
    }
}

/// The value of an enumerator that has been made for a node, if one has been.
pub fn value_at(results: &Results, node: u32) -> Option<i128>
    ensures { (u : UnitSpec) → result ≡ spec.number_in (sense_in (senses_made u results.now) node) }
{
    match made_at(results, node) {
        Some(made) => made.value(),
        None => None,
    }
}

/// The members that have been made for a node, if some have been.
pub fn members_at(results: &Results, node: u32) -> Option<&[MemberTerm]>
    ensures seen { (u : UnitSpec) → MembersSeen u result (spec.parts_in (sense_in (senses_made u results.now) node)) }
    ensures within { (u : UnitSpec) →
        All (IsWithin u) results.now → IfSome result (λ ms. All (λ m. m.ty.0 < length u.types.terms) ms.now) }
{
    match made_at(results, node) {
        Some(made) => made.members(),
        None => None,
    }
}
