// The rows of declarations: the initialisers that run where they stand (C11 6.7.9, 6.8p3).
ghost use Rattle.std.specs.Prelude.{◌≡◌, ◌<◌, ◌++◌, ℕ, List, map, length, slice_get, All, Some, IfOk, IfSome, OnOk, IsOkUnless};
ghost use Rattle.core_tree.specs.declared.node.Unit.{Unit as UnitSpec};
ghost use Rattle.c_senses.specs.World.{World};
ghost use Rattle.c_senses.specs.Tree.{Source, children_at};
ghost use Rattle.c_senses.specs.Sense.{Sense, sense_in};
ghost use Rattle.c_senses.specs.Statements as spec;
ghost use Rattle.parsed_tree_laws.specs.sense_laws.Senses.{ChildrenFirst};
ghost use Rattle.core_nodes.specs.Standing.{core_at};
ghost use Rattle.c_results.specs.Standing.{sense_made, senses_made, IsWithin, Rowed};
ghost use Rattle.c_results.specs.Parts.{NodeSeen};
ghost use Rattle.tree_reads.specs.Sources.{source_read, source_in};
ghost use Rattle.statement_rows.specs.Kinds.{AreKinds};
ghost use Rattle.statement_rows.specs.Parts.{initial_at, initial_in, run_in_sense, RunSeen};

use crate::kinds::NameKinds;
use crate::objects::{is_automatic_object, name_at};
use c_results::{Made, Results, made_at};
use core_nodes::CheckFault;
use name_places::initialised_by;
use std::alloc::Global;
use tree_reads::{Syntax, children_of};

// Whether an initialiser runs where it stands: it is one of an automatic object.
fn runs_initialiser(syntax: &Syntax, results: &Results, kinds: &NameKinds, init: u32) -> bool
    requires kinds { AreKinds (source_read syntax.now) kinds.now }
    requires ordered { ChildrenFirst (source_read syntax.now) }
    requires init { init < length syntax.now.tree.now.nodes.items }
    ensures { (u : UnitSpec) (w : World) (uses : List (ℕ × ℕ)) →
        result ≡ spec.runs_initialiser w (source_in syntax.now uses) (sense_in (senses_made u results.now)) init }
{
    let Some(declarator) = initialised_by(syntax, init) else {
        return false;
    };
    match name_at(results, declarator) {
        Some(leaf) => is_automatic_object(syntax, results, kinds, leaf),
        None => false,
    }
}

// The core node of an initialiser, if that is what has been made.
fn initial_of(made: &Made) -> Option<u32>
    ensures seen { (u : UnitSpec) → NodeSeen u result (initial_in (sense_made u made.now)) }
    ensures within { (u : UnitSpec) → IsWithin u made.now → IfSome result (λ i. i < length u.nodes.items) }
{
    match made {
        Made::Initial { node, .. } => Some(*node),
        Made::Nothing | Made::Node(_) | Made::Typed(_) | Made::Specifiers { .. } => None,
        Made::Declarator { .. } | Made::Derived(_) | Made::Parameter { .. } => None,
        Made::Members(_) | Made::Value(_) | Made::Run(_) => None,
    }
}

// The core node of an initialiser that has been made for a node, if one has been.
fn initial_made(results: &Results, node: u32) -> Option<u32>
    ensures seen { (u : UnitSpec) → NodeSeen u result (initial_in (sense_in (senses_made u results.now) node)) }
    ensures within { (u : UnitSpec) → All (IsWithin u) results.now → IfSome result (λ i. i < length u.nodes.items) }
{
    match made_at(results, node) {
        Some(made) => initial_of(made),
        None => None,
    }
}

// Adds the initialiser at a node, if it runs there.
fn add_initial(
    list: &mut Vec<u32>,
    syntax: &Syntax,
    results: &Results,
    kinds: &NameKinds,
    node: u32,
) -> Result<(), CheckFault>
    requires kinds { AreKinds (source_read syntax.now) kinds.now }
    requires ordered { ChildrenFirst (source_read syntax.now) }
    requires node { node < length syntax.now.tree.now.nodes.items }
    ensures added { (u : UnitSpec) (w : World) (uses : List (ℕ × ℕ)) →
        let s = source_in syntax.now uses in
        let sense = sense_in (senses_made u results.now) in
        OnOk result (map (core_at u) list.new.items ≡ map (core_at u) list.old.items ++ initial_at w s sense node) }
    ensures within { (u : UnitSpec) →
        All (IsWithin u) results.now →
        All (λ i. i < length u.nodes.items) list.old.items →
        OnOk result (All (λ i. i < length u.nodes.items) list.new.items) }
    ensures memory { IsOkUnless result CheckFault.OutOfMemory }
{
    if let Some(initial) = initial_made(results, node) {
        if runs_initialiser(syntax, results, kinds, node) {
            list.push(initial)?;
        }
    }
    Ok(())
}

/// The row of the rest of a declaration (C11 6.7.9, 6.8p3): the initialisers of its automatic objects, in order. Only memory may
/// want.
pub fn rest_row(
    alloc: Global,
    syntax: &Syntax,
    results: &Results,
    kinds: &NameKinds,
    at: u32,
) -> Result<Made, CheckFault>
    requires kinds { AreKinds (source_read syntax.now) kinds.now }
    requires ordered { ChildrenFirst (source_read syntax.now) }
    requires at { at < length syntax.now.tree.now.nodes.items }
    ensures row { (u : UnitSpec) (w : World) (uses : List (ℕ × ℕ)) →
        let s = source_in syntax.now uses in
        Rowed u result (spec.rest_row w s (sense_in (senses_made u results.now)) (children_at s at)) }
    ensures within { (u : UnitSpec) → All (IsWithin u) results.now → IfOk result (IsWithin u) }
{
    let mut list = Vec::new(alloc);
    for node in children_of(syntax, at) {
        add_initial(&mut list, syntax, results, kinds, *node)?;
    }
    Ok(Made::Run(list))
}

// The core nodes that run, if that is what has been made.
fn run_of(made: &Made) -> Option<&[u32]>
    ensures seen { (u : UnitSpec) → RunSeen u result (run_in_sense (sense_made u made.now)) }
    ensures within { (u : UnitSpec) →
        IsWithin u made.now → IfSome result (λ run. All (λ i. i < length u.nodes.items) run.now) }
{
    match made {
        Made::Run(nodes) => Some(nodes.as_slice()),
        Made::Nothing | Made::Node(_) | Made::Typed(_) | Made::Specifiers { .. } => None,
        Made::Declarator { .. } | Made::Derived(_) | Made::Parameter { .. } => None,
        Made::Members(_) | Made::Value(_) | Made::Initial { .. } => None,
    }
}

// What has been made for a node, if it is a list of what runs.
fn run_at(results: &Results, node: u32) -> Option<&[u32]>
    ensures seen { (u : UnitSpec) → RunSeen u result (run_in_sense (sense_in (senses_made u results.now) node)) }
    ensures within { (u : UnitSpec) →
        All (IsWithin u) results.now → IfSome result (λ run. All (λ i. i < length u.nodes.items) run.now) }
{
    match made_at(results, node) {
        Some(made) => run_of(made),
        None => None,
    }
}

/// The row of a declaration (C11 6.7): what the rest of it runs. Only memory may want.
pub fn declaration_row(
    alloc: Global,
    results: &Results,
    children: &[u32],
) -> Result<Made, CheckFault>
    ensures row { (u : UnitSpec) (w : World) (s : Source) →
        Rowed u result (spec.declaration_row w s (sense_in (senses_made u results.now)) children.now) }
    ensures within { (u : UnitSpec) → All (IsWithin u) results.now → IfOk result (IsWithin u) }
{
    for node in children {
        if let Some(run) = run_at(results, *node) {
            let list = Vec::from_slice(alloc, run)?;
            return Ok(Made::Run(list));
        }
    }
    Ok(Made::Run(Vec::new(alloc)))
}
