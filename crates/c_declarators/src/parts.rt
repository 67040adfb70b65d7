// The parts of declarators.
ghost use Rattle.std.specs.Prelude.{◌≡◌, ◌<◌, ◌++◌, ℕ, List, [], ◌∷◌, if◌then◌else◌, length, reverse, OnOk, IfOk, IfSome, IsOkUnless, All};
ghost use Rattle.core_tree.specs.declared.node.Unit.{Unit as UnitSpec};
ghost use Rattle.core_nodes.specs.passed.c_senses.Tree.{Source, has_sign};
ghost use Rattle.c_grammar.specs.Words.{sign_star};
ghost use Rattle.core_nodes.specs.passed.c_senses.World.{World};
ghost use Rattle.core_nodes.specs.passed.c_senses.Sense.{Sense, sense_in};
ghost use Rattle.core_nodes.specs.passed.c_senses.Declarators as spec;
ghost use Rattle.c_results.specs.Standing.{derivations_seen, senses_made, IsWithin, IsDerivable, TypeSeen};
ghost use Rattle.c_results.specs.Parts.{DeclaratorSeen, derivation_in};
ghost use Rattle.tree_reads.specs.Sources.{source_read};
ghost use Rattle.c_declarators.specs.Parts.{first_declarator, step_of};

use c_grammar::productions::{FIELD, REST, SPECS};
use c_results::{Derivation, Results, declarator_at, derivation_at, specified_at};
use c_types::term::TypeId;
use core_nodes::CheckFault;
use std::alloc::Global;
use tree_reads::{Syntax, Test, child_of, first_where, has_sign, is_a};

const SIGN_STAR: u8 = 11;

/// The first declarator among some nodes, by its name and its derivations.
pub fn inner<'a>(results: &'a Results, list: &[u32]) -> Option<(Option<u32>, &'a [Derivation])>
    ensures seen { (u : UnitSpec) →
        DeclaratorSeen u result (first_declarator (sense_in (senses_made u results.now)) list.now) }
    ensures within { (u : UnitSpec) →
        All (IsWithin u) results.now → IfSome result (λ d. All (IsDerivable u.types) d.1.now) }
{
    for node in list {
        if let Some(declarator) = declarator_at(results, *node) {
            return Some(declarator);
        }
    }
    None
}

/// The name of a declarator: its own, or that of the declarator in it (C11 6.7.6).
pub fn name_in(syntax: &Syntax, results: &Results, list: &[u32]) -> Option<u32>
    ensures { (u : UnitSpec) (w : World) →
        result ≡ spec.name_in w (source_read syntax.now) (sense_in (senses_made u results.now)) list.now }
{
    match first_where(syntax, Test::Name, list) {
        Some(leaf) => Some(leaf),
        None => match inner(results, list) {
            Some((name, _)) => name,
            None => None,
        },
    }
}

// Adds a pointer, if a node is a star.
fn add_star(steps: &mut Vec<Derivation>, syntax: &Syntax, node: u32) -> Result<(), CheckFault>
    ensures ok { OnOk result
        (steps.new.items
        ≡ steps.old.items ++ (if has_sign (source_read syntax.now) sign_star node then Derivation.Pointing ∷ [] else [])) }
    ensures memory { IsOkUnless result CheckFault.OutOfMemory }
{
    if has_sign(syntax, SIGN_STAR, node) {
        steps.push(Derivation::Pointing)?;
    }
    Ok(())
}

// Adds a pointer for each star.
fn add_stars(steps: &mut Vec<Derivation>, syntax: &Syntax, list: &[u32]) -> Result<(), CheckFault>
    ensures seen { (u : UnitSpec) (w : World) (sense : ℕ → Sense) →
        OnOk result
        (derivations_seen u.types steps.new.items
        ≡ derivations_seen u.types steps.old.items ++ spec.stars w (source_read syntax.now) sense list.now) }
    ensures within { (u : UnitSpec) →
        All (IsDerivable u.types) steps.old.items → OnOk result (All (IsDerivable u.types) steps.new.items) }
    ensures memory { IsOkUnless result CheckFault.OutOfMemory }
{
    for node in list {
        add_star(steps, syntax, *node)?;
    }
    Ok(())
}

// Adds the derivation that a node is, if it is one.
fn add_step(
    alloc: Global,
    steps: &mut Vec<Derivation>,
    results: &Results,
    node: u32,
) -> Result<(), CheckFault>
    ensures seen { (u : UnitSpec) →
        OnOk result
        (derivations_seen u.types steps.new.items
        ≡ derivations_seen u.types steps.old.items ++ step_of (derivation_in (sense_in (senses_made u results.now) node))) }
    ensures within { (u : UnitSpec) →
        All (IsWithin u) results.now →
        All (IsDerivable u.types) steps.old.items → OnOk result (All (IsDerivable u.types) steps.new.items) }
    ensures memory { IsOkUnless result CheckFault.OutOfMemory }
{
    match derivation_at(results, node) {
        Some(derivation) => {
            let step = derivation.copied(alloc)?;
            steps.push(step)?;
            Ok(())
        }
        None => Ok(()),
    }
}

// Adds the derivations of suffixes, from the last to the first.
fn add_suffixes(
    alloc: Global,
    steps: &mut Vec<Derivation>,
    results: &Results,
    list: &[u32],
) -> Result<(), CheckFault>
    ensures seen { (u : UnitSpec) (w : World) (s : Source) →
        let sense = sense_in (senses_made u results.now) in
        OnOk result
        (derivations_seen u.types steps.new.items
        ≡ derivations_seen u.types steps.old.items ++ reverse (spec.suffixes w s sense list.now)) }
    ensures within { (u : UnitSpec) →
        All (IsWithin u) results.now →
        All (IsDerivable u.types) steps.old.items → OnOk result (All (IsDerivable u.types) steps.new.items) }
    ensures memory { IsOkUnless result CheckFault.OutOfMemory }
{
    let mut i = list.len();
    while i > 0 {
        i -= 1;
        add_step(alloc, steps, results, list[i])?;
    }
    Ok(())
}

// Adds the same derivations once more.
fn add_copies(
    alloc: Global,
    steps: &mut Vec<Derivation>,
    derivations: &[Derivation],
) -> Result<(), CheckFault>
    ensures ok { OnOk result (steps.new.items ≡ steps.old.items ++ derivations.now) }
    ensures memory { IsOkUnless result CheckFault.OutOfMemory }
{
    for derivation in derivations {
        let step = derivation.copied(alloc)?;
        steps.push(step)?;
    }
    Ok(())
}

/// The derivations of a declarator, from the side of the specifiers to the name (C11 6.7.6).
pub fn derivations(
    alloc: Global,
    syntax: &Syntax,
    results: &Results,
    list: &[u32],
) -> Result<Vec<Derivation>, CheckFault>
    ensures seen { (u : UnitSpec) (w : World) →
        IfOk result (λ steps.
        derivations_seen u.types steps.items
        ≡ spec.derivations w (source_read syntax.now) (sense_in (senses_made u results.now)) list.now) }
    ensures within { (u : UnitSpec) →
        All (IsWithin u) results.now → IfOk result (λ steps. All (IsDerivable u.types) steps.items) }
    ensures memory { IsOkUnless result CheckFault.OutOfMemory }
{
    let mut steps = Vec::new(alloc);
    add_stars(&mut steps, syntax, list)?;
    add_suffixes(alloc, &mut steps, results, list)?;
    match inner(results, list) {
        Some((_, more)) => {
            add_copies(alloc, &mut steps, more)?;
            Ok(steps)
        }
        None => Ok(steps),
    }
}

/// The declaration of a declarator, by the node that holds the declarator.
pub fn declaration_around(syntax: &Syntax, node: u32) -> Option<u32>
    requires { node < length syntax.now.tree.now.nodes.items }
    ensures declaration { result ≡ spec.declaration_around (source_read syntax.now) node }
    ensures within { IfSome result (λ d. d < length syntax.now.tree.now.nodes.items) }
{
    if is_a(syntax, REST, node) || is_a(syntax, FIELD, node) {
        syntax.parent_of(node)
    } else {
        Some(node)
    }
}

/// The specifiers before a declarator.
pub fn specs_of(syntax: &Syntax, node: u32) -> Option<u32>
    requires { node < length syntax.now.tree.now.nodes.items }
    ensures { result ≡ spec.specs_of (source_read syntax.now) node }
{
    let parent = syntax.parent_of(node)?;
    let declaration = declaration_around(syntax, parent)?;
    child_of(syntax, SPECS, declaration)
}

/// The type of the specifiers before a declarator.
pub fn base_of(syntax: &Syntax, results: &Results, node: u32) -> Option<TypeId>
    requires { node < length syntax.now.tree.now.nodes.items }
    ensures seen { (u : UnitSpec) (w : World) →
        TypeSeen u result (spec.base_type w (source_read syntax.now) (sense_in (senses_made u results.now)) node) }
    ensures within { (u : UnitSpec) → All (IsWithin u) results.now → IfSome result (λ t. t.0 < length u.types.terms) }
{
    match specs_of(syntax, node) {
        Some(specs) => specified_at(results, specs),
        None => None,
    }
}
