// The declaration at which a name has its place (C11 6.9.1, 6.9.2).
ghost use Rattle.std.specs.Prelude.{◌≡◌, ◌<◌, ℕ, List, All, length, is_some, IfOk, IsOkUnless};
ghost use Rattle.core_tree.specs.declared.node.Unit.{Unit as UnitSpec};
ghost use Rattle.c_senses.specs.Sense.{Sense, sense_in};
ghost use Rattle.c_senses.specs.Entities as spec;
ghost use Rattle.c_senses.specs.Right as right;
ghost use Rattle.c_results.specs.Standing.{senses_made};
ghost use Rattle.tree_reads.specs.Sources.{source_read, source_in};
ghost use Rattle.name_chains.specs.symbol_lists.Lists.{AreOf};
ghost use Rattle.c_meanings.specs.Known.{AreNamed};
ghost use Rattle.unit_names.specs.Choosing as choice;

use crate::internal::of_internal;
use c_entities::{has_storage, initialiser_for, is_defined};
use c_meanings::{Names, declares_function};
use c_results::Results;
use core_nodes::CheckFault;
use name_chains::symbol_lists::SymbolLists;
use std::alloc::Global;
use tree_reads::Syntax;

const WORD_EXTERN: u8 = 11;

// Whether a name has an initialiser.
fn has_initialiser(syntax: &Syntax, leaf: u32) -> bool
    requires { leaf < length syntax.now.tree.now.nodes.items }
    ensures { (uses : List (ℕ × ℕ)) (sense : ℕ → Sense) →
        result ≡ is_some (spec.initialiser_for (source_in syntax.now uses) sense leaf) }
{
    match initialiser_for(syntax, leaf) {
        Some(_) => true,
        None => false,
    }
}

// Whether a declaration has a body or an initialiser.
fn is_definition(syntax: &Syntax, leaf: u32) -> bool
    requires { leaf < length syntax.now.tree.now.nodes.items }
    ensures { (uses : List (ℕ × ℕ)) (sense : ℕ → Sense) →
        result ≡ choice.is_definition (source_in syntax.now uses) sense leaf }
{
    is_defined(syntax, leaf) || has_initialiser(syntax, leaf)
}

// Whether a declaration is one of a function, or says `extern`.
fn only_declares(names: &Names, syntax: &Syntax, results: &Results, leaf: u32) -> bool
    requires names { AreNamed syntax.now results.now names.now }
    requires leaf { leaf < length syntax.now.tree.now.nodes.items }
    ensures { (u : UnitSpec) (uses : List (ℕ × ℕ)) →
        result ≡ choice.only_declares (source_in syntax.now uses) (sense_in (senses_made u results.now)) leaf }
{
    declares_function(names, syntax, leaf) || has_storage(syntax, results, WORD_EXTERN, leaf)
}

// The first of some declarations that has a body or an initialiser, or else the other one.
fn first_definition(syntax: &Syntax, list: &[u32], other: u32) -> u32
    requires list { All (λ leaf. leaf < length syntax.now.tree.now.nodes.items) list.now }
    requires other { other < length syntax.now.tree.now.nodes.items }
    ensures first { (uses : List (ℕ × ℕ)) (sense : ℕ → Sense) →
        result ≡ choice.first_such (choice.is_definition (source_in syntax.now uses) sense) other list.now }
    ensures within { result < length syntax.now.tree.now.nodes.items }
{
    for leaf in list {
        if is_definition(syntax, *leaf) {
            return *leaf;
        }
    }
    other
}

// The first of some declarations that is a tentative definition, or else the other one.
fn first_tentative(
    names: &Names,
    syntax: &Syntax,
    results: &Results,
    list: &[u32],
    other: u32,
) -> u32
    requires names { AreNamed syntax.now results.now names.now }
    requires list { All (λ leaf. leaf < length syntax.now.tree.now.nodes.items) list.now }
    requires other { other < length syntax.now.tree.now.nodes.items }
    ensures first { (u : UnitSpec) (uses : List (ℕ × ℕ)) →
        let sense = sense_in (senses_made u results.now) in
        result ≡ choice.first_such (choice.is_tentative (source_in syntax.now uses) sense) other list.now }
    ensures within { result < length syntax.now.tree.now.nodes.items }
{
    for leaf in list {
        if !only_declares(names, syntax, results, *leaf) {
            return *leaf;
        }
    }
    other
}

/// The first of some declarations of a name that defines it, else the first tentative one, else another leaf.
pub(crate) fn chosen(
    names: &Names,
    syntax: &Syntax,
    results: &Results,
    list: &[u32],
    leaf: u32,
) -> u32
    requires names { AreNamed syntax.now results.now names.now }
    requires list { All (λ other. other < length syntax.now.tree.now.nodes.items) list.now }
    requires leaf { leaf < length syntax.now.tree.now.nodes.items }
    ensures chosen { (u : UnitSpec) (uses : List (ℕ × ℕ)) →
        result ≡ choice.chosen (source_in syntax.now uses) (sense_in (senses_made u results.now)) leaf list.now }
    ensures within { result < length syntax.now.tree.now.nodes.items }
{
    let tentative = first_tentative(names, syntax, results, list, leaf);
    first_definition(syntax, list, tentative)
}

/// The declaration at which the name that a leaf declares has its place: of an internal name its definition, else its first tentative
/// definition, else its first declaration (C11 6.9.1, 6.9.2); of any other name its own. `internal` says whether it has internal linkage.
/// Only memory may want.
pub(crate) fn representative(
    alloc: Global,
    names: &Names,
    lists: &SymbolLists,
    syntax: &Syntax,
    results: &Results,
    internal: bool,
    leaf: u32,
) -> Result<u32, CheckFault>
    requires names { AreNamed syntax.now results.now names.now }
    requires lists { AreOf (source_read syntax.now).declared.ordinary lists.now }
    requires internal { (u : UnitSpec) (uses : List (ℕ × ℕ)) →
        internal ≡ spec.is_internal (source_in syntax.now uses) (sense_in (senses_made u results.now)) leaf }
    requires leaf { leaf < length syntax.now.tree.now.nodes.items }
    ensures representative { (u : UnitSpec) (uses : List (ℕ × ℕ)) →
        IfOk result (λ at. at ≡ right.representative (source_in syntax.now uses) (senses_made u results.now) leaf) }
    ensures within { IfOk result (λ at. at < length syntax.now.tree.now.nodes.items) }
    ensures memory { IsOkUnless result CheckFault.OutOfMemory }
{
    if !internal {
        return Ok(leaf);
    }
    let list = of_internal(alloc, names, lists, syntax, results, leaf)?;
    Ok(chosen(names, syntax, results, list.as_slice(), leaf))
}
