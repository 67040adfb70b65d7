// The storage of what is declared.
ghost use Rattle.std.specs.Prelude.{◌≡◌, ◌<◌, ◌||◌, ℕ, List, length, is_some};
ghost use Rattle.c_grammar.specs.Words.{word_extern, word_static};
ghost use Rattle.core_tree.specs.declared.node.Unit.{Unit as UnitSpec};
ghost use Rattle.c_senses.specs.Sense.{Sense, sense_in};
ghost use Rattle.c_senses.specs.Tree.{Source};
ghost use Rattle.c_senses.specs.Entities as spec;
ghost use Rattle.c_results.specs.Standing.{senses_made};
ghost use Rattle.tree_reads.specs.Sources.{source_in};
ghost use Rattle.c_meanings.specs.Known.{AreChained};
ghost use Rattle.c_meanings.specs.Storages.{function_storage, is_only_declared, object_storage};

use crate::names::{Names, declares_function};
use c_entities::{has_storage, initialiser_for, is_at_file, is_defined, is_parameter};
use c_results::Results;
use core_tree::node::Storage;
use tree_reads::Syntax;

pub(crate) const WORD_EXTERN: u8 = 11;

pub(crate) const WORD_STATIC: u8 = 25;

// Whether a name is declared `static` or `extern`.
fn has_word(syntax: &Syntax, results: &Results, leaf: u32) -> bool
    requires { leaf < length syntax.now.tree.now.nodes.items }
    ensures { (u : UnitSpec) (uses : List (ℕ × ℕ)) →
        let s = source_in syntax.now uses in
        let sense = sense_in (senses_made u results.now) in
        result ≡ (spec.has_storage s sense word_static leaf || spec.has_storage s sense word_extern leaf) }
{
    has_storage(syntax, results, WORD_STATIC, leaf)
        || has_storage(syntax, results, WORD_EXTERN, leaf)
}

/// Whether a name has an initialiser (C11 6.7.9).
pub(crate) fn has_initialiser(syntax: &Syntax, leaf: u32) -> bool
    requires { leaf < length syntax.now.tree.now.nodes.items }
    ensures { (uses : List (ℕ × ℕ)) (sense : ℕ → Sense) →
        result ≡ is_some (spec.initialiser_for (source_in syntax.now uses) sense leaf) }
{
    match initialiser_for(syntax, leaf) {
        Some(_) => true,
        None => false,
    }
}

// Whether an object is only declared, by `extern` without an initialiser.
fn is_only_declared(syntax: &Syntax, results: &Results, leaf: u32) -> bool
    requires { leaf < length syntax.now.tree.now.nodes.items }
    ensures { (u : UnitSpec) (uses : List (ℕ × ℕ)) →
        result ≡ is_only_declared (source_in syntax.now uses) (sense_in (senses_made u results.now)) leaf }
{
    has_storage(syntax, results, WORD_EXTERN, leaf) && !has_initialiser(syntax, leaf)
}

/// Whether an object has its place for the whole run (C11 6.2.4p3).
pub fn is_static_object(syntax: &Syntax, results: &Results, leaf: u32) -> bool
    requires { leaf < length syntax.now.tree.now.nodes.items }
    ensures { (u : UnitSpec) (uses : List (ℕ × ℕ)) →
        result ≡ spec.is_static_object (source_in syntax.now uses) (sense_in (senses_made u results.now)) leaf }
{
    is_at_file(syntax, leaf) || has_word(syntax, results, leaf)
}

// The storage of a function: with a body or only declared.
fn of_function(syntax: &Syntax, leaf: u32) -> Storage
    requires { leaf < length syntax.now.tree.now.nodes.items }
    ensures { (uses : List (ℕ × ℕ)) (sense : ℕ → Sense)
        → result ≡ function_storage (spec.is_defined (source_in syntax.now uses) sense leaf) }
{
    if is_defined(syntax, leaf) {
        Storage::FunctionBody
    } else {
        Storage::Declared
    }
}

// The storage of an object by its words.
fn of_object(syntax: &Syntax, results: &Results, leaf: u32) -> Storage
    requires { leaf < length syntax.now.tree.now.nodes.items }
    ensures { (u : UnitSpec) (uses : List (ℕ × ℕ)) →
        result ≡ object_storage (source_in syntax.now uses) (sense_in (senses_made u results.now)) leaf }
{
    if is_only_declared(syntax, results, leaf) {
        Storage::Declared
    } else if is_static_object(syntax, results, leaf) {
        Storage::Static
    } else {
        Storage::Automatic
    }
}

/// The storage of the object or function that a leaf declares (C11 6.2.4, 6.9.1).
pub fn storage_of(names: &Names, syntax: &Syntax, results: &Results, leaf: u32) -> Storage
    requires names { AreChained syntax.now names.now }
    requires leaf { leaf < length syntax.now.tree.now.nodes.items }
    ensures { (u : UnitSpec) (uses : List (ℕ × ℕ)) →
        result ≡ spec.storage_of (source_in syntax.now uses) (sense_in (senses_made u results.now)) leaf }
{
    if is_parameter(syntax, leaf) {
        Storage::Parameter
    } else if declares_function(names, syntax, leaf) {
        of_function(syntax, leaf)
    } else {
        of_object(syntax, results, leaf)
    }
}

/// Whether a storage is automatic: that of a block's object or of a parameter (C11 6.2.4p5).
pub fn is_automatic(storage: Storage) -> bool
    ensures { (s : Source) (sense : ℕ → Sense) → result ≡ spec.is_automatic_storage s sense storage }
{
    match storage {
        Storage::Automatic | Storage::Parameter => true,
        Storage::Static | Storage::FunctionBody | Storage::Declared => false,
    }
}
