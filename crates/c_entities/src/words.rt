// The words of specifiers.
ghost use Rattle.std.specs.Prelude.{◌≡◌, ◌<◌, ℕ, length};
ghost use Rattle.std.specs.Option.{option_copied};
ghost use Rattle.core_tree.specs.declared.node.Unit.{Unit as UnitSpec};
ghost use Rattle.c_grammar.specs.Terminals as terminals;
ghost use Rattle.core_nodes.specs.passed.c_senses.Sense.{sense_in};
ghost use Rattle.core_nodes.specs.passed.c_senses.Entities as spec;
ghost use Rattle.core_nodes.specs.passed.c_senses.World.{World};
ghost use Rattle.c_results.specs.Standing.{sense_made, sense_read, senses_made};
ghost use Rattle.tree_reads.specs.Sources.{source_read};
ghost use Rattle.c_entities.specs.Words.{storage_in, functions_in, specified_in, is_nothing, is_something, WordsSeen};

use c_declarators::specs_of;
use c_results::{Made, Results, made_at};
use tree_reads::{Above, Syntax, nearest_above};

// Whether a word is among some.
fn contains(words: &[u8], word: u8) -> bool
    ensures { result ≡ terminals.contains words.now word }
{
    for other in words {
        if *other == word {
            return true;
        }
    }
    false
}

// Whether there are no words.
fn is_nothing(words: &[u8]) -> bool
    ensures { result ≡ is_nothing words.now }
{
    words.is_empty()
}

// Whether there are some words.
fn is_something(words: &[u8]) -> bool
    ensures { result ≡ is_something words.now }
{
    !words.is_empty()
}

// The words for storage of specifiers, if that is what has been made.
fn storage_made(made: &Made) -> Option<&[u8]>
    ensures { (u : UnitSpec) → WordsSeen result (storage_in (specified_in (sense_made u made.now))) }
{
    match made {
        Made::Specifiers { storage, .. } => Some(storage.as_slice()),
        Made::Nothing | Made::Node(_) | Made::Typed(_) | Made::Declarator { .. } => None,
        Made::Derived(_) | Made::Parameter { .. } | Made::Members(_) | Made::Value(_) => None,
        Made::Run(_) | Made::Initial { .. } => None,
    }
}

// The words for functions of specifiers, if that is what has been made.
fn functions_made(made: &Made) -> Option<&[u8]>
    ensures { (u : UnitSpec) → WordsSeen result (functions_in (specified_in (sense_made u made.now))) }
{
    match made {
        Made::Specifiers { functions, .. } => Some(functions.as_slice()),
        Made::Nothing | Made::Node(_) | Made::Typed(_) | Made::Declarator { .. } => None,
        Made::Derived(_) | Made::Parameter { .. } | Made::Members(_) | Made::Value(_) => None,
        Made::Run(_) | Made::Initial { .. } => None,
    }
}

// What has been made for the specifiers before a name.
fn specifiers_before<'a>(syntax: &Syntax, results: &'a Results, leaf: u32) -> Option<&'a Made>
    requires { leaf < length syntax.now.tree.now.nodes.items }
    ensures { (u : UnitSpec) →
        specified_in (sense_read u (option_copied result))
        ≡ spec.specified_of (source_read syntax.now) (sense_in (senses_made u results.now)) leaf }
{
    let declarator = nearest_above(syntax, Above::Outermost, leaf)?;
    let specifiers = specs_of(syntax, declarator)?;
    made_at(results, specifiers)
}

// The words for storage before a name; None where it has no specifiers.
fn storage_before<'a>(syntax: &Syntax, results: &'a Results, leaf: u32) -> Option<&'a [u8]>
    requires { leaf < length syntax.now.tree.now.nodes.items }
    ensures { (u : UnitSpec) →
        WordsSeen result
        (storage_in (spec.specified_of (source_read syntax.now) (sense_in (senses_made u results.now)) leaf)) }
{
    match specifiers_before(syntax, results, leaf) {
        Some(made) => storage_made(made),
        None => None,
    }
}

// The words for functions before a name; None where it has no specifiers.
fn functions_before<'a>(syntax: &Syntax, results: &'a Results, leaf: u32) -> Option<&'a [u8]>
    requires { leaf < length syntax.now.tree.now.nodes.items }
    ensures { (u : UnitSpec) →
        WordsSeen result
        (functions_in (spec.specified_of (source_read syntax.now) (sense_in (senses_made u results.now)) leaf)) }
{
    match specifiers_before(syntax, results, leaf) {
        Some(made) => functions_made(made),
        None => None,
    }
}

/// Whether a name is declared with a word for storage, by the number of its keyword (C11 6.7.1).
pub fn has_storage(syntax: &Syntax, results: &Results, word: u8, leaf: u32) -> bool
    requires { leaf < length syntax.now.tree.now.nodes.items }
    ensures { (u : UnitSpec) →
        result ≡ spec.has_storage (source_read syntax.now) (sense_in (senses_made u results.now)) word leaf }
{
    match storage_before(syntax, results, leaf) {
        Some(words) => contains(words, word),
        None => false,
    }
}

/// Whether a name is declared with a word for functions, `inline` or `_Noreturn`, by the number of its keyword (C11 6.7.4).
pub fn has_function_word(syntax: &Syntax, results: &Results, word: u8, leaf: u32) -> bool
    requires { leaf < length syntax.now.tree.now.nodes.items }
    ensures { (u : UnitSpec) →
        result ≡ spec.has_function_word (source_read syntax.now) (sense_in (senses_made u results.now)) word leaf }
{
    match functions_before(syntax, results, leaf) {
        Some(words) => contains(words, word),
        None => false,
    }
}

/// Whether a name is declared without a word for storage.
pub fn is_without_storage(syntax: &Syntax, results: &Results, leaf: u32) -> bool
    requires { leaf < length syntax.now.tree.now.nodes.items }
    ensures { (u : UnitSpec) →
        result ≡ spec.is_without_storage (source_read syntax.now) (sense_in (senses_made u results.now)) leaf }
{
    match storage_before(syntax, results, leaf) {
        Some(words) => is_nothing(words),
        None => true,
    }
}

/// Whether a name is declared with any word for functions.
pub fn has_function_words(syntax: &Syntax, results: &Results, leaf: u32) -> bool
    requires { leaf < length syntax.now.tree.now.nodes.items }
    ensures { (u : UnitSpec) (w : World) →
        result ≡ spec.has_function_words w (source_read syntax.now) (sense_in (senses_made u results.now)) leaf }
{
    match functions_before(syntax, results, leaf) {
        Some(words) => is_something(words),
        None => false,
    }
}
