// Words that don't go with what is declared.
ghost use Rattle.std.specs.Prelude.{◌≡◌, ◌<◌, ◌||◌, ℕ, List, length};
ghost use Rattle.core_tree.specs.declared.node.Unit.{Unit as UnitSpec};
ghost use Rattle.c_grammar.specs.Words.{word_static, word_extern};
ghost use Rattle.c_senses.specs.World.{World};
ghost use Rattle.c_senses.specs.Sense.{sense_in};
ghost use Rattle.c_senses.specs.Entities as spec;
ghost use Rattle.c_results.specs.Standing.{senses_made};
ghost use Rattle.tree_reads.specs.Sources.{source_read, source_in};
ghost use Rattle.c_named.specs.Said.{IsSaid};
ghost use Rattle.c_named.specs.Words.{go_well};

use crate::said::Said;
use c_entities::{has_function_words, has_storage, is_at_file, is_defined, is_without_storage};
use c_results::Results;
use name_places::is_in_for;
use tree_reads::Syntax;

const WORD_EXTERN: u8 = 11;

const WORD_STATIC: u8 = 25;

// What a declaration is asked of its words: whether it has an initialiser; what it declares; whether it stands at file scope or
// in a `for`, and defines a function; and its words.
#[derive(Clone, Copy)]
pub(crate) struct Wording {
    initialised: bool,
    is_typedef: bool,
    is_function: bool,
    at_file: bool,
    in_for: bool,
    defined: bool,
    for_function: bool,
    is_static: bool,
    is_extern: bool,
    without: bool,
}

// Whether words go with what is declared (C11 6.7.1p5 to p7, 6.7.4p1, 6.7.9p5, 6.8.5p3, 6.9.1p4).
fn go_well(asked: Wording) -> bool
    ensures { result ≡ go_well asked }
{
    if asked.for_function && (asked.is_typedef || !asked.is_function) {
        return false;
    }
    if asked.initialised
        && (asked.is_typedef || asked.is_function || (!asked.at_file && asked.is_extern))
    {
        return false;
    }
    if asked.is_function && !asked.at_file && !(asked.without || asked.is_extern) {
        return false;
    }
    if asked.is_typedef && asked.defined {
        return false;
    }
    !(asked.in_for && (asked.is_typedef || asked.is_function || asked.is_static || asked.is_extern))
}

/// Whether the words of a declaration go with what it declares.
pub(crate) fn words_go(
    syntax: &Syntax,
    results: &Results,
    said: &Said,
    initialised: bool,
    leaf: u32,
) -> bool
    requires { leaf < length syntax.now.tree.now.nodes.items }
    ensures { (u : UnitSpec) (w : World) (uses : List (ℕ × ℕ)) →
        let s = source_in syntax.now uses in
        let sense = sense_in (senses_made u results.now) in
        IsSaid w s sense leaf said.now → result ≡ spec.words_go w s sense initialised leaf }
{
    let is_static = has_storage(syntax, results, WORD_STATIC, leaf);
    let is_extern = has_storage(syntax, results, WORD_EXTERN, leaf);
    go_well(Wording {
        initialised,
        is_typedef: said.is_typedef,
        is_function: said.is_function,
        at_file: is_at_file(syntax, leaf),
        in_for: is_in_for(syntax, leaf),
        defined: is_defined(syntax, leaf),
        for_function: has_function_words(syntax, results, leaf),
        is_static,
        is_extern,
        without: is_without_storage(syntax, results, leaf),
    })
}
