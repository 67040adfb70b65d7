//! What is read of trees that are made by hand, as C11 says of their texts.
#![tactic(auto, using(core_nodes::proofs::IntegerTypes::integers))]

ghost use Rattle.c_results.specs.Standing.{IsWithin};

use crate::fields::{number, word};
use crate::hand::{empty_unit, no_results, numbers_from, production_of, tree_of};
use crate::trees::TREES;
use c_declarators::specs_row;
use c_entities::{has_storage, initialiser_for, is_at_file, is_defined, is_parameter};
use c_lexer::lexer::tokens;
use c_results::{Made, Results, WordList};
use c_tags::enumerator_row;
use c_types::term::{Term, TypeId};
use core_tree::node::Unit;
use std::alloc::Global;
use std::test::Fail;
use tree_reads::{Above, Syntax, Test, count_where, has_word, nearest_above};

// The keyword `extern`, and `static`.
const WORD_EXTERN: u8 = 11;

const WORD_STATIC: u8 = 25;

// What is made for the specifiers at node 4, and nothing before it.
fn specified(alloc: Global, word: u8) -> Result<Results, Fail> {
    let mut results = Results::new(alloc);
    for _node in 0..4 {
        results.push(Made::Nothing)?;
    }
    results.push(Made::Specifiers {
        storage: WordList::of(alloc, Vec::from_slice(alloc, &[word])?)?,
        functions: WordList::of(alloc, Vec::new(alloc))?,
        ty: TypeId(0),
    })?;
    Ok(results)
}

// Whether a leaf's name is declared with `static`.
fn is_static(alloc: Global, syntax: &Syntax, leaf: u32, value: u32) -> Result<bool, Fail> {
    if leaf as usize >= syntax.tree.nodes.len() {
        return Ok(false);
    }
    let results = specified(alloc, WORD_STATIC)?;
    let stored = has_storage(syntax, &results, WORD_STATIC, leaf)
        && !has_storage(syntax, &results, WORD_EXTERN, leaf);
    let plain = is_at_file(syntax, leaf)
        && !is_parameter(syntax, leaf)
        && !is_defined(syntax, leaf);
    Ok(stored && plain && initialiser_for(syntax, leaf) == Some(value))
}

// Whether an enumerator has this value.
fn counts(alloc: Global, syntax: &Syntax, at: u32, leaf: u32, value: i128) -> Result<bool, Fail> {
    let unit = empty_unit(alloc)?;
    let results = no_results(alloc);
    if at as usize >= syntax.tree.nodes.len() {
        return Ok(false);
    }
    match enumerator_row(&unit, syntax, &results, at, &[leaf]) {
        Ok(made) => Ok(matches!(&made, Made::Value(found) if found.get() == value)),
        Err(_) => Ok(false),
    }
}

// The size, the rank and the sign of the integer type that specifiers name.
fn integer_of(unit: &Unit, made: &Made) -> Option<(u8, u8, bool)>
    requires { IsWithin unit.now made.now }
{
    match made {
        Made::Specifiers { ty, .. } => match unit.types.term(*ty) {
            Term::Integer { size, rank, signed } => Some((*size, *rank, *signed)),
            _ => None,
        },
        _ => None,
    }
}

// The integer type of the specifiers at a node, if its row fits.
fn integer_at(
    alloc: Global,
    syntax: &Syntax,
    at: u32,
    children: &[u32],
) -> Result<Option<(u8, u8, bool)>, Fail> {
    let mut unit = empty_unit(alloc)?;
    let results = no_results(alloc);
    if at as usize >= syntax.tree.nodes.len() {
        return Err(Fail::new("no node"));
    }
    match specs_row(alloc, &mut unit, syntax, &results, at, children) {
        Ok(made) => Ok(integer_of(&unit, &made)),
        Err(_) => Ok(None),
    }
}

// Whether a node has the parent that a line tells.
fn has_parent(syntax: &Syntax, line: &str) -> bool {
    let node = number(line, 1);
    (node as usize) < syntax.tree.nodes.len()
        && syntax.parent_of(node) == word(line, 2).parse::<u32>().ok()
}

// Whether the nearest node above a node that is as asked is the one that a line tells.
fn has_above(syntax: &Syntax, line: &str) -> bool {
    let test = match word(line, 1) {
        "loop" => Above::Loop,
        "breakable" => Above::Breakable,
        _ => Above::Switch,
    };
    let node = number(line, 2);
    (node as usize) < syntax.tree.nodes.len()
        && nearest_above(syntax, test, node) == word(line, 3).parse::<u32>().ok()
}

// Whether of the nodes of a line so many are the sign of a number.
fn has_signs(alloc: Global, syntax: &Syntax, line: &str) -> Result<bool, Fail> {
    let test = Test::Sign((number(line, 1) % 256) as u8);
    let nodes = numbers_from(alloc, line, 3)?;
    Ok(count_where(syntax, test, nodes.as_slice()) == number(line, 2) as usize)
}

// Whether the specifiers of a line name its integer type, or none where it has none.
fn has_type(alloc: Global, syntax: &Syntax, line: &str) -> Result<bool, Fail> {
    let children = numbers_from(alloc, line, 5)?;
    let found = integer_at(alloc, syntax, number(line, 1), children.as_slice())?;
    let wanted = match word(line, 2) {
        "none" => None,
        size => Some((
            size.parse::<u8>()?,
            word(line, 3).parse::<u8>()?,
            word(line, 4) == "signed",
        )),
    };
    Ok(found == wanted)
}

// Whether a tree shows what a line tells.
fn is_shown(alloc: Global, syntax: &Syntax, line: &str) -> Result<bool, Fail> {
    match word(line, 0) {
        "parent" => Ok(has_parent(syntax, line)),
        "above" => Ok(has_above(syntax, line)),
        "word" => Ok(has_word(syntax, (number(line, 1) % 256) as u8, number(line, 2))),
        "signs" => has_signs(alloc, syntax, line),
        "static" => is_static(alloc, syntax, number(line, 1), number(line, 2)),
        "enumerator-is" => {
            let value = i128::from(number(line, 3));
            counts(alloc, syntax, number(line, 1), number(line, 2), value)
        }
        "type-is" => has_type(alloc, syntax, line),
        "#" => Ok(true),
        other => Ok(production_of(other).is_some()),
    }
}

// The first line of a text that a tree doesn't show.
fn first_wrong<'a>(alloc: Global, syntax: &Syntax, text: &'a str) -> Result<Option<&'a str>, Fail> {
    for line in text.split('\n').skip(1) {
        if !is_shown(alloc, syntax, line)? {
            return Ok(Some(line));
        }
    }
    Ok(None)
}

// The same of the tree of the text.
fn first_wrong_of<'a>(alloc: Global, text: &'a str) -> Result<Option<&'a str>, Fail> {
    let found = tokens(alloc, text.split('\n').next().unwrap_or("").as_bytes())?;
    let tree = tree_of(alloc, text)?;
    let syntax = Syntax::new(alloc, &found, &tree)?;
    first_wrong(alloc, &syntax, text)
}

#[test]
fn trees_show(rt: HostRuntime) -> Result<(), Fail> {
    for text in TREES.split("\n\n") {
        let wrong = first_wrong_of(rt.alloc(), text)?;
        assert!(rt; wrong.is_none(), "{wrong:?} of {text}");
    }
    Ok(())
}
