// What a text is answered: its unit, or its refusal by kind and column.

use crate::page::Page;
use crate::units::unit_text;
use c_grammar::Tree;
use c_lexer::Tokens;
use c_lexer::lexer::tokens;
use c_lower::lower_unit;
use c_parser::ParseFault;
use c_parser::c_units::parse_unit;
use c_scope::{Bound, NameFault, resolve};
use c_statements::own_place;
use core_nodes::CheckFault;
use parsed_tree_laws::sense_laws::parsed_laws::laws::children_first;
use pta_base::{Kind, Text};
use std::alloc::Global;
use std::test::Fail;
use tree_reads::Syntax;

// A kind of refusal and a column.
fn refusal(alloc: Global, kind: &str, column: u32) -> Result<String, Fail> {
    let mut out = Page::new(alloc);
    out.say("\n");
    out.say(kind);
    out.say(" ");
    out.number(i128::from(column));
    out.whole()
}

// The column of a token.
fn token_column(found: &Tokens<'_>, token: u32) -> u32 {
    match found.list.get(token as usize) {
        Some(there) => there.column,
        None => 0,
    }
}

// The column of a node's first token.
fn node_column(found: &Tokens<'_>, tree: &Tree, node: u32) -> u32 {
    match tree.nodes.get(node as usize) {
        Some(there) => token_column(found, there.token),
        None => 0,
    }
}

// The refusal of a text's syntax.
fn parse_refusal(alloc: Global, found: &Tokens<'_>, fault: ParseFault) -> Result<String, Fail> {
    match fault {
        ParseFault::Malformed(token) => refusal(alloc, "malformed", token_column(found, token)),
        ParseFault::Unsupported(kind, token) => {
            refusal(alloc, kind.name(), token_column(found, token))
        }
        ParseFault::TooDeep(token) => refusal(alloc, "too-deep", token_column(found, token)),
        ParseFault::OutOfMemory => Err(Fail::new("no memory")),
    }
}

// The refusal of a text's names.
fn name_refusal(
    alloc: Global,
    found: &Tokens<'_>,
    tree: &Tree,
    fault: NameFault,
) -> Result<String, Fail> {
    match fault {
        NameFault::Undeclared(node) => {
            refusal(alloc, "undeclared", node_column(found, tree, node))
        }
        NameFault::Redeclared(node) => {
            refusal(alloc, "redeclared", node_column(found, tree, node))
        }
        NameFault::OutOfMemory => Err(Fail::new("no memory")),
    }
}

// The refusal of a node, at its own token.
fn row_refusal(
    alloc: Global,
    found: &Tokens<'_>,
    tree: &Tree,
    kind: Kind,
    node: u32,
) -> Result<String, Fail> {
    let syntax = Syntax::new(alloc, found, tree)?;
    refusal(alloc, kind.name(), own_place(&syntax, node).column)
}

// The refusal of a text's rows.
fn check_refusal(
    alloc: Global,
    found: &Tokens<'_>,
    tree: &Tree,
    fault: CheckFault,
) -> Result<String, Fail> {
    match fault {
        CheckFault::BadOperand(node) => row_refusal(alloc, found, tree, Kind::Operand, node),
        CheckFault::Unsupported(kind, node) => row_refusal(alloc, found, tree, kind, node),
        CheckFault::OutOfMemory => Err(Fail::new("no memory")),
    }
}

/// What a text of one line is answered, with or without the columns of core nodes.
pub(crate) fn answer(alloc: Global, text: &str, placed: bool) -> Result<String, Fail> {
    let bytes = text.as_bytes();
    let Ok(found) = tokens(alloc, bytes) else {
        return Err(Fail::new("no tokens"));
    };
    if found.list.len() > u32::MAX as usize {
        return Err(Fail::new("too many tokens"));
    }
    let tree = match parse_unit(alloc, &found, 0) {
        Ok(tree) => tree,
        Err(fault) => return parse_refusal(alloc, &found, fault),
    };
    let bound: Bound = match resolve(alloc, &found, &tree) {
        Ok(bound) => bound,
        Err(fault) => return name_refusal(alloc, &found, &tree, fault),
    };
    children_first();
    let title = Text::copy_of(alloc, "a.i")?;
    match lower_unit(alloc, &found, &tree, &bound, title) {
        Ok(unit) => unit_text(alloc, &unit, 1000, placed),
        Err(fault) => check_refusal(alloc, &found, &tree, fault),
    }
}
