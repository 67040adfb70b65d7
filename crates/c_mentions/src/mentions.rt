//! What a node does to names: it declares one, uses one, or neither.
ghost use Rattle.c_mentions.specs.Mentions as spec;
ghost use Rattle.c_mentions.specs.Syntax.{nodes_of};
ghost use Rattle.c_grammar.specs.Reads.{node_of};
ghost use Rattle.std.specs.Prelude.{◌≡◌, ◌<◌, ◌^◌, length, IfOk};

use crate::declarators::{Declarator, Derivation, declarator_at};
use crate::roles::{Role, Specifiers, TagUse};
use crate::syntax::{
    LEAF, first_child, is_identifier, is_name, production_at, token_at, token_kind,
};
use c_grammar::SyntaxNode;
use c_grammar::productions::{DECLARATOR, EITHER, ENUMERATOR};
use c_grammar::terminals::spelled;
use c_lexer::Token;
use pta_base::OutOfMemory;
use std::alloc::Global;

/// What the words and the form of a declaration say of the linkage of its names (C11 6.2.2).
#[derive(Clone, Copy, Debug, PartialEq, Eq)]
pub enum Linkage {
    /// A parameter or an enumerator: none.
    Never,
    /// A typedef name: none.
    Typedef,
    /// An object or a function: one at file scope, and a function anywhere.
    Object,
    /// The same with the word `extern`: one.
    External,
}

/// What a node does to names. A name is known by its symbol.
#[derive(Clone, Copy, Debug)]
pub enum Mention {
    Nothing,
    /// Uses an ordinary name, which may need no declaration.
    Use {
        symbol: u32,
        is_exempt: bool,
    },
    /// Names a tag.
    Tag {
        symbol: u32,
        how: TagUse,
    },
    /// Declares a label.
    Label {
        symbol: u32,
    },
    /// Uses a label.
    Goto {
        symbol: u32,
    },
    /// Ends the declarator or the enumerator that declares an ordinary name, by the leaf of the name.
    Declares {
        leaf: u32,
        symbol: u32,
        linkage: Linkage,
        derivation: Derivation,
        type_name: Option<u32>,
    },
}

/// The bytes of a token by its number, or none behind the last one.
fn name_at<'a>(text: &'a [u8], tokens: &[Token], token: u32) -> &'a [u8]
    ensures { result.now ≡ spec.name_at text.now tokens.now token }
{
    match tokens.get(token as usize) {
        Some(token) => spelled(text, *token),
        None => &[],
    }
}

/// The symbol of a token.
fn symbol_at(symbols: &[u32], token: u32) -> u32
    ensures { result ≡ spec.symbol_at symbols.now token }
{
    match symbols.get(token as usize) {
        Some(symbol) => *symbol,
        None => token,
    }
}

/// Whether a name is a type word, which needs no declaration and has none.
#[tactic(auto, unfolding(crate::specs::Mentions::is_type_word))]
fn is_type_word(name: &[u8]) -> bool
    ensures { result ≡ spec.is_type_word name.now }
{
    name == b"_Float32".as_slice()
        || name == b"_Float64".as_slice()
        || name == b"_Float128".as_slice()
        || name == b"_Float32x".as_slice()
        || name == b"_Float64x".as_slice()
}

/// Whether a name stands for an operation on variadic lists, which needs no declaration and has none (C11 7.16.1).
#[tactic(auto, unfolding(crate::specs::Mentions::is_list_word))]
fn is_list_word(name: &[u8]) -> bool
    ensures { result ≡ spec.is_list_word name.now }
{
    name == b"__builtin_va_start".as_slice()
        || name == b"__builtin_va_copy".as_slice()
        || name == b"__builtin_va_arg".as_slice()
        || name == b"__builtin_va_end".as_slice()
}

/// Whether a name is that of the function around it (C11 6.4.2.2).
#[tactic(auto, unfolding(crate::specs::Mentions::is_function_name))]
fn is_function_name(name: &[u8]) -> bool
    ensures { result ≡ spec.is_function_name name.now }
{
    name == b"__func__".as_slice()
        || name == b"__FUNCTION__".as_slice()
        || name == b"__PRETTY_FUNCTION__".as_slice()
}

/// Whether a name needs no declaration.
#[tactic(auto, unfolding(crate::specs::Mentions::is_exempt))]
fn is_exempt(name: &[u8], in_body: bool) -> bool
    ensures { result ≡ spec.is_exempt name.now in_body }
{
    (in_body && is_function_name(name)) || name == b"__builtin_va_list".as_slice()
}

/// A use of an ordinary name.
#[tactic(auto, unfolding(crate::specs::Mentions::name_used))]
fn name_used(name: &[u8], symbol: u32, in_body: bool) -> Mention
    ensures { result ≡ spec.name_used name.now symbol in_body }
{
    if is_type_word(name) || is_list_word(name) {
        Mention::Nothing
    } else {
        let is_exempt = is_exempt(name, in_body);
        Mention::Use { symbol, is_exempt }
    }
}

/// A name in a statement: its label where it stands first, else the label to which it goes.
fn label_used(first: Option<u32>, node: u32, symbol: u32) -> Mention
    ensures { result ≡ spec.label_used first node symbol }
{
    match first {
        Some(leaf) => {
            if leaf == node {
                Mention::Label { symbol }
            } else {
                Mention::Goto { symbol }
            }
        }
        None => Mention::Goto { symbol },
    }
}

/// What the leaf of an identifier does.
fn leaf_mention(name: &[u8], symbol: u32, node: u32, in_body: bool, role: Role) -> Mention
    ensures { result ≡ spec.leaf_mention name.now symbol node in_body role }
{
    match role {
        Role::Name => name_used(name, symbol, in_body),
        Role::Alone => name_used(name, symbol, in_body),
        Role::Tag(how) => Mention::Tag { symbol, how },
        Role::Statement { first, selects: _ } => label_used(first, node, symbol),
        Role::Elsewhere => Mention::Nothing,
        Role::Declaration(_) => Mention::Nothing,
        Role::Parameter => Mention::Nothing,
    }
}

/// What the specifiers say of the linkage.
fn linkage_of(specifiers: Specifiers) -> Linkage
    ensures { result ≡ spec.linkage_of specifiers }
{
    if specifiers.is_typedef {
        Linkage::Typedef
    } else if specifiers.is_extern {
        Linkage::External
    } else {
        Linkage::Object
    }
}

/// The declaration of the name at a leaf, by a declarator that stands in a role.
fn name_declared(leaf: u32, symbol: u32, derivation: Derivation, role: Role) -> Mention
    ensures { result ≡ spec.name_declared leaf symbol derivation role }
{
    match role {
        Role::Declaration(specifiers) => Mention::Declares {
            leaf,
            symbol,
            linkage: linkage_of(specifiers),
            derivation,
            type_name: specifiers.type_name,
        },
        Role::Parameter => Mention::Declares {
            leaf,
            symbol,
            linkage: Linkage::Never,
            derivation: Derivation::Other,
            type_name: None,
        },
        _ => Mention::Nothing,
    }
}

/// What the end of a declarator does.
#[tactic(auto, unfolding(crate::specs::Mentions::declarator_mention))]
fn declarator_mention(
    symbols: &[u32],
    nodes: &[SyntaxNode],
    declarator: Declarator,
    role: Role,
) -> Mention
    ensures { result ≡ spec.declarator_mention (spec.symbol_at symbols.now) (nodes_of nodes.now) declarator role }
{
    match declarator.name {
        Some(leaf) => name_declared(
            leaf,
            symbol_at(symbols, token_at(nodes, leaf)),
            declarator.derivation,
            role,
        ),
        None => Mention::Nothing,
    }
}

/// What the end of an enumerator does.
#[tactic(auto, unfolding(crate::specs::Mentions::enumerator_mention))]
fn enumerator_mention(symbols: &[u32], nodes: &[SyntaxNode], node: u32) -> Mention
    ensures { result ≡ spec.enumerator_mention (spec.symbol_at symbols.now) (nodes_of nodes.now) node }
{
    match first_child(nodes, node) {
        Some(leaf) => Mention::Declares {
            leaf,
            symbol: symbol_at(symbols, token_at(nodes, leaf)),
            linkage: Linkage::Never,
            derivation: Derivation::Other,
            type_name: None,
        },
        None => Mention::Nothing,
    }
}

/// What the end of a node that is no leaf of an identifier does.
#[tactic(auto, unfolding(crate::specs::Mentions::end_mention))]
fn end_mention(
    tokens: &[Token],
    symbols: &[u32],
    nodes: &[SyntaxNode],
    node: u32,
    role: Role,
) -> Mention
    ensures { result ≡ spec.end_mention tokens.now (spec.symbol_at symbols.now) (nodes_of nodes.now) node role }
{
    let production = production_at(nodes, node);
    if production == ENUMERATOR {
        enumerator_mention(symbols, nodes, node)
    } else if production == DECLARATOR || production == EITHER {
        declarator_mention(symbols, nodes, declarator_at(tokens, nodes, node), role)
    } else {
        Mention::Nothing
    }
}

/// Whether a production ends the declaration of a name.
fn ends_name(production: u32) -> bool
    ensures { result ≡ spec.ends_name production }
{
    match production {
        ENUMERATOR => true,
        DECLARATOR => true,
        EITHER => true,
        _ => false,
    }
}

/// Whether a node may do something to names.
fn is_speaking(tokens: &[Token], here: &SyntaxNode) -> bool
    ensures { result ≡ spec.node_speaks tokens.now (node_of here.now) }
{
    if here.production == LEAF {
        is_identifier(token_kind(tokens, here.token))
    } else {
        ends_name(here.production)
    }
}

/// The numbers of the nodes that may do something to names, in order: the leaves of identifiers, the enumerators and the declarators.
/// What any other node does is `Nothing`, wherever it stands (C11 6.2.1, 6.2.3).
pub fn speaking(
    alloc: Global,
    tokens: &[Token],
    nodes: &[SyntaxNode],
) -> Result<Vec<u32>, OutOfMemory>
    requires { length nodes.now < 2 ^ 32 }
    ensures { IfOk result (λ list. list.items ≡ spec.speaking tokens.now (nodes_of nodes.now)) }
{
    let mut list = Vec::new(alloc);
    for (node, here) in nodes.iter().enumerate() {
        if is_speaking(tokens, here) {
            list.push(node as u32)?;
        }
    }
    Ok(list)
}

/// What a node does to names, that stands in a function's body or not, and in a role below its parent.
#[tactic(auto, unfolding(crate::specs::Mentions::mention_at))]
pub fn mention_at(
    text: &[u8],
    tokens: &[Token],
    symbols: &[u32],
    nodes: &[SyntaxNode],
    node: u32,
    in_body: bool,
    role: Role,
) -> Mention
    ensures { result ≡ spec.mention_at text.now tokens.now (spec.symbol_at symbols.now) (nodes_of nodes.now) node in_body role }
{
    if is_name(tokens, nodes, node) {
        let token = token_at(nodes, node);
        leaf_mention(
            name_at(text, tokens, token),
            symbol_at(symbols, token),
            node,
            in_body,
            role,
        )
    } else {
        end_mention(tokens, symbols, nodes, node, role)
    }
}
