//! How a node stands below its parent, as far as names ask for it.
ghost use Rattle.c_mentions.specs.Roles as spec;
ghost use Rattle.c_mentions.specs.Syntax.{nodes_of};
ghost use Rattle.c_mentions.specs.Handing.{Handled};
ghost use Rattle.c_mentions.specs.Syntax.{is_keyword};
ghost use Rattle.c_grammar.specs.Words.{word_do, word_for, word_if, word_switch, word_while};
ghost use Rattle.std.specs.Prelude.{◌≡◌, ◌||◌};

use crate::declarators::{declarator_at, is_list};
use crate::syntax::{
    children_at, first_child, first_part, has_part, is_leaf, is_name, is_of, is_word, leaf_kind,
    production_at,
};
use c_grammar::SyntaxNode;
use c_grammar::productions::*;
use c_lexer::{Token, TokenKind};

// Positions of keywords.
const DO: u8 = 7;

const EXTERN: u8 = 11;

const FOR: u8 = 13;

const IF: u8 = 15;

const SWITCH: u8 = 27;

const TYPEDEF: u8 = 28;

const WHILE: u8 = 33;

/// What the specifiers of a declaration and its form say of its names.
#[derive(Clone, Copy, Debug)]
pub struct Specifiers {
    pub is_typedef: bool,
    pub is_extern: bool,
    /// Specifiers alone without a storage-class specifier, which may declare a tag (C11 6.7.2.3p7).
    pub is_alone: bool,
    /// The leaf of the typedef name that is the type.
    pub type_name: Option<u32>,
    /// In the definition of a function its parameter list.
    pub list: Option<u32>,
}

/// What the name of a structure, union or enumeration specifier is (C11 6.7.2.3).
#[derive(Clone, Copy, Debug, PartialEq, Eq)]
pub enum TagUse {
    /// It declares the tag in the present scope.
    Declares,
    /// It names the visible tag, or declares it where there is none.
    Refers,
    /// It names the visible tag, which there must be.
    Uses,
}

/// How a node stands below its parent.
#[derive(Clone, Copy, Debug)]
pub enum Role {
    /// Nothing follows for a name.
    Elsewhere,
    /// In a primary expression or a type: an identifier is a use of an ordinary name.
    Name,
    /// The same, in specifiers that stand alone.
    Alone,
    /// In a structure, union or enumeration specifier.
    Tag(TagUse),
    /// In a statement, of which this is the first child; and whether it is a selection or an iteration.
    Statement { first: Option<u32>, selects: bool },
    /// In a declaration or a function definition.
    Declaration(Specifiers),
    /// In a parameter declaration.
    Parameter,
}

/// Whether the first child of a node is the leaf of a keyword.
#[tactic(auto, unfolding(crate::specs::Roles::begins_with))]
fn begins_with(tokens: &[Token], nodes: &[SyntaxNode], node: u32, word: u8) -> bool
    ensures { result ≡ spec.begins_with tokens.now (nodes_of nodes.now) node word }
{
    match first_child(nodes, node) {
        Some(child) => is_word(tokens, nodes, child, word),
        None => false,
    }
}

/// Whether the first child of a node is the leaf of an identifier.
#[tactic(auto, unfolding(crate::specs::Roles::begins_with_name))]
fn begins_with_name(tokens: &[Token], nodes: &[SyntaxNode], node: u32) -> bool
    ensures { result ≡ spec.begins_with_name tokens.now (nodes_of nodes.now) node }
{
    match first_child(nodes, node) {
        Some(child) => is_name(tokens, nodes, child),
        None => false,
    }
}

/// Whether specifiers have a storage-class specifier.
#[tactic(auto, unfolding(crate::specs::Roles::has_storage))]
fn has_storage(tokens: &[Token], nodes: &[SyntaxNode], specs: u32, word: u8) -> bool
    ensures { result ≡ spec.has_storage tokens.now (nodes_of nodes.now) specs word }
{
    children_at(nodes, specs).iter().any(|child| is_of(nodes, STORAGE, *child)
        && begins_with(tokens, nodes, *child, word))
}

/// The type specifier that is an identifier, if there is one.
#[tactic(auto, unfolding(crate::specs::Roles::named_type))]
fn named_type(tokens: &[Token], nodes: &[SyntaxNode], specs: u32) -> Option<u32>
    ensures { result ≡ spec.named_type tokens.now (nodes_of nodes.now) specs }
{
    children_at(nodes, specs).iter().copied().find(|child| is_of(nodes, TYPE, *child)
        && begins_with_name(tokens, nodes, *child))
}

/// The leaf of the typedef name among specifiers, if there is one.
#[tactic(auto, unfolding(crate::specs::Roles::type_name))]
fn type_name(tokens: &[Token], nodes: &[SyntaxNode], specs: u32) -> Option<u32>
    ensures { result ≡ spec.type_name tokens.now (nodes_of nodes.now) specs }
{
    match named_type(tokens, nodes, specs) {
        Some(node) => first_child(nodes, node),
        None => None,
    }
}

/// Whether nothing but a semicolon follows the specifiers of a declaration.
#[tactic(auto, unfolding(crate::specs::Roles::has_no_declarator))]
fn has_no_declarator(nodes: &[SyntaxNode], node: u32) -> bool
    ensures { result ≡ spec.has_no_declarator (nodes_of nodes.now) node }
{
    match children_at(nodes, node) {
        [_, second] => is_leaf(nodes, *second),
        _ => false,
    }
}

/// The parameter list of a function definition.
#[tactic(auto, unfolding(crate::specs::Roles::list_of))]
fn list_of(tokens: &[Token], nodes: &[SyntaxNode], node: u32) -> Option<u32>
    ensures { result ≡ spec.list_of tokens.now (nodes_of nodes.now) node }
{
    if !has_part(nodes, node, BLOCK) {
        return None;
    }
    match first_part(nodes, node, DECLARATOR) {
        Some(node) => declarator_at(tokens, nodes, node).suffix,
        None => None,
    }
}

/// What a declaration says of its names by its specifiers.
#[tactic(auto, unfolding(crate::specs::Roles::specified))]
fn specified(tokens: &[Token], nodes: &[SyntaxNode], node: u32, specs: u32) -> Specifiers
    ensures { result ≡ spec.specified tokens.now (nodes_of nodes.now) node specs }
{
    Specifiers {
        is_typedef: has_storage(tokens, nodes, specs, TYPEDEF),
        is_extern: has_storage(tokens, nodes, specs, EXTERN),
        is_alone: has_no_declarator(nodes, node) && !has_part(nodes, specs, STORAGE),
        type_name: type_name(tokens, nodes, specs),
        list: list_of(tokens, nodes, node),
    }
}

/// The role of what stands in a declaration, whose specifiers come first.
#[tactic(auto, unfolding(crate::specs::Roles::in_declaration))]
fn in_declaration(tokens: &[Token], nodes: &[SyntaxNode], node: u32) -> Role
    ensures { result ≡ spec.in_declaration tokens.now (nodes_of nodes.now) node }
{
    match first_child(nodes, node) {
        Some(specs) => Role::Declaration(specified(tokens, nodes, node, specs)),
        None => Role::Elsewhere,
    }
}

/// The role of what stands in specifiers.
fn in_specs(role: Role) -> Role
    ensures { result ≡ spec.in_specs role }
{
    match role {
        Role::Declaration(specifiers) => {
            if specifiers.is_alone {
                Role::Alone
            } else {
                Role::Elsewhere
            }
        }
        _ => Role::Elsewhere,
    }
}

/// Whether a node stands in specifiers that stand alone.
fn is_alone(role: Role) -> bool
    ensures { result ≡ spec.is_alone role }
{
    match role {
        Role::Alone => true,
        _ => false,
    }
}

/// The role of what stands in a type specifier.
#[tactic(auto, unfolding(crate::specs::Roles::in_type))]
fn in_type(role: Role) -> Role
    ensures { result ≡ spec.in_type role }
{
    if is_alone(role) {
        Role::Alone
    } else {
        Role::Name
    }
}

/// The role of what stands in a structure or union specifier: it declares its tag where it has a list of members, and alone.
#[tactic(auto, unfolding(crate::specs::Roles::in_struct))]
fn in_struct(nodes: &[SyntaxNode], node: u32, role: Role) -> Role
    ensures { result ≡ spec.in_struct (nodes_of nodes.now) node role }
{
    if has_part(nodes, node, MEMBERS) || is_alone(role) {
        Role::Tag(TagUse::Declares)
    } else {
        Role::Tag(TagUse::Refers)
    }
}

/// The role of what stands in an enumeration specifier: it declares its tag where it has a list of enumerators.
#[tactic(auto, unfolding(crate::specs::Roles::in_enum))]
fn in_enum(nodes: &[SyntaxNode], node: u32) -> Role
    ensures { result ≡ spec.in_enum (nodes_of nodes.now) node }
{
    if has_part(nodes, node, ENUMERATORS) {
        Role::Tag(TagUse::Declares)
    } else {
        Role::Tag(TagUse::Uses)
    }
}

/// Whether a kind of token is a keyword with which a selection or an iteration begins (C11 6.8.4, 6.8.5).
fn is_selection(kind: TokenKind) -> bool
    ensures { result
        ≡ (is_keyword kind word_if || is_keyword kind word_switch || is_keyword kind word_while || is_keyword kind word_do
        || is_keyword kind word_for) }
{
    match kind {
        TokenKind::Keyword(word) => match word {
            IF | SWITCH | WHILE | DO | FOR => true,
            _ => false,
        },
        _ => false,
    }
}

/// Whether a statement is a selection or an iteration (C11 6.8.4, 6.8.5).
#[tactic(auto, unfolding(crate::specs::Roles::selects, crate::specs::Roles::begins_with))]
fn selects(tokens: &[Token], nodes: &[SyntaxNode], node: u32) -> bool
    ensures { result ≡ spec.selects tokens.now (nodes_of nodes.now) node }
{
    match first_child(nodes, node) {
        Some(child) => is_selection(leaf_kind(tokens, nodes, child)),
        None => false,
    }
}

/// The role of what stands in a statement.
#[tactic(auto, unfolding(crate::specs::Roles::in_statement))]
fn in_statement(tokens: &[Token], nodes: &[SyntaxNode], node: u32) -> Role
    ensures { result ≡ spec.in_statement tokens.now (nodes_of nodes.now) node }
{
    Role::Statement {
        first: first_child(nodes, node),
        selects: selects(tokens, nodes, node),
    }
}

/// How the children of a node stand, which itself stands in a role.
#[tactic(auto, unfolding(crate::specs::Roles::handed))]
pub(crate) fn handed(tokens: &[Token], nodes: &[SyntaxNode], node: u32, role: Role) -> Role
    ensures { result ≡ spec.handed tokens.now (nodes_of nodes.now) node role }
{
    match production_at(nodes, node) {
        EXTERNAL => in_declaration(tokens, nodes, node),
        DECLARATION => in_declaration(tokens, nodes, node),
        REST => role,
        PARAMETER => Role::Parameter,
        SPECS => in_specs(role),
        TYPE => in_type(role),
        PRIMARY => Role::Name,
        STRUCT => in_struct(nodes, node, role),
        ENUM => in_enum(nodes, node),
        STATEMENT => in_statement(tokens, nodes, node),
        _ => Role::Elsewhere,
    }
}

/// Whether a block with this role is the body of a function.
fn is_function(role: Role) -> bool
    ensures { result ≡ spec.is_function role }
{
    match role {
        Role::Declaration(_) => true,
        _ => false,
    }
}

/// The scope of a block: that of a function's body is one with its parameter list (C11 6.2.1p4).
fn block_scope(node: u32, role: Role) -> u32
    ensures { result ≡ spec.block_scope node role }
{
    match role {
        Role::Declaration(specifiers) => match specifiers.list {
            Some(list) => list,
            None => node,
        },
        _ => node,
    }
}

/// Whether a node stands directly in a selection or iteration statement.
fn is_selected(role: Role) -> bool
    ensures { result ≡ spec.is_selected role }
{
    match role {
        Role::Statement { first: _, selects } => selects,
        _ => false,
    }
}

/// The scope that a node opens for what stands in it, if it opens one: a block, a parameter list, a selection or iteration
/// statement, and a statement that stands directly in one (C11 6.2.1p4, 6.8.4p3, 6.8.5p5). The scope of a function's body is
/// that of its parameter list.
#[tactic(auto, unfolding(crate::specs::Roles::opened))]
pub(crate) fn opened(tokens: &[Token], nodes: &[SyntaxNode], node: u32, role: Role) -> Option<u32>
    ensures { result ≡ spec.opened tokens.now (nodes_of nodes.now) node role }
{
    match production_at(nodes, node) {
        BLOCK => Some(block_scope(node, role)),
        SUFFIX => {
            if is_list(tokens, nodes, node) {
                Some(node)
            } else {
                None
            }
        }
        STATEMENT => {
            if is_selected(role) || selects(tokens, nodes, node) {
                Some(node)
            } else {
                None
            }
        }
        _ => None,
    }
}

/// Whether a node is the body of a function.
#[tactic(auto, unfolding(crate::specs::Roles::is_body))]
pub(crate) fn is_body(nodes: &[SyntaxNode], node: u32, role: Role) -> bool
    ensures { result ≡ spec.is_body (nodes_of nodes.now) node role }
{
    is_of(nodes, BLOCK, node) && is_function(role)
}

/// How a node hands down its role, where that asks for nothing but its production.
#[derive(Clone, Copy)]
pub(crate) enum Handing {
    /// Its children stand elsewhere.
    Elsewhere,
    /// Its children are names.
    Name,
    /// More is asked.
    Else,
}

/// How a node hands down its role. Where that asks for nothing but its production, it opens no scope and is no body.
#[tactic(auto, unfolding(crate::specs::Roles::handed, crate::specs::Roles::opened, crate::specs::Roles::is_body))]
pub(crate) fn handing_of(nodes: &[SyntaxNode], node: u32) -> Handing
    ensures { Handled (nodes_of nodes.now) node result }
{
    match production_at(nodes, node) {
        EXTERNAL | DECLARATION | REST | PARAMETER | SPECS | TYPE => Handing::Else,
        STRUCT | ENUM | STATEMENT | BLOCK | SUFFIX => Handing::Else,
        PRIMARY => Handing::Name,
        _ => Handing::Elsewhere,
    }
}
