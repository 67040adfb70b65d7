// The own token of a syntax node, at whose place it is refused.
ghost use Rattle.std.specs.Prelude.{◌≡◌, ◌<◌, ◌∷◌, ℕ, List, length, suc};
ghost use Rattle.c_senses.specs.Places as spec;
ghost use Rattle.c_senses.specs.Tree as tree;
ghost use Rattle.c_senses.specs.Sense.{last_of};
ghost use Rattle.c_senses.specs.Tree.{Source};
ghost use Rattle.tree_reads.specs.Sources.{source_read};
ghost use Rattle.c_statements.specs.Owning.{own_seen, own_of_others};

use c_grammar::productions::{
    ABSTRACT, ADDITIVE, AND, ASSIGNMENT, CAST, CONDITIONAL, DECLARATOR, EITHER, EQUALITY,
    EXCLUSIVE_OR, EXPRESSION, FIELD, INCLUSIVE_OR, INIT, LOGICAL_AND, LOGICAL_OR, MULTIPLICATIVE,
    PARAMETER, POST, PRIMARY, RELATIONAL, SHIFT, STATEMENT, UNARY,
};
use pta_base::Place;
use tree_reads::{
    Syntax, Test, children_of, first_where, has_sign, is_a, is_leaf, last_where, place_of,
};

const SIGN_COLON: u8 = 31;

const SIGN_LEFT_PARENTHESIS: u8 = 2;

/// Where a node's own token is: its first one, a leaf among its children, or that of a part.
#[derive(Clone, Copy, Debug, PartialEq, Eq)]
pub enum Own {
    First,
    At(u32),
    OfPart(u32),
}

// A declarator of any of its three forms.
fn is_declarator_part(syntax: &Syntax, node: u32) -> bool
    ensures { result ≡ spec.is_declarator_part (source_read syntax.now) node }
{
    is_a(syntax, DECLARATOR, node) || is_a(syntax, EITHER, node) || is_a(syntax, ABSTRACT, node)
}

// The first declarator of a list.
fn first_declarator(syntax: &Syntax, list: &[u32]) -> Option<u32>
    ensures { result ≡ tree.first_where (spec.is_declarator_part (source_read syntax.now)) list.now }
{
    for node in list {
        if is_declarator_part(syntax, *node) {
            return Some(*node);
        }
    }
    None
}

// The name of a declarator or a parameter, also one within parentheses.
fn name_within(syntax: &Syntax, node: u32) -> Option<u32>
    ensures { result ≡ spec.name_within (source_read syntax.now) (suc node) node }
{
    let mut here = node;
    for _depth in 0..node as usize + 1 {
        let children = children_of(syntax, here);
        if let Some(leaf) = first_where(syntax, Test::Name, children) {
            return Some(leaf);
        }
        let Some(part) = first_declarator(syntax, children) else {
            return None;
        };
        here = part;
    }
    None
}

// A leaf, or the first token.
fn leaf_or_first(leaf: Option<u32>) -> Own
    ensures { own_seen result ≡ spec.leaf_or_first leaf }
{
    match leaf {
        Some(leaf) => Own::At(leaf),
        None => Own::First,
    }
}

// The last of some parts.
fn last_part(children: &[u32]) -> u32
    requires { 0 < length children.now }
    ensures { (first : ℕ) (rest : List ℕ) → children.now ≡ first ∷ rest → result ≡ last_of first rest }
{
    children[children.len() - 1]
}

// A bit-field without a name has its colon.
fn of_field(syntax: &Syntax, children: &[u32]) -> Own
    ensures { own_seen result ≡ spec.own_of_field (source_read syntax.now) children.now }
{
    match first_where(syntax, Test::IsA(DECLARATOR), children) {
        Some(part) => Own::OfPart(part),
        None => leaf_or_first(first_where(syntax, Test::Sign(SIGN_COLON), children)),
    }
}

// Operators have the first of them, and without one the only part.
fn of_operators(children: &[u32]) -> Own
    ensures { (s : Source) → own_seen result ≡ spec.own_of_operators s children.now }
{
    match children.first() {
        None => Own::First,
        Some(part) => match children.get(1) {
            None => Own::OfPart(*part),
            Some(operator) => Own::At(*operator),
        },
    }
}

// A primary in parentheses has what is in them.
fn of_primary(syntax: &Syntax, children: &[u32]) -> Own
    ensures { own_seen result ≡ spec.own_of_primary (source_read syntax.now) children.now }
{
    match children.first() {
        None => Own::First,
        Some(first) => match children.get(1) {
            None => Own::First,
            Some(inner) => {
                if has_sign(syntax, SIGN_LEFT_PARENTHESIS, *first) {
                    Own::OfPart(*inner)
                } else {
                    Own::First
                }
            }
        },
    }
}

// What begins with a token has that one; what begins with a part, the last part.
fn of_parts(syntax: &Syntax, children: &[u32]) -> Own
    ensures { own_seen result ≡ spec.own_of_parts (source_read syntax.now) children.now }
{
    match children.first() {
        None => Own::First,
        Some(first) => {
            if is_leaf(syntax, *first) {
                Own::First
            } else {
                Own::OfPart(last_part(children))
            }
        }
    }
}

// What follows a compound literal or is cast has its own token.
fn of_cast(syntax: &Syntax, children: &[u32]) -> Own
    ensures { own_seen result ≡ spec.own_of_cast (source_read syntax.now) children.now }
{
    match last_where(syntax, Test::IsA(POST), children) {
        Some(part) => Own::OfPart(part),
        None => of_parts(syntax, children),
    }
}

// A statement has its word, or its expression's token.
fn of_statement(syntax: &Syntax, children: &[u32]) -> Own
    ensures { own_seen result ≡ spec.own_of_statement (source_read syntax.now) children.now }
{
    match children.first() {
        None => Own::First,
        Some(first) => {
            if is_leaf(syntax, *first) {
                Own::First
            } else {
                Own::OfPart(*first)
            }
        }
    }
}

// Whether a node is of a production of operators.
fn is_operators(syntax: &Syntax, node: u32) -> bool
    ensures { result ≡ spec.is_operators (source_read syntax.now) node }
{
    is_a(syntax, EXPRESSION, node)
        || is_a(syntax, ASSIGNMENT, node)
        || is_a(syntax, CONDITIONAL, node)
        || is_a(syntax, LOGICAL_OR, node)
        || is_a(syntax, LOGICAL_AND, node)
        || is_a(syntax, INCLUSIVE_OR, node)
        || is_a(syntax, EXCLUSIVE_OR, node)
        || is_a(syntax, AND, node)
        || is_a(syntax, EQUALITY, node)
        || is_a(syntax, RELATIONAL, node)
        || is_a(syntax, SHIFT, node)
        || is_a(syntax, ADDITIVE, node)
        || is_a(syntax, MULTIPLICATIVE, node)
}

// Where the own token of a node is, if it is neither a declarator nor a member nor a parameter.
fn of_others(syntax: &Syntax, node: u32) -> Own
    ensures { own_seen result ≡ own_of_others (source_read syntax.now) node }
{
    let children = children_of(syntax, node);
    if is_operators(syntax, node) {
        of_operators(children)
    } else if is_a(syntax, PRIMARY, node) {
        of_primary(syntax, children)
    } else if is_a(syntax, CAST, node) {
        of_cast(syntax, children)
    } else if is_a(syntax, UNARY, node) || is_a(syntax, INIT, node) {
        of_parts(syntax, children)
    } else if is_a(syntax, STATEMENT, node) {
        of_statement(syntax, children)
    } else {
        Own::First
    }
}

// Where the own token of a node is.
fn own_of(syntax: &Syntax, node: u32) -> Own
    ensures { own_seen result ≡ spec.own_of (source_read syntax.now) node }
{
    if is_declarator_part(syntax, node) || is_a(syntax, PARAMETER, node) {
        leaf_or_first(name_within(syntax, node))
    } else if is_a(syntax, FIELD, node) {
        of_field(syntax, children_of(syntax, node))
    } else {
        of_others(syntax, node)
    }
}

/// The place of a node's own token: that of an operator, of a declared name, or of what else stands for the node where it is
/// refused.
pub fn own_place(syntax: &Syntax, node: u32) -> Place
    ensures { result ≡ spec.own_place (source_read syntax.now) node }
{
    let mut here = node;
    for _depth in 0..node as usize + 1 {
        match own_of(syntax, here) {
            Own::First => return place_of(syntax, here),
            Own::At(leaf) => return place_of(syntax, leaf),
            Own::OfPart(part) => here = part,
        }
    }
    place_of(syntax, here)
}
